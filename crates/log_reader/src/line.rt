//! The first line of a text, as an item of a log at its place.

ghost use Rattle.std.specs.Prelude.{◌≡◌, ◌≢◌, ℕ, ◌<◌, ◌^◌, ◌++◌, ◌==◌, List, position, IfSome, IfOk, OnOk, Ok, None, Some};
ghost use Rattle.ft_io.specs.Pieces.{nothing};
ghost use Rattle.std.specs.Option.{option_copied};
ghost use Rattle.ft_base.specs.Job.{Job};
ghost use Rattle.ft_base.specs.declared.item.Item.{Item as AnItem};
ghost use Rattle.trace_lines.specs.LogItems.{IsNamedApart};
ghost use Rattle.trace_views.specs.LogText.{log_line};
ghost use Rattle.log_reader.specs.FirstLine.{IsFirstLine};
ghost use Rattle.log_reader.specs.Found.{lookups};
ghost use Rattle.log_reader.specs.Lookups.{AreLookupsOf};
ghost use Rattle.log_reader.specs.Refused.{IsNumbered};

use crate::item::read_item;
use crate::numbers::Numbers;
use crate::written::Written;
use ft_base::{Item, NoMemory};
use trace_views::Named;

/// Where the first line feed is.
pub(crate) fn line_end(text: &[u8]) -> Option<usize>
    ensures { result ≡ position (λ b. b == 10) text.now }
{
    text.iter().position(|byte| *byte == b'\n')
}

/// The first line of a text, without its line feed, if it ends with one and is UTF-8.
fn first_line(text: &[u8]) -> Option<&str>
    ensures { (line : List ℕ) → IsFirstLine line text.entry.now
        → option_copied result ≡ Some line }
{
    let end = line_end(text)?;
    str::from_utf8(&text[..end]).ok()
}

/// The item that the first line of a text says, read leniently.
fn read_first(numbers: &Numbers, text: &[u8]) -> Option<Item>
    ensures numbered { (job : Job) → AreLookupsOf job (lookups numbers.now)
        → IfSome result (IsNumbered job) }
    ensures found { (job : Job) (place : ℕ) (item : AnItem) (more : List ℕ)
        → AreLookupsOf job (lookups numbers.now) → IsNamedApart job → place < 2 ^ 64
        → IsNumbered job item → text.now ≡ log_line job place item ++ more
        → result ≡ Some item }
{
    read_item(numbers, first_line(text)?)
}

/// The item whose line at this place the text begins with, and what comes after the line. `Ok(None)`
/// says that there is none.
pub(crate) fn first_item<'t, N: Named>(
    names: &N,
    numbers: &Numbers,
    written: &mut Written,
    place: u32,
    text: &'t [u8],
) -> Result<Option<(Item, &'t [u8])>, NoMemory>
    requires found { AreLookupsOf (N.job names.now) (lookups numbers.now) }
    requires ready { written.old.pieces ≡ nothing }
    ensures ready { OnOk result (written.new.pieces ≡ nothing) }
    ensures taken { IfOk result (λ r. IfSome r (λ x. IsNumbered (N.job names.now) x.0
        × (text.entry.now ≡ log_line (N.job names.now) place x.0 ++ x.1.now))) }
    ensures refused { result ≡ Ok None → IsNamedApart (N.job names.now)
        → (item : AnItem) (more : List ℕ) → IsNumbered (N.job names.now) item
        → text.entry.now ≢ log_line (N.job names.now) place item ++ more }
{
    let Some(item) = read_first(numbers, text) else {
        return Ok(None);
    };
    written.write(names, place, &item)?;
    match text.strip_prefix(written.line()) {
        Some(rest) => Ok(Some((item, rest))),
        None => Ok(None),
    }
}
