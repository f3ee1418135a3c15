//! The summary of a history: how many items of each kind it has.

ghost use Rattle.std.specs.Prelude.{◌≡◌, ◌++◌, [], List, IfOk, OnOk, string_bytes};
ghost use Rattle.ft_base.specs.declared.item.Item.{Item};
ghost use Rattle.ft_base.specs.Job.{Job as PlainJob};
ghost use Rattle.trace_views.specs.Counted.{AreTotals};
ghost use Rattle.trace_print.specs.Kept.{IsForSummary, IsKeptOf};
ghost use Rattle.trace_print.specs.SummaryText.{number_line, summary_text};

use crate::kept::Kept;
use ft_base::NoMemory;
use ft_hist::History;
use std::alloc::{AllocError, Global};
use std::fmt::Write;
use trace_lines::last_line;
use trace_views::Totals;

/// Adds a line of a word and a number.
fn push_number(text: &mut String, word: &str, n: u32) -> Result<(), AllocError>
    ensures { OnOk result (string_bytes text.new ≡ string_bytes text.old ++ number_line word.now n) }
{
    writeln!(text, "{word} {n}")
}

/// Writes the text into an empty one, or gives the error of an allocation.
fn write_totals(text: &mut String, n: u32, totals: Totals, ended: bool) -> Result<(), AllocError>
    requires { string_bytes text.old ≡ [] }
    ensures { (items : List Item) → AreTotals items totals → OnOk result (string_bytes text.new ≡ summary_text n items ended) }
{
    let counts = totals.counts;
    push_number(text, "seed", n)?;
    push_number(text, "items", totals.items)?;
    push_number(text, "calls", counts.calls)?;
    push_number(text, "backs", counts.backs)?;
    push_number(text, "refused", counts.refused)?;
    push_number(text, "exits", counts.exits)?;
    push_number(text, "missed", counts.missed)?;
    text.push_str(last_line(ended))?;
    Ok(())
}

/// The text, or the error of an allocation.
fn write_summary(alloc: Global, n: u32, totals: Totals, ended: bool) -> Result<String, AllocError>
    ensures { (items : List Item) → AreTotals items totals → IfOk result (λ text. string_bytes text ≡ summary_text n items ended) }
{
    let mut text = String::new(alloc);
    write_totals(&mut text, n, totals, ended)?;
    Ok(text)
}

/// The summary of the history of the script that was generated from a number: that number, how many
/// items there are, how many calls, entry callbacks, refusals, exit callbacks and misses are among
/// them, and `end` if every actor is at its end, else `stopped`.
pub fn summary(alloc: Global, n: u32, history: &History, ended: bool) -> Result<Vec<u8>, NoMemory>
    ensures { IfOk result (λ text. text.items ≡ summary_text n history.now.items ended) }
{
    summary_of(alloc, n, Totals::of(history), ended)
}

/// The same, of what was kept of the history.
pub fn summary_kept(alloc: Global, n: u32, kept: &Kept, ended: bool) -> Result<Vec<u8>, NoMemory>
    requires { IsForSummary kept.now }
    ensures { (job : PlainJob) (items : List Item) → IsKeptOf job items kept.now → IfOk result (λ text. text.items ≡ summary_text n items ended) }
{
    match kept {
        Kept::History(history) => summary(alloc, n, history, ended),
        Kept::Totals(totals) => summary_of(alloc, n, *totals, ended),
        Kept::Graph(_)
        | Kept::NoGraph
        | Kept::Function(_)
        | Kept::Profile(_)
        | Kept::Returned(_)
        | Kept::Nothing
        | Kept::Rings(_) => unreachable!(),
    }
}

/// The text of totals. The error says that memory ran out.
fn summary_of(alloc: Global, n: u32, totals: Totals, ended: bool) -> Result<Vec<u8>, NoMemory>
    ensures { (items : List Item) → AreTotals items totals → IfOk result (λ text. text.items ≡ summary_text n items ended) }
{
    match write_summary(alloc, n, totals, ended) {
        Ok(text) => Ok(text.into_bytes()),
        Err(_) => Err(NoMemory),
    }
}
