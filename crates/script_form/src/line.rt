//! What a line says.

ghost use Rattle.std.specs.Prelude.{◌≡◌, map, option_map, false, true, IfOk, IfErr, IfSome};
ghost use Rattle.script_text.specs.Lines.{words_of, is_plain, is_skipped};
ghost use Rattle.script_form.specs.Lines.{form_of, line_form};
ghost use Rattle.script_form.specs.Names.{IsWellNamed};
ghost use Rattle.script_form.specs.Read.{form_read};

use crate::form::LineForm;
use crate::keyed::read_keyed;
use script_text::{few_words, is_skipped, plain_text, words};
use std::alloc::{AllocError, Global};

/// What a line of these words says, if it has a form.
fn read_words<'a>(alloc: Global, words: &[&'a str]) -> Result<Option<LineForm<'a>>, AllocError>
    ensures { IfOk result (λ r. option_map form_read r ≡ form_of (map (λ w. w.now) words.now)) }
{
    match words.split_first() {
        None => Ok(Some(LineForm::Skip)),
        Some((key, args)) => read_keyed(alloc, key, args),
    }
}

/// What a plain line says, if it has a form.
fn read_text(alloc: Global, text: &str) -> Result<Option<LineForm<'_>>, AllocError>
    requires { is_plain text.now ≡ true }
    ensures { IfOk result (λ r. option_map form_read r ≡ form_of (words_of text.entry.now)) }
{
    // About half of all lines are this one, and most of these are read twice.
    if text == "ret" {
        return Ok(Some(LineForm::Ret));
    }
    if let Some(found) = few_words(text) {
        let few = found.0;
        return read_words(alloc, &few[..found.1]);
    }
    let words = words(alloc, text)?;
    read_words(alloc, words.as_slice())
}

/// What a line says, without its line feed. `Ok(None)` says that it has none of the forms. A line
/// that is skipped takes no memory.
#[tactic(auto, unfolding(crate::specs::Lines::line_form))]
pub fn read_line(alloc: Global, line: &[u8]) -> Result<Option<LineForm<'_>>, AllocError>
    ensures form { IfOk result (λ r. option_map form_read r ≡ line_form line.entry.now) }
    ensures names { IfOk result (λ r. IfSome r (λ form. IsWellNamed (form_read form))) }
    ensures memory { IfErr result (λ _. is_skipped (words_of line.entry.now) ≡ false) }
{
    // Its bytes are free, so it is no text yet.
    if is_skipped(line) {
        return Ok(Some(LineForm::Skip));
    }
    match plain_text(line) {
        Some(text) => read_text(alloc, text),
        None => Ok(None),
    }
}
