//! Whether an act is the last of its task.

ghost use Rattle.std.specs.Prelude.{◌≡◌, IfOk, Bool, option_map, unwrap_or};
ghost use Rattle.script_text.specs.Lines.{lines_of};
ghost use Rattle.script_form.specs.Lines.{line_form};
ghost use Rattle.script_form.specs.Read.{form_read};
ghost use Rattle.ft_script.specs.Causes.{is_last, is_last_by};

use crate::form::is_act;
use script_form::{LineForm, read_line};
use script_text::first_line;
use std::alloc::{AllocError, Global};

/// What a line says of the act above it: that it is its task's last, that it isn't, or nothing.
fn decides(form: &Option<LineForm>) -> Option<bool>
    ensures { (below : Bool) → is_last_by (option_map form_read form.now) below ≡ unwrap_or result below }
{
    match form {
        Some(LineForm::NewTask { .. }) => Some(true),
        Some(other) => { if is_act(other) { Some(false) } else { None } }
        None => None,
    }
}

/// What a line of the script says of the act above it.
fn line_decides(alloc: Global, line: &[u8]) -> Result<Option<bool>, AllocError>
    ensures { IfOk result (λ said. (below : Bool) → is_last_by (line_form line.now) below ≡ unwrap_or said below) }
{
    let form = read_line(alloc, line)?;
    Ok(decides(&form))
}

/// Whether no act of the same task comes below. This reads the lines down to the next act or task. It
/// is asked of acts alone, so that each line is read at most twice.
pub fn is_last(alloc: Global, below: &[u8]) -> Result<bool, AllocError>
    ensures { IfOk result (λ b. b ≡ is_last (lines_of below.now)) }
{
    let mut rest = below;
    while !rest.is_empty() {
        let (line, _, later) = first_line(rest);
        if let Some(last) = line_decides(alloc, line)? {
            return Ok(last);
        }
        rest = later;
    }
    Ok(true)
}
