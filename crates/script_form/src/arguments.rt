//! Arguments that are one word, or none.

ghost use Rattle.std.specs.Prelude.{◌≡◌, map, option_map};
ghost use Rattle.std.specs.Option.{option_copied};
ghost use Rattle.script_form.specs.Forms.{only_name, only_number, only_word, alone};
ghost use Rattle.script_form.specs.Read.{form_read};

use crate::form::LineForm;
use script_text::{name, number};

/// The name, if the arguments are one name.
pub fn only_name<'a>(args: &[&'a str]) -> Option<&'a str>
    ensures { option_copied result ≡ only_name (map (λ w. w.now) args.now) }
{
    match args {
        [word] => name(word),
        _ => None,
    }
}

/// The number, if the arguments are one number.
pub fn only_number(args: &[&str]) -> Option<u64>
    ensures { result ≡ only_number (map (λ w. w.now) args.now) }
{
    match args {
        [word] => number(word),
        _ => None,
    }
}

/// The argument, if it is the only one.
pub fn only_word<'a>(args: &[&'a str]) -> Option<&'a str>
    ensures { option_copied result ≡ only_word (map (λ w. w.now) args.now) }
{
    match args {
        [word] => Some(*word),
        _ => None,
    }
}

/// The form of a line that is its key alone, if there are no arguments.
pub fn alone<'a>(form: LineForm<'a>, args: &[&str]) -> Option<LineForm<'a>>
    ensures { option_map form_read result ≡ alone (form_read form.entry) (map (λ w. w.now) args.now) }
{
    if args.is_empty() { Some(form) } else { None }
}
