//! The forms of filter texts.

ghost use Rattle.std.specs.Prelude.{◌≡◌, ◌==◌, option_map, IfSome};
ghost use Rattle.std.specs.List.{list_all};
ghost use Rattle.std.specs.Char.{is_ascii_digit};
ghost use Rattle.filter_commands.specs.Forms.{has_colon, is_number, unmarked, module_form, form_of};
ghost use Rattle.filter_commands.specs.Meanings.{form_read, HasDigits};

/// The form of a filter text without its mark.
pub enum TextForm<'a> {
    /// The function of this line. The text is digits, and lines count from 1.
    Line(&'a str),
    /// The functions that match a glob.
    Named(&'a str),
    /// The functions that match a glob and are in a module that matches another one or, negated,
    /// are in no such module.
    InModule {
        glob: &'a str,
        negated: bool,
        owner: &'a str,
    },
}

/// Whether the text begins with a `!`, and the text without it.
pub fn strip_mark(text: &str) -> (bool, &str)
    ensures { (result.0, result.1.now) ≡ unmarked text.entry.now }
{
    match text.strip_prefix('!') {
        Some(rest) => (true, rest),
        None => (false, text),
    }
}

/// Whether each byte is a digit.
fn are_digits(text: &str) -> bool
    ensures { result ≡ list_all is_ascii_digit text.now }
{
    text.bytes().all(|byte| byte.is_ascii_digit())
}

/// Whether the text is digits alone.
pub fn is_number(text: &str) -> bool
    ensures { result ≡ is_number text.now }
{
    !text.is_empty() && are_digits(text)
}

/// Whether the text has a `:`.
fn has_colon(text: &str) -> bool
    ensures { result ≡ has_colon text.now }
{
    text.bytes().any(|byte| byte == b':')
}

/// The form of a text with a `:`, from the glob before its first `:` and what comes after it.
fn read_module_form<'a>(glob: &'a str, after: &'a str) -> Option<TextForm<'a>>
    ensures form { option_map form_read result ≡ module_form glob.entry.now after.entry.now }
    ensures digits { IfSome result HasDigits }
{
    let module = after.strip_prefix("mod:")?;
    if has_colon(module) {
        return None;
    }
    let (negated, owner) = strip_mark(module);
    if owner.is_empty() {
        return None;
    }
    Some(TextForm::InModule {
        glob,
        negated,
        owner,
    })
}

/// The form of a text without its mark. `None` exactly if it has a `:` and isn't GLOB, `:mod:` and
/// MODULE, which is an optional `!` and a glob that isn't empty.
pub fn read_form(text: &str) -> Option<TextForm<'_>>
    ensures form { option_map form_read result ≡ form_of text.entry.now }
    ensures digits { IfSome result HasDigits }
{
    match text.split_once(':') {
        Some((glob, after)) => read_module_form(glob, after),
        None => {
            if is_number(text) {
                Some(TextForm::Line(text))
            } else {
                Some(TextForm::Named(text))
            }
        }
    }
}
