//! Words that are names.

ghost use Rattle.std.specs.Prelude.{◌≡◌};
ghost use Rattle.std.specs.List.{list_all};
ghost use Rattle.std.specs.Option.{option_copied};
ghost use Rattle.ft_base.specs.Name.{is_later_byte};
ghost use Rattle.script_text.specs.Names.{is_name, name_of};

use ft_base::{begins_name, goes_in_name};

/// Whether each of these bytes may come after the first of a name.
fn go_in_name(bytes: &[u8]) -> bool
    ensures { result ≡ list_all is_later_byte bytes.now }
{
    bytes.iter().all(|byte| goes_in_name(*byte))
}

/// Whether a word is a name but for its length.
fn is_name(word: &str) -> bool
    ensures { result ≡ is_name word.now }
{
    match word.as_bytes().split_first() {
        None => false,
        Some((first, rest)) => begins_name(*first) && go_in_name(rest),
    }
}

/// The word, if it is a name: letters, digits, `_` and `.`, of which the first is a letter or `_`.
/// It may have more than [`ft_base::limits::NAME_BYTES`] bytes, since a name that is too long is
/// another fault than a word that is no name.
pub fn name(word: &str) -> Option<&str>
    ensures { option_copied result ≡ name_of word.entry.now }
{
    if is_name(word) { Some(word) } else { None }
}
