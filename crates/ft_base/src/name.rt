//! Names of functions, modules and users.

ghost use Rattle.std.specs.Prelude.{◌≡◌, ◌||◌, ◌&&◌, nat_le};
ghost use Rattle.std.specs.List.{list_all};
ghost use Rattle.ft_base.specs.Name.{is_first_byte, is_later_byte, is_name_text};

use crate::limits::NAME_BYTES;

/// Whether a name may begin with this byte: a letter or `_`.
pub fn begins_name(byte: u8) -> bool
    ensures { result ≡ is_first_byte byte }
{
    byte.is_ascii_alphabetic() || byte == b'_'
}

/// Whether a name may have this byte after the first: a letter, `_`, a digit or `.`.
pub fn goes_in_name(byte: u8) -> bool
    ensures { result ≡ is_later_byte byte }
{
    begins_name(byte) || byte.is_ascii_digit() || byte == b'.'
}

/// Whether each of these bytes may stand in a name after the first.
fn go_in_name(bytes: &[u8]) -> bool
    ensures { result ≡ list_all is_later_byte bytes.now }
{
    bytes.iter().all(|byte| goes_in_name(*byte))
}

/// Whether the text is a name: 1 to 63 letters, digits, `_` and `.`, of which the first is a
/// letter or `_`.
pub fn is_name(text: &str) -> bool
    ensures { result ≡ is_name_text text.now }
{
    match text.as_bytes().split_first() {
        None => false,
        Some((first, rest)) => {
            begins_name(*first) && go_in_name(rest) && rest.len() < NAME_BYTES as usize
        }
    }
}
