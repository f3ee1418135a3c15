//! Words that are numbers.

ghost use Rattle.std.specs.Prelude.{◌≡◌, ◌<◌, ◌^◌, IfSome};
ghost use Rattle.std.specs.List.{list_all};
ghost use Rattle.std.specs.Char.{is_ascii_digit};
ghost use Rattle.script_text.specs.Names.{value_after, is_number, number_of};

/// Whether each of these bytes is a digit.
fn are_digits(bytes: &[u8]) -> bool
    ensures { result ≡ list_all is_ascii_digit bytes.now }
{
    bytes.iter().all(|byte| byte.is_ascii_digit())
}

/// Whether a word is 1 to 10 digits.
fn is_number(bytes: &[u8]) -> bool
    ensures { result ≡ is_number bytes.now }
{
    bytes.len() >= 1 && bytes.len() <= 10 && are_digits(bytes)
}

/// The number that a word writes, if it is 1 to 10 digits: from 0 to 9,999,999,999.
pub fn number(word: &str) -> Option<u64>
    ensures value { result ≡ number_of word.now }
    ensures small { IfSome result (λ n. n < 10 ^ 10) }
{
    let bytes = word.as_bytes();
    if !is_number(bytes) {
        return None;
    }
    let mut value: u64 = 0;
    for byte in bytes {
        value = value * 10 + (*byte - b'0') as u64;
    }
    Some(value)
}
