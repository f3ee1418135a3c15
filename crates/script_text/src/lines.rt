//! The lines of a script: where the first one ends, whether it is skipped, and its text.

ghost use Rattle.std.specs.Prelude.{◌≡◌, ◌<◌, ◌∷◌, not, length, position, find};
ghost use Rattle.std.specs.List.{list_all};
ghost use Rattle.std.specs.Option.{option_copied};
ghost use Rattle.script_text.specs.Lines.{is_feed, is_blank, is_plain_byte, is_plain, lines_of, words_of, is_skipped, plain_text};

/// Where the first line feed is.
fn line_end(text: &[u8]) -> Option<usize>
    ensures { result ≡ position is_feed text.now }
{
    text.iter().position(|byte| *byte == b'\n')
}

/// The first line of a text, without its line feed; whether a line feed ends it; and what comes
/// after it. A text has a line if it has a byte.
pub fn first_line(text: &[u8]) -> (&[u8], bool, &[u8])
    requires { 0 < length text.now }
    ensures cut { lines_of text.entry.now ≡ record { bytes = result.0.now; ended = result.1 } ∷ lines_of result.2.now }
    ensures shorter { length result.2.now < length text.entry.now }
{
    match line_end(text) {
        Some(end) => (&text[..end], true, &text[end + 1..]),
        None => (text, false, &[]),
    }
}

/// Whether a byte is a space or a tab.
pub(crate) fn is_blank(byte: u8) -> bool
    ensures { result ≡ is_blank byte }
{
    byte == b' ' || byte == b'\t'
}

/// The first byte of a line that isn't a blank.
fn first_byte(line: &[u8]) -> Option<u8>
    ensures { result ≡ find (λ b. not (is_blank b)) line.now }
{
    line.iter().copied().find(|byte| !is_blank(*byte))
}

/// Whether a line is skipped: it is blank, or a comment. It takes no memory to tell.
pub fn is_skipped(line: &[u8]) -> bool
    ensures { result ≡ is_skipped (words_of line.now) }
{
    match first_byte(line) {
        Some(first) => first == b'#',
        None => true,
    }
}

/// Whether a plain line may have this byte.
fn is_plain_byte(byte: u8) -> bool
    ensures { result ≡ is_plain_byte byte }
{
    is_blank(byte) || (byte >= 0x21 && byte <= 0x7E)
}

/// Whether a line is plain.
fn is_plain(line: &[u8]) -> bool
    ensures { result ≡ is_plain line.now }
{
    line.iter().all(|byte| is_plain_byte(*byte))
}

/// A line as text, if it is plain: each byte is a space, a tab, or one from 0x21 to 0x7E. `None`
/// if it has any other byte.
pub fn plain_text(line: &[u8]) -> Option<&str>
    ensures { option_copied result ≡ plain_text line.entry.now }
{
    if !is_plain(line) {
        return None;
    }
    // A plain line is ASCII, so this never fails.
    str::from_utf8(line).ok()
}
