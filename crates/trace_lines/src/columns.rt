//! What the texts share: numbers, columns, and the last line.

ghost use Rattle.std.specs.Prelude.{◌≡◌, ◌*◌, ◌≤◌};
ghost use Rattle.std.specs.Fmt.{decimal};
ghost use Rattle.ft_io.specs.Pieces.{Puts};
ghost use Rattle.trace_views.specs.Words.{spaces, right_in, zeros_in, last_line};

use ft_io::{Pieces, Sink};
use itoa::write_digits;

/// The most digits that a number of 32 bits has.
const DIGITS_OF_U32: usize = 10;

/// The most digits that a number of 64 bits has.
const DIGITS_OF_U64: usize = 20;

/// What comes before a number in a column: spaces, or zeros.
const SPACES: &[u8] = b"        ";

const ZEROS: &[u8] = b"000";

/// The digits of a number, in decimal.
fn decimal_digits(room: &mut [u8; DIGITS_OF_U32], n: u32) -> &[u8]
    ensures { result.now ≡ decimal n }
{
    let start = write_digits(u64::from(n), room, 10);
    &room[start..]
}

/// Puts a number, in decimal.
// In place: a line of the log has three or four.
#[inline(always)]
pub fn put_number<K: Sink>(pieces: &mut Pieces, sink: &mut K, n: u32)
    ensures { Puts K.holds K.faults (decimal n) sink.old pieces.old sink.new pieces.new }
{
    let mut room = [0; DIGITS_OF_U32];
    pieces.put(sink, decimal_digits(&mut room, n));
}

/// Puts a number of 64 bits, in decimal.
pub(crate) fn put_u64<K: Sink>(pieces: &mut Pieces, sink: &mut K, n: u64)
    ensures { Puts K.holds K.faults (decimal n) sink.old pieces.old sink.new pieces.new }
{
    let mut room = [0; DIGITS_OF_U64];
    let start = write_digits(n, &mut room, DIGITS_OF_U64);
    pieces.put(sink, &room[start..]);
}

/// Puts a number at the right of a column of at most eight, which a longer number exceeds.
pub(crate) fn put_right<K: Sink>(pieces: &mut Pieces, sink: &mut K, width: usize, n: u32)
    requires { width ≤ 8 }
    ensures { Puts K.holds K.faults (right_in width (decimal n))
        sink.old pieces.old sink.new pieces.new }
{
    let mut room = [0; DIGITS_OF_U32];
    let number = decimal_digits(&mut room, n);
    pieces.put(sink, &SPACES[..width.saturating_sub(number.len())]);
    pieces.put(sink, number);
}

/// Puts a number with zeros before it, up to three places.
pub(crate) fn put_three_digits<K: Sink>(pieces: &mut Pieces, sink: &mut K, n: u32)
    ensures { Puts K.holds K.faults (zeros_in 3 (decimal n))
        sink.old pieces.old sink.new pieces.new }
{
    let mut room = [0; DIGITS_OF_U32];
    let number = decimal_digits(&mut room, n);
    pieces.put(sink, &ZEROS[..ZEROS.len().saturating_sub(number.len())]);
    pieces.put(sink, number);
}

/// Puts two spaces for each level.
pub(crate) fn put_indent<K: Sink>(pieces: &mut Pieces, sink: &mut K, level: u32)
    ensures { Puts K.holds K.faults (spaces (2 * level))
        sink.old pieces.old sink.new pieces.new }
{
    for _ in 0..level {
        pieces.put(sink, b"  ");
    }
}

/// The last line, which says whether every actor is at its end.
pub fn last_line(ended: bool) -> &'static str
    ensures { result.now ≡ last_line ended }
{
    if ended { "end\n" } else { "stopped\n" }
}
