//! Numbers in a line. They take no memory.

use ft_io::{Pieces, Sink};
use itoa::Buffer;

/// Puts a number, in decimal.
pub(crate) fn put_decimal<K: Sink>(pieces: &mut Pieces, sink: &mut K, n: u64) {
    let mut buffer = Buffer::new();
    pieces.put(sink, buffer.format(n).as_bytes());
}

/// The digits by value.
const DIGITS: [u8; 16] = *b"0123456789abcdef";

/// Puts a number, in hexadecimal.
pub(crate) fn put_hexadecimal<K: Sink>(pieces: &mut Pieces, sink: &mut K, n: u64) {
    let mut has_begun = false;
    for place in 0..16u32 {
        let digit = (n >> (60 - 4 * place)) % 16;
        // Zeros before the first digit that counts are left out.
        has_begun = has_begun || digit != 0 || place == 15;
        if has_begun {
            pieces.put(sink, &[DIGITS[digit as usize]]);
        }
    }
}
