//! A number that is counted up, and its digits.

ghost use Rattle.std.specs.Prelude.{◌≡◌, ◌+◌, ◌<◌, ◌^◌};
ghost use Rattle.std.specs.Fmt.{decimal};
ghost use Rattle.ft_io.specs.Pieces.{Puts};

use ft_io::{Pieces, Sink};
use itoa::write_digits;
use std::marker::Model;

/// The most digits that the number has.
const DIGITS: usize = 10;

/// A number, with its digits in decimal at the front of some bytes. Contracts see the number.
#[derive(Drop)]
pub(crate) struct Decimal {
    number: u32,
    bytes: [u8; 16],
    len: usize,
}

impl Model for Decimal {
    ghost use Rattle.std.specs.Prelude.{◌≡◌, ◌≤◌, ℕ, take};
    ghost use Rattle.std.specs.Fmt.{decimal};

    ghost Value = { ℕ };

    ghost view = { λ d. d.number };

    ghost invariant = { λ d. (d.len ≤ 16) × (take d.len d.bytes ≡ decimal d.number) };
}

impl Decimal {
    /// The number and its digits.
    pub(crate) fn of(number: u32) -> Decimal
        ensures { result ≡ number }
    {
        let mut bytes = [0; 16];
        let start = write_digits(u64::from(number), &mut bytes, DIGITS);
        bytes.copy_within(start..DIGITS, 0);
        Decimal {
            number,
            bytes,
            len: DIGITS - start,
        }
    }

    /// Counts up. Nine times in ten only the last digit changes.
    pub(crate) fn count(&mut self)
        requires { self.old + 1 < 2 ^ 32 }
        ensures { self.new ≡ self.old + 1 }
    {
        let last = self.bytes[self.len - 1];
        if last < b'9' {
            self.bytes[self.len - 1] = last + 1;
            self.number += 1;
        } else {
            *self = Decimal::of(self.number + 1);
        }
    }

    /// Puts the digits.
    pub(crate) fn put<K: Sink>(&self, pieces: &mut Pieces, sink: &mut K)
        ensures { Puts K.holds K.faults (decimal self.now) sink.old pieces.old sink.new pieces.new }
    {
        pieces.put_first(sink, &self.bytes, self.len);
    }
}
