//! A source in memory.

ghost use Rattle.std.specs.Prelude.{◌≡◌, ◌≤◌, length, Some};
ghost use Rattle.std.specs.Io.{ReadsAtMost};
ghost use Rattle.std.specs.Io.KnownBytes.{ReadConsumes};
ghost use Rattle.ft_io.specs.Causes.{HasCause};
ghost use Rattle.ft_io.specs.Calls.{no_calls};
ghost use Rattle.ft_io.specs.Memory.{read_answer, filled, after_read};

use crate::calls::PlannedCalls;
use crate::source::{Failed, Source};
use std::marker::Model;

/// A source in memory, which gives its bytes a few at a time and fails in the calls that it is
/// told.
#[derive(Drop)]
pub struct MemSource {
    bytes: Vec<u8>,
    given: usize,
    give: usize,
    calls: PlannedCalls,
}

impl Model for MemSource {
    ghost use Rattle.std.specs.Prelude.{◌≤◌, length, drop};
    ghost use Rattle.ft_io.specs.Memory.{Giving};

    ghost Value = { Giving };

    ghost view = { λ s. record {
      remaining = drop s.given s.bytes.items;
      give = s.give;
      calls = s.calls;
    } };

    ghost invariant = { λ s. (s.given ≤ length s.bytes.items) × (1 ≤ s.give) };
}

impl MemSource {
    /// A source of these bytes, of which one call gives at most `give`. A call fails, and takes no
    /// byte, exactly if its number, from 1, is in `fails`. Calls after number `u32::MAX` are not
    /// counted and do not fail.
    pub fn new(bytes: Vec<u8>, give: usize, fails: Vec<u32>) -> MemSource
        requires { 1 ≤ give }
        ensures { result ≡ record {
          remaining = bytes.items;
          give = give;
          calls = no_calls fails.items;
        } }
    {
        MemSource {
            bytes,
            given: 0,
            give,
            calls: PlannedCalls::new(fails),
        }
    }

    /// The bytes that are still to come.
    pub fn remaining(&self) -> &[u8]
        ensures { result.now ≡ self.now.remaining }
    {
        &self.bytes[self.given..]
    }
}

impl Source for MemSource {
    ghost remaining = { λ s. Some s.remaining };

    ghost faults = { λ s. s.calls.faults };

    fn read(&mut self, buf: &mut [u8]) -> Result<usize, Failed>
        ensures bound { ReadsAtMost result buf.new }
        ensures bytes { ReadConsumes (Some self.old.remaining) (Some self.new.remaining)
            result buf.new }
        ensures cause { HasCause self.old.calls.faults self.new.calls.faults result }
        ensures answer { result ≡ read_answer self.old (length buf.old) }
        ensures buffer { buf.new ≡ filled self.old buf.old }
        ensures after { self.new ≡ after_read self.old (length buf.old) }
    {
        let fails = self.calls.fails_next();
        self.calls.count(fails);
        if fails {
            return Err(Failed);
        }
        let remaining = &self.bytes[self.given..];
        let n = self.give.min(buf.len()).min(remaining.len());
        buf[..n].copy_from_slice(&remaining[..n]);
        self.given += n;
        Ok(n)
    }
}
