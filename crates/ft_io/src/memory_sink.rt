//! A sink in memory.

ghost use Rattle.std.specs.Prelude.{◌≡◌, ◌≤◌, ◌<◌, [], length, Some, Ok, IfOk};
ghost use Rattle.std.specs.Io.{WritesAtMost};
ghost use Rattle.std.specs.Io.KnownBytes.{WriteAppends};
ghost use Rattle.ft_io.specs.Causes.{Rose, HasCause};
ghost use Rattle.ft_io.specs.Calls.{no_calls};
ghost use Rattle.ft_io.specs.Memory.{write_answer, after_write};

use crate::calls::PlannedCalls;
use crate::sink::Sink;
use crate::source::Failed;
use std::alloc::{AllocError, Global};
use std::marker::Model;

/// A sink in memory, which takes a few bytes at a time and fails in the calls that it is told, or
/// when it is full.
#[derive(Drop)]
pub struct MemSink {
    held: Vec<u8>,
    portion: usize,
    room: usize,
    calls: PlannedCalls,
}

impl Model for MemSink {
    ghost use Rattle.std.specs.Prelude.{◌≤◌, vec_len, vec_capacity};
    ghost use Rattle.ft_io.specs.Memory.{Holding};

    ghost Value = { Holding };

    ghost view = { λ s. record {
      held = s.held.items;
      portion = s.portion;
      room = s.room;
      calls = s.calls;
    } };

    ghost invariant = { λ s. (vec_len s.held ≤ s.room) × (s.room ≤ vec_capacity s.held)
        × (1 ≤ s.portion) };
}

impl MemSink {
    /// A sink with room for `room` bytes, which are reserved here, of which one call takes at most
    /// `take`. A call fails, and appends nothing, exactly if its number, from 1, is in `fails`, or
    /// if the room is full and the piece is not empty. Calls after number `u32::MAX` are not
    /// counted, and fail only if the room is full. The error is that memory is out.
    pub fn new(
        alloc: Global,
        take: usize,
        room: usize,
        fails: Vec<u32>,
    ) -> Result<MemSink, AllocError>
        requires { 1 ≤ take }
        ensures { IfOk result (λ sink. sink ≡ record {
          held = [];
          portion = take;
          room = room;
          calls = no_calls fails.items;
        }) }
    {
        let held = Vec::with_capacity(alloc, room)?;
        Ok(MemSink {
            held,
            portion: take,
            room,
            calls: PlannedCalls::new(fails),
        })
    }

    /// The bytes that it holds.
    pub fn bytes(&self) -> &[u8]
        ensures { result.now ≡ self.now.held }
    {
        self.held.as_slice()
    }
}

impl Sink for MemSink {
    ghost holds = { λ s. Some s.held };

    ghost faults = { λ s. s.calls.faults };

    fn write(&mut self, piece: &[u8]) -> Result<usize, Failed>
        ensures bound { WritesAtMost result piece.now }
        ensures bytes { WriteAppends (Some self.old.held) (Some self.new.held) result piece.now }
        ensures cause { HasCause self.old.calls.faults self.new.calls.faults result }
        ensures stuck { result ≡ Ok 0 → 0 < length piece.now
            → Rose self.old.calls.faults self.new.calls.faults }
        ensures answer { result ≡ write_answer self.old piece.now }
        ensures after { self.new ≡ after_write self.old piece.now }
    {
        let free = self.room - self.held.len();
        let fails = self.calls.fails_next() || (free == 0 && !piece.is_empty());
        self.calls.count(fails);
        if fails {
            return Err(Failed);
        }
        let n = self.portion.min(piece.len()).min(free);
        // It does not fail: there is room for the bytes.
        let _ = self.held.extend_from_slice(&piece[..n]);
        Ok(n)
    }
}
