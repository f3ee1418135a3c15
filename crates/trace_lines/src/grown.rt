//! A text that grows in memory, as a sink.

ghost use Rattle.std.specs.Prelude.{◌≡◌, ◌<◌, ◌≤◌, [], length, Some, Ok};
ghost use Rattle.std.specs.Io.{WritesAtMost};
ghost use Rattle.std.specs.Io.KnownBytes.{WriteAppends};
ghost use Rattle.ft_io.specs.Causes.{Rose, HasCause};

use ft_io::{Failed, Sink};
use std::alloc::Global;

/// A text in memory, which takes all bytes, and fails if memory runs out.
#[derive(Drop)]
pub struct GrownText {
    /// Its bytes.
    pub bytes: Vec<u8>,
    faults: u64,
}

impl GrownText {
    /// An empty text.
    pub fn new(alloc: Global) -> GrownText
        ensures { result.bytes.items ≡ [] }
    {
        GrownText {
            bytes: Vec::new(alloc),
            faults: 0,
        }
    }

    /// Its bytes.
    pub fn into_bytes(self) -> Vec<u8>
        ensures { result.items ≡ self.bytes.items }
    {
        self.bytes
    }
}

impl Sink for GrownText {
    ghost holds = { λ s. Some s.bytes.items };

    ghost faults = { λ s. s.faults };

    fn write(&mut self, piece: &[u8]) -> Result<usize, Failed>
        ensures bound { WritesAtMost result piece.now }
        ensures bytes { WriteAppends (Some self.old.bytes.items) (Some self.new.bytes.items)
            result piece.now }
        ensures cause { HasCause self.old.faults self.new.faults result }
        ensures stuck { result ≡ Ok 0 → 0 < length piece.now
            → Rose self.old.faults self.new.faults }
    {
        if self.bytes.extend_from_slice(piece).is_err() {
            self.faults = self.faults.saturating_add(1);
            return Err(Failed);
        }
        Ok(piece.len())
    }
}
