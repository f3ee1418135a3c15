//! Where bytes go.

ghost use Rattle.std.specs.Prelude.{◌≡◌, ℕ, ◌<◌, ◌≤◌, List, Option, length, OnOk, OnErr};
ghost use Rattle.std.specs.Io.{WritesAtMost};
ghost use Rattle.std.specs.Io.KnownBytes.{Appends, WriteAppends};
ghost use Rattle.ft_io.specs.Causes.{Rose, HasCause, AppendsFront};

use crate::source::Failed;
use thiserror::Error;

/// Where bytes go.
pub trait Sink {
    /// The bytes that the sink holds, if it tells them.
    ghost holds: { Self → Option (List ℕ) };

    /// How many faults there were. It never falls, and stays at `u64::MAX` once it is there.
    ghost faults: { Self → ℕ };

    /// Takes bytes from the front of `piece` and gives their number. 0 for a non-empty piece counts
    /// as a fault. `Failed` comes only if the count of faults rose, and then nothing was appended.
    fn write(&mut self, piece: &[u8]) -> Result<usize, Failed>
        ensures bound { WritesAtMost result piece.now }
        ensures bytes { WriteAppends (holds self.old) (holds self.new) result piece.now }
        ensures cause { HasCause (faults self.old) (faults self.new) result }
        ensures stuck { result ≡ Ok 0 → 0 < length piece.now
            → Rose (faults self.old) (faults self.new) };
}

/// Not all bytes were written: the sink's count of faults rose, and a beginning of the bytes was
/// appended.
#[derive(Clone, Copy, Debug, PartialEq, Eq, Drop, Error)]
#[error("the sink failed")]
pub struct WriteFail;

/// Writes all bytes to a sink. It takes no memory.
pub fn write_all<K: Sink>(sink: &mut K, bytes: &[u8]) -> Result<(), WriteFail>
    ensures all { OnOk result (Appends (K.holds sink.old) (K.holds sink.new) bytes.now) }
    ensures front { OnErr result (AppendsFront (K.holds sink.old) (K.holds sink.new) bytes.now) }
    ensures fault { OnErr result (Rose (K.faults sink.old) (K.faults sink.new)) }
    ensures faults { K.faults sink.old ≤ K.faults sink.new }
{
    let mut at = 0;
    while at < bytes.len() {
        let Ok(n) = sink.write(&bytes[at..]) else {
            return Err(WriteFail);
        };
        if n == 0 {
            return Err(WriteFail);
        }
        at += n;
    }
    Ok(())
}
