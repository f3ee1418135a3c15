//! Where bytes come from.

ghost use Rattle.std.specs.Prelude.{◌≡◌, ◌≢◌, ℕ, ◌≤◌, List, Option, length, IfOk, IfErr};
ghost use Rattle.std.specs.Io.{ReadsAtMost};
ghost use Rattle.std.specs.Io.KnownBytes.{Consumes, ReadConsumes, IsAtEnd};
ghost use Rattle.ft_io.specs.Causes.{Rose, HasCause, GaveMore, GaveAtMost};

use std::alloc::Global;
use thiserror::Error;

// How many bytes one call asks for.
const PIECE_BYTES: usize = 4_096;

/// A source or a sink failed in this call: its count of faults rose.
#[derive(Clone, Copy, Debug, PartialEq, Eq, Drop, Error)]
#[error("a source or a sink failed")]
pub struct Failed;

/// Where bytes come from.
pub trait Source {
    /// The bytes that are still to come, if the source tells them.
    ghost remaining: { Self → Option (List ℕ) };

    /// How many faults there were. It never falls, and stays at `u64::MAX` once it is there.
    ghost faults: { Self → ℕ };

    /// Puts bytes at the front of `buf` and gives their number. For a non-empty `buf`, 0 is the end
    /// of the input; if the source tells its bytes, it comes exactly when none remain. `Failed`
    /// comes only if the count of faults rose, and then no byte was taken.
    fn read(&mut self, buf: &mut [u8]) -> Result<usize, Failed>
        ensures bound { ReadsAtMost result buf.new }
        ensures bytes { ReadConsumes (remaining self.old) (remaining self.new) result buf.new }
        ensures cause { HasCause (faults self.old) (faults self.new) result };
}

/// Why not all bytes of a source were read. The bytes that were taken before stay taken.
#[derive(Clone, Copy, Debug, PartialEq, Eq, Drop, Error)]
pub enum ReadFail {
    /// The source failed: its count of faults rose in this call.
    #[error("the source failed")]
    Fault,
    /// The source gave more bytes than it may.
    #[error("the source gave too many bytes")]
    TooLong,
    /// Out of memory.
    #[error("out of memory")]
    NoMemory,
}

/// Reads all bytes up to the source's end, at most so many. Each turn takes at least one byte or ends the
/// loop.
pub fn read_all<S: Source>(alloc: Global, source: &mut S, limit: u32) -> Result<Vec<u8>, ReadFail>
    ensures all { IfOk result
        (λ v. Consumes (S.remaining source.old) (S.remaining source.new) v.items
        × IsAtEnd (S.remaining source.new)) }
    ensures short { IfOk result (λ v. length v.items ≤ limit) }
    ensures fault { result ≡ Err ReadFail.Fault → Rose (S.faults source.old) (S.faults source.new) }
    // With `short` and `within`: exactly if one byte more than the limit was given.
    ensures too_long { result ≡ Err ReadFail.TooLong
        → GaveMore limit (S.remaining source.old) (S.remaining source.new) }
    ensures within { IfErr result (λ fail. fail ≢ ReadFail.TooLong
        → GaveAtMost limit (S.remaining source.old) (S.remaining source.new)) }
    ensures faults { S.faults source.old ≤ S.faults source.new }
{
    let limit = limit as usize;
    let mut bytes = Vec::new(alloc);
    let mut piece = [0u8; PIECE_BYTES];
    loop {
        let Ok(n) = source.read(&mut piece) else {
            return Err(ReadFail::Fault);
        };
        if n == 0 {
            return Ok(bytes);
        }
        if n > limit - bytes.len() {
            return Err(ReadFail::TooLong);
        }
        if bytes.extend_from_slice(&piece[..n]).is_err() {
            return Err(ReadFail::NoMemory);
        }
    }
}
