//! A source over a reader, and a sink over a writer.

ghost use Rattle.std.specs.Prelude.{◌≡◌, ◌<◌, length, None, Ok, is_err};
ghost use Rattle.std.specs.Io.{ReadsAtMost, WritesAtMost};
ghost use Rattle.std.specs.Io.KnownBytes.{ReadConsumes};
ghost use Rattle.ft_io.specs.Causes.{Rose, HasCause, count_after};
ghost use Rattle.ft_io.specs.Standard.{input_of, output_of, read_faults, write_faults};
ghost use Rattle.ft_io.specs.Standard.{is_fault, PassesOn};

use crate::faults::count_fault;
use crate::sink::Sink;
use crate::source::{Failed, Source};
use std::io::{Read, Write};

/// A source over a reader, as over standard input. Each error of the reader is a fault, also an
/// interrupted call: it is not tried again.
#[derive(Drop)]
pub struct StdSource<I> {
    input: I,
    faults: u64,
}

impl<I: Read> StdSource<I> {
    /// A source over `input`, with no fault so far. It takes no memory.
    pub fn new(input: I) -> StdSource<I>
        ensures input { input_of result ≡ input }
        ensures faults { read_faults result ≡ 0 }
    {
        StdSource { input, faults: 0 }
    }
}

impl<I: Read> Source for StdSource<I> {
    ghost remaining = { λ _. None };

    ghost faults = { read_faults };

    fn read(&mut self, buf: &mut [u8]) -> Result<usize, Failed>
        ensures bound { ReadsAtMost result buf.new }
        ensures cause { HasCause (read_faults self.old) (read_faults self.new) result }
        ensures counted { read_faults self.new
            ≡ count_after (is_err result) (read_faults self.old) }
        ensures input { ReadConsumes (I.remaining (input_of self.old))
            (I.remaining (input_of self.new)) result buf.new }
    {
        let Ok(n) = self.input.read(buf) else {
            count_fault(&mut self.faults);
            return Err(Failed);
        };
        Ok(n)
    }
}

/// A sink over a writer, as over standard output. Each error of the writer is a fault, also an
/// interrupted call, and so is a write that takes nothing of a piece.
///
/// Each write is flushed before it is answered, so that no byte that was taken is held back in the
/// writer. If the flush fails, the write fails, and the writer may have got bytes of the piece.
#[derive(Drop)]
pub struct StdSink<O> {
    output: O,
    faults: u64,
}

impl<O: Write> StdSink<O> {
    /// A sink over `output`, with no fault so far. It takes no memory.
    pub fn new(output: O) -> StdSink<O>
        ensures output { output_of result ≡ output }
        ensures faults { write_faults result ≡ 0 }
    {
        StdSink { output, faults: 0 }
    }
}

impl<O: Write> Sink for StdSink<O> {
    ghost holds = { λ _. None };

    ghost faults = { write_faults };

    fn write(&mut self, piece: &[u8]) -> Result<usize, Failed>
        ensures bound { WritesAtMost result piece.now }
        ensures cause { HasCause (write_faults self.old) (write_faults self.new) result }
        ensures stuck { result ≡ Ok 0 → 0 < length piece.now
            → Rose (write_faults self.old) (write_faults self.new) }
        ensures counted { write_faults self.new
            ≡ count_after (is_fault result piece.now) (write_faults self.old) }
        ensures output { PassesOn (O.contents (output_of self.old))
            (O.contents (output_of self.new)) result piece.now }
    {
        let Ok(n) = self.output.write(piece) else {
            count_fault(&mut self.faults);
            return Err(Failed);
        };
        if self.output.flush().is_err() {
            count_fault(&mut self.faults);
            return Err(Failed);
        }
        if n == 0 && !piece.is_empty() {
            count_fault(&mut self.faults);
        }
        Ok(n)
    }
}
