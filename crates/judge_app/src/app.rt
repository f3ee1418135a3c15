//! The call over any source and sink.

ghost use Rattle.std.specs.Prelude.{◌≢◌};
ghost use Rattle.judge_app.specs.Ends.{Ends, EndsWith};

use crate::reply::{Reply, ReplyFail, answer};
use ft_io::{ReadFail, Sink, Source, Status, read_all, write_all};
use std::alloc::Global;

/// The most bytes of an input, 1 GiB: a script has 16 MiB at most, and a log about 40 bytes for each of
/// its items.
pub const JUDGED_BYTES: u32 = 1_073_741_824;

/// Reads the input from the source, and writes the verdict on its log, or the line that says where the
/// input is refused and why, to the sink. The steps come in this order: read, reply, write; all memory is
/// had before the first byte is written. The status is never [`Status::Language`].
pub fn judge_input<S: Source, K: Sink>(alloc: Global, source: &mut S, sink: &mut K) -> Status
    ensures ends { Ends S.remaining S.faults K.holds K.faults 0 result source.old source.new sink.old sink.new }
    ensures spoken { result ≢ Status.Language }
{
    let input = match read_all(alloc, source, JUDGED_BYTES) {
        Ok(input) => input,
        Err(ReadFail::Fault) => return Status::ReadFault,
        Err(ReadFail::TooLong) => return Status::TooLong,
        Err(ReadFail::NoMemory) => return Status::NoMemory,
    };
    let Reply { status, text } = match answer(alloc, &input) {
        Ok(reply) => reply,
        Err(ReplyFail::TooLong) => return Status::TooLong,
        Err(ReplyFail::NoMemory) => return Status::NoMemory,
    };
    match write_all(sink, &text) {
        Ok(()) => status,
        Err(_) => Status::WriteFault,
    }
}

/// The top call: judges the input if there are no words after the program's name, and otherwise reads and
/// writes nothing. It gives the number of its [`Status`], which is that of [`Status::Language`] exactly if
/// there is a word.
pub fn judge_main<S: Source, K: Sink>(
    alloc: Global,
    words: usize,
    source: &mut S,
    sink: &mut K,
) -> u8
    ensures { EndsWith S.remaining S.faults K.holds K.faults words result source.old source.new sink.old sink.new }
{
    if words > 0 {
        return Status::Language.code();
    }
    judge_input(alloc, source, sink).code()
}
