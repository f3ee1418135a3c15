//! Sources and sinks in memory, and the adapters over readers and writers that fail once.

ghost use Rattle.std.specs.Prelude.{◌≤◌};

use ft_base::limits::INPUT_BYTES;
use ft_io::{
    Failed, Gate, MemSink, MemSource, OpenGate, Pieces, ReadFail, Sink, Source, StdSink, StdSource,
    WriteFail, read_all, write_all,
};
use std::alloc::{AllocError, Global};
use std::io;
use std::io::{ErrorKind, Read, Write};
use std::test::Fail;

/// A reader of zeros that fails in one call, and counts its calls.
#[derive(Drop)]
struct Zeros {
    remaining: usize,
    fails: u32,
    calls: u32,
}

impl Zeros {
    /// A reader of this many zeros that fails in the call with this number, from 1, and in no
    /// other.
    fn new(remaining: usize, fails: u32) -> Zeros {
        Zeros {
            remaining,
            fails,
            calls: 0,
        }
    }
}

impl Read for Zeros {
    fn read(&mut self, buf: &mut [u8]) -> io::Result<usize> {
        self.calls = self.calls.saturating_add(1);
        if self.calls == self.fails {
            return Err(ErrorKind::Interrupted.into());
        }
        let n = self.remaining.min(buf.len());
        buf[..n].fill(0);
        self.remaining -= n;
        Ok(n)
    }
}

/// A writer that fails in one call, and keeps what was written, with `!` for each flush.
#[derive(Drop)]
struct Journal {
    text: Vec<u8>,
    fails: u32,
    calls: u32,
}

impl Journal {
    /// An empty journal that fails in the call with this number, from 1, and in no other.
    fn new(alloc: Global, fails: u32) -> Journal {
        Journal {
            text: Vec::new(alloc),
            fails,
            calls: 0,
        }
    }

    fn keep(&mut self, text: &[u8]) -> io::Result<()> {
        self.calls = self.calls.saturating_add(1);
        if self.calls == self.fails {
            return Err(ErrorKind::Interrupted.into());
        }
        self.text.extend_from_slice(text)?;
        Ok(())
    }
}

impl Write for Journal {
    fn write(&mut self, buf: &[u8]) -> io::Result<usize> {
        self.keep(buf)?;
        Ok(buf.len())
    }

    fn flush(&mut self) -> io::Result<()> {
        self.keep(b"!")
    }
}

/// A source of these bytes that gives up to so many at a time, and fails in the calls with these
/// numbers.
fn source(alloc: Global, bytes: &[u8], give: usize, fails: &[u32]) -> Result<MemSource, AllocError>
    requires { 1 ≤ give }
{
    let bytes = bytes.to_vec(alloc)?;
    let fails = fails.to_vec(alloc)?;
    Ok(MemSource::new(bytes, give, fails))
}

/// Whether a source is read to its end, and gives these bytes.
fn is_read<S: Source>(alloc: Global, source: &mut S, bytes: &[u8]) -> bool {
    match read_all(alloc, source, INPUT_BYTES) {
        Ok(read) => read.as_slice() == bytes,
        Err(_) => false,
    }
}

/// How many bytes a source gives when it is read to its end.
fn length_read<S: Source>(alloc: Global, source: &mut S) -> Result<usize, ReadFail> {
    let read = read_all(alloc, source, INPUT_BYTES)?;
    Ok(read.len())
}

#[test]
fn reads_to_the_end_a_byte_at_a_time(rt: HostRuntime) -> Result<(), Fail> {
    let mut source = source(rt.alloc(), b"nop call nop", 1, &[])?;
    assert!(rt; is_read(rt.alloc(), &mut source, b"nop call nop") && source.remaining().is_empty());
    Ok(())
}

/// Whether the second read fails, and later reads give the rest and then nothing.
fn fails_and_goes_on(alloc: Global, source: &mut MemSource) -> bool {
    let mut buffer = [b'-'; 3];
    length_read(alloc, source) == Err(ReadFail::Fault)
        && source.remaining() == b"ef".as_slice()
        && source.read(&mut buffer) == Ok(2)
        && buffer.as_slice() == b"ef-".as_slice()
        && source.read(&mut buffer) == Ok(0)
}

#[test]
fn failing_read(rt: HostRuntime) -> Result<(), Fail> {
    let mut source = source(rt.alloc(), b"abcdef", 4, &[2, 0])?;
    assert!(rt; fails_and_goes_on(rt.alloc(), &mut source));
    Ok(())
}

/// Whether an input of so many bytes is read, or refused for this cause.
fn is_input(
    alloc: Global,
    length: usize,
    want: Result<usize, ReadFail>,
) -> Result<bool, AllocError> {
    let bytes = vec![in alloc; b'#'; length]?;
    let mut source = MemSource::new(bytes, 16_777_217, Vec::new(alloc));
    Ok(length_read(alloc, &mut source) == want)
}

#[test]
fn largest_input(rt: HostRuntime) -> Result<(), Fail> {
    assert!(rt; is_input(rt.alloc(), 16_777_216, Ok(16_777_216))?);
    assert!(rt; is_input(rt.alloc(), 16_777_217, Err(ReadFail::TooLong))?);
    Ok(())
}

/// A sink that takes up to so many bytes at a time, has room for so many, and fails in the calls with
/// these numbers.
fn sink(alloc: Global, take: usize, room: usize, fails: &[u32]) -> Result<MemSink, AllocError>
    requires { 1 ≤ take }
{
    let fails = fails.to_vec(alloc)?;
    MemSink::new(alloc, take, room, fails)
}

/// Whether all of three texts are written, and then none.
fn takes_all(sink: &mut MemSink) -> bool {
    write_all(sink, b"abc").is_ok()
        && write_all(sink, b"").is_ok()
        && write_all(sink, b"de").is_ok()
        && sink.bytes() == b"abcde".as_slice()
        && write_all(sink, b"").is_ok()
}

#[test]
fn writes_all_a_byte_at_a_time(rt: HostRuntime) -> Result<(), Fail> {
    let mut sink = sink(rt.alloc(), 1, 5, &[])?;
    assert!(rt; takes_all(&mut sink));
    Ok(())
}

/// Whether the second write fails, and a later text is written after what the first took.
fn fails_and_takes_more(sink: &mut MemSink) -> bool {
    write_all(sink, b"abcdef") == Err(WriteFail)
        && sink.bytes() == b"ab".as_slice()
        && write_all(sink, b"cd").is_ok()
        && sink.bytes() == b"abcd".as_slice()
}

#[test]
fn failing_write(rt: HostRuntime) -> Result<(), Fail> {
    let mut sink = sink(rt.alloc(), 2, 9, &[2])?;
    assert!(rt; fails_and_takes_more(&mut sink));
    Ok(())
}

/// Whether a text is cut off at the end of the room, after which a byte fails, and none is taken.
fn fills(sink: &mut MemSink) -> bool {
    write_all(sink, b"abcd") == Err(WriteFail)
        && sink.bytes() == b"abc".as_slice()
        && sink.write(b"d") == Err(Failed)
        && sink.write(b"") == Ok(0)
}

#[test]
fn full_room(rt: HostRuntime) -> Result<(), Fail> {
    let mut sink = sink(rt.alloc(), 2, 3, &[])?;
    assert!(rt; fills(&mut sink));
    Ok(())
}

/// Puts 20,000 lines of 7 bytes, which are put after `want` too.
fn put_lines(
    pieces: &mut Pieces,
    sink: &mut MemSink,
    want: &mut Vec<u8>,
) -> Result<(), AllocError> {
    for n in 0..20_000u32 {
        let line: &[u8] = if n % 3 == 0 { b"enter 1" } else { b"leave 2" };
        pieces.put(sink, line);
        want.extend_from_slice(line)?;
    }
    Ok(())
}

/// Puts a text that is longer than a piece and a short one, which are put after `want` too.
fn put_long(pieces: &mut Pieces, sink: &mut MemSink, want: &mut Vec<u8>) -> Result<(), AllocError> {
    let long = [b'#'; 70_000];
    pieces.put(sink, long.as_slice());
    pieces.put(sink, b"end");
    want.extend_from_slice(long.as_slice())?;
    want.extend_from_slice(b"end")
}

/// Whether all of them reach the sink, which after the lines and after the long text has all but what
/// fits into a piece.
fn reach(alloc: Global, sink: &mut MemSink, want: &mut Vec<u8>) -> Result<bool, AllocError> {
    let mut pieces = Pieces::new(alloc)?;
    put_lines(&mut pieces, sink, want)?;
    let lines = sink.bytes().len();
    put_long(&mut pieces, sink, want)?;
    let is_well = lines == 131_068 && sink.bytes().len() == 210_000 && !pieces.has_failed();
    Ok(pieces.finish(sink).is_ok() && is_well)
}

/// Many short puts cross the size of a piece; one is longer than a piece. Of 7 bytes each, 9,362
/// fit into a piece.
#[test]
fn pieces_reach_the_sink(rt: HostRuntime) -> Result<(), Fail> {
    let mut sink = sink(rt.alloc(), 50_000, 300_000, &[])?;
    let mut want = Vec::new(rt.alloc());
    assert!(rt; reach(rt.alloc(), &mut sink, &mut want)?);
    assert!(rt; sink.bytes() == want.as_slice());
    Ok(())
}

/// Puts five texts, each shorter than a piece and longer than half of one.
fn put_five(alloc: Global, pieces: &mut Pieces, sink: &mut MemSink) -> Result<(), AllocError> {
    for byte in [b'a', b'b', b'c', b'd', b'e'] {
        let part = vec![in alloc; byte; 40_000]?;
        pieces.put(sink, part.as_slice());
    }
    Ok(())
}

/// Whether they fail to reach the sink, as is known after the last.
fn fail_to_reach(alloc: Global, sink: &mut MemSink) -> Result<bool, AllocError> {
    let mut pieces = Pieces::new(alloc)?;
    put_five(alloc, &mut pieces, sink)?;
    let is_known = pieces.has_failed();
    Ok(pieces.finish(sink) == Err(WriteFail) && is_known)
}

/// Whether these are the bytes of the first text.
fn are_of_first(bytes: &[u8]) -> bool {
    for byte in bytes.iter() {
        if *byte != b'a' {
            return false;
        }
    }
    bytes.len() == 40_000
}

/// The sink fails at its second piece and would take the third: it gets nothing more.
#[test]
fn a_failed_sink_gets_no_more_pieces(rt: HostRuntime) -> Result<(), Fail> {
    let mut sink = sink(rt.alloc(), 70_000, 300_000, &[2])?;
    assert!(rt; fail_to_reach(rt.alloc(), &mut sink)? && are_of_first(sink.bytes()));
    Ok(())
}

#[test]
fn reads_a_standard_reader(rt: HostRuntime) {
    let input: &[u8] = b"func a\n";
    let mut source = StdSource::new(input);
    assert!(rt; is_read(rt.alloc(), &mut source, b"func a\n"));
}

/// In how many calls all of so many zeros are read.
fn calls_for(alloc: Global, zeros: usize) -> Option<u32> {
    let mut reader = Zeros::new(zeros, 0);
    let read = length_read(alloc, &mut StdSource::new(&mut reader));
    if read == Ok(zeros) {
        Some(reader.calls)
    } else {
        None
    }
}

/// Reads are large: all bytes come in a few calls. After the end nothing more is read.
#[test]
fn asks_a_standard_reader_for_many_bytes(rt: HostRuntime) {
    assert!(rt; calls_for(rt.alloc(), 3) == Some(2));
    assert!(rt; matches!(calls_for(rt.alloc(), 10_000), Some(0..=4)));
}

/// Whether a read that fails in the call with this number ends the reading with that call.
fn ends_reading(alloc: Global, fails: u32) -> bool {
    let mut reader = Zeros::new(3, fails);
    let read = length_read(alloc, &mut StdSource::new(&mut reader));
    read == Err(ReadFail::Fault) && reader.calls == fails
}

/// Whether the first read fails, and the second gives three zeros.
fn reads_after_a_fault() -> bool {
    let mut source = StdSource::new(Zeros::new(3, 1));
    let mut buffer = [b'-'; 4];
    source.read(&mut buffer) == Err(Failed)
        && source.read(&mut buffer) == Ok(3)
        && buffer.as_slice() == b"\0\0\0-".as_slice()
}

/// A failed read is told at once, and isn't tried again.
#[test]
fn tells_the_first_failed_read(rt: HostRuntime) {
    assert!(rt; ends_reading(rt.alloc(), 1));
    assert!(rt; ends_reading(rt.alloc(), 2));
    assert!(rt; reads_after_a_fault());
}

/// Whether two texts are written.
fn writes_two(journal: &mut Journal) -> bool {
    let mut sink = StdSink::new(journal);
    write_all(&mut sink, b"0 begin\n").is_ok() && write_all(&mut sink, b"end\n").is_ok()
}

/// Each piece is written whole, once, and then flushed once.
#[test]
fn flushes_after_each_write(rt: HostRuntime) {
    let mut journal = Journal::new(rt.alloc(), 0);
    assert!(rt; writes_two(&mut journal));
    assert!(rt; journal.text.as_slice() == b"0 begin\n!end\n!".as_slice());
}

/// Whether a write or a flush that fails in the call with this number ends the writing with that call,
/// after this text.
fn ends_writing(alloc: Global, fails: u32, text: &[u8]) -> bool {
    let mut journal = Journal::new(alloc, fails);
    let written = write_all(&mut StdSink::new(&mut journal), b"ab");
    written == Err(WriteFail) && journal.calls == fails && journal.text.as_slice() == text
}

/// Whether the first write fails, and the second takes the text.
fn writes_after_a_fault(journal: &mut Journal) -> bool {
    let mut sink = StdSink::new(journal);
    sink.write(b"ab") == Err(Failed) && sink.write(b"ab") == Ok(2)
}

/// A failed write or flush is told at once, and isn't tried again.
#[test]
fn tells_the_first_failed_write(rt: HostRuntime) {
    assert!(rt; ends_writing(rt.alloc(), 1, b""));
    assert!(rt; ends_writing(rt.alloc(), 2, b"ab"));
    let mut journal = Journal::new(rt.alloc(), 1);
    assert!(rt; writes_after_a_fault(&mut journal));
    assert!(rt; journal.text.as_slice() == b"ab!".as_slice());
}

/// Whether a writer with room for three bytes takes as many of four, and then none.
fn fills_a_writer() -> bool {
    let mut room = [0u8; 3];
    let mut sink = StdSink::new(room.as_mut_slice());
    sink.write(b"abcd") == Ok(3) && write_all(&mut sink, b"d") == Err(WriteFail)
}

#[test]
fn a_full_standard_writer_is_a_fault(rt: HostRuntime) {
    assert!(rt; fills_a_writer());
}

/// The open gate does nothing that a test could see.
#[test]
fn the_open_gate_is_passed(_rt: HostRuntime) {
    OpenGate.pass(0, u64::MAX);
}
