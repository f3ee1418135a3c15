//! The top call between a reader and a writer that move a few bytes a call, fail in one call, and count
//! their calls.

use ft_app::ft_main;
use ft_io::{Gate, OpenGate, StdSink, StdSource};
use std::alloc::Global;
use std::io;
use std::io::{ErrorKind, Read, Write};
use std::sync::Wait;
use std::thread::Threads;

/// How bytes are moved: at most `piece` a call, and the call with this number, from 1, fails. No other
/// call fails, so that one which is made after it is counted. With 0 none fails.
#[derive(Clone, Copy, Debug)]
pub struct Way {
    piece: usize,
    fails: u32,
}

/// So many bytes a call, of which this call fails.
pub fn by((piece, fails): (usize, u32)) -> Way {
    Way { piece, fails }
}

/// A reader of these bytes.
#[derive(Drop)]
pub struct Reader<'a> {
    /// Those that are still to come.
    pub left: &'a [u8],
    /// How often it was asked.
    pub calls: u32,
    way: Way,
}

impl<'a> Reader<'a> {
    pub fn new(bytes: &'a [u8], way: Way) -> Reader<'a> {
        Reader {
            left: bytes,
            calls: 0,
            way,
        }
    }
}

impl Read for Reader<'_> {
    fn read(&mut self, buf: &mut [u8]) -> io::Result<usize> {
        self.calls = self.calls.saturating_add(1);
        if self.calls == self.way.fails {
            return Err(ErrorKind::Other.into());
        }
        let n = self.way.piece.min(buf.len()).min(self.left.len());
        let (given, left) = self.left.split_at(n);
        buf[..n].copy_from_slice(given);
        self.left = left;
        Ok(n)
    }
}

/// A writer that keeps what it has taken.
#[derive(Drop)]
pub struct Writer {
    pub held: Vec<u8>,
    /// How often it was given bytes.
    pub calls: u32,
    way: Way,
}

impl Writer {
    pub fn new(alloc: Global, way: Way) -> Writer {
        Writer {
            held: Vec::new(alloc),
            calls: 0,
            way,
        }
    }
}

impl Write for Writer {
    fn write(&mut self, piece: &[u8]) -> io::Result<usize> {
        self.calls = self.calls.saturating_add(1);
        if self.calls == self.way.fails {
            return Err(ErrorKind::Other.into());
        }
        let n = self.way.piece.min(piece.len());
        self.held.extend_from_slice(&piece[..n])?;
        Ok(n)
    }

    fn flush(&mut self) -> io::Result<()> {
        Ok(())
    }
}

/// A call of the top call that is over, and what became of its ends.
#[derive(Drop)]
pub struct Ended<'a> {
    pub status: u8,
    pub reader: Reader<'a>,
    pub writer: Writer,
}

impl Ended<'_> {
    /// Whether this is its status, and the writer holds these bytes.
    pub fn is(&self, status: u8, held: &[u8]) -> bool {
        self.status == status && self.writer.held.as_slice() == held
    }
}

/// Calls the top call with these words and this gate; the script is read and the text is written in
/// these ways.
pub fn call_under<'a, R: AllocGlobal + Threads + Wait + Sync, G: Gate>(
    rt: &R,
    gate: &G,
    words: &[&str],
    script: &'a [u8],
    from: Way,
    to: Way,
) -> Ended<'a> {
    let alloc = rt.alloc();
    let mut reader = Reader::new(script, from);
    let mut writer = Writer::new(alloc, to);
    let status = ft_main(
        rt,
        alloc,
        words,
        &mut StdSource::new(&mut reader),
        &mut StdSink::new(&mut writer),
        gate,
    );
    Ended {
        status,
        reader,
        writer,
    }
}

/// Calls it with an open gate.
pub fn call_between<'a, R: AllocGlobal + Threads + Wait + Sync>(
    rt: &R,
    words: &[&str],
    script: &'a [u8],
    from: Way,
    to: Way,
) -> Ended<'a> {
    call_under(rt, &OpenGate, words, script, from, to)
}
