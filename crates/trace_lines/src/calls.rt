//! The texts of calls, which are kept while their items come: a call has six items or more.

ghost use Rattle.std.specs.Prelude.{◌≡◌, ◌<◌, ◌^◌, ◌++◌, codes};
ghost use Rattle.std.specs.Fmt.{decimal};
ghost use Rattle.ft_io.specs.Pieces.{Puts};
ghost use Rattle.trace_lines.specs.CallTexts.{IsText};

use crate::columns::put_number;
use ft_base::CallNo;
use ft_io::{Pieces, Sink};
use itoa::write_digits;
use std::marker::Model;

/// How many bytes the text of a call has at most, if it is kept.
const BYTES: usize = 16;

/// Pids and numbers from these on have too many digits.
const PIDS: u32 = 10_000_000;

const NUMBERS: u32 = 100_000_000;

/// How many texts are kept.
const SLOTS: usize = 64;

/// A call's text at the front of some bytes: the pid of its task, a dot and its number.
#[derive(Clone, Copy)]
struct CallText {
    pid: u32,
    n: u32,
    bytes: [u8; BYTES],
    len: usize,
}

impl CallText {
    /// The text of a call.
    fn of(pid: u32, n: u32) -> CallText
        requires { (pid < 10 ^ 7) × (n < 10 ^ 8) }
        ensures text { IsText result }
        ensures pid { result.pid ≡ pid }
        ensures n { result.n ≡ n }
    {
        let mut bytes = [b'0'; BYTES];
        let dot = write_digits(u64::from(n), &mut bytes, BYTES) - 1;
        bytes[dot] = b'.';
        let start = write_digits(u64::from(pid), &mut bytes, dot);
        bytes.copy_within(start..BYTES, 0);
        CallText {
            pid,
            n,
            bytes,
            len: BYTES - start,
        }
    }
}

/// The texts of the calls that came last. Contracts see nothing of them, since what is put is the same.
#[derive(Drop)]
pub struct CallTexts {
    texts: [CallText; SLOTS],
}

impl Model for CallTexts {
    ghost use Rattle.std.specs.List.{All};
    ghost use Rattle.trace_lines.specs.CallTexts.{IsText};

    ghost Value = { Unit {0} };

    ghost view = { λ t. tt };

    ghost invariant = { λ t. All IsText t.texts };
}

impl CallTexts {
    /// No call has come.
    pub fn new() -> CallTexts {
        CallTexts {
            texts: [CallText::of(0, 0); SLOTS],
        }
    }

    /// Puts a call, of whose task this is the pid.
    // In place: nearly each line of the log has one.
    #[inline(always)]
    pub(crate) fn put<K: Sink>(&mut self, pieces: &mut Pieces, sink: &mut K, pid: u32, call: CallNo)
        ensures { Puts K.holds K.faults (decimal pid ++ (codes "." ++ decimal call.n))
            sink.old pieces.old sink.new pieces.new }
    {
        // The calls of a task that are open at once, and those of the tasks that run, have slots of their own.
        let slot = (call.task.0 % 8 * 8 + call.n % 8) as usize;
        let text = &self.texts[slot];
        if text.pid == pid && text.n == call.n {
            pieces.put_first(sink, &text.bytes, text.len);
        } else {
            self.put_new(pieces, sink, slot, pid, call.n);
        }
    }

    /// Puts a call whose text isn't in its slot, and keeps it there if it is short.
    #[inline(never)]
    fn put_new<K: Sink>(&mut self, pieces: &mut Pieces, sink: &mut K, slot: usize, pid: u32, n: u32)
        requires { slot < SLOTS }
        ensures { Puts K.holds K.faults (decimal pid ++ (codes "." ++ decimal n))
            sink.old pieces.old sink.new pieces.new }
    {
        if pid < PIDS && n < NUMBERS {
            let text = CallText::of(pid, n);
            pieces.put_first(sink, &text.bytes, text.len);
            self.texts[slot] = text;
        } else {
            put_number(pieces, sink, pid);
            pieces.put(sink, b".");
            put_number(pieces, sink, n);
        }
    }
}
