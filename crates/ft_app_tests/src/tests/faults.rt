//! Sources and sinks that fail: a fault is told in the call in which it comes, and nothing more is read
//! or written. No contract says that a fault isn't tried again.

use super::ends::{Way, by, call_between};
use super::{FIRST_PATH, FIRST_PATH_LOG, PIECE};
use std::sync::Wait;
use std::thread::Threads;

/// Ways of the two ends, and the status and the bytes held that they lead to.
type Failing = ((usize, u32), (usize, u32), u8, &'static [u8]);

/// The first path under faults of one end, of both, and of none.
static FAILING: [Failing; 8] = [
    ((4, 2), (PIECE, 0), 4, b""),
    ((4, 2), (1, 1), 4, b""),
    ((PIECE, 1), (PIECE, 1), 4, b""),
    ((PIECE, 0), (8, 2), 5, b"0 begin "),
    ((PIECE, 0), (8, 1), 5, b""),
    ((4, 0), (1, 9), 5, b"0 begin "),
    ((1, 0), (PIECE, 1), 5, b""),
    ((1, 0), (1, 0), 0, FIRST_PATH_LOG),
];

/// Whether the call with this word ends so.
fn fails_so<R: AllocGlobal + Threads + Wait + Sync>(rt: &R, word: &str, row: &Failing) -> bool {
    let (from, to, status, held) = *row;
    call_between(rt, &[word], FIRST_PATH, by(from), by(to)).is(status, held)
}

#[test]
fn failing_ends(rt: HostRuntime) {
    for row in FAILING.iter() {
        assert!(rt; fails_so(&rt, "replay", row), "replay: {row:?}");
        assert!(rt; fails_so(&rt, "run", row), "run: {row:?}");
    }
}

/// Whether the last of so many reads fails: the status is 4, these bytes are left, no more is read, and
/// nothing is written.
fn fails_at_read<R: AllocGlobal + Threads + Wait + Sync>(
    rt: &R,
    from: Way,
    to: Way,
    reads: u32,
    left: &[u8],
) -> bool {
    let ended = call_between(rt, &["replay"], FIRST_PATH, from, to);
    ended.is(4, b"")
        && ended.reader.left == left
        && ended.reader.calls == reads
        && ended.writer.calls == 0
}

/// Each read fails in turn, also the one that would find the end, whatever the sink does. No byte is
/// asked for after the fault, and none is written.
#[test]
fn each_read_fails(rt: HostRuntime) {
    // The script has a hundred bytes.
    for (piece, reads) in [(1, 101), (4, 26), (PIECE, 2)] {
        for done in 0..reads {
            let from = by((piece, done + 1));
            let taken = piece.saturating_mul(done as usize).min(FIRST_PATH.len());
            let left = &FIRST_PATH[taken..];
            assert!(rt;
                fails_at_read(&rt, from, by((1, 0)), done + 1, left),
                "{from:?}"
            );
            assert!(rt;
                fails_at_read(&rt, from, by((PIECE, 0)), done + 1, left),
                "{from:?}"
            );
            assert!(rt;
                fails_at_read(&rt, from, by((PIECE, 1)), done + 1, left),
                "{from:?}"
            );
        }
    }
}

/// Whether the last of so many writes fails: the status is 5, these bytes are held, the script was read
/// to its end, and nothing more is written.
fn fails_at_write<R: AllocGlobal + Threads + Wait + Sync>(
    rt: &R,
    from: Way,
    to: Way,
    writes: u32,
    held: &[u8],
) -> bool {
    let ended = call_between(rt, &["replay"], FIRST_PATH, from, to);
    ended.is(5, held) && ended.writer.calls == writes && ended.reader.left.is_empty()
}

/// Each write fails in turn, however the script is read. It was read to its end, the sink holds what it
/// took before the fault, and is given nothing after it.
#[test]
fn each_write_fails(rt: HostRuntime) {
    // The log has 133 bytes.
    for (piece, writes) in [(1, 133), (8, 17), (PIECE, 1)] {
        for done in 0..writes {
            let to = by((piece, done + 1));
            let taken = piece
                .saturating_mul(done as usize)
                .min(FIRST_PATH_LOG.len());
            let held = &FIRST_PATH_LOG[..taken];
            assert!(rt;
                fails_at_write(&rt, by((1, 0)), to, done + 1, held),
                "{to:?}"
            );
            assert!(rt;
                fails_at_write(&rt, by((4, 0)), to, done + 1, held),
                "{to:?}"
            );
            assert!(rt;
                fails_at_write(&rt, by((PIECE, 0)), to, done + 1, held),
                "{to:?}"
            );
        }
    }
}

/// A word, ways of the two ends, and the status, the bytes held and the calls of each end.
type InOrder = (
    &'static str,
    (usize, u32),
    (usize, u32),
    u8,
    &'static [u8],
    (u32, u32),
);

/// The words come before the reading, and a read fault before the refusal of what was read; a refusal
/// whose line can't be written is a write fault. For other words, and with `bulk`, the source is never
/// asked.
static IN_ORDER: [InOrder; 8] = [
    ("frob", (PIECE, 1), (PIECE, 1), 2, b"", (0, 0)),
    ("replay ", (PIECE, 1), (PIECE, 1), 2, b"", (0, 0)),
    ("replay", (4, 2), (PIECE, 1), 4, b"", (2, 0)),
    ("run", (4, 2), (PIECE, 1), 4, b"", (2, 0)),
    ("replay", (PIECE, 0), (PIECE, 1), 5, b"", (2, 1)),
    ("replay", (PIECE, 0), (8, 2), 5, b"line 1: ", (2, 2)),
    ("run", (PIECE, 0), (8, 2), 5, b"line 1: ", (2, 2)),
    ("bulk", (PIECE, 1), (4, 2), 5, b"seed", (0, 2)),
];

/// Whether the call for a script of another version ends so.
fn answers_so<R: AllocGlobal + Threads + Wait + Sync>(rt: &R, row: &InOrder) -> bool {
    let (word, from, to, status, held, (reads, writes)) = *row;
    let ended = call_between(rt, &[word], b"ftrace 4\n", by(from), by(to));
    ended.is(status, held) && ended.reader.calls == reads && ended.writer.calls == writes
}

#[test]
fn order_of_answers(rt: HostRuntime) {
    for row in IN_ORDER.iter() {
        assert!(rt; answers_so(&rt, row), "{row:?}");
    }
}
