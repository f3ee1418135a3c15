//! Scripts that are carried out by running threads.

use super::PIECE;
use super::ends::{by, call_under};
use ft_io::Gate;
use std::sync::Wait;
use std::sync::atomic::{AtomicBool, AtomicU64, Ordering};
use std::thread;
use std::thread::Threads;

/// The actor that carries out the commands, and the one CPU.
const CONTROL: u32 = 0;

const CPU: u32 = 1;

/// The turns after which a hold is given up.
const TURNS: u32 = 10_000_000;

/// A call site is patched while a CPU may fetch it. Its schedule isn't used here.
const PATCHED: &[u8] = b"ftrace 1\nfunc a\nuser tr function\ncpu 0 quantum 100\ntask 10 cpu 0\n\
    call a\nret\nctl register tr\nsched k*9 0*13 all*1000\n";

/// Keeps an actor in its pass with this step until the other one has come into its pass with the
/// step `until`.
#[derive(Clone, Copy)]
struct Hold {
    actor: u32,
    step: u64,
    until: u64,
}

/// A gate that control and the CPU pass, held now and then.
#[derive(Drop)]
struct HoldingGate<'a> {
    holds: &'a [Hold],
    /// How many passes each of the two has come into.
    control: AtomicU64,
    cpu: AtomicU64,
    /// Whether a hold was given up.
    gave_up: AtomicBool,
}

impl<'a> HoldingGate<'a> {
    fn new(holds: &'a [Hold]) -> HoldingGate<'a> {
        HoldingGate {
            holds,
            control: AtomicU64::new(0),
            cpu: AtomicU64::new(0),
            gave_up: AtomicBool::new(false),
        }
    }

    fn keep(&self, hold: &Hold) {
        let others = if hold.actor == CONTROL {
            &self.cpu
        } else {
            &self.control
        };
        for _ in 0..TURNS {
            if others.load(Ordering::SeqCst) > hold.until {
                return;
            }
            thread::yield_now();
        }
        self.gave_up.store(true, Ordering::SeqCst);
    }
}

impl Gate for HoldingGate<'_> {
    fn pass(&self, actor: u32, step: u64) {
        let own = if actor == CONTROL {
            &self.control
        } else {
            &self.cpu
        };
        own.store(step.saturating_add(1), Ordering::SeqCst);
        for hold in self.holds {
            if hold.actor == actor && hold.step == step {
                self.keep(hold);
            }
        }
    }
}

/// Whether the threads of the patched call site have this history under these holds, of which none is
/// given up.
fn runs_so<R: AllocGlobal + Threads + Wait + Sync>(rt: &R, holds: &[Hold], log: &[u8]) -> bool {
    let gate = HoldingGate::new(holds);
    let whole = by((PIECE, 0));
    let ended = call_under(rt, &gate, &["run"], PATCHED, whole, whole);
    ended.is(0, log) && !gate.gave_up.load(Ordering::SeqCst)
}

/// The call is over before the command begins.
static CALL_FIRST: [Hold; 1] = [Hold {
    actor: CONTROL,
    step: 0,
    until: 9,
}];

const CALL_FIRST_LOG: &[u8] = b"0 enter 10.1 normal a -\n1 body 10.1 a nop\n2 leave 10.1\n\
    3 ret 10.1 -\n4 begin 1\n5 return 1 ok\nend\n";

/// The CPU reads the breakpoint.
static BREAKPOINT_FIRST: [Hold; 2] = [
    Hold {
        actor: CPU,
        step: 0,
        until: 9,
    },
    Hold {
        actor: CONTROL,
        step: 9,
        until: 13,
    },
];

const BREAKPOINT_FIRST_LOG: &[u8] = b"0 begin 1\n1 enter 10.1 normal a -\n2 back 10.1 tr\n\
    3 back-end 10.1 tr\n4 body 10.1 a own tr\n5 leave 10.1\n6 ret 10.1 -\n7 return 1 ok\nend\n";

/// The command has begun, and up to this step of control no breakpoint is stored before the call is
/// over.
fn call_within(step: u64) -> [Hold; 2] {
    [
        Hold {
            actor: CPU,
            step: 0,
            until: step,
        },
        Hold {
            actor: CONTROL,
            step,
            until: 9,
        },
    ]
}

const CALL_WITHIN_LOG: &[u8] = b"0 begin 1\n1 enter 10.1 normal a -\n2 body 10.1 a nop\n\
    3 leave 10.1\n4 ret 10.1 -\n5 return 1 ok\nend\n";

/// The text is that of the threads' own history: each gate leaves one, and they differ.
#[test]
fn prints_the_threads_history(rt: HostRuntime) {
    assert!(rt; runs_so(&rt, &CALL_FIRST, CALL_FIRST_LOG));
    assert!(rt; runs_so(&rt, &BREAKPOINT_FIRST, BREAKPOINT_FIRST_LOG));
    for step in 1..9 {
        assert!(rt; runs_so(&rt, &call_within(step), CALL_WITHIN_LOG), "{step}");
    }
}
