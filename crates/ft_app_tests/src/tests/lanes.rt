//! Scripts with lanes. By running threads, the order of the commands is the one in which the lanes took
//! their turns; a gate lets them take these in each order that is a merge of the lanes.

use super::PIECE;
use super::ends::{by, call_under};
use ft_io::Gate;
use std::sync::Wait;
use std::sync::atomic::{AtomicBool, AtomicU64, Ordering};
use std::thread;
use std::thread::Threads;

/// The actor of lane 0; that of lane 1 comes next.
const FIRST_LANE: u32 = 100;

/// The looks after which a lane no longer waits for its turn.
const LOOKS: u32 = 10_000_000;

/// Two tools at one function: one comes and goes, the other stays.
const TWO_TOOLS: &[u8] = b"ftrace 1\nfunc a\nuser t function\nuser s function\n\
    lane 0\nctl register t\nctl unregister t\nlane 1\nctl register s\n";

/// What is traced in the end, in whatever order.
const STAYED: &[u8] = b"a (1)     own s\nend\n";

/// An order of the lanes' turns, and the log.
type Turned = ([u32; 3], &'static [u8]);

/// Each order that is a merge of the lanes. The first is that of the lines.
static TURNED: [Turned; 3] = [
    (
        [0, 0, 1],
        b"0 begin 1 lane 0\n1 return 1 ok\n2 begin 2 lane 0\n3 return 2 ok\n\
        4 begin 3 lane 1\n5 return 3 ok\nend\n",
    ),
    (
        [0, 1, 0],
        b"0 begin 1 lane 0\n1 return 1 ok\n2 begin 2 lane 1\n3 return 2 ok\n\
        4 begin 3 lane 0\n5 return 3 ok\nend\n",
    ),
    (
        [1, 0, 0],
        b"0 begin 1 lane 1\n1 return 1 ok\n2 begin 2 lane 0\n3 return 2 ok\n\
        4 begin 3 lane 0\n5 return 3 ok\nend\n",
    ),
];

/// A gate that lets two lanes take their turns in this order.
#[derive(Drop)]
struct TurnGate {
    order: [u32; 3],
    /// How many passes each lane has come into. It comes into the next one when its turn is over.
    first: AtomicU64,
    second: AtomicU64,
    /// Whether a lane no longer waited.
    gave_up: AtomicBool,
}

impl TurnGate {
    fn new(order: [u32; 3]) -> TurnGate {
        TurnGate {
            order,
            first: AtomicU64::new(0),
            second: AtomicU64::new(0),
            gave_up: AtomicBool::new(false),
        }
    }

    /// How many turns the other lane has before this turn of a lane. None if it isn't one of the order.
    fn turns_before(&self, lane: u32, turn: u64) -> Option<u64> {
        let mut own: u64 = 0;
        let mut others: u64 = 0;
        for next in self.order {
            if next != lane {
                others = others.saturating_add(1);
                continue;
            }
            if own == turn {
                return Some(others);
            }
            own = own.saturating_add(1);
        }
        None
    }

    /// Waits until the other lane has come into more passes than it has turns before.
    fn wait(&self, passes: &AtomicU64, turns: u64) {
        for _ in 0..LOOKS {
            if turns == 0 || passes.load(Ordering::SeqCst) > turns {
                return;
            }
            thread::yield_now();
        }
        self.gave_up.store(true, Ordering::SeqCst);
    }
}

impl Gate for TurnGate {
    fn pass(&self, actor: u32, step: u64) {
        if actor < FIRST_LANE {
            return;
        }
        let lane = actor - FIRST_LANE;
        let (own, other) = if lane == 0 {
            (&self.first, &self.second)
        } else {
            (&self.second, &self.first)
        };
        own.store(step.saturating_add(1), Ordering::SeqCst);
        if let Some(turns) = self.turns_before(lane, step) {
            self.wait(other, turns);
        }
    }
}

/// Whether these words print this text under a gate that lets the lanes take their turns in this order,
/// and both take them so.
fn runs_so<R: AllocGlobal + Threads + Wait + Sync>(
    rt: &R,
    order: [u32; 3],
    words: &[&str],
    text: &[u8],
) -> bool {
    let gate = TurnGate::new(order);
    let whole = by((PIECE, 0));
    let ended = call_under(rt, &gate, words, TWO_TOOLS, whole, whole);
    ended.is(0, text) && !gate.gave_up.load(Ordering::SeqCst)
}

/// What is printed is the history of the script in the order in which the lanes took their turns, and
/// each order comes to the same end.
#[test]
fn prints_the_order_of_turns(rt: HostRuntime) {
    for row in TURNED.iter() {
        assert!(rt; runs_so(&rt, row.0, &["run"], row.1), "{row:?}");
        assert!(rt;
            runs_so(&rt, row.0, &["run", "--print", "enabled"], STAYED),
            "{row:?}"
        );
    }
}
