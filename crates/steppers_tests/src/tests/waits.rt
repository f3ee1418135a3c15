//! `grace_core`: what a poll tells, and waits, with the operations that each makes.
//!
//! The map has two CPUs and three tasks: the request is at place 1, the words of the CPUs at 8 and 9,
//! and those of the tasks at 10, 11 and 12.

use grace_core::{TaskView, Waiter, acknowledged};
use word_map::{Op, Shape, WordMap};

/// One in the high half of a word: an act that is finished.
const ACT: u64 = 0x1_0000_0000;

/// What a task that has ended tells.
const ENDED: u64 = 0xFFFF_FFFF;

/// How many acts a task has finished, whether it is quiet, whether it has an act left, what its word
/// holds, the request that its CPU has loaded, and what the word is to hold then.
static TOLD: [(u32, bool, bool, u64, u32, u64); 10] = [
    // Nothing to tell before the first request.
    (0, true, true, 0, 0, 0),
    // Switched away within its first act.
    (0, false, true, 0, 1, 0),
    // Back between two acts, at the same request.
    (0, true, true, 0, 1, 1),
    (1, true, true, 0, 1, ACT + 1),
    // In its third act it tells what it told last.
    (2, false, true, ACT + 1, 3, 2 * ACT + 1),
    (2, false, true, 2 * ACT + 1, 4, 2 * ACT + 1),
    // It has ended.
    (1, true, false, 1, 3, ACT + ENDED),
    (3, true, false, 2 * ACT + 1, 3, 3 * ACT + ENDED),
    // Then it has nothing more to tell.
    (3, true, false, 3 * ACT + ENDED, 4, 3 * ACT + ENDED),
    (3, false, false, 3 * ACT + ENDED, 5, 3 * ACT + ENDED),
];

/// Request 2 of the CPUs: the first one is looked at twice, and the second has ended.
static SYNC: [(Op, u64); 4] = [
    (Op::Store { word: 1, value: 2 }, 0),
    (Op::Load { word: 8 }, 1),
    (Op::Load { word: 8 }, 2),
    (Op::Load { word: 9 }, u64::MAX),
];

/// Request 2 of the tasks: many acts are no quiet point, and the last task has ended.
static QUIET: [(Op, u64); 5] = [
    (Op::Store { word: 1, value: 2 }, 0),
    (Op::Load { word: 10 }, 5 * ACT + 1),
    (Op::Load { word: 10 }, 5 * ACT + 2),
    (Op::Load { word: 11 }, 3),
    (Op::Load { word: 12 }, 7 * ACT + ENDED),
];

/// Two CPUs and three tasks.
fn map() -> WordMap {
    WordMap::new(Shape {
        funcs: 1,
        users: 1,
        cpus: 2,
        tasks: 3,
        tramps: 1,
    })
}

#[test]
fn a_task_tells_when_it_was_quiet(rt: HostRuntime) {
    for (acts, quiet, left, word, request, told) in &TOLD {
        let task = TaskView {
            acts: *acts,
            quiet: *quiet,
            left: *left,
            word: *word,
        };
        assert!(rt; task.told_word(*request) == *told, "{acts} at {request}");
        assert!(rt;
            task.has_told(*request) == (*word == *told),
            "{acts} at {request}"
        );
    }
}

#[test]
fn a_cpu_acknowledges_what_it_has_loaded(rt: HostRuntime) {
    assert!(rt; acknowledged(true, 0) == 0 && acknowledged(true, 7) == 7);
    // Once its tasks have ended it polls no more.
    assert!(rt; acknowledged(false, 0) == u64::MAX && acknowledged(false, 7) == u64::MAX);
}

/// Whether a wait makes these operations, which give these values, and then is over.
fn makes(mut waiter: Waiter, operations: &[(Op, u64)]) -> bool {
    for (op, value) in operations {
        if waiter.next() != Some(*op) {
            return false;
        }
        waiter.got(*value);
    }
    waiter.next().is_none()
}

#[test]
fn a_wait_looks_until_all_have_reached_it(rt: HostRuntime) {
    assert!(rt; makes(Waiter::sync(2, map()), &SYNC));
    assert!(rt; makes(Waiter::quiet(2, map()), &QUIET));
}
