//! A gate at which actors meet.

use ft_io::Gate;
use std::sync::atomic::{AtomicBool, AtomicU32, Ordering};
use std::thread;

/// How often an actor looks for the others before it gives up.
const TURNS: u32 = 10_000_000;

/// Holds some actors in one of their passes until all of them have come into it. On one thread no two
/// of them are ever in a pass at once, and the first gives up.
///
/// Relaxed is enough for both words: no other memory hangs on them, and each is read again when the
/// threads have been joined.
#[derive(Drop)]
pub struct Meeting {
    /// The first of the actors, whose numbers follow one another.
    first: u32,
    actors: u32,
    /// The pass, by the number of steps before it.
    step: u64,
    came: AtomicU32,
    failed: AtomicBool,
}

impl Meeting {
    /// Of control and the first two CPUs, in their passes with step 5. Nobody has come yet.
    pub fn of_three() -> Meeting {
        Meeting::new(0, 3, 5)
    }

    /// Of the lanes 0 and 1, in their passes with step 0. Nobody has come yet.
    pub fn of_lanes() -> Meeting {
        Meeting::new(100, 2, 0)
    }

    fn new(first: u32, actors: u32, step: u64) -> Meeting {
        Meeting {
            first,
            actors,
            step,
            came: AtomicU32::new(0),
            failed: AtomicBool::new(false),
        }
    }

    /// How many have come.
    pub fn came(&self) -> u32 {
        self.came.load(Ordering::Relaxed)
    }

    /// Whether one gave up.
    pub fn failed(&self) -> bool {
        self.failed.load(Ordering::Relaxed)
    }
}

impl Gate for Meeting {
    fn pass(&self, actor: u32, step: u64) {
        let is_one = actor >= self.first && actor - self.first < self.actors;
        if !is_one || step != self.step {
            return;
        }
        self.came.fetch_add(1, Ordering::Relaxed);
        for _ in 0..TURNS {
            if self.came() >= self.actors {
                return;
            }
            thread::yield_now();
        }
        self.failed.store(true, Ordering::Relaxed);
    }
}
