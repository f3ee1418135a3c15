//! When a thread yields its processor.

use std::thread;

/// How many steps a thread makes before it yields, as long as its actor has marked nothing.
///
/// A thread that yields often lets the steps of others fall between its own, and that is what shows the
/// outcomes of a race. But a yield is a call of the system, and beside a busy process on the same
/// processor it costs a turn of that process. docs/DECISIONS.md has what other numbers show, and what
/// they cost.
const FIRST: usize = 7;

/// For each so many items that its actor has marked, a thread makes one step more before it yields.
///
/// So the first calls of a script are made a few steps at a time, and later ones faster. And threads
/// that have marked more and fewer items don't step in turn, as they would if all yielded equally often:
/// that shows more outcomes, too.
const ITEMS: usize = 2;

/// The most steps that a thread makes before it yields. One that waits makes no more of them in vain.
const MOST: usize = 64;

/// How many steps a thread still makes before it yields.
#[derive(Drop)]
pub struct Pace {
    left: usize,
}

impl Pace {
    /// Of a thread that hasn't stepped.
    pub fn new() -> Pace {
        Pace { left: FIRST - 1 }
    }

    /// After a step, when so many items have been marked: yields the processor, if it is time.
    ///
    /// What the thread waits for may need the processor. A wait marks nothing, so a thread that waits
    /// yields as often as it did before.
    pub fn stepped(&mut self, items: usize) {
        if self.left > 0 {
            self.left -= 1;
        } else {
            self.left = (items / ITEMS).saturating_add(FIRST - 1).min(MOST - 1);
            thread::yield_now();
        }
    }
}
