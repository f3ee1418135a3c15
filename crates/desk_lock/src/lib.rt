//! Lanes that take turns at one value under one lock.
//!
//! In the kernel several tasks register users, take them off and set their filters at the same time.
//! `ftrace_lock`, for a registration inside `direct_mutex`, lets one of them through at a time, and the
//! order in which they get it is the order of what they do. Here a *lane* stands for such a task: it
//! has a number of *items*, which it wants served one after the other. A *turn* of a lane takes the
//! lock, serves the lane's next item at the value, and gives the lock back. A *journal* under the lock
//! has which item of which lane was served, in order.
//!
//! Promised: the journal at the end is a merge of the lanes, with each item once and those of a lane in
//! their order ([`Turns::finish`], [`laws`]), and it is the value's own list of what it has served.
//! Serving changes neither the value's counts nor its name, so the value that comes back has those of
//! the start. A turn is refused exactly if its seat has had all of its turns. Without memory there are
//! no turns, and the value comes back. All memory is taken before the first turn, so none is taken
//! while the lock is held.
//!
//! Only tested, in `threads_tests`: that a turn serves an item. Other threads may change what is
//! under a lock as soon as it is free, so no clause of [`Turns::turn`] tells what it did there. A turn
//! that does nothing would meet each clause, since `finish` serves what is left; the test
//! `the_turns_make_the_order` refuses it, which compares the journal with the order of its turns.
//!
//! [`run_turns`] has each lane take its turns in a thread of its own, which passes a gate before each. Of
//! what it does nothing is promised, since `finish` serves what it leaves.
//!
//! A lane that finds the lock taken looks a hundred times at most, and then sleeps until it is free.
//! Nothing is said of who gets the lock next, nor that a lane gets it at all.
#![tactic(auto)]

mod lane;
pub mod laws;
mod locked;
mod seat;
mod served;
mod threads;
mod turns;

pub use locked::Locked;
pub use seat::LaneSeat;
pub use served::{LaneNames, Served, Served1};
pub use threads::{FIRST_LANE, run_turns};
pub use turns::{Finished, TurnStart, Turns};
