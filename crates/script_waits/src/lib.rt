//! Whether a script can end.
//!
//! A *task* goes through its acts, and passes an act `After(n)` only once control has passed n commands. *Control* goes
//! through its lines, and passes a wait only once a task has passed n acts. Every other act and line can always be
//! passed. Whoever can go on does. When nobody can, either all are at their ends, or the script can never end, and the
//! lowest line at which someone waits is reported.
//!
//! `deadlock` gives exactly that line; out of memory is its one error. Two laws say what the definition means:
//! `deadlock_is_one`, that each script has exactly one answer, whatever the order in which they go, and
//! `whoever_is_left_waits`, that who isn't at an end is at a wait that isn't met. Only tested, in `scripts_tests`:
//! that memory is found when there is some.
#![tactic(auto)]

mod ending;
mod progress;
mod script;
mod waiting;

pub use ending::{deadlock, deadlock_is_one, whoever_is_left_waits};
pub use script::{ControlLine, LinedAct, LinedTask, Wait};
pub use waiting::lower;
