//! Graph and profile users at a call: whether the graph depth lets them in, their frame at the
//! call's entry, and their exits at its return (`ftrace.rst`, function graph tracer).
//!
//! Promised: such a user is kept out of a call exactly if the task's other calls hold all frames
//! that there may be, or as many as the graph depth allows; the call's frame owes an exit to whoever
//! is let in. Only tested: nothing.
#![tactic(auto)]

mod depth;
mod frame;

pub use depth::may_enter;
pub use frame::{enter, exit_next};
