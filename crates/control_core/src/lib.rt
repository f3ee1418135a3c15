//! Control, as a stepper over the shared words: it carries out the lines of a script, and for each
//! command makes the stores and waits that the desk's plan asks for.
//!
//! A *line* is a command or a wait for a task. At a command the desk gives the answer and the plan;
//! [`Control`] then goes through the *phases* that the plan asks for: the trampoline, the user's sets
//! and state, the list, the batch of call sites, the wait for quiet points, the trampoline that is
//! free again. Where one must not come before another, a comment says who could be harmed.
//!
//! All lines are *led* as they stand, unless they are withheld before the first step. Then each is led
//! on its own while control runs ([`Control::lead`]), and control is that of the job with the lines that
//! were led so far: those to come are read by no operation.
//!
//! Promised: for every job whose lines and shape it has, its start, its next operation, what a value
//! makes of it and what it marks are those of the word machine's control. Only [`Control::new`] takes
//! memory; that it is found is only tested. Not promised: that a wait ends.
#![tactic(auto)]

mod control;
mod ops;
mod order;
mod phase;

pub use control::Control;
