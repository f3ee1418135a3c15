//! The contexts that a task is in, and one recursion guard for each.
//!
//! A task begins in its normal context. A soft interrupt, an interrupt and an NMI each *raise* it
//! to a higher context, and their returns *lower* it again. A callback takes a level of the *guard*
//! of the context that it runs in, and gives it back at its end. A guard has one level or two. A user
//! whose callback would come while all levels are held is refused, so that callbacks aren't entered
//! from each other without an end, though one may be interrupted by another context's
//! (`ftrace-uses.rst`, Protect your callback).
//!
//! Promised: the guard of a context is refused exactly if all its levels are held, and taking a level
//! or giving it back changes no other guard. No call takes memory. Only tested: nothing.
#![tactic(auto)]

mod by_context;
mod guards;
mod held;
pub mod laws;

pub use guards::Guards;
