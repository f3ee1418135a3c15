//! The conflict of two users that replace functions.
//!
//! At most one user with the flag ipmodify may be registered to a function (`ftrace-uses.rst`, The
//! ftrace FLAGS: `FTRACE_OPS_FL_IPMODIFY`). A *holder* is a user with the set of functions that it
//! replaces. A *conflict* is a function that another user wants, and a holder that has it.
//!
//! Promised: of all conflicts of a set the one at the lowest function, with the first holder that
//! has it, and none exactly if there is none. No call takes memory. Only tested: nothing.
//!
//! Its one caller is `ft_desk`, which has none itself.
#![tactic(auto)]

mod conflicts;
pub mod laws;

pub use conflicts::{Conflict, Holder, check};
