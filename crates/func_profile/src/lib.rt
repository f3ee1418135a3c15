//! The function profile: how often a user was called back in calls of each function, and how long
//! these calls took (`ftrace.rst`, `function_profile_enabled`).
//!
//! The *hits* of a function are the user's entry callbacks in calls of it. Its *time* is the sum over
//! the user's exit callbacks in calls of it of the items since their entry callbacks, so it has the
//! time of the calls within those calls, and none of calls without an exit. The function of a call is
//! that of its Enter.
//!
//! Promised: [`rows`] gives exactly the rows of the functions with a hit, by number, as `specs/Rows`
//! defines them. It asks that each callback of the history is in a call that was entered before, and
//! that each exit comes after its entry. `laws` has that each legal history keeps this, and that the
//! hits add up to all the user's entry callbacks. Only tested, in `vocabulary_tests`: that memory
//! is found.
//!
//! A history is gone through once. A map has the functions of the calls so far, and a [`Table`] the row
//! of each function. What takes the items one by one, and knows the function of each call, keeps a table
//! itself.
#![tactic(auto)]

pub mod laws;
mod profile;
mod table;
mod tally;

pub use profile::{ProfileRow, rows};
pub use table::Table;
