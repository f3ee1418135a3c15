//! Which calls may reach code that isn't there.
//!
//! The functions of a *module* are there only while it is *loaded*. Control's commands load and unload modules, and a call may be
//! under way at each moment from one number of commands to another, its *span*: at least so many have returned when it begins, since
//! its task waits for them, and at most so many have begun when it has returned, since control waits for it. A call is *covered* if
//! the module of its function is loaded after each number of commands in its span.
//!
//! `lowest_uncovered` gives the lowest line of a call that isn't covered, if there is one; out of memory is its one error. A law,
//! `uncovered_lines_are_those_of_the_job`, says what the answer means for the job; others, what coverage is for: in every legal history
//! of a job whose calls are covered, each call finds the module of its function loaded. Only tested, by rows that the program is
//! run on: that memory is found when there is some, and that the largest scripts take no long time.
#![tactic(auto)]

mod change;
mod found;
mod history;
mod laws;
mod span;
mod uncovered;
mod until;
mod walk;

pub use change::{Change, are_in_order};
pub use found::{
    bodies_find_their_modules, calls_find_their_modules, modules_that_no_line_names_stay,
};
pub use laws::uncovered_lines_are_those_of_the_job;
pub use uncovered::lowest_uncovered;
