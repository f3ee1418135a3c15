//! Which tasks are traced for the users that ask for it: the pid filter.
//!
//! There are two lists of tasks. A task is *allowed* if the *pid list* is empty or has it, and the
//! *nopid list* doesn't have it (`ftrace.rst`, The File System: `set_ftrace_pid`,
//! `set_ftrace_notrace_pid`). Outside, a list is a *mask*, a word with a bit for each task; contracts
//! see it as a set of task numbers.
//!
//! Promised: the mask of the filter has the bits of the allowed tasks and no others. No call takes
//! memory. Only tested: nothing.
//!
//! Its one caller is `ft_desk`, which has none itself.
#![tactic(auto)]

pub mod laws;
mod pids;

pub use pids::{Pids, allowed};
