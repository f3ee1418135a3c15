//! A run of several scripts of control under one lock, each in a thread of its own, its *lane*: as in
//! the kernel, where tasks that register and unregister at the same time take `ftrace_lock` in turn,
//! and the order in which they get it settles whose command comes first.
//!
//! Promised: [`run_lanes`] starts the table of a job whose commands belong to lanes, has the lanes take
//! turns, and gives the job with its commands in the order that came of it, a merge of the lanes, with a
//! whole history of that job.
//!
//! Only tested, in `live_tests`: that several threads made the steps and the turns. A body that steps
//! all seats on one thread would meet each clause too. Nothing is said of whether a run ends, nor of how
//! the threads' steps fall; that a thread waits for a seat that is never stepped is kept out by the order
//! in the code alone (`run_beside` in src/run.rt).
#![tactic(auto)]

mod conduct;
mod conductor;
mod control;
mod counts;
mod run;

pub use run::{LaneRun, run_lanes};
