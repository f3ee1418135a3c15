//! The text of a log, read back: [`read_log`] is the inverse of what `trace_lines::put_log` and the
//! last line write.
//!
//! A line is read leniently, and the item that it gave is written at its place and compared with the
//! text. So a line is taken exactly as it would be written: nothing here has to look for a space too
//! many, or for a number in another form.
//!
//! Proved: what was read has the text that was given, and its numbers are the job's; and if names and
//! pids differ, a text is refused only at a line that no item of the job has at its place.
#![tactic(auto)]

mod item;
mod lanes;
pub mod laws;
mod line;
mod log;
mod numbers;
mod words;
mod written;

pub use lanes::read_lanes;
pub use log::{Log, ReadFail, read_log};
