//! The program `ftjudge` but its streams: a script and a log come in, and the verdict on the log goes
//! out.
//!
//! The input has a script, a line `log`, and a log. The script gives a job, the log its items, and the
//! verdict is that of [`history_check::judge`]: whether the log is a whole history of the job, a legal
//! one that isn't whole, or at which line it breaks which part of legality first. If the text before
//! the line isn't a script, or the one after it isn't a log of the script, a line says where.
//!
//! Proved, for every source and sink: each [`Status`] says what was read and written, and comes only for
//! its reason; without a word, and if nothing outside goes wrong, an input gets its reply, unless memory is
//! out. The verdict is that of the definition, for the script and the log that were read, and an input has
//! one reply. A log with status 0 is that of a legal history of its script, and the log of each legal
//! history of a script has status 0 ([`laws`]). Only tested: that memory is found if there is some.
#![tactic(auto)]

mod app;
mod cut;
mod lanes;
pub mod laws;
mod program;
mod reply;

pub use app::{JUDGED_BYTES, judge_input, judge_main};
pub use cut::{Parts, cut_input};
pub use ft_io::Status;
pub use lanes::led_by;
pub use program::run_program;
pub use reply::{Reply, ReplyFail, answer};
