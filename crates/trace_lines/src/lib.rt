//! How the lines of a text are put into a sink, piece by piece: those of the log, one an item by
//! place, and those of the views, which `trace_views` works out and whose texts it defines.
//!
//! Promised: [`put_log`] and [`put_lines`] put exactly the texts of their lines, and take no memory:
//! what was written can't be taken back if memory runs out. The text of the log tells its history, if
//! names and pids differ and items have numbers of the job ([`laws`]). A [`GrownText`] is a sink in
//! memory.
#![tactic(auto)]

mod calls;
mod columns;
mod decimal;
mod enabled;
mod function;
mod graph;
mod grown;
pub mod laws;
mod lines;
mod log;
mod modules;
mod profile;
mod rings;

pub use calls::CallTexts;
pub use columns::{last_line, put_number};
pub use grown::GrownText;
pub use lines::{Line, put_lines};
pub use log::{context_name, put_call, put_line, put_log, reason_name};
