//! A *job*: what a script declares. It has the functions, the users, the CPUs with their tasks, the lines
//! of control and the schedule, each within the limits of scripts. The machine of a job, a replay of its
//! schedule and a run of its threads stand above (`ft_machine`, `live_table`), and so do the texts that
//! name its functions.
//!
//! Promised: a job is what its parts say, and each call tells a part of it; [`Job::desk`] is the desk
//! after the first commands; [`Job::in_order`] is the job with its lines in another order. Out of memory
//! is the only fault.
#![tactic(auto)]

mod find;
mod job;
mod order;
mod parts;

pub use filter_commands::Trigger;
pub use ft_desk::{Command, Ctl};
pub use job::Job;
pub use parts::{JobParts, ModRow};
