//! A check of finished histories. It knows what a job declares, the desks after its commands and the
//! items of a history, and nothing of the machine that made them; so it judges the history of a
//! machine, of threads, or one that was made up.
//!
//! Promised: [`judge`] says of any list of items exactly whether it is a whole history of the job, or a
//! legal one, or at which item it breaks which part of legality first. [`backs_legal`] says whether it
//! keeps the rules of callbacks and of silence; each legal history keeps them. Out of memory is the only
//! fault.
//!
//! Only tested, in the crate `ft_machine_tests`: that it tells made up histories from legal ones.
#![tactic(auto)]

mod acts;
mod backs;
mod callbacks;
mod desks;
mod frame;
mod judging;
mod laws;
mod numbers;
pub mod open_call;
pub mod past;
pub mod rules;
mod run;
mod take_in;
mod task_past;
pub mod users;
mod verdict;

pub use backs::backs_legal;
pub use judging::judge;
pub use laws::{a_history_has_one_verdict, legal_histories_keep_backs, legality_is_its_parts};
pub use verdict::{Rule, Verdict};
