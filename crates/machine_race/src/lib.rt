//! All outcomes of a job, exactly: its machine as a race, which `state_search` goes through.
//!
//! Promised: [`all_outcomes`] lists outcomes of the job alone, each with a schedule that shows it; and if it isn't cut off, all that
//! schedules of any length have. How a machine's state is written as numbers is asked of the trait [`Coded`], and no crate promises
//! it yet.
#![tactic(auto)]

mod coded;
mod job_race;

pub use coded::Coded;
pub use job_race::all_outcomes;
