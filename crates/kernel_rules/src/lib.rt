//! What kernels keep of the rules, and what a recorder tells of a history: the definitions of the profile
//! `kernel`.
//!
//! `specs/Rules` has the legal histories of the profile. They are those of `ft_hist` but for three clauses,
//! so that each legal history is legal under the profile ([`laws`]). `specs/Recorded` has the logs: a log is
//! legal if it tells such a history, of which it may lack refusals, misses, and what call sites held.
//! `specs/Direct` says the same of the log's lines alone, and `specs/Parts` how many parts a line can keep: a law
//! says that they agree.
#![tactic(auto)]

pub mod laws;
mod line;

pub use line::{ExitOrder, Line};
