//! The trace rings of a history that is there already, as of a replay, in which one step came after the
//! other: it is gone through by place, from the first item to the last.
//!
//! Promised: the rings are exactly those of the definition (`ring_rules`, specs' `Fold`), for any job and
//! any history, and so they are legal; and [`trace_plan`] gives what rings need to know of a job, which
//! `ring_table` takes too. Only tested, in `threads_tests`: that memory is found.
#![tactic(auto)]

mod fold;
mod plan;
mod tracer;

pub use fold::{fold_by, fold_rings};
pub use plan::trace_plan;
