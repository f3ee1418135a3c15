//! What a script declares of users, tasks and CPUs. A `Spec` is a user's declaration: its *kind*,
//! its flags, and the *act* that it does at each entry callback. A `TaskPlan` is a task's: its pid
//! and its acts. A `CpuPlan` is a CPU's: its quantum and its tasks. Contracts see them as plain
//! records and lists.
//!
//! Promised: whether a user wants a frame of the shadow stack, whether the graph depth holds for it,
//! and `call_bound`, a number by formula. That no scripted call of a legal history has more items
//! than `call_bound` is a law of `history_laws`. A copy of users is of equal users; that the memory
//! for it is found is only tested, in `ft_machine_tests`.
#![tactic(auto)]

mod bound;
mod copy;
mod plan;
mod spec;

pub use bound::call_bound;
pub use copy::copy_specs;
pub use ft_base::{Act, Kind, TaskAct};
pub use plan::{CpuPlan, TaskPlan};
pub use spec::{Spec, has_depth, wants_frame};
