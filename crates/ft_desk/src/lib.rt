//! The desk of the tracer: all users with their sets, trampolines and lists. Control asks it what a
//! *command* answers; if the command is accepted, the desk changes, and its *plan* says what is to be
//! stored in the words that control and the CPUs share, and which call sites change.
//!
//! Promised: the answer is that of the definition, and so is the desk after it; a refused command
//! changes nothing. The plan has the values that an accepted command stores, each by its definition,
//! and names exactly the sites whose instruction changes. [`Desk::ran`] is what a call of a function
//! runs. Only [`Desk::new`] and the copies take memory; that it is found is only tested.
#![tactic(auto)]

mod command;
mod desk;
pub mod laws;
mod plan;
mod roster;
mod sites;
mod user;

pub use command::{Command, Ctl};
pub use desk::Desk;
pub use plan::{ListChange, Plan, TrampChange};
pub use word_map::Shape;
