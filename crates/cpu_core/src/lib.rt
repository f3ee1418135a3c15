//! A CPU, as a stepper over the shared words: it runs its tasks in turn, which `task_core` has, polls
//! before each act, and keeps the list of what it has marked.
//!
//! Promised: for every job of which it is a CPU, its start, its next operation, what a value makes of
//! it and what it marks are those of the word machine's CPU ([`Cpu`]). What a whole poll comes to, and
//! what its tasks stay, is in [`laws`]. Asked: that each value fits its operation, and that there is room
//! for what a mark adds; the word machine's laws say that both are so. Only [`Cpu::new`] takes memory;
//! that it is found is only tested, by rows that the program is run on.
#![tactic(auto)]

mod cpu;
pub mod laws;
mod marked;
mod parts;
mod tasks;

pub use cpu::Cpu;
