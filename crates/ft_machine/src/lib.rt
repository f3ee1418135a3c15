//! The machine that runs a job (`ft_job`). A *machine* is a job in a state; an *actor* is control or a
//! CPU, and a *step* is what one actor does at one time: a single load, store or *mark*, which counts
//! one item in the clock, of one of the words that all share. A *world* has these words in a list,
//! control and the CPUs. It makes the steps, and hands each item over when it is marked: between two
//! steps the actors' own lists are empty. A *replay* lets the actors of the job's schedule step one
//! after the other. The *history* tells in order what happened.
//!
//! Promised: after any steps a machine's state is that of the word machine, which `word_machine`
//! defines; its history is legal at every moment, and whole once every actor is at its end; each call
//! site is whole; a step takes no memory. A world promises this for every job of which it is the
//! machine, after any items that came before. A replay is a run of a beginning of its schedule's
//! actors, and a *taker* has taken its items, each when it was marked; a history is one. An actor's
//! state is a function of the values that its own steps took, so the actors of a job's world
//! ([`new_world`]) can be taken apart and step at the same time. Out of memory is the only fault.
//!
//! Only tested, in the crate `ft_machine_tests` and by rows that the program is run on: that a job isn't
//! refused for its size, and that memory is found.
#![tactic(auto)]

mod cpus;
mod laws;
mod machine;
mod play;
mod start;
mod table;
mod taker;
mod world;

pub use cpus::{CpuRoom, TaskLimits, calls_of};
pub use laws::{
    a_step_makes_the_next_operation, all_end_if_each_does, each_actor_is_fed_its_values,
    every_interleaving_is_a_schedule, every_replay_is_a_run, sites_of_nobody_are_nops,
};
pub use machine::Machine;
pub use play::{Outcome, replay, replay_into};
pub use start::new_world;
pub use taker::Taker;
pub use world::{World, WorldParts};
