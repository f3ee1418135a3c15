//! Grace periods over the words of a `word_map::WordMap`: what a CPU's *poll* tells of the CPU and of its
//! tasks, and the *wait* by which control learns it.
//!
//! Control numbers its *requests*. A CPU *acknowledges* a request once it has loaded it: a `sync` waits
//! for that. A task is *quiet* between two acts; its CPU tells at which request it was last quiet: a
//! wait for *quiet points* waits for that (the kernel's `synchronize_rcu_tasks`). A task that is
//! switched away within a call isn't quiet, though its CPU goes on acknowledging.
//!
//! A CPU polls by itself (`cpu_core`): it loads the last request, and stores its own word and the word of
//! each of its tasks if they change. What they are to hold is said here. A [`Waiter`] is a *stepper*: it
//! is asked for its next operation (`next`), and is given the value that the operation gave (`got`). At
//! its end `next` is `None`.
//!
//! Promised: what is told, and each operation of a wait and what each value makes of it, exactly. A wait
//! that is over has found the request reached by each CPU or task that it is for ([`laws`]). Not
//! promised: that a request is ever reached. No call takes memory. Only tested: nothing.
#![tactic(auto)]

pub mod laws;
mod view;
mod waiter;

pub use view::{TaskView, acknowledged};
pub use waiter::{WaitPhase, Waiter};
