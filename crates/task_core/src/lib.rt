//! A task of a CPU, as a stepper over the shared words: it runs its acts, and dispatches calls to the
//! users that are on.
//!
//! An *act* of a task is one line of its script. A call is *entered*, its call site is *fetched* by
//! two loads, and its *dispatch* calls users back: those of the list that are on, or the one whose
//! trampoline the site calls. Then its *body* runs, and at its *return* the users of its frame get
//! their exit callbacks. Between two operations a task stands at a *moment*.
//!
//! Promised: its next operation, what a value makes of it, and which item it marks (`specs/TaskOps`,
//! `specs/TaskSteps`). That these are the word machine's, for every job of which it is a task, is proved
//! in `proofs/RowOps`, `proofs/Rows` and `proofs/Stays`, and said of the whole CPU in `cpu_core`, whose
//! proofs also show that each value fits its operation, which is asked here. When a task runs, and when
//! it is polled, its CPU decides. Only [`Setup::new`] and [`Task::new`] take memory; that it is found is
//! only tested, by rows that the program is run on.
#![tactic(auto)]

mod acts;
mod dispatch;
mod exits;
mod moment;
mod open_call;
mod setup;
mod task;

pub use setup::Setup;
pub use task::Task;
