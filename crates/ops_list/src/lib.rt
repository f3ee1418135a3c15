//! The list of registered users, which CPUs walk while control changes it: the kernel's
//! `ftrace_ops_list`.
//!
//! The list stands in shared words. A word *names* a user if it holds the user's number plus one, and
//! nobody if it holds 0. The *head* of the list names the user that was registered last, and the
//! *link* of each user names the one that was registered before it. A [`Linker`] puts a user on the
//! list or takes one off it, and a [`Walker`] goes from user to user. Both are *steppers*: `next` is
//! the one operation on a word that comes next, and `got` takes the value that it gave. Nothing keeps
//! walkers out while a linker works: the order of its stores, and the link that it leaves alone, keep
//! the way open for them (RCU).
//!
//! Promised, of each stepper: the operation in each phase, and the phase that follows. Promised, of
//! the list ([`laws`]): a user that is pushed comes in front of the others, and between the two
//! stores the list is as it was; a user that is unlinked is on the list no more, and a walker that
//! stands on it still goes on to the users after it; while the words stay as they are, a walk visits
//! the users of the list, each once and in order. No call takes memory. Only tested: nothing.
#![tactic(auto)]

pub mod laws;
mod linker;
mod walker;

pub use linker::{LinkPhase, Linker};
pub use walker::{WalkPhase, Walker};
