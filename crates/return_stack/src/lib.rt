//! The open calls of a task: its stack of return addresses, and the shadow stack beside it.
//!
//! Each open call has a *return address*, the call that it returns to. A call is *hooked* when a
//! user wants to see its return: the hook replaces the address, and a *frame* of the shadow stack
//! keeps it. The frame also has the users whose exits are owed. At the return the frame gives the
//! true address back (`ftrace.rst`, function graph tracer).
//!
//! Promised: each return reaches its true caller, whatever was hooked; a call is refused a frame
//! exactly if it has none and all are in use, and then nothing changes. Only [`Stacks::new`] takes
//! memory. Only tested, in `steppers_tests`: that memory is found.
#![tactic(auto)]

pub mod laws;
mod shadow;
mod stacks;

pub use shadow::FrameUser;
pub use stacks::{Address, Full, Stacks};
