//! The slots of trampolines, and the user that holds each.
//!
//! A user that alone is called at a site can be called by a *trampoline* of its own, without the
//! list caller (`ftrace.rst`, The File System: `enabled_functions`). There are few *slots* for
//! trampolines: a user takes the lowest one that is free, or has none if none is free, and gives it
//! back when it goes.
//!
//! Promised: a user is given the lowest free slot, by the same definition as the desk has; it is
//! refused one exactly if none is free, and then nothing changes; no other slot changes hands. No
//! call takes memory. Only tested: nothing.
//!
//! Its one caller is `ft_desk`, which has none itself.
#![tactic(auto)]

pub mod laws;
mod slots;

pub use slots::Slots;
