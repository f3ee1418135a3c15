//! Fprobes at the entry of a call: the exit is set up, cancelled by the entry handler, or missed
//! because no frame is left (`fprobe.rst`).
//!
//! Promised: an exit is missed exactly if the fprobe has one and the call is refused a frame, and
//! then the stacks are as before. Only tested: nothing.
#![tactic(auto)]

mod entry;

pub use entry::{Probe, probe_entry};
