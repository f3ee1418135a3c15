//! A run of a table's seats by threads, with trace rings or without.
//!
//! Promised: [`run_live`] gives back the seats that it was given, in the same order and each at its end,
//! so that the table gathers a whole history from them. It steps them by the table's own steps alone.
//! Without memory it makes no step, and the seats come back as they were. [`run_rings`] starts the table
//! of a job and that of its rings, has each CPU offer each item that it marks to its own ring, and gives
//! a whole history of the job with rings that are legal for it: what the CPUs may have written side by
//! side.
//!
//! Only tested, in `live_tests`: that several threads made the steps. A body that steps all seats on one
//! thread, or makes the rings of the whole history at the end, would meet each clause too. Nothing is
//! said of whether a run ends, nor of how the threads' steps fall; that a thread waits for a seat that is
//! never stepped is kept out by the order in the code alone (`run_all` in src/run.rt).
#![tactic(auto)]

mod ring_rooms;
mod rings;
mod run;

pub use rings::{RingRun, run_rings};
pub use run::run_live;
