//! Trace rings of running threads: one table of shared words, and a seat for each CPU.
//!
//! The words are one for tracing, on or off, and one for each trigger, which counts its *tickets*. A
//! seat is offered the items of its CPU in order ([`RingTable::offer`]). For each item:
//!
//! 1. Each trigger that the item hits is gone through in the order of lines. The CPU draws a ticket of
//!    it by one addition to its word, and the hit fires if the number that stood there is below the
//!    limit. No two CPUs draw the same number. Were the word read and written apart, two could, and a
//!    trigger would fire more often than it may.
//! 2. If the hit fires, the CPU notes the place in its own seat, and then stores on or off into the
//!    tracing word. The ticket comes first: whoever finds the word stored must be able to rely on a
//!    fired hit for it.
//! 3. If the item is an entry callback of a user of kind function, the CPU loads the tracing word, and
//!    writes the place into its own ring if it is on. It may find what another CPU has stored, whenever
//!    that was; so a ring may lack entries or have more only where another CPU has fired.
//!
//! At the end [`RingTable::close`] joins the seats and puts their rings together.
//!
//! Promised: between any two operations of any threads the words and what the CPUs have done keep the
//! table's rule ([`Rules`], `specs/Rule`); and the rings are legal for each history whose items on each
//! CPU are those that were offered to its seat. Offering takes no memory and never waits. Only tested,
//! in `threads_tests`: that memory is found. That two threads offer at the same time isn't told by any
//! contract.
#![tactic(auto)]

mod collected;
mod gather;
mod ring;
mod rule;
mod seats;
mod table;
mod view;

pub use ring::{RingFault, RingStart, RingTable};
pub use rule::{Deals, Draws, Gathers, Looks, Rules, Switches};
pub use seats::RingSeat;
pub use view::{Known, Part, View};
