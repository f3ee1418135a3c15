//! Running threads: the words of a machine in a table that threads share, and a seat for each actor.
//!
//! A *seat* steps with one actor: control or a CPU. Each step is a single atomic operation on one word
//! of the table, the same that the actor's stepper makes in a replay, with whatever value the word
//! holds at that moment. A seat knows the values that its actor has taken, and nothing else; from these
//! alone follows what its actor is. So the seats may step at the same time, in any order of their
//! operations.
//!
//! Promised: from the start on, between any two operations of any threads, the words and the actors
//! make up a state of the word machine that keeps that machine's rule ([`Rules`], `specs/Rule`), and to
//! which steps of some actors one after the other lead. While no actor has taken a value, as at
//! [`Live::start`], it is the machine's start: all words are the opening ones. A table that
//! [`Live::start_open`] made has control's lines withheld, and [`Live::lead`] leads one at a time, in
//! whatever order: what is promised holds for the job with the lines that were led so far. A step makes exactly the
//! next operation, on what the word holds at one moment at which the rule holds (`specs/Steps`), or
//! answers that there is none. The history that the seats' items make is legal, and whole if each seat
//! is at its end. Steps take no memory and never wait. That two threads step at the same time is only
//! tested.
#![tactic(auto)]

pub mod laws;
mod live;
mod rooms;
mod rule;
mod seats;
mod table;
mod view;

pub use live::{GatherFault, Going, Live, Started};
pub use rule::{Deals, Gathers, Key, Leads, NextLine, Puts, Rules, Takes};
pub use seats::{ControlSeat, CpuSeat};
pub use view::{Part, View};
