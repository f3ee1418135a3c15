//! What a seat knows. No value of these types is ever made: contracts alone speak of them.

use ring_rules::TracePlan;
use std::collections::LinkedList;

/// What a CPU has done at the table.
pub struct Known {
    /// What it has stored into the tracing word last, or how tracing was at first.
    pub own: bool,
    /// How many tickets of each trigger it has drawn.
    pub hits: LinkedList<u64>,
    /// How many of them fired.
    pub fired: LinkedList<u64>,
    /// It has found tracing off though it had switched it on last.
    pub saw_off: bool,
    /// It has found tracing on though it had switched it off last.
    pub saw_on: bool,
}

/// A CPU, and what it has done. Control stands for the seat from which the CPUs' are split off, which
/// does nothing.
pub type Part = dealt_seats::Part<Known>;

/// What a seat knows, of what a job says of rings. Nothing more is told of that later.
pub type View = dealt_seats::View<TracePlan, (), Known>;
