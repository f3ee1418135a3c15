//! What a seat knows. No value of these types is ever made: contracts alone speak of them.

use ft_base::Actor;
use std::collections::LinkedList;

/// An actor, and what it has done.
pub struct Part<K> {
    /// Which actor. Control stands for the one of the first seat.
    pub actor: Actor,
    /// What it has done at the table.
    pub known: K,
}

/// What a seat knows.
pub struct View<J, L, K> {
    /// The job, or what the table needs of one. All seats have the same.
    pub job: J,
    /// What of it the seat's own actor goes by: the first seat may learn more of it step by step.
    pub led: L,
    /// In the first seat, how many CPUs were split off from it; 0 in a CPU's.
    pub split: u32,
    /// The seat's own part, and after it those of the seats that joined it.
    pub parts: LinkedList<Part<K>>,
}
