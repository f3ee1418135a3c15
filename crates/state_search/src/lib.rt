//! All outcomes of a race, exactly. A race is known by the trait [`Race`] alone: actors make steps in the order that a schedule says.
//! [`explore`] goes through all states, and keeps each that it comes to by a key that says all of it.
//!
//! Promised: each outcome that is listed is shown by the schedule beside it; and if the search wasn't cut off, each outcome of each
//! schedule, of any length, is listed, once. Not promised: that it isn't cut off where there are no more states than it may go on from,
//! and that a schedule is short. Only tested, in `state_search_tests`: that memory is found, and that a search is whole.
//!
//! A state is kept as its key and its last step: the place of the state before it, and the actor ([`States`](states)). The machine is
//! played again from the start for each step, so it needs no copies.
#![tactic(auto)]

mod key_table;
mod race;
mod search;
mod states;

pub use key_table::KeyTable;
pub use race::Race;
pub use search::{Found, explore};
