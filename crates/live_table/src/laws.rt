//! What the rule of the table says at any moment between two operations. Each function does nothing.

ghost use Rattle.live_table.specs.Laws.{IsAlwaysLegal, IsAlwaysReached, OneSeatEach, UnsplitHaveNotStepped};

/// The words and the actors make up a state that keeps the word machine's rule, and what has happened
/// so far is legal.
pub fn the_history_is_always_legal()
    ensures { IsAlwaysLegal }
{}

/// This state is one to which the word machine comes from its start, by the steps of some actors one
/// after the other: what threads do at the same time, a schedule does as well. While no actor has taken
/// a value it is the start, as that of [`crate::Live::start`] is.
pub fn each_state_is_reached()
    ensures { IsAlwaysReached }
{}

/// No actor stands in two views.
pub fn no_actor_has_two_seats()
    ensures { OneSeatEach }
{}

/// A CPU whose seat was not split off is as at the start.
pub fn unsplit_cpus_have_not_stepped()
    ensures { UnsplitHaveNotStepped }
{}
