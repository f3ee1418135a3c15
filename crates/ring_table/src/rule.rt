//! The rule of the table, and what its operations and the moves of its seats do to views.

use crate::view::View;
use atomic_table::{Join, Play, Split, TableRule};
use ring_rules::TracePlan;

/// The rule of the table of a plan. It holds between any two operations, whoever makes them.
pub struct Rules;

impl TableRule<(), View, TracePlan> for Rules {
    ghost use Rattle.ring_table.specs.Rule.{RingRule};
    ghost use Rattle.ring_table.specs.Views.{first_view};

    ghost holds = { λ plan t. RingRule plan t };

    ghost first = { λ plan. first_view plan 0 };
}

/// A ticket is drawn: an addition to the word of a trigger, which tells how many were drawn before. The
/// CPU's own are among these.
pub struct Draws;

impl Play<(), View> for Draws {
    ghost use Rattle.std.specs.Prelude.{◌≡◌, ◌≤◌, ◌-◌};
    ghost use Rattle.ring_table.specs.Views.{draws, hits_by};

    ghost then = { λ st m found n. (n ≡ (draws m.0 (st.word - 1) found, m.1)) × (hits_by m.0 (st.word - 1) ≤ found) };
}

/// Tracing is switched: a store into its word.
pub struct Switches;

impl Play<(), View> for Switches {
    ghost use Rattle.std.specs.Prelude.{◌≡◌};
    ghost use Rattle.ring_table.specs.Views.{switches, is_one};

    ghost then = { λ st m stored n. n ≡ (switches m.0 (is_one stored), m.1) };
}

/// Tracing is looked at: a load of its word.
pub struct Looks;

impl Play<(), View> for Looks {
    ghost use Rattle.std.specs.Prelude.{◌≡◌};
    ghost use Rattle.ring_table.specs.Views.{looks, is_one};

    ghost then = { λ st m found n. n ≡ (looks m.0 (is_one found), m.1) };
}

/// The first seat gives the next CPU its seat.
pub struct Deals;

impl Split<View> for Deals {
    ghost use Rattle.ring_table.specs.Views.{dealt};
    ghost use Rattle.dealt_seats.specs.Views.{dealer};

    ghost left = { dealer };

    ghost right = { dealt };
}

/// A seat joins another, which knows afterwards what both knew.
pub struct Gathers;

impl Join<View> for Gathers {
    ghost use Rattle.ring_table.specs.Views.{spent};
    ghost use Rattle.dealt_seats.specs.Views.{joined};

    ghost both = { joined };

    ghost spent = { spent };
}
