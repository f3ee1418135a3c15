//! The rule of the table, and what its operations and the moves of its seats do to views.

use crate::view::View;
use atomic_table::{Join, Play, Split, TableRule};
use ft_job::Job;
use std::marker::{Brand, PhantomData};
use std::snapshot::Snapshot;

/// What a table is of.
#[derive(Drop)]
pub struct Key {
    /// The job, for contracts alone.
    pub job: Snapshot<Job>,
    /// Whether control's lines are withheld, and led one by one; else all are led at the start.
    pub withheld: bool,
}

/// The rule of the table of a job. It holds between any two operations, whoever makes them.
pub struct Rules;

impl TableRule<(), View, Key> for Rules {
    ghost use Rattle.std.specs.Prelude.{[]};
    ghost use Rattle.live_table.specs.Rule.{LiveRule};
    ghost use Rattle.live_table.specs.Views.{control_view, led_first};

    ghost holds = { λ key t. LiveRule key.job.value t };

    ghost first = { λ key. control_view key.job.value (led_first key.job.value key.withheld) 0 [] };
}

/// A load or a mark: the seat's actor takes what the word held at that moment. A mark adds to it.
pub struct Takes;

impl Play<(), View> for Takes {
    ghost use Rattle.std.specs.Prelude.{◌+◌, ◌%◌, ◌^◌, None};
    ghost use Rattle.live_table.specs.AtomicSteps.{MakesStep};

    ghost then = { λ st m found n. MakesStep None st.word found ((found + st.first) % 2 ^ 64) found m n };
}

/// A store: the seat's actor takes 0.
pub struct Puts;

impl Play<(), View> for Puts {
    ghost use Rattle.std.specs.Prelude.{ℕ, None};
    ghost use Rattle.live_table.specs.AtomicSteps.{MakesStep};

    ghost then = { λ st m stored n. (found : ℕ) × MakesStep None st.word found stored 0 m n };
}

/// Names the line that is led: a play has no argument, so its type says it.
pub trait NextLine {
    ghost use Rattle.std.specs.Prelude.{ℕ};

    /// Its number.
    ghost line: { ℕ };
}

impl NextLine for Brand {
    ghost line = { 0 };
}

/// The mark of a command's Begin, with which its line is led.
pub struct Leads<N: NextLine> {
    of: PhantomData<N>,
}

impl<N: NextLine> Play<(), View> for Leads<N> {
    ghost use Rattle.std.specs.Prelude.{◌+◌, ◌%◌, ◌^◌, Some};
    ghost use Rattle.live_table.specs.AtomicSteps.{MakesStep};

    ghost then = { λ st m found n. MakesStep (Some N.line) st.word found ((found + st.first) % 2 ^ 64) found m n };
}

/// Control's seat gives the next CPU its seat.
pub struct Deals;

impl Split<View> for Deals {
    ghost use Rattle.live_table.specs.Views.{dealt};
    ghost use Rattle.dealt_seats.specs.Views.{dealer};

    ghost left = { dealer };

    ghost right = { dealt };
}

/// A seat joins another, which knows afterwards what both knew.
pub struct Gathers;

impl Join<View> for Gathers {
    ghost use Rattle.live_table.specs.Views.{spent};
    ghost use Rattle.dealt_seats.specs.Views.{joined};

    ghost both = { joined };

    ghost spent = { spent };
}
