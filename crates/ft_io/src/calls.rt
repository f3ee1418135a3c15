//! Which calls of a source or a sink in memory fail.

ghost use Rattle.std.specs.Prelude.{◌≡◌, ◌≤◌, true};
ghost use Rattle.ft_io.specs.Causes.{Rose};
ghost use Rattle.ft_io.specs.Calls.{no_calls, fails_next, called};

use crate::faults::count_fault;
use std::marker::Model;

/// The numbers, from 1, of the calls that are to fail, and how many calls and faults there were.
/// Calls after number `u32::MAX` are not counted and do not fail.
#[derive(Drop)]
pub(crate) struct PlannedCalls {
    fails: Vec<u32>,
    counted: u32,
    faults: u64,
}

impl Model for PlannedCalls {
    ghost use Rattle.ft_io.specs.Calls.{Calls};

    ghost Value = { Calls };

    ghost view = { λ c. record { fails = c.fails.items; counted = c.counted; faults = c.faults } };
}

impl PlannedCalls {
    /// The calls to fail, before the first call.
    pub(crate) fn new(fails: Vec<u32>) -> PlannedCalls
        ensures { result ≡ no_calls fails.items }
    {
        PlannedCalls {
            fails,
            counted: 0,
            faults: 0,
        }
    }

    /// Whether the next call is to fail.
    pub(crate) fn fails_next(&self) -> bool
        ensures { result ≡ fails_next self.now }
    {
        self.counted < u32::MAX && self.fails.contains(&(self.counted + 1))
    }

    /// Counts a call, and its fault if it failed.
    pub(crate) fn count(&mut self, failed: bool)
        ensures called { self.new ≡ called failed self.old }
        ensures later { self.old.faults ≤ self.new.faults }
        ensures failed { failed ≡ true → Rose self.old.faults self.new.faults }
    {
        self.counted = self.counted.saturating_add(1);
        if failed {
            count_fault(&mut self.faults);
        }
    }
}
