//! [`state_search::explore`]: all outcomes of a race that changes one number. One actor doubles it and the other adds one, up to ten.

ghost use Rattle.std.specs.Prelude.{◌≡◌, ◌<◌};
ghost use Rattle.state_search_tests.specs.Numbers.{stepped as plain_stepped};

use ft_base::NoMemory;
use state_search::{Race, explore};
use std::alloc::Global;

/// The race.
struct Numbers;

/// The number.
#[derive(Drop)]
struct Number {
    value: u32,
    ghost small: { value < 20 },
}

impl Race for Numbers {
    ghost use Rattle.std.specs.Prelude.{◌≡◌, ◌<◌};
    ghost use Rattle.state_search_tests.specs.Numbers.{meaning, after, exact};

    type Machine = Number;

    ghost meaning = { λ _. meaning };

    ghost IsAfter = { λ _ s m. m.value ≡ after s };

    fn actors(&self) -> u32 {
        2
    }

    fn start(&self, _alloc: Global) -> Result<Number, NoMemory> {
        Ok(Number { value: 1 })
    }

    fn step(&self, machine: &mut Number, actor: u32) {
        machine.value = stepped(actor, machine.value);
    }

    fn key(&self, alloc: Global, machine: &Number) -> Result<Vec<u64>, NoMemory> {
        Vec::from_array(alloc, [u64::from(machine.value)]).map_err(|_| NoMemory)
    }

    fn ended(&self, machine: &Number) -> bool {
        machine.value >= 10
    }

    fn outcome(&self, alloc: Global, machine: &Number) -> Result<Vec<u64>, NoMemory> {
        Vec::from_array(alloc, [u64::from(machine.value)]).map_err(|_| NoMemory)
    }

    ghost exact = { λ _. exact };
}

/// The number after a step of this actor.
fn stepped(actor: u32, value: u32) -> u32
    requires { value < 20 }
    ensures value { result ≡ plain_stepped actor value }
    ensures small { result < 20 }
{
    if value < 10 {
        if actor == 0 { 2 * value } else { value + 1 }
    } else {
        value
    }
}

#[test]
fn finds_all_outcomes(rt: HostRuntime) {
    let found = explore(rt.alloc(), &Numbers, 100).expect(&rt, "memory");
    assert!(rt; found.is_whole && found.outcomes.len() == 5);
}

#[test]
fn finds_short_schedules_first(rt: HostRuntime) {
    let found = explore(rt.alloc(), &Numbers, 100).expect(&rt, "memory");
    let (outcome, schedule) = found.outcomes.entry(0).expect(&rt, "an outcome");
    assert!(rt; outcome == [16].as_slice() && schedule.as_slice() == [0; 4].as_slice());
}

#[test]
fn says_that_it_is_cut_off(rt: HostRuntime) {
    let found = explore(rt.alloc(), &Numbers, 5).expect(&rt, "memory");
    assert!(rt; !found.is_whole);
}
