//! The actors of a schedule, one after the other.

ghost use Rattle.std.specs.Prelude.{◌≡◌, ◌↔◌, [], drop, slice_get, IsNone};
ghost use Rattle.ft_base.specs.Schedule.{actors_in};
ghost use Rattle.ft_schedule.specs.Counts.{first_actor, cpu_after};

use crate::schedule::Schedule;
use ft_base::{Actor, CpuNo, Turn, Who};
use std::marker::Model;

/// Gives the actors of a schedule. Contracts see the list of those still to come.
#[derive(Drop)]
pub struct Player<'a> {
    cpus: u32,
    /// The next CPU of a count of `all` that is under way, or `cpus` if none is.
    cpu: u32,
    /// Whose turn it is, and how often it still comes.
    who: Who,
    count: u32,
    /// The turns still to come.
    later: &'a [Turn],
}

impl<'a> Model for Player<'a> {
    ghost use Rattle.std.specs.Prelude.{List, ◌≤◌};
    ghost use Rattle.ft_base.specs.declared.turn.Actor.{Actor};
    ghost use Rattle.ft_schedule.specs.Coming.{coming};

    ghost Value = { List Actor };

    ghost view = { coming };

    ghost invariant = { λ p. p.cpu ≤ p.cpus };
}

impl<'a> Player<'a> {
    /// A player at the beginning of the schedule, among this many CPUs.
    pub fn new(schedule: &'a Schedule, cpus: u32) -> Player<'a>
        ensures { result ≡ actors_in cpus schedule.entry.now.turns.items }
    {
        Player {
            cpus,
            cpu: cpus,
            who: Who::Control,
            count: 0,
            later: schedule.turns.as_slice(),
        }
    }

    /// The next actor, or `None` if the schedule is used up. It takes no memory. A turn with the
    /// count 0 gives no actor; a schedule that was read has none.
    pub fn next_actor(&mut self) -> Option<Actor>
        ensures value { result ≡ slice_get self.old 0 }
        ensures rest { self.new ≡ drop 1 self.old }
        ensures used_up { IsNone result ↔ (self.old ≡ []) }
    {
        if self.cpu < self.cpus {
            let cpu = CpuNo(self.cpu);
            self.cpu += 1;
            return Some(Actor::Cpu(cpu));
        }
        while self.count == 0 {
            let (turn, later) = self.later.split_first()?;
            self.who = turn.who;
            self.count = turn.count;
            self.later = later;
        }
        self.count -= 1;
        self.cpu = cpu_after(self.who, self.cpus);
        Some(first_actor(self.who))
    }
}

/// The first actor of a count.
fn first_actor(who: Who) -> Actor
    ensures { result ≡ first_actor who }
{
    match who {
        Who::Control | Who::All => Actor::Control,
        Who::Cpu(cpu) => Actor::Cpu(cpu),
    }
}

/// The CPU that comes after the first actor of a count, or the number of CPUs if none does.
fn cpu_after(who: Who, cpus: u32) -> u32
    ensures { result ≡ cpu_after cpus who }
{
    match who {
        Who::Control | Who::Cpu(_) => cpus,
        Who::All => 0,
    }
}
