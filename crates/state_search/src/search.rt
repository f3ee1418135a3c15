//! The search.

ghost use Rattle.std.specs.Prelude.{◌≡◌, ◌<◌, ◌+◌, ◌∷◌, ◌++◌, [], ◌↔◌, List, ℕ, true, length, IfOk, OnOk};
ghost use Rattle.state_search.specs.Entries.{HasKey};
ghost use Rattle.state_search.specs.Races.{IsOutcome, IsSchedule, AreShown};
ghost use Rattle.state_search.specs.Searches.{IsSearch, GoesOn, Passes, Tells};

use crate::key_table::KeyTable;
use crate::race::Race;
use crate::states::{States, Step};
use ft_base::NoMemory;
use std::alloc::Global;

/// The outcomes that were found.
#[derive(Drop)]
pub struct Found {
    /// Each outcome, with a schedule that shows it.
    pub outcomes: KeyTable<Vec<u32>>,
    /// Whether these are all; else the search was cut off.
    pub is_whole: bool,
}

/// A search on its way.
#[derive(Drop)]
struct Search {
    /// The states that were come to.
    states: States,
    /// The outcomes, each with a schedule that shows it.
    outcomes: KeyTable<Vec<u32>>,
}

/// All outcomes of a race: each that some schedule has, and no other one. It goes on from at most so many states; if there
/// are more it is cut off, and what it lists are outcomes, but maybe not all. Its only fault is out of memory.
pub fn explore<R: Race>(alloc: Global, race: &R, most: u32) -> Result<Found, NoMemory>
    ensures shown { IfOk result (λ f. AreShown (R.meaning race.now) f.outcomes) }
    ensures all { IfOk result (λ f. f.is_whole ≡ true → (o : List ℕ) → IsOutcome (R.meaning race.now) o ↔ HasKey f.outcomes o) }
{
    let mut search = Search::start(alloc, race)?;
    for at in 0..most {
        if at as usize >= search.states.len() {
            return Ok(Found {
                outcomes: search.outcomes,
                is_whole: true,
            });
        }
        search.go_on_from(alloc, race, at)?;
    }
    Ok(Found {
        outcomes: search.outcomes,
        is_whole: false,
    })
}

impl Search {
    /// Keeps the state before the first step.
    fn start<R: Race>(alloc: Global, race: &R) -> Result<Search, NoMemory>
        ensures { IfOk result (λ s. Passes (R.meaning race.now) s.states s.outcomes 0) }
    {
        let machine = race.start(alloc)?;
        let schedule = Vec::new(alloc);
        let mut outcomes = KeyTable::new(alloc);
        tell(alloc, race, &machine, schedule, &mut outcomes)?;
        let key = race.key(alloc, &machine)?;
        let states = States::start(alloc, key)?;
        Ok(Search { states, outcomes })
    }

    /// Keeps all states that are one step after the one at this place.
    fn go_on_from<R: Race>(&mut self, alloc: Global, race: &R, at: u32) -> Result<(), NoMemory>
        requires passes { Passes (R.meaning race.now) self.old.states self.old.outcomes at }
        requires within { at < length self.old.states }
        ensures { OnOk result (Passes (R.meaning race.now) self.new.states self.new.outcomes (at + 1)) }
    {
        for actor in 0..race.actors() {
            self.go_on(alloc, race, Step { before: at, actor })?;
        }
        Ok(())
    }

    /// Keeps the state to which this step leads, and its outcome.
    fn go_on<R: Race>(&mut self, alloc: Global, race: &R, step: Step) -> Result<(), NoMemory>
        requires search { IsSearch (R.meaning race.now) self.old.states self.old.outcomes }
        requires within { step.before < length self.old.states }
        requires actor { step.actor < (R.meaning race.now).actors }
        ensures { OnOk result (GoesOn (R.meaning race.now) step.before step.actor self.old.states self.new.states self.new.outcomes) }
    {
        let before = self.states.schedule(alloc, step.before)?;
        let mut machine = replay(alloc, race, before.as_slice())?;
        race.step(&mut machine, step.actor);
        let schedule = pushed(before, step.actor)?;
        tell(alloc, race, &machine, schedule, &mut self.outcomes)?;
        let key = race.key(alloc, &machine)?;
        self.states.add(key, step)?;
        Ok(())
    }
}

/// Lists the outcome of the state to which the machine has come by this schedule, if it has one.
fn tell<R: Race>(
    alloc: Global,
    race: &R,
    machine: &R::Machine,
    schedule: Vec<u32>,
    outcomes: &mut KeyTable<Vec<u32>>,
) -> Result<(), NoMemory>
    requires shown { AreShown (R.meaning race.now) outcomes.old }
    requires schedule { IsSchedule (R.meaning race.now) schedule.items }
    requires machine { R.IsAfter race.now schedule.items machine.now }
    ensures { OnOk result (Tells (R.meaning race.now) schedule.items outcomes.old outcomes.new) }
{
    if !race.ended(machine) {
        return Ok(());
    }
    let outcome = race.outcome(alloc, machine)?;
    outcomes.add(outcome, schedule)?;
    Ok(())
}

/// The machine after a schedule.
fn replay<R: Race>(alloc: Global, race: &R, schedule: &[u32]) -> Result<R::Machine, NoMemory>
    requires { IsSchedule (R.meaning race.now) schedule.now }
    ensures { IfOk result (λ m. R.IsAfter race.now schedule.now m) }
{
    let mut machine = race.start(alloc)?;
    for actor in schedule {
        race.step(&mut machine, *actor);
    }
    Ok(machine)
}

/// A schedule with one more turn.
fn pushed(mut schedule: Vec<u32>, actor: u32) -> Result<Vec<u32>, NoMemory>
    ensures { IfOk result (λ v. v.items ≡ schedule.items ++ actor ∷ []) }
{
    match schedule.push(actor) {
        Ok(()) => Ok(schedule),
        Err(_) => Err(NoMemory),
    }
}
