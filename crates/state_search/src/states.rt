//! States, each kept as its key and its last step.

ghost use Rattle.std.specs.Prelude.{◌≡◌, ◌<◌, [], ◌∷◌, ◌++◌, List, ℕ, length, slice_get, Some, IfOk, IfSome, IfNone};
ghost use Rattle.state_search.specs.Entries.{IsAdded};

use crate::key_table::KeyTable;
use ft_base::NoMemory;
use std::alloc::Global;
use std::marker::Model;

/// The last step of a schedule.
#[derive(Clone, Copy)]
pub(crate) struct Step {
    /// The place of the state before it.
    pub before: u32,
    /// Who made it.
    pub actor: u32,
}

/// States that a race comes to, the first one before its first step. Contracts see each as its key and a schedule that leads to it.
#[derive(Drop)]
pub(crate) struct States {
    table: KeyTable<Step>,
}

impl Model for States {
    ghost use Rattle.std.specs.Prelude.{List};
    ghost use Rattle.state_search.specs.Steps.{Entry, AreEarlier, with_schedules};

    ghost Value = { List Entry };

    ghost view = { λ s. with_schedules s.table };

    ghost invariant = { λ s. AreEarlier s.table };
}

impl States {
    /// The state before the first step, by its key.
    pub(crate) fn start(alloc: Global, key: Vec<u64>) -> Result<States, NoMemory>
        ensures { IfOk result (λ states. states ≡ (key.items, []) ∷ []) }
    {
        let mut table = KeyTable::new(alloc);
        let step = Step {
            before: 0,
            actor: 0,
        };
        table.add(key, step)?;
        Ok(States { table })
    }

    /// How many states there are.
    pub(crate) fn len(&self) -> usize
        ensures { result ≡ length self.now }
    {
        self.table.len()
    }

    /// The schedule of the state at this place.
    pub(crate) fn schedule(&self, alloc: Global, at: u32) -> Result<Vec<u32>, NoMemory>
        requires { at < length self.now }
        ensures { IfOk result (λ s. (k : List ℕ) × (slice_get self.now at ≡ Some (k, s.items))) }
    {
        let mut actors = Vec::new(alloc);
        let mut place = at;
        while let Some(step) = self.last_step(place) {
            actors.push(step.actor).map_err(|_| NoMemory)?;
            place = step.before;
        }
        actors.reverse();
        Ok(actors)
    }

    /// The last step of the state at this place; none of the first state.
    fn last_step(&self, at: u32) -> Option<Step>
        requires { at < length self.now }
        ensures first { IfNone result ((k s : List ℕ) → slice_get self.now at ≡ Some (k, s) → s ≡ []) }
        ensures later { IfSome result (λ p. p.before < at) }
        ensures schedule { IfSome result (λ p. (l s : List ℕ) → slice_get self.now p.before ≡ Some (l, s)
            → (k : List ℕ) × (slice_get self.now at ≡ Some (k, s ++ p.actor ∷ []))) }
    {
        match self.table.entry(at as usize) {
            Some((_, step)) if at > 0 => Some(*step),
            _ => None,
        }
    }

    /// Adds the state to which a step leads, by its key, if it isn't there; whether it is new.
    pub(crate) fn add(&mut self, key: Vec<u64>, step: Step) -> Result<bool, NoMemory>
        requires { step.before < length self.old }
        ensures { IfOk result (λ new. (k s : List ℕ) → slice_get self.old step.before ≡ Some (k, s)
            → IsAdded new self.old key.items (s ++ step.actor ∷ []) self.new) }
    {
        self.table.add(key, step)
    }
}
