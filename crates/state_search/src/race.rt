//! A race.

ghost use Rattle.std.specs.Prelude.{◌≡◌, ◌<◌, [], ◌∷◌, ◌++◌, List, ℕ, IfOk};
ghost use Rattle.state_search.specs.Races.{Meaning, IsExact};

use ft_base::NoMemory;
use std::alloc::Global;

/// Actors of whom one at a time makes a step, as a schedule says. `meaning` says what each schedule leads to, and the law `exact`
/// that a key says all of a state that matters.
pub trait Race {
    /// The race in one of its states.
    type Machine: Drop;

    /// What each schedule leads to.
    ghost meaning: { Self → Meaning };

    /// The machine after this schedule.
    ghost IsAfter: { Self → List ℕ → Self.Machine → Type 0 };

    /// How many actors there are. They are numbered from 0.
    fn actors(&self) -> u32
        ensures { result ≡ (meaning self.now).actors };

    /// The machine before the first step.
    fn start(&self, alloc: Global) -> Result<Self::Machine, NoMemory>
        ensures { IfOk result (λ m. IsAfter self.now [] m) };

    /// One step of an actor.
    fn step(&self, machine: &mut Self::Machine, actor: u32)
        requires { actor < (meaning self.now).actors }
        ensures { (s : List ℕ) → IsAfter self.now s machine.old → IsAfter self.now (s ++ actor ∷ []) machine.new };

    /// The key of the machine's state.
    fn key(&self, alloc: Global, machine: &Self::Machine) -> Result<Vec<u64>, NoMemory>
        ensures { IfOk result (λ k. (s : List ℕ) → IsAfter self.now s machine.now → (meaning self.now).has_key s k.items) };

    /// Whether there is an outcome in this state.
    fn ended(&self, machine: &Self::Machine) -> bool
        ensures { (s : List ℕ) → IsAfter self.now s machine.now → result ≡ (meaning self.now).ended s };

    /// The outcome.
    fn outcome(&self, alloc: Global, machine: &Self::Machine) -> Result<Vec<u64>, NoMemory>
        ensures { IfOk result (λ o. (s : List ℕ) → IsAfter self.now s machine.now → o.items ≡ (meaning self.now).outcome s) };

    /// The key says all.
    ghost exact: { (race : Self) → IsExact (meaning race) };
}
