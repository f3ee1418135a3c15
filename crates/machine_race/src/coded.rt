//! Numbers that tell a state.

ghost use Rattle.std.specs.Prelude.{◌≡◌, IfOk};
ghost use Rattle.ft_base.specs.Job.{Job as PlainJob};
ghost use Rattle.ft_machine.specs.Machines.{IsOf, state_of};
ghost use Rattle.job_outcomes.specs.Jobs.{outcome_at};
ghost use Rattle.machine_key.specs.Codes.{outcome_code};
ghost use Rattle.machine_key.specs.States.{IsCode};

use ft_base::NoMemory;
use ft_machine::Machine;
use std::alloc::Global;

/// What writes a machine's state as numbers. No machine does so itself yet.
pub trait Coded {
    /// A code of the machine's state: all of it but the history, of which it has the outcome so far.
    fn code(&self, alloc: Global, machine: &Machine) -> Result<Vec<u64>, NoMemory>
        ensures { IfOk result (λ k. (job : PlainJob) → IsOf job machine.now → IsCode job (state_of job machine.now) k.items) };

    /// The numbers of the outcome so far.
    fn outcome(&self, alloc: Global, machine: &Machine) -> Result<Vec<u64>, NoMemory>
        ensures { IfOk result (λ o. (job : PlainJob) → IsOf job machine.now → o.items ≡ outcome_code.numbers (outcome_at job (state_of job machine.now))) };
}
