//! The race of a job.

ghost use Rattle.std.specs.Prelude.{◌≡◌, ◌↔◌, true, IfOk};
ghost use Rattle.job_outcomes.specs.Jobs.{IsOutcomeOf};
ghost use Rattle.job_outcomes.specs.Outcomes.{Outcome};
ghost use Rattle.machine_key.specs.Codes.{outcome_code};
ghost use Rattle.machine_key.specs.Race.{actor_at, meaning};
ghost use Rattle.state_search.specs.Entries.{HasKey};
ghost use Rattle.state_search.specs.Races.{AreShown};

use crate::coded::Coded;
use ft_base::{Actor, CpuNo, NoMemory};
use ft_job::Job;
use ft_machine::Machine;
use state_search::{Found, Race, explore};
use std::alloc::Global;

/// A job whose outcomes are looked for.
#[derive(Drop)]
struct JobRace<'a, C: Coded> {
    /// The job.
    job: &'a Job,
    /// What writes its states as numbers.
    coded: &'a C,
}

/// All outcomes of a job, each by its numbers and with a schedule that shows it: control is actor 0 there, and CPU c is actor c + 1. It
/// goes on from at most so many states; if there are more it is cut off, and what it lists are outcomes, but maybe not all. Its only
/// fault is out of memory.
pub fn all_outcomes<C: Coded>(
    alloc: Global,
    job: &Job,
    coded: &C,
    most: u32,
) -> Result<Found, NoMemory>
    ensures shown { IfOk result (λ f. AreShown (meaning job.now) f.outcomes) }
    ensures all { IfOk result (λ f. f.is_whole ≡ true → (o : Outcome) → IsOutcomeOf job.now o ↔ HasKey f.outcomes (outcome_code.numbers o)) }
{
    explore(alloc, &JobRace { job, coded }, most)
}

impl<'a, C: Coded> Race for JobRace<'a, C> {
    ghost use Rattle.std.specs.Prelude.{◌≡◌};
    ghost use Rattle.machine_key.specs.Race.{after, meaning};
    ghost use Rattle.machine_key.proofs.Exact.{exact};
    ghost use Rattle.ft_machine.specs.Machines.{IsOf, state_of};

    type Machine = Machine;

    ghost meaning = { λ r. meaning r.job.now };

    ghost IsAfter = { λ r s m. IsOf r.job.now m × (state_of r.job.now m ≡ after r.job.now s) };

    fn actors(&self) -> u32 {
        // There are at most as many CPUs as a limit allows.
        self.job.cpus().len() as u32 + 1
    }

    fn start(&self, alloc: Global) -> Result<Machine, NoMemory> {
        Machine::start(alloc, self.job)
    }

    fn step(&self, machine: &mut Machine, actor: u32) {
        machine.step(actor_of(actor));
    }

    fn key(&self, alloc: Global, machine: &Machine) -> Result<Vec<u64>, NoMemory> {
        self.coded.code(alloc, machine)
    }

    fn ended(&self, machine: &Machine) -> bool {
        machine.all_end()
    }

    fn outcome(&self, alloc: Global, machine: &Machine) -> Result<Vec<u64>, NoMemory> {
        self.coded.outcome(alloc, machine)
    }

    ghost exact = { λ r. exact r.job.now };
}

/// The actor of this number.
fn actor_of(actor: u32) -> Actor
    ensures { result ≡ actor_at actor }
{
    if actor == 0 {
        Actor::Control
    } else {
        Actor::Cpu(CpuNo(actor - 1))
    }
}
