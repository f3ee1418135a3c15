//! What a key of the word machine's states has to say: all but the history, of which only the outcome so far counts. So the states of a job
//! can be searched ([`state_search`](../state_search/index.html)) though histories grow with every item.
//!
//! `specs/States` has the code of a state, a list of numbers, and `specs/Race` the race of a job's actors. Each code is made with its way
//! back: what was written is read back, whatever follows it.
//!
//! Promised: the code of a state tells it but for its history, and that of an outcome tells the outcome; so a job's race is exact, and its
//! outcomes are those of the job. No code runs here.
#![tactic(auto)]

ghost use Rattle.std.specs.Prelude.{◌≡◌, List, ℕ};
ghost use Rattle.ft_base.specs.Job.{Job};
ghost use Rattle.word_machine.specs.Machine.{World};
ghost use Rattle.job_outcomes.specs.Jobs.{IsLike};
ghost use Rattle.job_outcomes.specs.Outcomes.{Outcome};
ghost use Rattle.machine_key.specs.Codes.{outcome_code};
ghost use Rattle.machine_key.specs.Race.{meaning, HasOutcomesOf};
ghost use Rattle.machine_key.specs.States.{IsCode};
ghost use Rattle.state_search.specs.Races.{IsExact};

/// States of one code differ in their histories at most, and these have one outcome.
pub fn codes_tell_states()
    ensures { (job : Job) (k : List ℕ) (v w : World) → IsCode job v k → IsCode job w k → IsLike job v w }
{}

/// Outcomes of the same numbers are the same.
pub fn numbers_tell_outcomes()
    ensures { (a b : Outcome) → outcome_code.numbers a ≡ outcome_code.numbers b → a ≡ b }
{}

/// A job's race is exact: a key says all of a state that matters.
pub fn races_are_exact()
    ensures { (job : Job) → IsExact (meaning job) }
{}

/// Its outcomes are those of the job.
pub fn races_have_the_outcomes()
    ensures { (job : Job) → HasOutcomesOf job }
{}
