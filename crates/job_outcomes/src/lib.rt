//! The outcome of a history, and the outcomes of a job, as definitions: what each call comes to, and which commands are refused, but
//! not when (docs/OUTCOMES.md). `specs/Outcomes` and `specs/Jobs` have them.
//!
//! Promised: the outcome after one item more depends on the item and on the outcome so far alone, and so two states of the word machine
//! that differ only in their histories, which have the same outcome, do so after every run. So a search need not keep histories.
//! No code runs here. That an outcome is what a reader expects is only tested: proofs compute samples.
#![tactic(auto)]

ghost use Rattle.std.specs.Prelude.{◌≡◌, ℕ, [], ◌∷◌, ◌++◌, List};
ghost use Rattle.ft_base.specs.declared.item.Item.{Item};
ghost use Rattle.ft_base.specs.declared.turn.Actor.{Actor};
ghost use Rattle.ft_base.specs.Job.{Job};
ghost use Rattle.word_machine.specs.Machine.{World, run};
ghost use Rattle.job_outcomes.specs.Jobs.{IsLike};
ghost use Rattle.job_outcomes.specs.Outcomes.{outcome};

/// Histories with one outcome have one after the same item, too.
pub fn outcomes_go_on_alike()
    ensures { (tasks : ℕ) (a b : List Item) (item : Item) → outcome tasks a ≡ outcome tasks b → outcome tasks (a ++ item ∷ []) ≡ outcome tasks (b ++ item ∷ []) }
{}

/// States that differ only in their histories, which have one outcome, do so after each run.
pub fn runs_keep_states_alike()
    ensures { (job : Job) (actors : List Actor) (s t : World) → IsLike job s t → IsLike job (run job actors s) (run job actors t) }
{}
