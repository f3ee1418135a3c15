//! What the lines of calls that aren't covered say of the job.

ghost use Rattle.std.specs.Prelude.{◌↔◌, ℕ, List};
ghost use Rattle.ft_base.specs.Job.{Job};
ghost use Rattle.script_waits.specs.declared.script.LinedAct.{LinedAct};
ghost use Rattle.script_waits.specs.declared.script.ControlLine.{ControlLine};
ghost use Rattle.module_coverage.specs.Covered.{AreCovered};
ghost use Rattle.module_coverage.specs.Plan.{ModulePlan};
ghost use Rattle.module_coverage.specs.Uncovered.{IsUncoveredLine};
ghost use Rattle.module_coverage.specs.Reading.{IsKnown, IsUncoveredCall};

/// A line is that of a call that isn't covered exactly if it is so in the job, and there is no such line exactly if all scripted calls
/// of the job are covered.
pub fn uncovered_lines_are_those_of_the_job()
    ensures line { (job : Job) (tracks : List (List LinedAct)) (control : List ControlLine) (plan : ModulePlan) → IsKnown job tracks control plan
        → (n : ℕ) → IsUncoveredLine tracks control plan n ↔ IsUncoveredCall job tracks n }
    ensures none { (job : Job) (tracks : List (List LinedAct)) (control : List ControlLine) (plan : ModulePlan) → IsKnown job tracks control plan
        → ((n : ℕ) → ¬ IsUncoveredLine tracks control plan n) ↔ AreCovered job }
{}
