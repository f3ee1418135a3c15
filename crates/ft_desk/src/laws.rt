//! What a desk answers depends on what is declared, and on nothing else of a job. The law is a
//! function whose clause says it.

ghost use Rattle.std.specs.Prelude.{◌≡◌, ℕ};
ghost use Rattle.ft_base.specs.Job.{Job, Command};
ghost use Rattle.ft_base.specs.Desk.{Desk, answer_on, changed, opening};
ghost use Rattle.ft_desk.specs.Declarations.{Declared, IsOf, job_of};

/// Each job that declares the same opens with the same desk, and has the same answer and the same
/// next desk for each command. So the clauses of `Desk` hold for the job that it is made for.
pub fn a_desk_serves_each_job()
    ensures opening { (job : Job) (d : Declared) → IsOf job d → opening (job_of d) ≡ opening job }
    ensures answer { (job : Job) (d : Declared) (desk : Desk) (c : Command) → IsOf job d
        → answer_on (job_of d) desk c ≡ answer_on job desk c }
    ensures next { (job : Job) (d : Declared) (desk : Desk) (k : ℕ) (c : Command) → IsOf job d
        → changed (job_of d) desk k c ≡ changed job desk k c }
{}
