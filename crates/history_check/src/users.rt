//! What the job declares of its users. A user that there isn't is a function tracer without flags.

ghost use Rattle.std.specs.Prelude.{◌≡◌, map};
ghost use Rattle.ft_base.specs.Desk.{spec_at};
ghost use Rattle.ft_base.specs.Job.{Job as PlainJob};
ghost use Rattle.user_specs.specs.Plain.{spec_of};

use ft_base::{FuncNo, Kind, UserNo};
use user_specs::Spec;

/// What a user traces.
pub fn kind_of(specs: &[Spec], user: UserNo) -> Kind
    ensures { (job : PlainJob) → map spec_of specs.now ≡ job.users → result ≡ (spec_at job user.0).kind }
{
    match specs.get(user.0 as usize) {
        Some(spec) => spec.kind,
        None => Kind::Function,
    }
}

/// Whether a user traces only the tasks that the pid lists allow.
pub fn is_by_pid(specs: &[Spec], user: UserNo) -> bool
    ensures { (job : PlainJob) → map spec_of specs.now ≡ job.users → result ≡ (spec_at job user.0).pid }
{
    match specs.get(user.0 as usize) {
        Some(spec) => spec.pid,
        None => false,
    }
}

/// The function that runs in the place of those that a user traces, if it replaces them.
pub(crate) fn replacement_of(specs: &[Spec], user: UserNo) -> Option<FuncNo>
    ensures { (job : PlainJob) → map spec_of specs.now ≡ job.users → result ≡ (spec_at job user.0).ipmodify }
{
    match specs.get(user.0 as usize) {
        Some(spec) => spec.ipmodify,
        None => None,
    }
}
