//! A job that was carried out.

ghost use Rattle.std.specs.Prelude.{◌≡◌, [], None, IfOk};
ghost use Rattle.trace_print.specs.Kept.{Has, IsKeptOf, content_of};
ghost use Rattle.ft_app.specs.Main.{IsPlain};
ghost use Rattle.ft_app.specs.Reply.{IsReplayOf, content_to_keep, history_of};

use ft_base::NoMemory;
use ft_job::Job;
use ft_machine::replay_into;
use ft_words::Order;
use ring_rules::Rings;
use std::alloc::Global;
use trace_print::Kept;

/// A job that was carried out, and what came of it.
#[derive(Drop)]
pub(crate) struct CarriedOut {
    /// The job, its commands in the order in which they were led.
    pub(crate) job: Job,
    /// What is kept of its history.
    pub(crate) kept: Kept,
    /// Whether every actor is at its end.
    pub(crate) ended: bool,
    /// The rings that its threads have kept, if they were told to.
    pub(crate) rings: Option<Rings>,
}

/// Carries a job out by a replay of its schedule, and keeps of the history what the order needs. The
/// commands are led in the order of their lines.
pub(crate) fn replayed(alloc: Global, order: Order, job: Job) -> Result<CarriedOut, NoMemory>
    requires { IsPlain order }
    ensures job { IfOk result (λ c. c.job ≡ job) }
    ensures kept { IfOk result (λ c. IsKeptOf job (history_of job) c.kept) }
    ensures content { IfOk result (λ c. content_of c.kept ≡ content_to_keep order) }
    ensures replay { IfOk result (λ c. IsReplayOf job (history_of job) c.ended) }
    ensures rings { IfOk result (λ c. c.rings ≡ None) }
{
    let mut kept = kept_for(alloc, order, &job)?;
    let ended = replay_into(alloc, &job, &mut kept)?;
    Ok(CarriedOut {
        job,
        kept,
        ended,
        rings: None,
    })
}

/// What is kept of a history for an order, before its first item. With `Run` no schedule is replayed.
fn kept_for(alloc: Global, order: Order, job: &Job) -> Result<Kept, NoMemory>
    requires { IsPlain order }
    ensures none { IfOk result (λ kept. Has job.now [] kept) }
    ensures content { IfOk result (λ kept. content_of kept ≡ content_to_keep order) }
{
    match order {
        Order::Replay(form) => Kept::for_form(alloc, job, form),
        Order::Bulk(_) => Ok(Kept::for_summary()),
        Order::Run(_) => unreachable!(),
    }
}
