//! A job carried out by running threads.

ghost use Rattle.std.specs.Prelude.{◌≡◌, true, [], IfOk};
ghost use Rattle.live_table.specs.Seats.{AreAtEnd, AreSeats, ControlSitsAt};
ghost use Rattle.ft_words.specs.declared.order.Order.TheVariants.{Run};
ghost use Rattle.trace_print.specs.Kept.{IsAllAnd};
ghost use Rattle.script_jobs.specs.Merges.{IsMergeOf};
ghost use Rattle.ft_app.specs.Reply.{IsKeptFor, IsRunOf};

use crate::carried_out::CarriedOut;
use ft_base::NoMemory;
use ft_hist::History;
use ft_io::Gate;
use ft_job::Job;
use ft_words::Form;
use live_lanes::{LaneRun, run_lanes};
use live_seats::Ended;
use live_table::{Live, Started};
use live_threads::{RingRun, run_live, run_rings};
use ring_rules::Rings;
use std::alloc::Global;
use std::sync::Wait;
use std::thread::Threads;
use trace_print::Kept;

/// Carries a job out by running threads, up to the end of each: one for control and one for each CPU,
/// or with lanes one for each lane in the place of control's. They pass the gate before each of their
/// steps. The job's schedule isn't used. The job comes back with its commands in the order in which the
/// lock of its lanes let them through; without lanes that is the order of their lines. For the form
/// rings the threads of a job without lanes keep rings while they run.
pub(crate) fn run<R: Threads + Wait + Sync, G: Gate>(
    rt: &R,
    alloc: Global,
    job: Job,
    form: Form,
    gate: &G,
) -> Result<CarriedOut, NoMemory>
    ensures led { IfOk result (λ c. IsMergeOf job c.job) }
    ensures run { IfOk result (λ c. IsAllAnd c.kept (λ items. IsRunOf c.job items c.ended)) }
    ensures kept { IfOk result (λ c. IsAllAnd c.kept (λ items. IsKeptFor (Run form) c.job items c.rings)) }
{
    if job.lanes().is_empty() {
        let (history, rings) = run_alone(rt, alloc, &job, form, gate)?;
        return Ok(run_to_end(job, history, rings));
    }
    match run_lanes(rt, alloc, job, gate) {
        Ok(LaneRun { job, history }) => Ok(run_to_end(job, history, None)),
        Err(_) => Err(NoMemory),
    }
}

/// The history of threads that carry out a job without lanes, and for the form rings the rings that
/// they keep.
fn run_alone<R: Threads + Wait + Sync, G: Gate>(
    rt: &R,
    alloc: Global,
    job: &Job,
    form: Form,
    gate: &G,
) -> Result<(History, Option<Rings>), NoMemory>
    requires lanes { job.now.lines.lanes ≡ [] }
    ensures run { IfOk result (λ r. IsRunOf job.now r.0.items true) }
    ensures kept { IfOk result (λ r. IsKeptFor (Run form) job.now r.0.items r.1) }
{
    if form == Form::Rings {
        let RingRun { history, rings } = run_rings(rt, alloc, job, gate)?;
        return Ok((history, Some(rings)));
    }
    let history = run_job(rt, alloc, job, gate)?;
    Ok((history, None))
}

/// A job that threads have carried out, their history, each at its end, and the rings that they have
/// kept.
fn run_to_end(job: Job, history: History, rings: Option<Rings>) -> CarriedOut
    ensures job { result.job ≡ job }
    ensures items { result.kept ≡ Kept.History history }
    ensures ended { result.ended ≡ true }
    ensures rings { result.rings ≡ rings }
{
    CarriedOut {
        job,
        kept: Kept::History(history),
        ended: true,
        rings,
    }
}

/// The history of threads that carry out a job without lanes.
fn run_job<R: Threads + Wait + Sync, G: Gate>(
    rt: &R,
    alloc: Global,
    job: &Job,
    gate: &G,
) -> Result<History, NoMemory>
    ensures { IfOk result (λ h. IsRunOf job.now h.items true) }
{
    let Started {
        live,
        control,
        cpus,
    } = Live::start(alloc, job)?;
    match run_live(rt, alloc, &live, control, cpus, gate) {
        Ok(ended) => gathered(alloc, live, ended),
        Err(_) => Err(NoMemory),
    }
}

/// The history of a table whose seats have all come to their ends.
fn gathered(alloc: Global, live: Live, ended: Ended) -> Result<History, NoMemory>
    requires control { ControlSitsAt live ended.control }
    requires led { ended.control.led ≡ live.job }
    requires cpus { AreSeats live ended.cpus.items }
    requires ended { AreAtEnd ended.control ended.cpus.items }
    ensures { IfOk result (λ h. IsRunOf live.job h.items true) }
{
    match live.gather(alloc, ended.control, ended.cpus) {
        Ok(history) => Ok(history),
        Err(_) => Err(NoMemory),
    }
}
