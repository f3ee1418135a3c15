//! Lanes in threads of their own, beside those of CPUs.

use super::jobs::{LANES, LANES_AND_CALLS, job_of, lanes_with_most_commands};
use super::meeting::Meeting;
use super::tally::Tally;
use super::threads::steps_and_one;
use ft_base::Actor;
use ft_base::limits::COMMANDS;
use ft_io::Gate;
use ft_job::Job;
use live_lanes::{LaneRun, run_lanes};
use std::alloc::Global;
use std::sync::Wait;
use std::test::Fail;
use std::thread::Threads;

/// What the actors and the lanes of a job make of it by threads; none if it has no lanes, or if memory
/// runs out.
fn run<R: Threads + Wait + Sync, G: Gate>(
    rt: &R,
    alloc: Global,
    job: Job,
    gate: &G,
) -> Option<LaneRun> {
    if job.lanes().is_empty() {
        return None;
    }
    run_lanes(rt, alloc, job, gate).ok()
}

/// Whether a run has two items of each command; Enter, Body, Leave and Ret of each call, and what is
/// called back.
fn has_all(run: &LaneRun) -> bool {
    run.history.len() >= 14
}

/// Whether a run of lanes and CPUs carries out each command and each call.
fn is_whole<R: Threads + Wait + Sync, G: Gate>(
    rt: &R,
    alloc: Global,
    gate: &G,
) -> Result<bool, Fail> {
    let job = job_of(alloc, LANES_AND_CALLS)?;
    let run = run(rt, alloc, job, gate).ok_or("no run")?;
    Ok(has_all(&run))
}

#[test]
fn lanes_pass_together(rt: HostRuntime) -> Result<(), Fail> {
    let meeting = Meeting::of_lanes();
    assert!(rt; is_whole(&rt, rt.alloc(), &meeting)?);
    // Each came, so the gate was passed, and none gave up, so they were there together.
    assert!(rt; meeting.came() == 2 && !meeting.failed());
    Ok(())
}

/// How many items a run of as many commands as there may be has.
fn items_of_most_commands<R: Threads + Wait + Sync>(
    rt: &R,
    alloc: Global,
    meeting: &Meeting,
) -> Result<u32, Fail> {
    let job = lanes_with_most_commands(alloc)?;
    let run = run(rt, alloc, job, meeting).ok_or("no run")?;
    Ok(run.history.len())
}

#[test]
fn lanes_with_most_commands_pass_together(rt: HostRuntime) -> Result<(), Fail> {
    let meeting = Meeting::of_lanes();
    assert!(rt; items_of_most_commands(&rt, rt.alloc(), &meeting)? == 2 * COMMANDS);
    assert!(rt; meeting.came() == 2 && !meeting.failed());
    Ok(())
}

/// Whether two lanes of three commands, and control, pass as often as they have to: each with the
/// numbers from 0 on, a lane once a turn and once more, and control once a step and once more, by a
/// machine that steps it alone.
fn pass_as_often<R: Threads + Wait + Sync>(rt: &R, alloc: Global) -> Result<bool, Fail> {
    let job = job_of(alloc, LANES)?;
    let tally = Tally::new();
    let run = run(rt, alloc, job, &tally).ok_or("no run")?;
    let control = steps_and_one(alloc, &run.job, Actor::Control)?;
    Ok(!tally.is_broken() && tally.passes() == [control, 0, 0, 3, 2])
}

#[test]
fn lanes_pass_once_a_turn(rt: HostRuntime) -> Result<(), Fail> {
    assert!(rt; pass_as_often(&rt, rt.alloc())?);
    Ok(())
}
