//! A run that only several threads come through, and the passes of gates.

ghost use Rattle.live_table.specs.Seats.{AreSeats, ControlSitsAt};

use super::jobs::{CALLS, COMMANDS, THREE_AT_ONCE, job_of};
use super::meeting::Meeting;
use super::tally::Tally;
use ft_base::{Actor, CpuNo, NoMemory};
use ft_hist::History;
use ft_io::Gate;
use ft_job::Job;
use ft_machine::Machine;
use live_seats::Ended;
use live_table::{Live, Started};
use live_threads::run_live;
use std::alloc::Global;
use std::sync::Wait;
use std::test::Fail;
use std::thread::Threads;

/// What the actors of a job make of it by threads.
fn run<R: Threads + Wait + Sync, G: Gate>(
    rt: &R,
    alloc: Global,
    job: &Job,
    gate: &G,
) -> Result<History, NoMemory> {
    let Started {
        live,
        control,
        cpus,
    } = Live::start(alloc, job)?;
    let Ok(ended) = run_live(rt, alloc, &live, control, cpus, gate) else {
        return Err(NoMemory);
    };
    gathered(alloc, live, ended)
}

/// The history of a table, with its seats.
fn gathered(alloc: Global, live: Live, ended: Ended) -> Result<History, NoMemory>
    requires control { ControlSitsAt live ended.control }
    requires cpus { AreSeats live ended.cpus.items }
{
    match live.gather(alloc, ended.control, ended.cpus) {
        Ok(history) => Ok(history),
        Err(_) => Err(NoMemory),
    }
}

/// How many items a run of three actors at once has, each of which passes this gate.
fn items_of_three<R: Threads + Wait + Sync>(
    rt: &R,
    alloc: Global,
    meeting: &Meeting,
) -> Result<u32, Fail> {
    let job = job_of(alloc, THREE_AT_ONCE)?;
    let history = run(rt, alloc, &job, meeting)?;
    Ok(history.len())
}

#[test]
fn threads_pass_together(rt: HostRuntime) -> Result<(), Fail> {
    let meeting = Meeting::of_three();
    let items = items_of_three(&rt, rt.alloc(), &meeting)?;
    // Each came, so the gate was passed, and none gave up, so they were there together.
    assert!(rt; meeting.came() == 3 && !meeting.failed());
    // Enter, Body, Leave and Ret of each of the six calls, and the command's two. Which calls are called
    // back is the threads' choice.
    assert!(rt; items >= 26);
    Ok(())
}

/// How often control, two CPUs and two lanes pass the gate in a run of the job, each with the numbers
/// from 0 on.
fn passes<R: Threads + Wait + Sync>(rt: &R, alloc: Global, job: &Job) -> Result<[u64; 5], Fail> {
    let tally = Tally::new();
    run(rt, alloc, job, &tally)?;
    if tally.is_broken() {
        Err("broken")?
    } else {
        Ok(tally.passes())
    }
}

/// The steps of an actor alone to its end, and one more, before the call that finds none left. None if
/// it doesn't come to its end.
fn steps_to_end(machine: &mut Machine, actor: Actor) -> Option<u64> {
    for steps in 1..10_000 {
        if machine.at_end(actor) {
            return Some(steps);
        }
        machine.step(actor);
    }
    None
}

/// The same of a machine of its own.
fn steps_alone(alloc: Global, job: &Job, actor: Actor) -> Result<Option<u64>, NoMemory> {
    let mut machine = Machine::start(alloc, job)?;
    Ok(steps_to_end(&mut machine, actor))
}

/// The steps of an actor, and one more, in a replay that steps it alone. The actors of these jobs come
/// to their ends alone.
pub fn steps_and_one(alloc: Global, job: &Job, actor: Actor) -> Result<u64, Fail> {
    Ok(steps_alone(alloc, job, actor)?.ok_or("no end")?)
}

/// Whether control alone passes, once a step.
fn passes_of_control<R: Threads + Wait + Sync>(
    rt: &R,
    alloc: Global,
    job: &Job,
) -> Result<bool, Fail> {
    let control = steps_and_one(alloc, job, Actor::Control)?;
    Ok(passes(rt, alloc, job)? == [control, 0, 0, 0, 0])
}

/// Whether control passes once, and each of two CPUs once a step.
fn passes_of_cpus<R: Threads + Wait + Sync>(
    rt: &R,
    alloc: Global,
    job: &Job,
) -> Result<bool, Fail> {
    let first = steps_and_one(alloc, job, Actor::Cpu(CpuNo(0)))?;
    let second = steps_and_one(alloc, job, Actor::Cpu(CpuNo(1)))?;
    Ok(passes(rt, alloc, job)? == [1, first, second, 0, 0])
}

/// Whether control passes once a step, if no CPU is waited for.
fn passes_with_commands<R: Threads + Wait + Sync>(rt: &R, alloc: Global) -> Result<bool, Fail> {
    let job = job_of(alloc, COMMANDS)?;
    passes_of_control(rt, alloc, &job)
}

/// Whether each CPU passes once a step, if nothing is asked for and control has no step.
fn passes_with_calls<R: Threads + Wait + Sync>(rt: &R, alloc: Global) -> Result<bool, Fail> {
    let job = job_of(alloc, CALLS)?;
    passes_of_cpus(rt, alloc, &job)
}

/// How often each passes if all are under way. How often control asks is the threads' choice.
fn passes_with_both<R: Threads + Wait + Sync>(rt: &R, alloc: Global) -> Result<[u64; 5], Fail> {
    let job = job_of(alloc, THREE_AT_ONCE)?;
    passes(rt, alloc, &job)
}

#[test]
fn passes_once_a_step(rt: HostRuntime) -> Result<(), Fail> {
    let alloc = rt.alloc();
    assert!(rt; passes_with_commands(&rt, alloc)?);
    assert!(rt; passes_with_calls(&rt, alloc)?);
    passes_with_both(&rt, alloc)?;
    Ok(())
}
