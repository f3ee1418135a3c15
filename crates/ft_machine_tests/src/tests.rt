//! Steps of a machine whose job has each kind of line and act. What its replays print stands in
//! tools/ftlog/checks/script_texts.py.

mod hostile;
mod jobs;
mod judged;

use ft_base::{Actor, CpuNo, NoMemory};
use ft_job::Job;
use ft_machine::Machine;
use jobs::{D, busy_job};
use std::alloc::Global;
use std::test::Fail;

const CONTROL: Actor = Actor::Control;

const SECOND: Actor = Actor::Cpu(CpuNo(1));

/// The CPU that has no task.
const FIFTH: Actor = Actor::Cpu(CpuNo(4));

/// A CPU that the busy job doesn't have.
const SIXTH: Actor = Actor::Cpu(CpuNo(5));

/// Control and the five CPUs.
static ALL: [Actor; 6] = [
    CONTROL,
    Actor::Cpu(CpuNo(0)),
    SECOND,
    Actor::Cpu(CpuNo(2)),
    Actor::Cpu(CpuNo(3)),
    FIFTH,
];

const NOP: [u8; 5] = [0x0F, 0x1F, 0x44, 0x00, 0x00];

/// Its first byte is a breakpoint.
const BREAKPOINT: [u8; 5] = [0xCC, 0x1F, 0x44, 0x00, 0x00];

/// A call of the trampoline at 0x100000, less the address after the five bytes at 0x10C0.
const CALL: [u8; 5] = [0xE8, 0x3B, 0xEF, 0x0F, 0x00];

/// How many users are sited at `d` after so many of the four commands, of which the second and the
/// fourth are refused.
static SITED: [(u32, u32); 6] = [(0, 0), (1, 1), (2, 1), (3, 0), (4, 0), (9, 0)];

/// A machine whose job is gone.
fn alone(alloc: Global) -> Result<Machine, Fail> {
    let job = busy_job(alloc)?;
    Ok(Machine::start(alloc, &job)?)
}

/// So many steps of an actor.
fn step_often(machine: &mut Machine, actor: Actor, steps: u32) {
    for _ in 0..steps {
        machine.step(actor);
    }
}

/// One step of each actor.
fn step_all(machine: &mut Machine) {
    for actor in &ALL {
        machine.step(*actor);
    }
}

/// So many steps of each actor, in turn.
fn step_in_turn(machine: &mut Machine, rounds: u32) {
    for _ in 0..rounds {
        step_all(machine);
    }
}

/// Whether all come to their ends in turn, with as many items as the script's replay.
fn ends_in_turn(machine: &mut Machine) -> bool {
    step_in_turn(machine, 1000);
    machine.all_end() && machine.history().len() == 28
}

#[test]
fn outlives_its_job(rt: HostRuntime) -> Result<(), Fail> {
    let mut machine = alone(rt.alloc())?;
    assert!(rt; ends_in_turn(&mut machine));
    Ok(())
}

/// Whether none of the actors is at its end.
fn is_none_at_end(machine: &Machine) -> bool {
    ALL.iter().all(|actor| !machine.at_end(*actor))
}

/// Whether the fifth CPU is at its end after some steps, one that the job doesn't have isn't, and not
/// all are.
fn fifth_ends(machine: &mut Machine) -> bool {
    step_often(machine, FIFTH, 4);
    step_often(machine, SIXTH, 4);
    machine.at_end(FIFTH) && !machine.at_end(SIXTH) && !machine.all_end()
}

/// Whether a machine tells who is at the end. A CPU comes to its end by a step: also the fourth, whose
/// task has no acts, the fifth, which has no task, and one that the job doesn't have never does.
fn tells_ends(machine: &mut Machine) -> bool {
    if !is_none_at_end(machine) || !fifth_ends(machine) {
        return false;
    }
    step_often(machine, SECOND, 20);
    machine.at_end(SECOND)
}

#[test]
fn tells_who_is_at_the_end(rt: HostRuntime) -> Result<(), Fail> {
    let mut machine = alone(rt.alloc())?;
    assert!(rt; tells_ends(&mut machine));
    Ok(())
}

/// Whether these are the bytes of the site of `d`.
fn is_site_of_d(machine: &Machine, site: [u8; 5]) -> bool {
    D.0 < machine.functions() && machine.site(D) == site
}

/// Steps all actors to their ends, in turn. Whether the site of `d` was the call in between.
fn step_past_call(machine: &mut Machine) -> bool {
    let mut whole = false;
    for _ in 0..1000 {
        step_all(machine);
        whole = whole || is_site_of_d(machine, CALL);
    }
    whole
}

/// Whether control, once it may go on, breaks the site of `d` before it waits: it stores the new
/// instruction of each site and then its breakpoint.
fn breaks_site(machine: &mut Machine) -> bool {
    step_often(machine, SECOND, 20);
    step_often(machine, CONTROL, 60);
    is_site_of_d(machine, BREAKPOINT)
}

/// Whether the site of `d` is a nop, a breakpoint, a call, and a nop again.
fn patches_site(machine: &mut Machine) -> bool {
    is_site_of_d(machine, NOP)
        && breaks_site(machine)
        && step_past_call(machine)
        && is_site_of_d(machine, NOP)
}

#[test]
fn patches_sites(rt: HostRuntime) -> Result<(), Fail> {
    let mut machine = alone(rt.alloc())?;
    assert!(rt; patches_site(&mut machine));
    Ok(())
}

/// Whether so many users are sited at `d` after the first `k` commands.
fn are_sited_at_d(alloc: Global, job: &Job, k: u32, users: u32) -> Result<bool, NoMemory> {
    let desk = job.desk(alloc, k)?;
    Ok(D.0 < desk.functions() && desk.row(D).count == users)
}

#[test]
fn has_a_desk_after_each_command(rt: HostRuntime) -> Result<(), Fail> {
    let alloc = rt.alloc();
    let job = busy_job(alloc)?;
    for (k, users) in &SITED {
        assert!(rt; are_sited_at_d(alloc, &job, *k, *users)?, "{k}");
    }
    Ok(())
}
