//! Schedules that hold an actor at each moment, while another goes on: what a CPU sees of a command
//! that is half carried out, and what control waits for. Each history keeps the rules of callbacks.

use super::jobs::job_of;
use ft_base::{CpuNo, NoMemory, Who};
use ft_job::Job;
use ft_machine::{Machine, replay};
use ft_schedule::{Player, Schedule, held};
use history_check::backs_legal;
use std::alloc::{AllocError, Global};
use std::test::Fail;

/// The one CPU.
const CPU: Who = Who::Cpu(CpuNo(0));

/// How many calls a task makes, so that there are calls before, during and after each command.
const CALLS: u32 = 20;

/// Users, how many tasks there are, and commands. A user is registered and unregistered; one of two
/// users on the list is unregistered; what a user traces changes while the list may be walked; an
/// fprobe is disabled, perhaps between a call and its return; a graph user is unregistered and
/// registered again. Then one of three users on the list is unregistered, and one while a task may be
/// switched away within its callback. Callbacks that call a function last for a while.
static JOBS: [(&str, u8, &str); 7] = [
    (
        "user t function call b\n",
        1,
        "ctl register t\nctl unregister t\n",
    ),
    (
        "user t function\nuser s function call b\n",
        1,
        "ctl register t\nctl register s\nctl unregister s\n",
    ),
    (
        "user t function call b\nuser s function\nuser r function call b\n",
        1,
        "ctl register t\nctl register s\nctl register r\nctl notrace t > a\n",
    ),
    ("user p fprobe exit\n", 1, "ctl register p\nctl disable p\n"),
    (
        "user g graph\n",
        1,
        "ctl register g\nctl unregister g\nctl register g\n",
    ),
    (
        "user t function\nuser s function call b\nuser r function\n",
        1,
        "ctl register t\nctl register s\nctl register r\nctl unregister s\n",
    ),
    (
        "user t function call b\n",
        2,
        "ctl register t\nctl unregister t\n",
    ),
];

/// The last moment at which an actor is held, in its own steps.
const LAST: u32 = 80;

/// How long the other actor goes on meanwhile.
const HELD: u32 = 200;

/// The quanta that are tried are below this one.
const QUANTA: u32 = 21;

/// Two tasks of which the second may be switched away within its callback, with this quantum.
const PREEMPTED: (&str, &str) = (
    "ftrace 1\nfunc a\nuser tr function\ncpu 0 quantum ",
    "\ntask 11 cpu 0\nafter 1\nsoftirq\niret\nsoftirq\niret\ntask 10 cpu 0\nafter 1\nsoftirq\niret\ncall a\nret\n\
     ctl register tr\nctl unregister tr\nsched all*2000\n",
);

/// A callback that calls a function, in its own context or by an interrupt, with this quantum.
const CALLING: (&str, &str) = (
    "ftrace 1\nfunc a\nfunc b\nuser t1 function call b\ncpu 0 quantum ",
    "\ntask 10 cpu 0\nafter 1\ncall a\nret\nctl register t1\nsched all*2000\n",
);

const INTERRUPTED: (&str, &str) = (
    "ftrace 1\nfunc a\nfunc b\nuser t1 function irq b\ncpu 0 quantum ",
    "\ntask 10 cpu 0\nafter 1\ncall a\nret\nctl register t1\nsched all*2000\n",
);

/// The texts before and after a quantum.
static AROUND_QUANTA: [(&str, &str); 3] = [PREEMPTED, CALLING, INTERRUPTED];

/// Whether a job comes to its end under a schedule, and its history keeps the rules.
fn keeps_rules(alloc: Global, job: &Job, schedule: &Schedule) -> Result<bool, NoMemory> {
    let mut machine = Machine::start(alloc, job)?;
    let mut player = Player::new(schedule, 1);
    while let Some(actor) = player.next_actor() {
        machine.step(actor);
    }
    if machine.all_end() {
        backs_legal(alloc, job, machine.history())
    } else {
        Ok(false)
    }
}

/// Whether it does so if the first actor is brought to its moment `at`, and held while another goes on.
fn keeps_rules_held(
    alloc: Global,
    job: &Job,
    first: Who,
    at: u32,
    other: Who,
) -> Result<bool, NoMemory> {
    let schedule = held(alloc, first, at, other, HELD)?;
    keeps_rules(alloc, job, &schedule)
}

/// The first moment at which holding an actor breaks a rule, if there is one.
fn broken(alloc: Global, job: &Job, first: Who, hold: Who) -> Result<Option<u32>, NoMemory> {
    for at in 0..LAST + 1 {
        if !keeps_rules_held(alloc, job, first, at, hold)? {
            return Ok(Some(at));
        }
    }
    Ok(None)
}

/// Adds a task of this pid with its calls.
fn add_task(text: &mut String, pid: u32) -> Result<(), AllocError> {
    write!(text, "task {pid} cpu 0\n")?;
    for _ in 0..CALLS {
        text.push_str("call a\nret\n")?;
    }
    Ok(())
}

/// The script of a job: two functions, these users, a CPU with so many tasks, and these commands.
fn script(alloc: Global, users: &str, tasks: u8, commands: &str) -> Result<String, AllocError> {
    let mut text = format!(in alloc; "ftrace 1\nfunc a\nfunc b\n{users}cpu 0 quantum 3\n")?;
    for task in 0..tasks {
        add_task(&mut text, 10 + u32::from(task))?;
    }
    text.push_str(commands)?;
    Ok(text)
}

/// The job of such a script.
fn job_with(alloc: Global, users: &str, tasks: u8, commands: &str) -> Result<Job, Fail> {
    let text = script(alloc, users, tasks, commands)?;
    job_of(alloc, text.as_str())
}

/// Whether a job keeps the rules at each moment at which control or the CPU is held.
fn is_never_broken(alloc: Global, job: &Job) -> Result<bool, NoMemory> {
    let by_control = broken(alloc, job, Who::Control, CPU)?;
    let by_cpu = broken(alloc, job, CPU, Who::Control)?;
    Ok(by_control.is_none() && by_cpu.is_none())
}

#[test]
fn keeps_rules_whoever_is_held(rt: HostRuntime) -> Result<(), Fail> {
    let alloc = rt.alloc();
    for (users, tasks, commands) in &JOBS {
        let job = job_with(alloc, users, *tasks, commands)?;
        assert!(rt; is_never_broken(alloc, &job)?, "{commands}");
    }
    Ok(())
}

/// The job of a script with a quantum between these texts.
fn job_at(alloc: Global, before: &str, quantum: u32, after: &str) -> Result<Job, Fail> {
    let text = format!(in alloc; "{before}{quantum}{after}")?;
    job_of(alloc, text.as_str())
}

/// Whether a job comes to its end by its own schedule, with a history that keeps the rules.
fn replays_by_rules(alloc: Global, job: &Job) -> Result<bool, NoMemory> {
    let outcome = replay(alloc, job)?;
    if outcome.ended {
        backs_legal(alloc, job, &outcome.history)
    } else {
        Ok(false)
    }
}

/// The first quantum between these texts at which that isn't so, if there is one.
fn broken_quantum(alloc: Global, before: &str, after: &str) -> Result<Option<u32>, Fail> {
    for quantum in 1..QUANTA {
        let job = job_at(alloc, before, quantum, after)?;
        if !replays_by_rules(alloc, &job)? {
            return Ok(Some(quantum));
        }
    }
    Ok(None)
}

#[test]
fn keeps_rules_at_each_quantum(rt: HostRuntime) -> Result<(), Fail> {
    let alloc = rt.alloc();
    for (before, after) in &AROUND_QUANTA {
        assert!(rt; broken_quantum(alloc, before, after)? == None);
    }
    Ok(())
}
