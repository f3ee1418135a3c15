//! A program that drives the tracer itself: it makes a job by hand, starts its machine, lets control
//! and the CPU step in turn, and prints what each step changes: the five bytes of a call site, and
//! the items that come to the history. `docs/LIBRARY.md` goes through it.
//!
//! Proved: the job is within what the machine asks, and it is the one that the specs write as plain
//! data; each step is the word machine's step of that job; the call site is that of one of its
//! functions; the user isn't called back once its unregistration has returned. Only tested, by its
//! stored output: what it prints, and that it comes to the end.
#![tactic(auto)]

ghost use Rattle.std.specs.Prelude.{◌≡◌, map, IfOk};
ghost use Rattle.user_specs.specs.Plain.{spec_of, cpu_of};
ghost use Rattle.ft_hist.specs.Counts.{backs_of};
ghost use Rattle.word_machine.specs.Machine.{step as machine_step};
ghost use Rattle.ft_machine.specs.Machines.{IsOf, state_of};
ghost use Rattle.step_by_step.specs.TheJob.{the_functions, the_job};
ghost use Rattle.step_by_step.specs.TheParts.{the_parts};
ghost use Rattle.step_by_step.specs.Silence.{items_of, IsSilent};

use ft_base::limits::USUAL_RING;
use ft_base::{Actor, CpuNo, FuncNo, TaskNo, UserNo};
use ft_hist::theorems::silent_after_unregistration;
use ft_job::{Command, Ctl, Job, JobParts};
use ft_machine::Machine;
use ft_schedule::Schedule;
use func_table::FuncTable;
use std::alloc::{AllocError, Global};
use std::io;
use user_specs::{CpuPlan, Kind, Spec, TaskAct, TaskPlan};

/// The function that the task calls. The program shows its call site.
const OPEN: FuncNo = FuncNo(0);

/// The function that is called in the other one.
const READ: FuncNo = FuncNo(1);

/// The user.
const TRACER: UserNo = UserNo(0);

/// The task.
const TASK: TaskNo = TaskNo(0);

/// How many turns control and the CPU have at most.
const TURNS: u32 = 400;

/// The functions. The names differ and the table takes two, so the only fault is out of memory.
fn functions(alloc: Global) -> Result<FuncTable, AllocError>
    ensures { IfOk result (λ table. table.functions ≡ the_functions) }
{
    let mut table = FuncTable::new(alloc, 2);
    let open = table.add(alloc, "vfs_open", None);
    let read = table.add(alloc, "vfs_read", None);
    match (open, read) {
        (Ok(_), Ok(_)) => Ok(table),
        _ => Err(AllocError),
    }
}

/// The users: a function tracer.
fn users(alloc: Global) -> Result<Vec<Spec>, AllocError>
    ensures { IfOk result (λ users. map spec_of users.items ≡ the_parts.users) }
{
    let tracer = Spec {
        name: String::from_str(alloc, "tracer")?,
        kind: Kind::Function,
        regs: false,
        ipmodify: None,
        pid: false,
        act: None,
    };
    Ok(vec![in alloc; tracer]?)
}

/// The CPUs: one, with a task that waits for control's first command, and then makes its two calls.
fn cpus(alloc: Global) -> Result<Vec<CpuPlan>, AllocError>
    ensures { IfOk result (λ cpus. map cpu_of cpus.items ≡ the_parts.cpus) }
{
    let acts = vec![in alloc;
        TaskAct::After(1),
        TaskAct::Call(OPEN),
        TaskAct::Call(READ),
        TaskAct::Ret,
        TaskAct::Ret,
    ]?;
    let task = TaskPlan {
        task: TASK,
        pid: 10,
        acts,
    };
    let tasks = vec![in alloc; task]?;
    let cpu = CpuPlan {
        quantum: 100,
        tasks,
    };
    Ok(vec![in alloc; cpu]?)
}

/// What control does: it registers the tracer, waits until the task has made its five acts, and
/// unregisters the tracer.
fn ctls(alloc: Global) -> Result<Vec<Ctl>, AllocError>
    ensures { IfOk result (λ ctls. ctls.items ≡ the_parts.ctls) }
{
    Ok(vec![in alloc;
        Ctl::Run(Command::Register(TRACER)),
        Ctl::Until {
            task: TASK,
            acts: 5
        },
        Ctl::Run(Command::Unregister(TRACER)),
    ]?)
}

/// The job. It has no frames of a shadow stack, which a function tracer doesn't use, and no
/// schedule: `main` says whose turn it is. It has no lanes, no modules and no triggers.
fn make_job(alloc: Global) -> Result<Job, AllocError>
    ensures { IfOk result (λ job. job ≡ the_job) }
{
    let ctls = ctls(alloc)?;
    let cpus = cpus(alloc)?;
    let specs = users(alloc)?;
    let table = functions(alloc)?;
    Ok(Job::new(JobParts {
        version: 1,
        table,
        specs,
        frames: 0,
        tramps: 1,
        cpus,
        ctls,
        schedule: Schedule {
            turns: Vec::new(alloc),
        },
        lanes: Vec::new(alloc),
        absent: Vec::new(alloc),
        modules: Vec::new(alloc),
        ring: USUAL_RING,
        tracing: true,
        triggers: Vec::new(alloc),
    }))
}

/// The machine of the job before its first step. From here on it doesn't need the job.
fn start(alloc: Global) -> Result<Machine, AllocError>
    ensures { IfOk result (IsOf the_job) }
{
    let job = make_job(alloc)?;
    match Machine::start(alloc, &job) {
        Ok(machine) => Ok(machine),
        Err(_) => Err(AllocError),
    }
}

/// Prints the bytes of a call site.
fn print_site<R: Print>(rt: &R, turn: u32, site: [u8; 5]) -> io::Result<()> {
    let [a, b, c, d, e] = site;
    println!(rt; "{turn:>3}  {a:02x} {b:02x} {c:02x} {d:02x} {e:02x}")
}

/// Prints the call site if these aren't its bytes, and the items from this place on.
fn print_changes<R: Print>(
    rt: &R,
    turn: u32,
    machine: &Machine,
    site: [u8; 5],
    items: u32,
) -> io::Result<()>
    requires { IsOf the_job machine.now }
{
    let now = machine.site(OPEN);
    if now != site {
        print_site(rt, turn, now)?;
    }
    let history = machine.history();
    for place in items..history.len() {
        println!(rt; "{turn:>3}  {:?}", history.item(place))?;
    }
    Ok(())
}

/// Lets an actor step, and prints what that changes.
fn step<R: Print>(rt: &R, turn: u32, machine: &mut Machine, actor: Actor) -> io::Result<()>
    requires { IsOf the_job machine.old }
    ensures of { IsOf the_job machine.new }
    ensures state { state_of the_job machine.new ≡ machine_step the_job actor (state_of the_job machine.old) }
{
    let site = machine.site(OPEN);
    let items = machine.history().len();
    machine.step(actor);
    print_changes(rt, turn, machine, site, items)
}

/// How often the tracer was called back. That number is final once `Unregister` has returned, says a
/// law of `ft_hist`: no callback of the tracer comes after that.
fn callbacks(machine: &Machine) -> u32
    requires { IsOf the_job machine.now }
    ensures count { result ≡ backs_of 0 (items_of machine.now) }
    ensures silent { IsSilent (items_of machine.now) }
{
    silent_after_unregistration();
    machine.history().backs(TRACER)
}

/// Lets control and the CPU step in turn, up to the end.
fn run<R: Print>(rt: &R, machine: &mut Machine) -> io::Result<()>
    requires { IsOf the_job machine.old }
{
    print_site(rt, 0, machine.site(OPEN))?;
    for turn in 1..=TURNS {
        step(rt, turn, machine, Actor::Control)?;
        step(rt, turn, machine, Actor::Cpu(CpuNo(0)))?;
        if machine.all_end() {
            return println!(rt; "{turn:>3}  end, after {} callbacks", callbacks(machine));
        }
    }
    println!(rt; "stopped")
}

fn main(rt: HostRuntime) -> io::Result<()> {
    let mut machine = start(rt.alloc())?;
    run(&rt, &mut machine)
}
