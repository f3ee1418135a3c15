//! The CPUs of a script before their first steps.

ghost use Rattle.std.specs.Prelude.{ℕ, ◌≡◌, ◌≤◌, ◌*◌, length, sum_by, All, IfOk};
ghost use Rattle.std.specs.Option.{is_none};
ghost use Rattle.ft_base.specs.declared.limits.TheConstants.{ACTS, TASKS};
ghost use Rattle.ft_base.specs.Job.{Job};
ghost use Rattle.user_specs.specs.declared.plan.TaskPlan.{TaskPlan as DeclaredPlan};
ghost use Rattle.user_specs.specs.Bound.{call_bound_in};
ghost use Rattle.history_laws.specs.Bound.{all_calls, calls_in};
ghost use Rattle.word_map.specs.declared.shape.Shape.{Shape};
ghost use Rattle.word_machine.specs.Cpu.{cpu_next};
ghost use Rattle.word_machine.specs.Laws.{room_on};
ghost use Rattle.word_machine.specs.Limits.{IsLimited};
ghost use Rattle.cpu_core.specs.Cpus.{IsFor, cpu_of};
ghost use Rattle.ft_machine.specs.Starts.{AreFirst, ArePlansOf, IsFirst, IsPlanOf, own_room};

use cpu_core::Cpu;
use ft_base::limits::Limits;
use ft_base::{CpuNo, NoMemory, TaskAct};
use std::alloc::Global;
use user_specs::{CpuPlan, Spec, call_bound};
use word_map::WordMap;

/// What each task has room for.
#[derive(Clone, Copy)]
pub struct TaskLimits {
    /// Frames of its shadow stack.
    pub frames: u32,
    /// The version of the language, which says how many of its callbacks can be open at a time in one
    /// context.
    pub version: u8,
}

/// How many items each CPU has room for.
#[derive(Clone, Copy)]
pub enum CpuRoom {
    /// One: a history takes each over at once.
    ForOne,
    /// All that its tasks mark.
    ForAll,
}

/// A CPU for each of these plans. The error says that memory ran out.
pub(crate) fn new_cpus(
    alloc: Global,
    plans: &[CpuPlan],
    specs: &[Spec],
    limits: TaskLimits,
    rooms: CpuRoom,
    map: WordMap,
) -> Result<Vec<Cpu>, NoMemory>
    requires { (job : Job) × ArePlansOf job plans.now specs.now limits map }
    ensures { IfOk result (λ cpus. (job : Job) → ArePlansOf job plans.now specs.now limits map → AreFirst rooms job cpus.items) }
{
    let mut cpus = Vec::with_capacity(alloc, plans.len()).map_err(|_| NoMemory)?;
    for c in 0..map.shape().cpus {
        let plan = &plans[c as usize];
        cpus.push_reserved(new_cpu(alloc, plan, CpuNo(c), specs, limits, rooms, map)?);
    }
    Ok(cpus)
}

/// A CPU of this number. The error says that memory ran out.
fn new_cpu(
    alloc: Global,
    plan: &CpuPlan,
    cpu: CpuNo,
    specs: &[Spec],
    limits: TaskLimits,
    rooms: CpuRoom,
    map: WordMap,
) -> Result<Cpu, NoMemory>
    requires { (job : Job) × IsPlanOf job plan.now cpu.0 specs.now limits map }
    ensures { IfOk result (λ made. (job : Job) → IsPlanOf job plan.now cpu.0 specs.now limits map → IsFirst rooms job cpu.0 made) }
{
    let room = own_room(rooms, plan, specs, limits);
    Cpu::new(
        alloc,
        plan,
        cpu,
        specs,
        limits.frames,
        limits.version,
        room,
        map,
    )
}

/// Whether a CPU has no operation left.
pub(crate) fn has_ended(cpu: &Cpu) -> bool
    ensures { (job : Job) → IsLimited job → IsFor job cpu.now → result ≡ is_none (cpu_next job (cpu_of job cpu.now)) }
{
    cpu.next().is_none()
}

/// How many items a CPU has room for.
fn own_room(rooms: CpuRoom, plan: &CpuPlan, specs: &[Spec], limits: TaskLimits) -> u32
    requires { (job : Job) × (c : ℕ) × (shape : Shape) × IsPlanOf job plan.now c specs.now limits shape }
    ensures { (job : Job) (c : ℕ) (shape : Shape) → IsPlanOf job plan.now c specs.now limits shape → result ≡ own_room rooms job c }
{
    match rooms {
        CpuRoom::ForOne => 1,
        CpuRoom::ForAll => room_of(plan, specs, limits),
    }
}

/// Room for all items that the calls of the tasks of all CPUs can make.
pub(crate) fn all_rooms(plans: &[CpuPlan], specs: &[Spec], limits: TaskLimits) -> u32
    requires { (job : Job) × (shape : Shape) × ArePlansOf job plans.now specs.now limits shape }
    ensures { (job : Job) (shape : Shape) → IsLimited job → ArePlansOf job plans.now specs.now limits shape
        → result ≡ call_bound_in job * all_calls job.tasks }
{
    let mut room: u32 = 0;
    for plan in plans {
        room += room_of(plan, specs, limits);
    }
    room
}

/// Room for all items that the calls of a CPU's tasks can make.
fn room_of(plan: &CpuPlan, specs: &[Spec], limits: TaskLimits) -> u32
    requires { (job : Job) × (c : ℕ) × (shape : Shape) × IsPlanOf job plan.now c specs.now limits shape }
    ensures { (job : Job) (c : ℕ) (shape : Shape) → IsPlanOf job plan.now c specs.now limits shape → result ≡ room_on job c }
{
    let levels = Limits::of(limits.version).levels;
    call_bound(specs, u32::from(levels)) * calls_of(plan)
}

/// How many calls the scripts of a CPU's tasks make.
pub fn calls_of(plan: &CpuPlan) -> u32
    requires tasks { length plan.now.tasks.items ≤ TASKS }
    requires acts { All (λ (p : DeclaredPlan). length p.acts.items ≤ ACTS) plan.now.tasks.items }
    ensures { result ≡ sum_by (λ (p : DeclaredPlan). calls_in p.acts.items) plan.now.tasks.items }
{
    let mut calls: u32 = 0;
    for task in plan.tasks.as_slice() {
        calls += calls_in(task.acts.as_slice());
    }
    calls
}

/// How many of these acts are calls.
fn calls_in(acts: &[TaskAct]) -> u32
    requires { length acts.now ≤ ACTS }
    ensures calls { result ≡ calls_in acts.now }
    ensures few { result ≤ length acts.now }
{
    let mut calls: u32 = 0;
    for act in acts {
        if let TaskAct::Call(_) = act {
            calls += 1;
        }
    }
    calls
}
