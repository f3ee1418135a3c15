//! Small plans and histories, and what their rings show.

ghost use Rattle.std.specs.Prelude.{◌≡◌, ◌≤◌, IfOk};
ghost use Rattle.ft_base.specs.declared.limits.TheConstants.{CPUS, RING};

mod jobs;
mod lanes;
mod rows;
mod threads;

use filter_commands::Trigger;
use ft_base::{CallNo, CpuNo, Ctx, FuncNo, Item, Ran, TaskNo, UserNo};
use ring_rules::{Rings, TracePlan};
use site_set::SiteSet;
use std::alloc::{AllocError, Global};

/// A trigger `traceoff` at one of two functions.
fn off_at(alloc: Global, func: FuncNo, limit: Option<u32>) -> Result<Trigger, AllocError> {
    let mut set = SiteSet::empty(alloc, 2)?;
    if func.0 < set.size() {
        set.add(func.0);
    }
    Ok(Trigger {
        on: false,
        limit,
        set,
    })
}

/// A plan of so many CPUs, each with one task, of one user of kind function, and of this trigger.
fn plan_with(alloc: Global, cpus: u32, ring: u32, trigger: Trigger) -> Result<TracePlan, AllocError>
    requires { (1 ≤ cpus) × (cpus ≤ CPUS) × (ring ≤ RING) }
    ensures { IfOk result (λ p. p.cpus ≡ cpus) }
{
    let mut tasks = Vec::new(alloc);
    for c in 0..cpus {
        tasks.push(c)?;
    }
    let users = vec![in alloc; true; 1]?;
    let mut triggers = Vec::new(alloc);
    triggers.push(trigger)?;
    Ok(TracePlan::new(cpus, tasks, users, ring, true, triggers))
}

/// One of the six items of a call, in which the user is called back.
fn item_of_call(call: CallNo, func: FuncNo, item: u32) -> Item {
    let user = UserNo(0);
    match item {
        0 => Item::Enter {
            call,
            ctx: Ctx::Normal,
            func,
            caller: None,
        },
        1 => Item::Back { call, user },
        2 => Item::BackEnd { call, user },
        3 => Item::Body {
            call,
            func,
            ran: Ran::Own(user),
        },
        4 => Item::Leave { call },
        _ => Item::Ret { call, to: None },
    }
}

/// The call of this number of a task, the first of which is number 1.
fn call_of(task: u32, n: u32) -> CallNo {
    CallNo {
        task: TaskNo(task),
        n,
    }
}

/// Whether so many places were written into the ring of a CPU, of which it holds these.
fn is_ring(rings: &Rings, cpu: u32, written: u32, held: &[u32]) -> bool {
    if cpu as usize >= rings.cpus() {
        return false;
    }
    let cpu = CpuNo(cpu);
    if rings.written(cpu) != written || rings.held(cpu) as usize != held.len() {
        return false;
    }
    for i in 0..rings.held(cpu) {
        if held.get(i as usize) != Some(&rings.entry(cpu, i)) {
            return false;
        }
    }
    true
}

/// Whether a trigger fired at these places.
fn is_fired(rings: &Rings, trigger: u32, places: &[u32]) -> bool {
    if trigger >= rings.triggers() || rings.fired(trigger) as usize != places.len() {
        return false;
    }
    for i in 0..rings.fired(trigger) {
        if places.get(i as usize) != Some(&rings.fired_at(trigger, i)) {
            return false;
        }
    }
    true
}
