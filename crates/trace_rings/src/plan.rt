//! What rings need to know of a job.

ghost use Rattle.std.specs.Prelude.{◌≡◌, ◌<◌, get_or, length, map, IfOk};
ghost use Rattle.ft_base.specs.Job.{no_task};
ghost use Rattle.filter_commands.specs.Meanings.{plain_trigger};
ghost use Rattle.user_specs.specs.Plain.{spec_of};
ghost use Rattle.ring_rules.specs.Plan.{plan_of};
ghost use Rattle.ft_base.specs.Kinds.{is_function};

use filter_commands::Trigger;
use ft_base::{NoMemory, TaskNo};
use ft_job::Job;
use ring_rules::TracePlan;
use std::alloc::Global;
use user_specs::Spec;

/// What rings need to know of a job: its CPUs and which tasks they have, which users are of kind
/// function, how long the rings are, whether tracing is on at first, and the triggers. The error says
/// that memory ran out.
pub fn trace_plan(alloc: Global, job: &Job) -> Result<TracePlan, NoMemory>
    ensures { IfOk result (λ p. p ≡ plan_of job.now) }
{
    // The job is within its limits, and so is the plan.
    job.users();
    let cpus = job.cpus().len() as u32;
    let tasks = cpus_of_tasks(alloc, job)?;
    let users = function_users(alloc, job.specs())?;
    let triggers = copy_triggers(alloc, job.triggers())?;
    Ok(TracePlan::new(cpus, tasks, users, job.ring(), job.tracing(), triggers))
}

/// The CPU of each task. The error says that memory ran out.
fn cpus_of_tasks(alloc: Global, job: &Job) -> Result<Vec<u32>, NoMemory>
    ensures { IfOk result (λ v. v.items ≡ map (λ t. t.cpu) job.now.tasks) }
{
    let count = job.tasks();
    let mut cpus = Vec::with_capacity(alloc, count as usize).map_err(|_| NoMemory)?;
    for t in 0..count {
        cpus.push_reserved(cpu_of_task(job, TaskNo(t)));
    }
    Ok(cpus)
}

/// The CPU of a task.
fn cpu_of_task(job: &Job, task: TaskNo) -> u32
    requires { task.0 < length job.now.tasks }
    ensures { result ≡ (get_or job.now.tasks task.0 no_task).cpu }
{
    match job.cpu(task) {
        Some(cpu) => cpu.0,
        None => 0,
    }
}

/// Whether each user is of kind function. The error says that memory ran out.
fn function_users(alloc: Global, specs: &[Spec]) -> Result<Vec<bool>, NoMemory>
    ensures { IfOk result (λ v. v.items ≡ map (λ s. is_function s.kind) (map spec_of specs.now)) }
{
    let mut users = Vec::with_capacity(alloc, specs.len()).map_err(|_| NoMemory)?;
    for spec in specs {
        users.push_reserved(is_function_user(spec));
    }
    Ok(users)
}

/// Whether a user is of kind function.
fn is_function_user(spec: &Spec) -> bool
    ensures { result ≡ is_function (spec_of spec.now).kind }
{
    spec.kind.is_function()
}

/// The same triggers. The error says that memory ran out.
fn copy_triggers(alloc: Global, triggers: &[Trigger]) -> Result<Vec<Trigger>, NoMemory>
    ensures { IfOk result (λ v. map plain_trigger v.items ≡ map plain_trigger triggers.now) }
{
    let mut copies = Vec::with_capacity(alloc, triggers.len()).map_err(|_| NoMemory)?;
    for trigger in triggers {
        copies.push_reserved(copy_trigger(trigger)?);
    }
    Ok(copies)
}

/// The same trigger. The error says that memory ran out.
fn copy_trigger(trigger: &Trigger) -> Result<Trigger, NoMemory>
    ensures { IfOk result (λ t. plain_trigger t ≡ plain_trigger trigger.now) }
{
    let set = trigger.set.copy().map_err(|_| NoMemory)?;
    Ok(Trigger {
        on: trigger.on,
        limit: trigger.limit,
        set,
    })
}
