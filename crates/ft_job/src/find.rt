//! Tasks of CPUs, by number. Each CPU owns its tasks, since it will run on a thread of its own; a
//! look-up by number scans at most 8 CPUs.

ghost use Rattle.std.specs.Prelude.{◌≡◌, ◌≤◌, map, length, sum_by, option_map};
ghost use Rattle.ft_base.specs.declared.limits.TheConstants.{CPUS};
ghost use Rattle.user_specs.specs.Plain.{task_of, cpu_of};
ghost use Rattle.ft_job.specs.Parts.{found_on, found_in, said_of};

use ft_base::limits::TASKS;
use ft_base::{CpuNo, TaskNo};
use user_specs::{CpuPlan, TaskPlan};

/// How many tasks the CPUs have.
pub(crate) fn count(cpus: &[CpuPlan]) -> u32
    requires { sum_by (λ c. length c.tasks) (map cpu_of cpus.now) ≤ TASKS }
    ensures { result ≡ sum_by (λ c. length c.tasks) (map cpu_of cpus.now) }
{
    let mut count: u32 = 0;
    for cpu in cpus {
        count += cpu.tasks.len() as u32;
    }
    count
}

/// The task of this number among those of one CPU.
fn find_on(tasks: &[TaskPlan], task: TaskNo) -> Option<&TaskPlan>
    ensures { option_map (λ p. (p.now.pid, p.now.acts.items)) result ≡ option_map said_of (found_on task.0 0 (map task_of tasks.now)) }
{
    for plan in tasks {
        if plan.task == task {
            return Some(plan);
        }
    }
    None
}

/// The task of this number, on whatever CPU.
pub(crate) fn find(cpus: &[CpuPlan], task: TaskNo) -> Option<&TaskPlan>
    ensures { option_map (λ p. (p.now.pid, p.now.acts.items)) result ≡ option_map said_of (found_in task.0 0 (map cpu_of cpus.now)) }
{
    for cpu in cpus {
        let found = find_on(cpu.tasks.as_slice(), task);
        if found.is_some() {
            return found;
        }
    }
    None
}

/// The CPU that has the task of this number.
pub(crate) fn find_cpu(cpus: &[CpuPlan], task: TaskNo) -> Option<CpuNo>
    requires { length cpus.now ≤ CPUS }
    ensures { option_map (λ c. c.0) result ≡ option_map (λ t. t.cpu) (found_in task.0 0 (map cpu_of cpus.now)) }
{
    for (number, cpu) in cpus.iter().enumerate() {
        if find_on(cpu.tasks.as_slice(), task).is_some() {
            return Some(CpuNo(number as u32));
        }
    }
    None
}
