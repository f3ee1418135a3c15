//! Look-ups of users by name, and of tasks by pid, one or several. There are few of them, so each
//! look-up goes through all. The first function of a pair speaks of the program's users and tasks, and
//! the second of those of the definitions.

ghost use Rattle.std.specs.Prelude.{◌≡◌, ◌==◌, ◌<◌, ◌≤◌, map, position, string_bytes, IfSome, length};
ghost use Rattle.std.specs.List.{list_any};
ghost use Rattle.std.specs.Str.{bytes_eq};
ghost use Rattle.user_specs.specs.Plain.{spec_of};
ghost use Rattle.pid_filter.specs.Lists.{tasks_in};
ghost use Rattle.script_waits.specs.Tasks.{lined_task};

use ft_base::limits::TASKS;
use script_waits::LinedTask;
use user_specs::Spec;

fn user_place(users: &[Spec], name: &str) -> Option<usize>
    ensures place { result ≡ position (λ user. bytes_eq name.now (string_bytes user.name)) users.now }
    ensures within { IfSome result (λ i. i < length users.now) }
{
    users.iter().position(|user| name == user.name.as_str())
}

/// The number of the user of this name.
pub fn user_number(users: &[Spec], name: &str) -> Option<usize>
    ensures place { result ≡ position (bytes_eq name.now) (map (λ u. u.name) (map spec_of users.now)) }
    ensures within { IfSome result (λ i. i < length users.now) }
{
    user_place(users, name)
}

fn task_place(tasks: &[LinedTask], pid: u64) -> Option<usize>
    ensures place { result ≡ position (λ task. task.pid == pid) tasks.now }
    ensures within { IfSome result (λ i. i < length tasks.now) }
{
    tasks.iter().position(|task| u64::from(task.pid) == pid)
}

/// The number of the task with this pid.
pub fn task_number(tasks: &[LinedTask], pid: u64) -> Option<usize>
    ensures place { result ≡ position (λ p. p == pid) (map (λ task. task.pid) (map lined_task tasks.now)) }
    ensures within { IfSome result (λ i. i < length tasks.now) }
{
    task_place(tasks, pid)
}

/// Whether the list has the pid.
fn is_listed(list: &[u64], pid: u32) -> bool
    ensures { result ≡ list_any (λ p. p == pid) list.now }
{
    list.iter().any(|p| *p == u64::from(pid))
}

/// A mask with a bit for each task, set if the list has its pid.
pub fn pid_mask(tasks: &[LinedTask], list: &[u64]) -> u64
    requires { length tasks.now ≤ TASKS }
    ensures { tasks_in (length tasks.now) result ≡ map (λ task. list_any (λ p. p == task.pid) list.now) (map lined_task tasks.now) }
{
    let mut mask = 0;
    for i in 0..tasks.len() {
        let task = &tasks[i];
        if is_listed(list, task.pid) {
            mask |= 1 << i;
        }
    }
    mask
}
