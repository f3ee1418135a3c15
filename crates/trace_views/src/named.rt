//! What the texts need of a job.

use ft_base::{FuncNo, Kind, TaskNo, UserNo};

/// How a task is named: its pid and its CPU.
#[derive(Clone, Copy)]
pub struct TaskName {
    /// Its pid.
    pub pid: u32,
    /// The number of its CPU.
    pub cpu: u32,
}

/// A job's names, and the pid and the CPU of each task, found by number. A job is within the limits of
/// `ft_base::limits`.
pub trait Named {
    ghost use Rattle.std.specs.Prelude.{◌≡◌, ◌+◌, ◌*◌, ◌≤◌, get_or, length};
    ghost use Rattle.ft_base.specs.Desk.{spec_at};
    ghost use Rattle.ft_base.specs.Job.{Job, funcs, no_task};
    ghost use Rattle.ft_base.specs.Versions.{levels};
    ghost use Rattle.ft_base.specs.WellFormed.{IsWellFormed};
    ghost use Rattle.history_laws.specs.Bound.{calls_of};
    ghost use Rattle.trace_views.specs.ModulesText.{module_word};
    ghost use Rattle.trace_views.specs.Words.{function_word, user_word, pid_at, cpu_at, lane_at};

    /// The job.
    ghost job: { Self → Job };

    /// The name of a function. Empty if the job doesn't have the number.
    fn function(&self, function: FuncNo) -> &str
        ensures { result.now ≡ function_word (job self.now) function.0 };

    /// The name of a module. Empty if the job doesn't have the number.
    fn module(&self, number: u32) -> &str
        ensures { result.now ≡ module_word (job self.now) number };

    /// The name of a user. Empty if the job doesn't have the number.
    fn user(&self, user: UserNo) -> &str
        ensures { result.now ≡ user_word (job self.now) user.0 };

    /// The kind of a user. `Function` if the job doesn't have the number.
    fn kind(&self, user: UserNo) -> Kind
        ensures { result ≡ (spec_at (job self.now) user.0).kind };

    /// The pid and the CPU of a task. Both are 0 if the job doesn't have the number.
    fn task(&self, task: TaskNo) -> TaskName
        ensures pid { result.pid ≡ pid_at (job self.now) task.0 }
        ensures cpu { result.cpu ≡ cpu_at (job self.now) task.0 };

    /// The lane of a command, which is numbered from 1. `None` if the job has no lanes, or no such
    /// command.
    fn lane(&self, command: u32) -> Option<u32>
        ensures { result ≡ lane_at (job self.now) command };

    /// How many functions there are.
    fn functions(&self) -> u32
        ensures { result ≡ funcs (job self.now) };

    /// How many users there are.
    fn users(&self) -> u32
        ensures count { result ≡ length (job self.now).users }
        ensures formed { IsWellFormed (job self.now) };

    /// How many tasks there are, over all CPUs.
    fn tasks(&self) -> u32
        ensures { result ≡ length (job self.now).tasks };

    /// Room for the open calls of a task: one for each act of its script, of which no more can be calls,
    /// and one for each level of the guards of two contexts.
    fn deepest(&self, task: TaskNo) -> u32
        ensures calls { calls_of (job self.now) task.0 + 2 * levels (job self.now) ≤ result }
        ensures room { result ≡ length (get_or (job self.now).tasks task.0 no_task).acts + 2 * levels (job self.now) };
}
