//! The two lists of tasks, and the mask of those that they allow.

ghost use Rattle.std.specs.Prelude.{◌≡◌, ℕ, ◌-◌, ◌<◌, ◌≤◌, ◌^◌, ◌==◌, length};
ghost use Rattle.std.specs.Int.{bit_at};
ghost use Rattle.ft_base.specs.Marks.{empty};
ghost use Rattle.pid_filter.specs.Lists.{allows, tasks_in};

use ft_base::TaskNo;
use ft_base::limits::TASKS;
use std::marker::Model;

/// The pid list and the nopid list of a number of tasks. Contracts see each as marks, one for each
/// task.
#[derive(Drop)]
pub struct Pids {
    tasks: u32,
    only: u64,
    not: u64,
}

impl Model for Pids {
    ghost use Rattle.std.specs.Prelude.{◌≤◌};
    ghost use Rattle.ft_base.specs.declared.limits.TheConstants.{TASKS};
    ghost use Rattle.pid_filter.specs.Lists.{PidLists, tasks_in};

    ghost Value = { PidLists };

    ghost view = { λ p. record { pids = tasks_in p.tasks p.only; nopids = tasks_in p.tasks p.not } };

    ghost invariant = { λ p. p.tasks ≤ TASKS };
}

impl Pids {
    /// Both lists of this many tasks, and both are empty.
    pub fn new(tasks: u32) -> Pids
        requires { tasks ≤ TASKS }
        ensures lists { result ≡ record { pids = empty tasks; nopids = empty tasks } }
        ensures size { length result.pids ≡ tasks }
    {
        Pids {
            tasks,
            only: 0,
            not: 0,
        }
    }

    /// Makes the tasks of a mask the pid list. Bits of no task are ignored.
    pub fn set(&mut self, only: u64)
        ensures pids { self.new.pids ≡ tasks_in (length self.old.pids) only }
        ensures nopids { self.new.nopids ≡ self.old.nopids }
        ensures size { length self.new.pids ≡ length self.old.pids }
    {
        self.only = only;
    }

    /// Makes the tasks of a mask the nopid list. Bits of no task are ignored.
    pub fn set_not(&mut self, not: u64)
        ensures pids { self.new.pids ≡ self.old.pids }
        ensures nopids { self.new.nopids ≡ tasks_in (length self.old.nopids) not }
        ensures size { length self.new.nopids ≡ length self.old.nopids }
    {
        self.not = not;
    }

    /// The bits of the allowed tasks, the first task in bit 0. No other bit is set.
    pub fn mask(&self) -> u64
        ensures tasks { (t : ℕ) → t < length self.now.pids → (bit_at result t == 1) ≡ allows self.now t }
        ensures others { (t : ℕ) → length self.now.pids ≤ t → bit_at result t ≡ 0 }
    {
        let all = first_bits(self.tasks);
        let only = self.only & all;
        let listed = if only == 0 { all } else { only };
        listed & !self.not
    }
}

/// Whether the task has its bit in a mask.
pub fn allowed(mask: u64, task: TaskNo) -> bool
    requires { task.0 < TASKS }
    ensures { result ≡ (bit_at mask task.0 == 1) }
{
    (mask >> task.0) & 1 == 1
}

/// The bits of the first tasks.
fn first_bits(tasks: u32) -> u64
    requires { tasks ≤ TASKS }
    ensures { result ≡ 2 ^ tasks - 1 }
{
    if tasks < u64::BITS {
        (1 << tasks) - 1
    } else {
        u64::MAX
    }
}
