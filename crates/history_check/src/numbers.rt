//! What the commands tell of a desk beside its users' sets: registration numbers, whom the pid lists
//! allow, and the graph depth.

ghost use Rattle.std.specs.Prelude.{◌≡◌, ℕ, ◌+◌, ◌<◌, ◌≤◌, ◌^◌, ◌==◌, IfOk, get_or, length, replicate, set};
ghost use Rattle.std.specs.Int.{bit_at};
ghost use Rattle.ft_base.specs.declared.limits.TheConstants.{TASKS};
ghost use Rattle.ft_base.specs.Desk.{Desk as PlainDesk, is_allowed, opening, user_at};
ghost use Rattle.ft_base.specs.Job.{Job as PlainJob};
ghost use Rattle.ft_desk.specs.Commands.{command_of};
ghost use Rattle.history_check.specs.DeskNumbers.{AreNumbersOf, desk_after};

use ft_base::{Answer, NoMemory, UserNo};
use ft_desk::Command;
use pid_filter::Pids;
use std::alloc::Global;

/// The numbers of a desk after the commands so far.
#[derive(Drop)]
pub(crate) struct Numbers {
    /// How often each user was registered.
    regs: Vec<u32>,
    pids: Pids,
    /// The graph depth, 0 without a limit.
    depth: u32,
}

impl Numbers {
    /// Before any command. The error says that memory ran out.
    pub(crate) fn new(alloc: Global, users: u32, tasks: u32) -> Result<Numbers, NoMemory>
        requires { tasks ≤ TASKS }
        ensures { IfOk result (λ t. (job : PlainJob) → users ≡ length job.users → tasks ≡ length job.tasks → AreNumbersOf tasks (opening job) 0 t) }
    {
        let regs = zeros(alloc, users)?;
        Ok(Numbers {
            regs,
            pids: Pids::new(tasks),
            depth: 0,
        })
    }

    /// One more command, and its answer on the desk before it.
    pub(crate) fn note(&mut self, command: &Command, answer: Answer)
        requires few { (u : ℕ) → get_or self.old.regs.items u 0 + 1 < 2 ^ 32 }
        ensures { (job : PlainJob) (d : PlainDesk) (k n tasks : ℕ) → AreNumbersOf tasks d n self.old
            → AreNumbersOf tasks (desk_after job d k answer (command_of tasks command.now)) (n + 1) self.new }
    {
        if answer != Answer::Accepted {
            return;
        }
        match command {
            Command::Register(user) => self.register(*user),
            Command::Pid(mask) => self.pids.set(*mask),
            Command::NoPid(mask) => self.pids.set_not(*mask),
            Command::MaxDepth(depth) => self.depth = *depth,
            _ => {}
        }
    }

    /// The tasks that the pid lists allow, a bit for each.
    pub(crate) fn allowed(&self) -> u64
        ensures { (d : PlainDesk) (tasks n t : ℕ) → AreNumbersOf tasks d n self.now → t < tasks → (bit_at result t == 1) ≡ is_allowed d t }
    {
        self.pids.mask()
    }

    /// The graph depth, 0 without a limit.
    pub(crate) fn depth(&self) -> u32
        ensures { (d : PlainDesk) (tasks n : ℕ) → AreNumbersOf tasks d n self.now → result ≡ d.depth }
    {
        self.depth
    }

    /// How often a user was registered. A user that there isn't never was.
    pub(crate) fn reg(&self, user: UserNo) -> u32
        ensures { (d : PlainDesk) (tasks n : ℕ) → AreNumbersOf tasks d n self.now → result ≡ (user_at d user.0).reg }
    {
        match self.regs.get(user.0 as usize) {
            Some(reg) => *reg,
            None => 0,
        }
    }

    /// The user is registered once more.
    fn register(&mut self, user: UserNo)
        requires { get_or self.old.regs.items user.0 0 + 1 < 2 ^ 32 }
        ensures regs { self.new.regs.items ≡ set self.old.regs.items user.0 (get_or self.old.regs.items user.0 0 + 1) }
        ensures rest { (self.new.pids ≡ self.old.pids) × (self.new.depth ≡ self.old.depth) }
    {
        if let Some(reg) = self.regs.get_mut(user.0 as usize) {
            *reg += 1;
        }
    }
}

/// So many zeros. The error says that memory ran out.
pub(crate) fn zeros(alloc: Global, count: u32) -> Result<Vec<u32>, NoMemory>
    ensures { IfOk result (λ v. v.items ≡ replicate count 0) }
{
    vec![in alloc; 0; count as usize].map_err(|_| NoMemory)
}
