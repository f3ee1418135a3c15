//! What a judge keeps of the items so far, and what it says of the next one.

ghost use Rattle.std.specs.Prelude.{◌≡◌, ℕ, ◌+◌, ◌<◌, ◌^◌, [], ◌∷◌, List, length, true, slice_get, Some, IfOk, IsTrue, ◌↔◌, option_map, sum_by, ◌≤◌};
ghost use Rattle.ft_base.specs.declared.item.Item.{Item};
ghost use Rattle.ft_base.specs.declared.limits.TheConstants.{ACTS, TASKS};
ghost use Rattle.ft_base.specs.Job.{Job as PlainJob};
ghost use Rattle.ft_hist.specs.Past.{miss_due};
ghost use Rattle.ft_hist.specs.Rules.{HasEnded, KeepsPlainRun};
ghost use Rattle.history_check.specs.declared.task_past.TaskPast.{TaskPast};
ghost use Rattle.history_check.specs.TaskCalls.{due_of};
ghost use Rattle.history_check.specs.JudgePast.{AreStarting, IsAtEnd, IsFirstBroken, IsNext, IsPast, IsPastAt, IsTopOf};

use crate::callbacks::Callbacks;
use crate::desks::Desks;
use crate::open_call::OpenCall;
use crate::rules;
use crate::run::TaskRun;
use crate::task_past::{Due, TaskPast};
use crate::verdict::Rule;
use ft_base::limits::Limits;
use ft_base::{Item, NoMemory, TaskNo};
use ft_desk::Ctl;
use ft_job::Job;
use std::alloc::Global;
use std::collections::VecDeque;
use user_specs::Spec;

/// What is kept of the items so far.
#[derive(Drop)]
pub struct Past<'a> {
    pub desks: Desks,
    /// The users.
    pub specs: &'a [Spec],
    /// How many frames the shadow stack of a task has.
    pub frames: u32,
    /// How many levels each guard has.
    pub(crate) levels: u8,
    /// Control's lines after those up to the command that began last.
    pub(crate) lines: &'a [Ctl],
    pub(crate) tasks: Vec<TaskPast<'a>>,
    /// The open callbacks of all tasks.
    pub callbacks: Callbacks,
    /// How many commands have returned.
    pub done: u32,
    /// How many have begun.
    pub begun: u32,
    /// How many items there were.
    pub place: u32,
}

impl<'a> Past<'a> {
    /// Before the first item. The error says that memory ran out.
    pub fn new(alloc: Global, job: &'a Job) -> Result<Past<'a>, NoMemory>
        ensures { IfOk result (λ p. IsPast job.now [] p) }
    {
        let desks = Desks::new(alloc, job)?;
        let tasks = starting(alloc, job)?;
        let callbacks = Callbacks::new(alloc);
        let limits = Limits::of(job.version());
        Ok(Past {
            desks,
            specs: job.specs(),
            frames: job.frames(),
            levels: limits.levels,
            lines: job.ctls(),
            tasks,
            callbacks,
            done: 0,
            begun: 0,
            place: 0,
        })
    }

    /// The first part that the next item breaks. If it breaks none, it is taken in. The error says that
    /// memory ran out.
    pub(crate) fn note(&mut self, alloc: Global, item: &Item) -> Result<Option<Rule>, NoMemory>
        requires { (job : PlainJob) × (past : List Item) × IsPast job past self.old × (length past + 2 < 2 ^ 32) }
        ensures { (job : PlainJob) (past : List Item) → IsPast job past self.old → IfOk result (λ r. IsNext job past item.now r self.new) }
    {
        let broken = self.first_broken(item);
        if !self.goes_on(item)? {
            return Ok(Some(Rule::PlainRun));
        }
        if broken.is_none() {
            self.take_in(alloc, item)?;
        }
        Ok(broken)
    }

    /// The first part that an item on its task's plain run breaks.
    fn first_broken(&self, item: &Item) -> Option<Rule>
        requires done { self.now.done + 1 < 2 ^ 32 }
        requires begun { self.now.begun + 1 < 2 ^ 32 }
        ensures { (job : PlainJob) (past : List Item) → IsPast job past self.now → KeepsPlainRun job past item.now → IsFirstBroken job past item.now result }
    {
        let top = self.top(item);
        if !rules::keeps_callbacks(self, top, item) {
            return Some(Rule::Callbacks);
        }
        if !rules::keeps_silence(self, top, item) {
            return Some(Rule::Silence);
        }
        if !rules::keeps_refusals(self, top, item) {
            return Some(Rule::Refusals);
        }
        if !rules::keeps_exits(self, top, item) {
            return Some(Rule::Exits);
        }
        if !rules::keeps_fetches(self, top, item) {
            return Some(Rule::Fetches);
        }
        if !rules::keeps_commands(self, item) {
            return Some(Rule::Commands);
        }
        None
    }

    /// Whether the item may come next on its task's plain run. If so, the run goes on by it.
    pub fn goes_on(&mut self, item: &Item) -> Result<bool, NoMemory>
        requires { (job : PlainJob) × (past : List Item) × IsPast job past self.old × (length past + 2 < 2 ^ 32) }
        ensures told { (job : PlainJob) (past : List Item) → IsPast job past self.old → IfOk result (λ b. IsTrue b ↔ KeepsPlainRun job past item.now) }
        ensures kept { (job : PlainJob) (past : List Item) → IsPast job past self.old → IfOk result (λ b. b ≡ true → IsPastAt job past (item.now ∷ past) self.new) }
    {
        let Some(call) = item.call() else {
            return Ok(true);
        };
        match self.tasks.get_mut(call.task.0 as usize) {
            Some(task) => task.run.take(self.specs, self.done, item),
            None => Ok(false),
        }
    }

    /// Whether all commands have returned and each task is at the end of its run.
    pub fn is_at_end(&self) -> bool
        ensures { (job : PlainJob) (past : List Item) → IsPast job past self.now → IsTrue result ↔ IsAtEnd job past }
    {
        self.done as usize == self.desks.commands() && self.have_ended()
    }

    /// Whether each task is at the end of its run.
    fn have_ended(&self) -> bool
        ensures { IsTrue result ↔ ((t : ℕ) (x : TaskPast) → slice_get self.now.tasks.items t ≡ Some x → HasEnded self.now.done x.run) }
    {
        for task in &self.tasks {
            if !task.run.has_ended(self.done) {
                return false;
            }
        }
        true
    }

    /// The top call of the item's task.
    pub fn top(&self, item: &Item) -> Option<&OpenCall>
        ensures { (job : PlainJob) (past now : List Item) → IsPastAt job past now self.now → KeepsPlainRun job past item.now
            → IsTopOf job past item.now (option_map (λ c. c.now) result) }
    {
        self.task(item.call()?.task)?.top()
    }

    /// A task of the job.
    pub(crate) fn task(&self, task: TaskNo) -> Option<&TaskPast<'a>>
        ensures { option_map (λ x. x.now) result ≡ slice_get self.now.tasks.items task.0 }
    {
        self.tasks.get(task.0 as usize)
    }

    /// The miss that has to be the next item of a task, if it is one of the job.
    pub(crate) fn due(&self, task: TaskNo) -> Option<Due>
        ensures { (job : PlainJob) (past : List Item) → IsPast job past self.now → task.0 < length job.tasks → option_map due_of result ≡ miss_due job task.0 past }
    {
        self.task(task)?.due
    }
}

/// The tasks of a job before their first acts.
fn starting<'a>(alloc: Global, job: &'a Job) -> Result<Vec<TaskPast<'a>>, NoMemory>
    requires few { length job.now.tasks ≤ TASKS }
    requires acts { sum_by (λ t. length t.acts) job.now.tasks ≤ ACTS }
    ensures { IfOk result (λ v. AreStarting job.now v.items) }
{
    let mut tasks = Vec::new(alloc);
    let mut task = 0;
    while let Some(acts) = job.acts(TaskNo(task)) {
        let run = TaskRun::new(alloc, acts);
        let calls = VecDeque::new(alloc);
        let due = None;
        tasks
            .push(TaskPast { run, calls, due })
            .map_err(|_| NoMemory)?;
        task += 1;
    }
    Ok(tasks)
}
