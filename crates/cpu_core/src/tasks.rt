//! The tasks of a CPU, and which of them runs.

ghost use Rattle.std.specs.Prelude.{◌≡◌, ◌<◌, ◌≤◌, ◌⊎◌, if◌then◌else◌, suc, length, set, slice_get, Some, None, All, IfOk, IsSomeAnd};
ghost use Rattle.ft_base.specs.declared.limits.TheConstants.{ACTS, FRAMES, GUARD_LEVELS, TASKS};
ghost use Rattle.user_specs.specs.declared.plan.TaskPlan.{TaskPlan as DeclaredPlan};
ghost use Rattle.task_core.specs.TaskNeeds.{CanBegin, HasAct, TaskFits};
ghost use Rattle.task_core.specs.TaskOps.{item_in, op_of, present};
ghost use Rattle.task_core.specs.TaskSteps.{begun, task_after};
ghost use Rattle.cpu_core.specs.Turns.{AreStarted, HaveTold, RestTold, any_left, first_left, first_untold, is_untold, left_from, next_left, told_task, untold_from};

use ft_base::{Item, NoMemory};
use std::alloc::Global;
use std::marker::Model;
use task_core::{Setup, Task};
use user_specs::TaskPlan;

/// The tasks of a CPU, the lowest number first.
#[derive(Drop)]
pub(crate) struct Tasks {
    tasks: Vec<Task>,
    /// A request that the word of each task tells, as far as a poll is to tell it, but for those that may
    /// have changed since.
    told: u32,
    /// Between two polls only the tasks that step change. A poll that loads the same request again looks
    /// at them alone. With 64 tasks, to look at each of them is most of what a poll costs.
    changed: Span,
}

impl Model for Tasks {
    ghost use Rattle.std.specs.Prelude.{List};
    ghost use Rattle.task_core.specs.declared.task.Task.{Task};

    ghost Value = { List Task };

    ghost use Rattle.cpu_core.specs.TasksInvariant.{tasks_of, TasksInvariant};

    ghost view = { tasks_of };

    ghost invariant = { TasksInvariant };
}

impl Tasks {
    /// These tasks before their first acts, each with a shadow stack of so many frames and guards of so
    /// many levels. The error says that memory ran out.
    pub(crate) fn new(
        alloc: Global,
        plans: &[TaskPlan],
        frames: u32,
        levels: u8,
    ) -> Result<Tasks, NoMemory>
        requires few { length plans.now ≤ TASKS }
        requires acts { All (λ (p : DeclaredPlan). length p.acts.items ≤ ACTS) plans.now }
        requires frames { frames ≤ FRAMES }
        requires levels { levels ≤ GUARD_LEVELS }
        ensures { IfOk result (λ ts. AreStarted frames levels plans.now ts) }
    {
        let mut tasks = Vec::with_capacity(alloc, plans.len()).map_err(|_| NoMemory)?;
        for plan in plans {
            tasks.push_reserved(Task::new(alloc, plan, frames, levels)?);
        }
        let changed = Span {
            from: 0,
            to: tasks.len() as u32,
        };
        Ok(Tasks {
            tasks,
            told: 0,
            changed,
        })
    }

    /// How many there are.
    pub(crate) fn len(&self) -> u32
        ensures count { result ≡ length self.now }
        ensures few { result ≤ TASKS }
    {
        self.tasks.len() as u32
    }

    /// The task at this index.
    pub(crate) fn task(&self, i: u32) -> &Task
        requires { i < length self.now }
        ensures { slice_get self.now i ≡ Some result.now }
    {
        &self.tasks[i as usize]
    }

    /// Whether a task has an act left. If one has, then mostly the present one.
    pub(crate) fn is_any_left(&self, present: u32) -> bool
        ensures { result ≡ any_left self.now }
    {
        match self.tasks.get(present as usize) {
            Some(task) if task.has_act() => true,
            _ => self.tasks.iter().any(|task| task.has_act()),
        }
    }

    /// The first task that has an act left, or the number of tasks if none has.
    pub(crate) fn first(&self) -> u32
        ensures { result ≡ first_left self.now }
    {
        self.left_from(0).unwrap_or(self.len())
    }

    /// The next task after this one, in the cyclic order, that has an act left. That may be the same;
    /// and the same it stays if none has.
    pub(crate) fn next(&self, present: u32) -> u32
        requires { present < length self.now }
        ensures { result ≡ next_left self.now present }
    {
        match self.left_from(present as usize + 1) {
            Some(next) => next,
            None => self.left_from(0).unwrap_or(present),
        }
    }

    /// The first task from an index on that has an act left.
    fn left_from(&self, from: usize) -> Option<u32>
        ensures { result ≡ left_from self.now from }
    {
        for i in from..self.tasks.len() {
            if self.tasks[i].has_act() {
                return Some(i as u32);
            }
        }
        None
    }

    /// The operation of the task at this index gave this value. If the operation was a mark, the answer
    /// is its item.
    #[inline(always)]
    pub(crate) fn got(&mut self, i: u32, setup: &Setup, value: u64) -> Option<Item>
        requires { IsSomeAnd (slice_get self.old i) (λ t. TaskFits setup.now t value) }
        ensures tasks { IsSomeAnd (slice_get self.old i) (λ t. self.new ≡ set self.old i (task_after t setup.now value)) }
        ensures item { IsSomeAnd (slice_get self.old i) (λ t. result ≡ item_in (op_of t)) }
    {
        self.changed = self.changed.with(i);
        self.tasks[i as usize].got(setup, value)
    }

    /// The poll of the present act of the task at this index is over.
    pub(crate) fn begin_act(&mut self, i: u32)
        requires { IsSomeAnd (slice_get self.old i) (λ t. HasAct t × CanBegin t (present t)) }
        ensures { IsSomeAnd (slice_get self.old i) (λ t. self.new ≡ set self.old i (begun t (present t))) }
    {
        self.changed = self.changed.with(i);
        self.tasks[i as usize].begin_act();
    }

    /// The first task whose word is to change. It isn't one before this index: those have told.
    #[tactic(auto, using(crate::proofs::Untold::from_told))]
    pub(crate) fn first_untold(&self, request: u32, from: u32) -> Option<u32>
        requires { HaveTold request from self.now }
        ensures { result ≡ first_untold request self.now }
    {
        if self.told == request {
            self.untold_from(request, self.changed.from, self.changed.to)
        } else {
            self.untold_from(request, from, self.len())
        }
    }

    /// The first task from an index on whose word is to change. It isn't one from the other index on.
    fn untold_from(&self, request: u32, from: u32, to: u32) -> Option<u32>
        requires told { RestTold request to self.now }
        requires within { to ≤ length self.now }
        ensures { result ≡ untold_from request self.now from }
    {
        for n in from as usize..to as usize {
            if is_untold(&self.tasks[n], request) {
                return Some(n as u32);
            }
        }
        None
    }

    /// The word of the task at this index is stored: the task has told this request.
    pub(crate) fn tell(&mut self, i: u32, request: u32)
        requires { i < length self.old }
        ensures tasks { IsSomeAnd (slice_get self.old i) (λ t. self.new ≡ set self.old i (told_task request t)) }
        ensures few { i < TASKS }
    {
        self.changed = known_if(self.told == request, self.changed, self.len());
        let task = &mut self.tasks[i as usize];
        let word = task.view().told_word(request);
        task.told(word);
    }

    /// Each task's word tells this request. That is known until one of them changes.
    pub(crate) fn note_told(&mut self, request: u32)
        requires { first_untold request self.old ≡ None }
        ensures { self.new ≡ self.old }
    {
        self.changed = Span {
            from: self.len(),
            to: 0,
        };
        self.told = request;
    }
}

/// Whether a task's word is to change.
fn is_untold(task: &Task, request: u32) -> bool
    ensures { result ≡ is_untold request task.now }
{
    // The task is looked at as it is now. One that was quiet at the last poll may be within a call: told
    // to be quiet, it might call a user back after the user's unregistration has returned.
    !task.view().has_told(request)
}

/// The tasks that may have changed, if that is known, or else all of so many.
fn known_if(holds: bool, known: Span, len: u32) -> Span
    ensures { result ≡ (if holds then known else record { from = 0; to = len }) }
{
    if holds {
        known
    } else {
        Span { from: 0, to: len }
    }
}

/// The tasks from one index to before another.
#[derive(Clone, Copy)]
struct Span {
    from: u32,
    to: u32,
}

impl Span {
    /// These and the task at this index, and what lies between.
    #[inline(always)]
    fn with(self, i: u32) -> Span
        requires { i < TASKS }
        ensures old { result.from ≤ self.from × self.to ≤ result.to }
        ensures one { result.from ≤ i × i < result.to }
        ensures least { result.to ≡ self.to ⊎ result.to ≡ suc i }
    {
        Span {
            from: self.from.min(i),
            to: self.to.max(i + 1),
        }
    }
}
