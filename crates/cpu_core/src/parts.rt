//! The parts of a CPU, and its steps. What [`Cpu`](crate::Cpu) promises of them is proved there.
//!
//! A CPU *polls* before each act of its tasks, and once after the last act. A poll loads the last
//! request, stores the CPU's own word, which acknowledges the request, and stores the word of each task,
//! which tells whether the task was quiet at the request. It stores only what changes. Control waits for
//! what polls tell. A CPU that ran on without them would let it wait for ever.
//!
//! From version 3 on a CPU also *looks* before each step of a task that is open to requests: it loads
//! the last request, and as long as that is a new one, stores it as its own word and looks again. A look
//! tells of no task: one that has loaded an old word is still in its call.

ghost use Rattle.std.specs.Prelude.{◌≡◌, ◌<◌, ◌^◌, suc};
ghost use Rattle.std.specs.Option.{option_map};
ghost use Rattle.word_map.specs.Contents.{greatest_half};
ghost use Rattle.word_map.specs.Ops.{Load, Store, placed};
ghost use Rattle.word_map.specs.Words.{Ack, Want};
ghost use Rattle.cpu_core.specs.CpuOps.{cpu_op, going_op, is_looking, is_running, op_by, present_task};
ghost use Rattle.cpu_core.specs.CpuSteps.{acked, after_poll, answered, gone_on, looked, poll_on, polling, stepped, switched, ticked, unmarked, went, with_told};
ghost use Rattle.cpu_core.specs.Turns.{HaveTold};
ghost use Rattle.task_core.specs.TaskOps.{item_in};
ghost use Rattle.cpu_core.specs.CpuNeeds.{CanGoOn, CanSwitch, CpuFits, GoFits, GoingFits, HasNext, IsGoingThere, QuietFits, StartFits};

use crate::marked::Marked;
use crate::tasks::Tasks;
use ft_base::{CpuNo, Item, Stamped};
use grace_core::acknowledged;
use task_core::Setup;
use word_map::{Op, clock};

/// Where a CPU stands, as the machine's `Phase` has it. Here a task is named by its index.
#[derive(Clone, Copy)]
pub(crate) enum Phase {
    /// At its present task, before a look if one is due, or before its last poll.
    Going,
    /// After a look that found nothing new, before the step of the present task.
    Looked,
    /// In a look that has loaded this request, before the store of the CPU's own word.
    Answering(u32),
    /// In a poll that has loaded this request, before the store of the CPU's own word.
    StoringAck(u32),
    /// In a poll that has loaded this request and acknowledged it, before the store of the word of the
    /// task at this index. The words of the tasks before it are what they are to be.
    StoringQuiet(u32, u32),
    /// At its end.
    Over,
}

/// The parts of a CPU.
#[derive(Drop)]
pub(crate) struct Parts {
    pub(crate) setup: Setup,
    /// Its number.
    pub(crate) cpu: CpuNo,
    /// What its own word holds.
    pub(crate) ack: u64,
    /// After how many steps it switches to its next task.
    pub(crate) quantum: u32,
    pub(crate) tasks: Tasks,
    /// The index of the present task. It is the number of tasks if none had an act at the start.
    pub(crate) present: u32,
    /// The steps since the last switch.
    pub(crate) count: u32,
    pub(crate) phase: Phase,
    pub(crate) marked: Marked,
}

impl Parts {
    /// Its next operation; none at its end.
    #[inline(always)]
    pub(crate) fn op(&self) -> Option<Op>
        requires { HasNext self.now }
        ensures { result ≡ option_map (placed self.now.setup.shape) (cpu_op self.now) }
    {
        match self.phase {
            Phase::Going if self.is_looking() => Some(self.want_load()),
            Phase::Going | Phase::Looked => self.going_op(),
            Phase::Answering(request) => Some(self.ack_store(u64::from(request))),
            Phase::StoringAck(request) => {
                Some(self.ack_store(acknowledged(self.tasks.is_any_left(self.present), request)))
            }
            Phase::StoringQuiet(request, i) => {
                let task = self.tasks.task(i);
                Some(Op::Store {
                    word: self.setup.map().quiet(task.number()),
                    value: task.view().told_word(request),
                })
            }
            Phase::Over => None,
        }
    }

    /// Takes the value that its next operation gave, and goes on. If the operation was a mark, its item
    /// is marked.
    #[inline(always)]
    pub(crate) fn step(&mut self, value: u64)
        requires { CpuFits self.old value }
        ensures { self.new ≡ stepped self.old value }
    {
        if let Some(item) = self.take(value) {
            self.marked.push(Stamped {
                place: clock::items_at(value),
                item,
            });
        }
    }

    /// The same, but if the operation was a mark, the answer is its item, and it isn't marked.
    #[inline(always)]
    pub(crate) fn take(&mut self, value: u64) -> Option<Item>
        requires { CpuFits self.old value }
        ensures parts { self.new ≡ unmarked self.old (stepped self.old value) }
        ensures item { result ≡ item_in (cpu_op self.old) }
    {
        match self.phase {
            Phase::Going if self.is_looking() => self.look(value),
            Phase::Going => return self.go_on(value),
            Phase::Looked => {
                self.phase = Phase::Going;
                return self.go_on(value);
            }
            Phase::Answering(request) => self.answered(request),
            Phase::StoringAck(request) => self.ack_stored(request),
            Phase::StoringQuiet(request, i) => self.quiet_stored(request, i),
            Phase::Over => {}
        }
        None
    }

    /// Whether a look is next. There is none before a poll, which answers by itself.
    #[inline(always)]
    fn is_looking(&self) -> bool
        ensures { result ≡ is_looking self.now }
    {
        self.setup.takes_looks()
            && self.present < self.tasks.len()
            && self.tasks.task(self.present).is_open_to_requests()
    }

    /// The store of this value as the CPU's own word.
    fn ack_store(&self, value: u64) -> Op
        requires { self.now.cpu.0 < self.now.setup.shape.cpus }
        ensures { result ≡ placed self.now.setup.shape (Store (Ack self.now.cpu.0) value) }
    {
        Op::Store {
            word: self.setup.map().ack(self.cpu),
            value,
        }
    }

    /// The load of the last request.
    fn want_load(&self) -> Op
        ensures { result ≡ placed self.now.setup.shape (Load Want) }
    {
        Op::Load {
            word: self.setup.map().want(),
        }
    }

    /// The next operation that is none of a look: of the present task, or the first of a poll. The poll
    /// itself begins when it is made.
    #[inline(always)]
    fn going_op(&self) -> Option<Op>
        requires { IsGoingThere self.now }
        ensures { result ≡ option_map (placed self.now.setup.shape) (going_op self.now) }
    {
        if self.is_running() {
            self.tasks.task(self.present).op(self.setup.map())
        } else {
            Some(self.want_load())
        }
    }

    /// An operation that is none of a look gave this value. It counts for the quantum. A look doesn't: a
    /// quantum of one step would be used up by it, and the task would never make a step.
    #[inline(always)]
    fn go_on(&mut self, value: u64) -> Option<Item>
        requires count { suc self.old.count < 2 ^ 32 }
        requires fits { GoingFits self.old value }
        ensures parts { self.new ≡ unmarked self.old (gone_on (ticked self.old) value) }
        ensures item { result ≡ item_in (going_op self.old) }
    {
        self.count += 1;
        if self.is_running() {
            return self.go(value);
        }
        self.begin_poll(value);
        None
    }

    /// A look has loaded this request. Only one that is new is stored: the look is over once it finds
    /// nothing to store, and control doesn't wait for more.
    fn look(&mut self, value: u64)
        requires { value < greatest_half }
        ensures { self.new ≡ looked self.old value }
    {
        self.phase = if self.ack == value {
            Phase::Looked
        } else {
            Phase::Answering(value as u32)
        };
    }

    /// The CPU's own word is stored in a look. No task's word is: the present one may have loaded who is
    /// to be called back. Told to be quiet, it would call a user back whose unregistration has returned.
    fn answered(&mut self, request: u32)
        ensures { self.new ≡ answered self.old request }
    {
        self.ack = u64::from(request);
        self.phase = Phase::Going;
    }

    /// Whether the present task makes the next operation. Otherwise a poll is next: the task stands
    /// before its next act, or no task has an act left. In that last poll the CPU tells control that it
    /// will poll no more, for which control would otherwise wait for ever.
    fn is_running(&self) -> bool
        ensures { result ≡ is_running self.now }
    {
        self.present < self.tasks.len() && !self.tasks.task(self.present).is_polling()
    }

    /// The operation of the present task gave this value. If it was a mark, the answer is its item.
    #[inline(always)]
    fn go(&mut self, value: u64) -> Option<Item>
        requires { GoFits self.old value }
        ensures parts { self.new ≡ unmarked self.old (went self.old value) }
        ensures item { result ≡ item_in (op_by (present_task self.old)) }
    {
        let unmet = self.tasks.task(self.present).is_unmet(value);
        let item = self.tasks.got(self.present, &self.setup, value);
        // Never between the two loads of a fetch: the next task's poll would acknowledge a request for
        // the CPU, control would change the site, and this task would load the rest of another
        // instruction.
        if !self.tasks.task(self.present).is_fetching() {
            self.switch(unmet);
        }
        item
    }

    /// Switches to the next task if the present one has ended, or waits, or has used up the quantum.
    fn switch(&mut self, unmet: bool)
        requires { CanSwitch self.old }
        ensures { self.new ≡ switched self.old unmet }
    {
        let ended = !self.tasks.task(self.present).has_act();
        if ended || unmet || self.quantum <= self.count {
            self.present = self.tasks.next(self.present);
            self.count = 0;
        }
    }

    /// The last request is loaded: a poll begins.
    fn begin_poll(&mut self, value: u64)
        requires { StartFits self.old value }
        ensures { self.new ≡ polling self.old value }
    {
        // Only what was loaded is told. Of a request that is not stored yet, the wait would be over at
        // once, and control would change a call site between the two loads by which a task of this CPU
        // reads it.
        let request = value as u32;
        if self.ack == acknowledged(self.tasks.is_any_left(self.present), request) {
            self.tell(request, 0);
        } else {
            self.phase = Phase::StoringAck(request);
        }
    }

    /// The CPU's own word is stored.
    fn ack_stored(&mut self, request: u32)
        requires count { suc self.old.count < 2 ^ 32 }
        requires act { CanGoOn self.old }
        ensures { self.new ≡ poll_on (acked (ticked self.old) request) request }
    {
        self.count += 1;
        self.ack = acknowledged(self.tasks.is_any_left(self.present), request);
        self.tell(request, 0);
    }

    /// The word of the task at this index is stored.
    fn quiet_stored(&mut self, request: u32, i: u32)
        requires count { suc self.old.count < 2 ^ 32 }
        requires fits { QuietFits self.old request i }
        ensures { self.new ≡ poll_on (with_told (ticked self.old) request i) request }
    {
        self.count += 1;
        self.tasks.tell(i, request);
        self.tell(request, i + 1);
    }

    /// The word of the first task that is to tell is stored next. All before this index have told. If
    /// none is to tell, the poll is over. No act begins earlier: what the poll tells of its task would
    /// not be so any more.
    fn tell(&mut self, request: u32, from: u32)
        requires told { HaveTold request from self.old.tasks }
        requires act { CanGoOn self.old }
        ensures { self.new ≡ poll_on self.old request }
    {
        match self.tasks.first_untold(request, from) {
            Some(i) => self.phase = Phase::StoringQuiet(request, i),
            None => {
                self.tasks.note_told(request);
                self.go_on_after_poll();
            }
        }
    }

    /// After a poll the present task's act begins, or, if every task has ended, the CPU is at its end.
    fn go_on_after_poll(&mut self)
        requires { CanGoOn self.old }
        ensures { self.new ≡ after_poll self.old }
    {
        if self.tasks.is_any_left(self.present) {
            self.phase = Phase::Going;
            self.tasks.begin_act(self.present);
            self.switch(false);
        } else {
            self.phase = Phase::Over;
        }
    }
}
