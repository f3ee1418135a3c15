//! A task: its acts, its open calls, and where it stands.

ghost use Rattle.std.specs.Prelude.{◌≡◌, ◌+◌, ◌*◌, ◌<◌, ◌≤◌, ◌^◌, suc, true, length, nat_lt, IfOk, Option, IsSome};
ghost use Rattle.std.specs.Option.{option_map};
ghost use Rattle.ft_base.specs.declared.limits.TheConstants.{ACTS, FRAMES, GUARD_LEVELS};
ghost use Rattle.ft_base.specs.Same.{same_ctx};
ghost use Rattle.word_map.specs.Ops.{placed};
ghost use Rattle.task_core.specs.TaskNeeds.{CanBegin, HasAct, HasCallRoom, IsInCall, IsTaskThere, FitsFirst, TaskFits};
ghost use Rattle.task_core.specs.Contexts.{act_context, call_context, is_open_to_requests};
ghost use Rattle.task_core.specs.Leads.{is_fetching};
ghost use Rattle.word_machine.specs.Task.{masks_interrupts};
ghost use Rattle.task_core.specs.Starts.{HasRoomFor, is_left, is_unmet, task_at_start, view_of};
ghost use Rattle.task_core.specs.States.{is_polling};
ghost use Rattle.task_core.specs.TaskInvariant.{StaysWithin};
ghost use Rattle.task_core.specs.TaskOps.{first_op, item_in, op_of, frame_user, owed, present, top, next_call};
ghost use Rattle.task_core.specs.TaskSteps.{after_first, begun, entered, exit_from, finished, task_after};
ghost use Rattle.ft_base.specs.declared.item.Item.TheVariants.{Enter};
ghost use Rattle.task_core.specs.Opens.{latest};

use crate::acts::Acts;
use crate::moment::{Moment, ToLoad, ToMark};
use crate::open_call::{OpenCall, OpenCalls};
use crate::setup::Setup;
use ft_base::{CallNo, Ctx, FuncNo, Item, NoMemory, Ran, TaskAct, TaskNo, UserNo};
use grace_core::TaskView;
use graph_users::exit_next;
use ops_list::Walker;
use recursion_guard::Guards;
use return_stack::{FrameUser, Stacks};
use std::alloc::Global;
use user_specs::TaskPlan;
use word_map::{Op, WordMap, clock};

/// A task of a CPU.
#[derive(Drop)]
pub struct Task {
    pub(crate) number: TaskNo,
    pub(crate) acts: Acts,
    /// The number of its next call.
    next: u32,
    /// The contexts that it is in, each with its guard. In an open callback a level of the guard of the
    /// callback's context is held.
    pub(crate) guards: Guards,
    /// Its stack of return addresses and its shadow stack.
    pub(crate) stacks: Stacks,
    /// What else is known of its open calls.
    pub(crate) opens: OpenCalls,
    /// What its quiet word holds.
    word: u64,
    pub(crate) moment: Moment,
}

impl Task {
    /// A task before its first act, with room for as many calls as can be open. `levels` is how many
    /// levels each guard has, 1 or 2. The error says that memory ran out.
    pub fn new(alloc: Global, plan: &TaskPlan, frames: u32, levels: u8) -> Result<Task, NoMemory>
        requires acts { length plan.now.acts.items ≤ ACTS }
        requires frames { frames ≤ FRAMES }
        requires levels { levels ≤ GUARD_LEVELS }
        ensures start { IfOk result (λ t. t ≡ task_at_start plan.now.task plan.now.acts.items t.opens.limit frames levels) }
        ensures room { IfOk result (λ t. HasRoomFor t.opens.limit levels plan.now.acts.items) }
    {
        // Above a scripted call can be open as many calls of acts as the guard of its context has levels,
        // and then as many in an interrupt. Acts are done in callbacks, and each holds a level.
        let calls = deepest(plan.acts.as_slice()) + 2 * u32::from(levels);
        Ok(Task {
            number: plan.task,
            acts: Acts::new(alloc, plan.acts.as_slice())?,
            next: 1,
            guards: Guards::new(levels),
            stacks: Stacks::new(alloc, calls, frames)?,
            opens: OpenCalls::new(alloc, calls)?,
            word: 0,
            moment: Moment::Polling,
        })
    }

    /// Its number.
    pub fn number(&self) -> TaskNo
        ensures { result ≡ self.now.number }
    {
        self.number
    }

    /// What a poll of its CPU sees of it.
    pub fn view(&self) -> TaskView
        ensures { result ≡ view_of self.now }
    {
        TaskView {
            acts: self.acts.gone(),
            quiet: self.moment.is_quiet(),
            left: self.acts.is_left(),
            word: self.word,
        }
    }

    /// A poll of its CPU has stored this into its quiet word.
    pub fn told(&mut self, word: u64)
        ensures { self.new ≡ record self.old { word = word } }
    {
        self.word = word;
    }

    /// Whether an act is left.
    pub fn has_act(&self) -> bool
        ensures { result ≡ is_left self.now }
    {
        self.acts.is_left()
    }

    /// Whether it stands before the poll of its next act, or after its last act.
    pub fn is_polling(&self) -> bool
        ensures { result ≡ is_polling self.now.moment }
    {
        matches!(&self.moment, Moment::Polling)
    }

    /// Whether it stands between the two loads of a fetch.
    pub fn is_fetching(&self) -> bool
        ensures { result ≡ is_fetching self.now.moment }
    {
        self.moment.is_fetching()
    }

    /// Whether its CPU answers requests before its next operation: that is none of a poll and not the
    /// second load of a fetch, and interrupts are on in its context. Within a fetch control could change
    /// the site before the task has loaded the rest of the instruction. With interrupts off, a kernel's
    /// CPU answers nothing: whoever reads a history with an answer there would take it for a kernel's.
    pub fn is_open_to_requests(&self) -> bool
        ensures { result ≡ is_open_to_requests self.now }
    {
        match &self.moment {
            Moment::Polling => false,
            Moment::First => !masks_interrupts(self.act_context()),
            Moment::Mark(ToMark::Acting { ctx, .. }) => !masks_interrupts(*ctx),
            _ => !self.is_fetching() && !masks_interrupts(self.call_context()),
        }
    }

    /// The context of the step that begins the present act: that of the call which a return closes, or
    /// the present one.
    fn act_context(&self) -> Ctx
        ensures { result ≡ act_context self.now (present self.now) }
    {
        match self.acts.present() {
            Some(TaskAct::Ret) => self.call_context(),
            _ => self.guards.ctx(),
        }
    }

    /// The context of the latest call. It is that of the call whose step comes next; without a call
    /// it is the present one.
    fn call_context(&self) -> Ctx
        ensures { result ≡ call_context self.now }
    {
        self.opens.latest_ctx().unwrap_or(self.guards.ctx())
    }

    /// Whether its present operation is a test of a wait that is not met by this clock.
    pub fn is_unmet(&self, clock: u64) -> bool
        ensures { result ≡ is_unmet self.now clock }
    {
        match (&self.moment, self.acts.present()) {
            (Moment::First, Some(TaskAct::After(commands))) => clock::returned_at(clock) < commands,
            _ => false,
        }
    }

    /// The poll of its present act is over. An interrupt comes or goes without an operation of its
    /// own; any other act begins.
    pub fn begin_act(&mut self)
        requires left { HasAct self.old }
        requires act { CanBegin self.old (present self.old) }
        ensures { self.new ≡ begun self.old (present self.old) }
    {
        match self.acts.present() {
            Some(TaskAct::Raise(ctx)) => {
                self.guards.raise(ctx);
                self.finish();
            }
            Some(TaskAct::Lower) => {
                self.guards.lower();
                self.finish();
            }
            _ => self.moment = Moment::First,
        }
    }

    /// Its next operation, if it is not before a poll.
    #[inline(always)]
    pub fn op(&self, map: &WordMap) -> Option<Op>
        requires { IsTaskThere map.now self.now }
        ensures { result ≡ option_map (placed map.now) (op_of self.now) }
    {
        match &self.moment {
            Moment::Polling => None,
            Moment::First => self.first_op(map),
            Moment::Load(load) => self.load_op(load, map),
            Moment::Mark(_) => Some(Op::Mark { command: false }),
        }
    }

    /// Takes the value that its next operation gave. If that was a mark, its item is the answer, and
    /// stands at the place that the clock told.
    #[inline(always)]
    pub fn got(&mut self, setup: &Setup, value: u64) -> Option<Item>
        requires { TaskFits setup.now self.old value }
        ensures task { self.new ≡ task_after self.old setup.now value }
        ensures item { result ≡ item_in (op_of self.old) }
    {
        match &self.moment {
            Moment::Polling => None,
            Moment::First => self.got_first(setup, value),
            Moment::Load(load) => {
                let load = *load;
                self.loaded(load, setup, value);
                None
            }
            Moment::Mark(mark) => {
                let mark = *mark;
                Some(self.marked(mark, setup, clock::items_at(value)))
            }
        }
    }

    /// The present act is done.
    pub(crate) fn finish(&mut self)
        requires { HasAct self.old }
        ensures { self.new ≡ finished self.old }
    {
        self.acts.finish();
        self.moment = Moment::Polling;
    }

    /// A call is entered, by the script or by a user's act.
    pub(crate) fn enter(&mut self, func: FuncNo, ctx: Ctx, scripted: bool, map: &WordMap) -> Item
        requires { HasCallRoom self.old }
        ensures task { self.new ≡ entered self.old map.now func ctx scripted }
        ensures item { result ≡ Enter (next_call self.old) ctx func (latest self.old.opens.calls) }
    {
        let caller = self.opens.latest();
        let call = CallNo {
            task: self.number,
            n: self.next,
        };
        self.next += 1;
        self.stacks.push_call(call);
        self.opens.push(OpenCall {
            call,
            ctx,
            func,
            scripted,
            ran: Ran::Nop,
            runs: func,
            walk: Walker::new(*map),
            user: UserNo(0),
        });
        self.moment = Moment::Load(ToLoad::Fetch);
        Item::Enter {
            call,
            ctx,
            func,
            caller,
        }
    }

    /// The user at this place of the top call's frame.
    pub(crate) fn frame_user(&self, i: u32) -> FrameUser
        requires call { IsInCall self.now }
        requires user { IsSome (owed self.now i) }
        ensures { result ≡ frame_user self.now i }
    {
        match exit_next(&self.stacks, i) {
            Some(user) => user,
            None => unreachable!(),
        }
    }

    /// In the top call's return, before the exit of the user at this place of its frame, or before
    /// the Ret if there is none.
    pub(crate) fn exit_from(&mut self, i: u32)
        requires { IsInCall self.old }
        ensures { self.new ≡ exit_from self.old i }
    {
        self.moment = match exit_next(&self.stacks, i) {
            Some(_) => Moment::Load(ToLoad::AtExit(i)),
            None => Moment::Mark(ToMark::Returning),
        };
    }

    /// The first operation of the present act.
    fn first_op(&self, map: &WordMap) -> Option<Op>
        ensures { result ≡ option_map (placed map.now) (first_op self.now (present self.now)) }
    {
        match self.acts.present()? {
            TaskAct::Call(_) | TaskAct::Ret => Some(Op::Mark { command: false }),
            TaskAct::After(_) => Some(Op::Load { word: map.clock() }),
            TaskAct::Raise(_) | TaskAct::Lower => None,
        }
    }

    /// The first operation of the present act gave a value.
    fn got_first(&mut self, setup: &Setup, value: u64) -> Option<Item>
        requires { FitsFirst self.old (present self.old) }
        ensures task { self.new ≡ after_first self.old setup.now (present self.old) value }
        ensures item { result ≡ item_in (first_op self.old (present self.old)) }
    {
        match self.acts.present()? {
            TaskAct::Call(func) => {
                let ctx = self.guards.ctx();
                Some(self.enter(func, ctx, true, &setup.map))
            }
            TaskAct::Ret => Some(self.leave()),
            TaskAct::After(commands) => {
                if commands <= clock::returned_at(value) {
                    self.finish();
                } else {
                    // The wait is tested again after a poll, and so the task goes on telling that it
                    // is quiet. If it did not, control might wait for it while it waits for control.
                    self.moment = Moment::Polling;
                }
                None
            }
            TaskAct::Raise(_) | TaskAct::Lower => None,
        }
    }
}

/// How many calls of these acts are open at a time, at most.
fn deepest(acts: &[TaskAct]) -> u32
    requires { length acts.now ≤ ACTS }
    ensures most { StaysWithin result 0 acts.now }
    ensures few { result ≤ ACTS }
{
    let mut count: u32 = 0;
    let mut most: u32 = 0;
    for act in acts {
        match act {
            TaskAct::Call(_) => count += 1,
            TaskAct::Ret => count = count.saturating_sub(1),
            TaskAct::Raise(_) | TaskAct::Lower | TaskAct::After(_) => {}
        }
        most = most.max(count);
    }
    most
}

/// Whether interrupts are off in a context.
fn masks_interrupts(ctx: Ctx) -> bool
    ensures { result ≡ masks_interrupts ctx }
{
    matches!(ctx, Ctx::Irq | Ctx::Nmi)
}

/// Whether two contexts are the same.
pub(crate) fn same_context(one: Ctx, other: Ctx) -> bool
    ensures { result ≡ same_ctx one other }
{
    one == other
}
