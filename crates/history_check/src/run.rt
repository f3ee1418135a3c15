//! A task on its plain run.

ghost use Rattle.std.specs.Prelude.{◌≡◌, ◌+◌, ◌<◌, ◌^◌, ◌∷◌, ℕ, drop, length, Some, None, map, option_map, IfOk, OnOk, IsTrue, ◌↔◌, if◌then◌else◌};
ghost use Rattle.ft_base.specs.declared.item.Item.TheVariants.{Enter, Leave, Ret};
ghost use Rattle.ft_base.specs.Items.{call_of};
ghost use Rattle.ft_base.specs.Job.{Job as PlainJob};
ghost use Rattle.ft_hist.specs.Plain.{after_enter, after_enter_ahead, after_item, after_leave, after_owed_enter, ahead, top_call};
ghost use Rattle.ft_hist.specs.Rules.{HasEnded, acts_passed};
ghost use Rattle.history_check.specs.PlainRuns.{IsStep, frame_of, opened, owed_of, phase_of, returned as returned_ahead, starting, top_if, top_of, with_acts};
ghost use Rattle.user_specs.specs.Plain.{spec_of};

use crate::acts::Acts;
use crate::frame::{Frame, Owed, Phase, phase_after};
use ft_base::{CallNo, Ctx, FuncNo, Item, NoMemory, TaskAct, UserNo};
use std::alloc::Global;
use std::collections::VecDeque;
use std::marker::Model;
use user_specs::Spec;

/// A task on its plain run, so far.
#[derive(Drop)]
pub struct TaskRun<'a> {
    /// The number of its next call.
    next: u32,
    acts: Acts<'a>,
    /// Its open calls, the top first.
    stack: VecDeque<Frame>,
}

impl<'a> Model for TaskRun<'a> {
    ghost use Rattle.std.specs.Prelude.{◌+◌, ◌<◌, ◌^◌, length};
    ghost use Rattle.ft_hist.specs.Plain.{PlainTask};
    ghost use Rattle.history_check.specs.PlainRuns.{task_of};

    ghost Value = { PlainTask };

    ghost view = { λ r. task_of r.next r.acts r.stack.items };

    ghost invariant = { λ r. r.acts.gone + length r.acts.rest.now < 2 ^ 32 };
}

impl<'a> TaskRun<'a> {
    /// A task of these acts, before its first.
    pub fn new(alloc: Global, acts: &'a [TaskAct]) -> TaskRun<'a>
        requires { length acts.now < 2 ^ 32 }
        ensures { result ≡ starting acts.entry.now }
    {
        TaskRun {
            next: 1,
            acts: Acts::new(alloc, acts),
            stack: VecDeque::new(alloc),
        }
    }

    /// Whether an item of the task may come next on its plain run, after this many commands have
    /// returned. If so, the run goes on by it. The error says that memory ran out.
    #[tactic(auto, unfolding(ft_hist::specs::Plain::after_item))]
    pub fn take(&mut self, specs: &[Spec], returned: u32, item: &Item) -> Result<bool, NoMemory>
        requires { self.old.next + 1 < 2 ^ 32 }
        ensures { (job : PlainJob) → job.users ≡ map spec_of specs.now
            → IfOk result (λ b. after_item job returned self.old item.now ≡ (if b then Some self.new else None)) }
    {
        match *item {
            Item::Begin { .. } | Item::Return { .. } => Ok(true),
            Item::Enter {
                call,
                ctx,
                func,
                caller,
            } => self.enter(returned, call, ctx, func, caller),
            Item::Leave { call } => self.leave(returned, call),
            Item::Ret { call, to } => Ok(self.ret(call, to)),
            Item::Back { call, .. }
            | Item::BackEnd { call, .. }
            | Item::Refuse { call, .. }
            | Item::Miss { call, .. }
            | Item::Body { call, .. }
            | Item::Exit { call, .. }
            | Item::ExitEnd { call, .. } => Ok(self.go_on(specs, call, item)),
        }
    }

    /// How many acts it has done, those without items counted as soon as they are next.
    pub fn acts_passed(&self) -> u32
        ensures { result ≡ acts_passed self.now }
    {
        match self.front() {
            Some(top) if !top.is_running_script() => self.acts.gone().saturating_sub(1),
            _ => self.acts.passed(),
        }
    }

    /// Whether it is at its end, after this many commands have returned: only acts without items are left,
    /// their waits are met, and no call is open.
    pub fn has_ended(&self, returned: u32) -> bool
        ensures { IsTrue result ↔ HasEnded returned self.now }
    {
        self.stack.is_empty() && self.acts.are_over(returned)
    }

    /// A call is entered: the script's next one, or one that the open callback's act owes.
    #[tactic(auto, unfolding(ft_hist::specs::Plain::after_item))]
    fn enter(
        &mut self,
        returned: u32,
        call: CallNo,
        ctx: Ctx,
        func: FuncNo,
        caller: Option<CallNo>,
    ) -> Result<bool, NoMemory>
        requires { self.old.next + 1 < 2 ^ 32 }
        ensures { (job : PlainJob) → IfOk result (λ b. after_item job returned self.old (Enter call ctx func caller) ≡ (if b then Some self.new else None)) }
    {
        if call.n != self.next || caller != self.top_call() {
            return Ok(false);
        }
        match self.front() {
            Some(top) => self.enter_over(returned, top, call, ctx, func),
            None => self.enter_next(returned, call, ctx, func),
        }
    }

    /// A call is entered over this one, which is on the top.
    fn enter_over(
        &mut self,
        returned: u32,
        top: Frame,
        call: CallNo,
        ctx: Ctx,
        func: FuncNo,
    ) -> Result<bool, NoMemory>
        requires next { self.old.next + 1 < 2 ^ 32 }
        requires top { top_of self.old.stack ≡ Some (frame_of top) }
        ensures { IfOk result (λ b. after_enter returned self.old self.old.stack call ctx func.0 ≡ (if b then Some self.new else None)) }
    {
        match top.phase {
            Phase::Running => {
                if top.scripted {
                    self.enter_next(returned, call, ctx, func)
                } else {
                    Ok(false)
                }
            }
            Phase::InBack { user, owed, .. } => self.enter_owed(top, user, owed, call, ctx, func),
            Phase::Dispatch | Phase::Leaving | Phase::InExit { .. } => Ok(false),
        }
    }

    /// A call is entered from the open callback of this user, whose act owes this or nothing.
    fn enter_owed(
        &mut self,
        top: Frame,
        user: UserNo,
        owed: Option<Owed>,
        call: CallNo,
        ctx: Ctx,
        func: FuncNo,
    ) -> Result<bool, NoMemory>
        requires next { self.old.next + 1 < 2 ^ 32 }
        requires top { top_of self.old.stack ≡ Some (frame_of top) }
        ensures { IfOk result (λ b. after_owed_enter self.old (frame_of top) (drop 1 self.old.stack) user.0 (option_map owed_of owed) call ctx func.0
            ≡ (if b then Some self.new else None)) }
    {
        match owed {
            Some(owed) if owed.func == func && owed.ctx == ctx => {
                let phase = Phase::InBack {
                    user,
                    owed: None,
                    fresh: false,
                };
                self.set_top(top.in_phase(phase));
                self.push(call, ctx, func, false)?;
                Ok(true)
            }
            _ => Ok(false),
        }
    }

    /// The script's next call is entered, if the next act that gives items is this call.
    fn enter_next(
        &mut self,
        returned: u32,
        call: CallNo,
        ctx: Ctx,
        func: FuncNo,
    ) -> Result<bool, NoMemory>
        requires { self.old.next + 1 < 2 ^ 32 }
        ensures { IfOk result (λ b. after_enter_ahead self.old (ahead returned self.old.acts self.old.contexts self.old.gone) call ctx func.0
            ≡ (if b then Some self.new else None)) }
    {
        self.acts.skip(returned)?;
        if !self.acts.take_call(func, ctx) {
            return Ok(false);
        }
        self.push(call, ctx, func, true)?;
        Ok(true)
    }

    /// A call more is open, and it is numbered.
    fn push(&mut self, call: CallNo, ctx: Ctx, func: FuncNo, scripted: bool) -> Result<(), NoMemory>
        requires { self.old.next + 1 < 2 ^ 32 }
        ensures { OnOk result (self.new ≡ opened self.old call ctx func.0 scripted) }
    {
        let frame = Frame {
            call,
            ctx,
            func,
            scripted,
            phase: Phase::Dispatch,
        };
        self.stack.push_front(frame).map_err(|_| NoMemory)?;
        self.next += 1;
        Ok(())
    }

    /// The body of a call is over: by the script's next return, or at once in a call that an act made.
    #[tactic(auto, unfolding(ft_hist::specs::Plain::after_item))]
    fn leave(&mut self, returned: u32, call: CallNo) -> Result<bool, NoMemory>
        ensures { (job : PlainJob) → IfOk result (λ b. after_item job returned self.old (Leave call) ≡ (if b then Some self.new else None)) }
    {
        let Some(top) = self.top(call) else {
            return Ok(false);
        };
        self.leave_top(returned, top)
    }

    /// The same of the call on the top.
    fn leave_top(&mut self, returned: u32, top: Frame) -> Result<bool, NoMemory>
        requires { top_of self.old.stack ≡ Some (frame_of top) }
        ensures { IfOk result (λ b. after_leave returned self.old (frame_of top) (drop 1 self.old.stack) (phase_of top.phase) ≡ (if b then Some self.new else None)) }
    {
        match top.phase {
            Phase::Running => {
                if top.scripted && !self.return_next(returned)? {
                    return Ok(false);
                }
                self.set_top(top.in_phase(Phase::Leaving));
                Ok(true)
            }
            Phase::Dispatch | Phase::InBack { .. } | Phase::Leaving | Phase::InExit { .. } => Ok(
                false,
            ),
        }
    }

    /// The script's next return, if the next act that gives items is one.
    fn return_next(&mut self, returned: u32) -> Result<bool, NoMemory>
        ensures { IfOk result (λ b. with_acts self.old (returned_ahead (ahead returned self.old.acts self.old.contexts self.old.gone)) ≡ (if b then Some self.new else None)) }
    {
        self.acts.skip(returned)?;
        Ok(self.acts.take_return())
    }

    /// A return reaches a call, or the outermost level.
    #[tactic(auto, unfolding(ft_hist::specs::Plain::after_item))]
    fn ret(&mut self, call: CallNo, to: Option<CallNo>) -> bool
        ensures { (job : PlainJob) (returned : ℕ) → after_item job returned self.old (Ret call to) ≡ (if result then Some self.new else None) }
    {
        let Some(top) = self.top(call) else {
            return false;
        };
        match top.phase {
            Phase::Leaving => {
                self.stack.pop_front();
                to == self.top_call()
            }
            _ => false,
        }
    }

    /// An item that changes no more than how far the top call is.
    fn go_on(&mut self, specs: &[Spec], call: CallNo, item: &Item) -> bool
        requires { call_of item.now ≡ Some call }
        ensures { (job : PlainJob) (returned : ℕ) → job.users ≡ map spec_of specs.now → IsStep item.now
            → after_item job returned self.old item.now ≡ (if result then Some self.new else None) }
    {
        let Some(top) = self.top(call) else {
            return false;
        };
        match phase_after(specs, &top, item) {
            Some(phase) => {
                self.set_top(top.in_phase(phase));
                true
            }
            None => false,
        }
    }

    /// The call on the top.
    fn front(&self) -> Option<Frame>
        ensures { option_map frame_of result ≡ top_of self.now.stack }
    {
        match self.stack.front() {
            Some(top) => Some(*top),
            None => None,
        }
    }

    /// The call on the top, if it is this one.
    fn top(&self, call: CallNo) -> Option<Frame>
        ensures { option_map frame_of result ≡ top_if self.now.stack call }
    {
        match self.front() {
            Some(top) if top.call == call => Some(top),
            _ => None,
        }
    }

    /// The number of the call on the top.
    fn top_call(&self) -> Option<CallNo>
        ensures { result ≡ top_call self.now.stack }
    {
        match self.front() {
            Some(top) => Some(top.call),
            None => None,
        }
    }

    /// Puts this call in the place of the one on the top.
    fn set_top(&mut self, frame: Frame)
        requires { 0 < length self.old.stack }
        ensures { self.new ≡ record self.old { stack = frame_of frame ∷ drop 1 self.old.stack } }
    {
        self.stack[0] = frame;
    }
}
