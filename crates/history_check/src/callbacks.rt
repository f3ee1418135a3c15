//! Callbacks that are open, the latest first.

ghost use Rattle.std.specs.Prelude.{◌≡◌, ◌==◌, ◌&&◌, List, [], ◌∷◌, OnOk, IfSome, IsTrue, ◌↔◌, count_by};
ghost use Rattle.std.specs.List.{list_any};
ghost use Rattle.ft_base.specs.declared.item.Item.{Item};
ghost use Rattle.ft_base.specs.Same.{same_call};
ghost use Rattle.ft_base.specs.Job.{Job as PlainJob, command_at};
ghost use Rattle.ft_hist.specs.Past.{callbacks, ended, is_at, is_ctx};
ghost use Rattle.ft_hist.specs.Rules.{IsStill};
ghost use Rattle.history_check.specs.CallbackList.{callback_of, callbacks_of};
ghost use Rattle.history_check.specs.TaskCalls.{IsContextOf};
ghost use Rattle.history_check.specs.DeskRows.{AreOf};

use crate::desks::Desks;
use ft_base::{CallNo, Ctx, Item, NoMemory, TaskNo, UserNo};
use std::alloc::Global;
use std::collections::VecDeque;

/// A callback that is open.
#[derive(Clone, Copy, Drop)]
struct Callback {
    call: CallNo,
    user: UserNo,
    /// The context of its call, if that was entered.
    ctx: Option<Ctx>,
}

/// The callbacks that are open.
#[derive(Drop)]
pub struct Callbacks {
    open: VecDeque<Callback>,
}

impl Callbacks {
    /// None.
    pub(crate) fn new(alloc: Global) -> Callbacks
        ensures { callbacks_of result ≡ [] }
    {
        Callbacks {
            open: VecDeque::new(alloc),
        }
    }

    /// Those that are open after an item, which is in a call of this context, if that was entered. The
    /// error says that memory ran out.
    pub(crate) fn follow(&mut self, ctx: Option<Ctx>, item: &Item) -> Result<(), NoMemory>
        ensures { (past : List Item) → callbacks_of self.old ≡ callbacks past → IsContextOf past item.now ctx
            → OnOk result (callbacks_of self.new ≡ callbacks (item.now ∷ past)) }
    {
        match *item {
            Item::Back { call, user } => self.begin(call, ctx, user),
            Item::Exit { call, user, .. } => self.begin(call, ctx, user),
            Item::BackEnd { call, user } => {
                self.end(call, user);
                Ok(())
            }
            Item::ExitEnd { call, user } => {
                self.end(call, user);
                Ok(())
            }
            _ => Ok(()),
        }
    }

    /// A callback begins. The error says that memory ran out.
    fn begin(&mut self, call: CallNo, ctx: Option<Ctx>, user: UserNo) -> Result<(), NoMemory>
        ensures { OnOk result (callbacks_of self.new ≡ record { call = call; user = user.0; ctx = ctx } ∷ callbacks_of self.old) }
    {
        let callback = Callback { call, user, ctx };
        self.open.push_front(callback).map_err(|_| NoMemory)
    }

    /// The latest open callback of a call and user ends, if there is one.
    fn end(&mut self, call: CallNo, user: UserNo)
        ensures { callbacks_of self.new ≡ ended call user.0 (callbacks_of self.old) }
    {
        for at in 0..self.open.len() {
            if self.open[at].is_of(call, user) {
                self.open.remove(at);
                return;
            }
        }
    }

    /// Whether one of the user is open.
    pub fn has_user(&self, user: UserNo) -> bool
        ensures { result ≡ list_any (λ b. b.user == user.0) (callbacks_of self.now) }
    {
        self.open.iter().any(|callback| callback.user == user)
    }

    /// Whether none is open of the user that this command, from 1, takes off, if it does.
    pub(crate) fn is_still(&self, desks: &Desks, k: u32) -> bool
        ensures { (job : PlainJob) (past : List Item) → AreOf job desks.now → callbacks_of self.now ≡ callbacks past
            → IsTrue result ↔ IfSome (command_at job k) (IsStill past) }
    {
        match desks.taken_off(k) {
            Some(user) => !self.has_user(user),
            None => true,
        }
    }

    /// How many of a task and context are open.
    pub(crate) fn count(&self, task: TaskNo, ctx: Ctx) -> usize
        ensures { result ≡ count_by (is_at task.0 ctx) (callbacks_of self.now) }
    {
        let mut count = 0;
        for at in 0..self.open.len() {
            if self.open[at].is_at(task, ctx) {
                count += 1;
            }
        }
        count
    }
}

impl Callback {
    /// Whether it is of a call and user.
    fn is_of(&self, call: CallNo, user: UserNo) -> bool
        ensures { result ≡ same_call self.now.call call && (self.now.user.0 == user.0) }
    {
        self.call == call && self.user == user
    }

    /// Whether it is of a task and context.
    fn is_at(&self, task: TaskNo, ctx: Ctx) -> bool
        ensures { result ≡ is_at task.0 ctx (callback_of self.now) }
    {
        self.call.task == task && self.is_in(ctx)
    }

    /// Whether its call is in a context.
    fn is_in(&self, ctx: Ctx) -> bool
        ensures { result ≡ is_ctx self.now.ctx ctx }
    {
        match self.ctx {
            Some(own) => own == ctx,
            None => false,
        }
    }
}
