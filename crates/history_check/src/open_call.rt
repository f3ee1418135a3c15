//! A call that is open, as far as the rules ask for it.

ghost use Rattle.std.specs.Prelude.{◌≡◌, ◌==◌, List, ◌∷◌, OnOk, Some, true, nat_lt, map};
ghost use Rattle.std.specs.List.{list_all, list_any};
ghost use Rattle.ft_base.specs.declared.item.Item.{Item};
ghost use Rattle.ft_base.specs.Items.{call_of};
ghost use Rattle.ft_base.specs.Job.{Job as PlainJob};
ghost use Rattle.ft_hist.specs.Known.{holds};
ghost use Rattle.ft_hist.specs.Past.{done as returned};
ghost use Rattle.history_check.specs.TaskCalls.{IsOpenCall, IsVisitBy, called, is_inside, keeps_frame, with_first};
ghost use Rattle.user_specs.specs.Plain.{spec_of};

use crate::users::kind_of;
use ft_base::{CallNo, Ctx, FuncNo, Item, NoMemory, UserNo};
use std::alloc::Global;
use std::collections::VecDeque;
use user_specs::Spec;

/// A user that was called back or refused in a call.
#[derive(Clone, Copy, Drop)]
pub struct Visit {
    pub user: UserNo,
    /// The number of its registration.
    pub reg: u32,
    /// The command that registered it.
    pub since: u32,
    /// Where the callback or the refusal stands.
    pub(crate) place: u32,
    /// It was called back.
    pub(crate) back: bool,
    /// The callback got a frame.
    pub(crate) framed: bool,
}

/// A call that is open.
#[derive(Drop)]
pub struct OpenCall {
    pub call: CallNo,
    pub(crate) ctx: Ctx,
    pub func: FuncNo,
    /// How many commands had returned when it was entered.
    pub from: u32,
    /// How many of the calls below it hold a frame of the shadow stack.
    pub held: u32,
    /// Its dispatch is over.
    pub(crate) dispatched: bool,
    /// Who was visited in it, the latest first.
    pub visits: VecDeque<Visit>,
    /// The places of the entry callbacks whose exits it has had, the latest first.
    pub exits: VecDeque<u32>,
    /// How many commands had returned when its body was over; 0 before that.
    pub left: u32,
}

impl OpenCall {
    /// A call that was just entered.
    pub(crate) fn new(
        alloc: Global,
        call: CallNo,
        ctx: Ctx,
        func: FuncNo,
        from: u32,
        held: u32,
    ) -> OpenCall
        ensures { called result call ctx func.0 from held }
    {
        OpenCall {
            call,
            ctx,
            func,
            from,
            held,
            dispatched: false,
            visits: VecDeque::new(alloc),
            exits: VecDeque::new(alloc),
            left: 0,
        }
    }

    /// Whether it holds a frame of the shadow stack: once its dispatch is over, for the users alone
    /// that don't cancel their exits.
    pub(crate) fn holds(&self, specs: &[Spec]) -> bool
        ensures { (job : PlainJob) (past : List Item) → map spec_of specs.now ≡ job.users → IsOpenCall job past self.now → result ≡ holds job past self.now.call }
    {
        for at in 0..self.visits.len() {
            let visit = self.visits[at];
            if self.keeps_frame(specs, visit) {
                return true;
            }
        }
        false
    }

    /// Whether it still holds the frame of a visit, if that got one.
    fn keeps_frame(&self, specs: &[Spec], visit: Visit) -> bool
        ensures { (job : PlainJob) → map spec_of specs.now ≡ job.users → result ≡ keeps_frame job self.now.dispatched visit }
    {
        visit.framed && !(self.dispatched && kind_of(specs, visit.user).cancels())
    }

    /// Whether a user was visited.
    pub fn has_visited(&self, user: UserNo) -> bool
        ensures { result ≡ list_any (λ m. m.user.0 == user.0) self.now.visits.items }
    {
        self.visits.iter().any(|visit| visit.user == user)
    }

    /// Whether all that were visited were registered after this command.
    pub fn is_before_all(&self, since: u32) -> bool
        ensures { result ≡ list_all (λ m. nat_lt since m.since) self.now.visits.items }
    {
        self.visits.iter().all(|visit| since < visit.since)
    }

    /// Whether it had the exit of the entry callback at this place.
    pub(crate) fn has_exit(&self, entry: u32) -> bool
        ensures { result ≡ list_any (λ e. e == entry) self.now.exits.items }
    {
        self.exits.iter().any(|exit| *exit == entry)
    }

    /// Whether this place comes after those of all exits that it has had.
    pub fn comes_after(&self, entry: u32) -> bool
        ensures { result ≡ list_all (λ e. nat_lt e entry) self.now.exits.items }
    {
        self.exits.iter().all(|exit| *exit < entry)
    }

    /// What is kept of it after an item in it, when `done` commands have returned; `visit` is what the
    /// item is as a visit. The error says that memory ran out.
    pub(crate) fn follow(
        &mut self,
        done: u32,
        visit: Option<Visit>,
        item: &Item,
    ) -> Result<(), NoMemory>
        ensures told { (job : PlainJob) (past : List Item) → IsOpenCall job past self.old → call_of item.now ≡ Some self.old.call → is_inside item.now ≡ true
            → IsVisitBy job past item.now visit → done ≡ returned past → OnOk result (IsOpenCall job (item.now ∷ past) self.new) }
        ensures same { OnOk result ((self.new.call ≡ self.old.call) × (self.new.held ≡ self.old.held)) }
    {
        self.add(visit)?;
        match item {
            Item::Body { .. } => {
                self.dispatched = true;
                Ok(())
            }
            Item::Leave { .. } => {
                self.left = done;
                Ok(())
            }
            Item::Exit { entry, .. } => self.exits.push_front(*entry).map_err(|_| NoMemory),
            _ => Ok(()),
        }
    }

    /// One visit more, if there is one. The error says that memory ran out.
    fn add(&mut self, visit: Option<Visit>) -> Result<(), NoMemory>
        ensures more { OnOk result (self.new.visits.items ≡ with_first visit self.old.visits.items) }
        ensures rest { self.new ≡ record self.old { visits = self.new.visits } }
    {
        match visit {
            Some(visit) => self.visits.push_front(visit).map_err(|_| NoMemory),
            None => Ok(()),
        }
    }
}
