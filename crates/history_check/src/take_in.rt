//! How an item is taken in: what the next rules will ask of it.

ghost use Rattle.std.specs.Prelude.{◌≡◌, ℕ, ◌+◌, ◌<◌, ◌^◌, List, ◌∷◌, length, map, OnOk, Some, slice_get};
ghost use Rattle.ft_base.specs.declared.item.Item.{Item};
ghost use Rattle.ft_base.specs.Job.{Ctl as PlainCtl, Job as PlainJob};
ghost use Rattle.ft_desk.specs.Lines.{lines_of};
ghost use Rattle.ft_hist.specs.Past.{all_visits, begun as begun_in, done as done_in, gets_frame, visit as visit_in};
ghost use Rattle.ft_hist.specs.Rules.{KeepsCommands, KeepsPlainRun};
ghost use Rattle.history_check.specs.declared.task_past.TaskPast.{TaskPast};
ghost use Rattle.history_check.specs.TaskCalls.{AreTasksOf, HasRoom, IsContextOf, IsDueBy, IsOfJob, IsTop, IsVisitBy, visit_of};
ghost use Rattle.history_check.specs.JudgePast.{IsPast, IsPastAt, lines_after};
ghost use Rattle.user_specs.specs.Plain.{spec_of};

use crate::open_call::{OpenCall, Visit};
use crate::past::Past;
use crate::task_past::Due;
use crate::users::kind_of;
use ft_base::{Ctx, Item, NoMemory, UserNo};
use ft_desk::Ctl;
use std::alloc::Global;

impl<'a> Past<'a> {
    /// Takes in an item that may follow, after its task's plain run has gone on by it. The error says
    /// that memory ran out.
    pub fn take_in(&mut self, alloc: Global, item: &Item) -> Result<(), NoMemory>
        requires { (job : PlainJob) × (past : List Item) × IsPastAt job past (item.now ∷ past) self.old × (length past + 2 < 2 ^ 32) }
        ensures { (job : PlainJob) (past : List Item) → IsPastAt job past (item.now ∷ past) self.old → KeepsPlainRun job past item.now → KeepsCommands job past item.now
            → OnOk result (IsPast job (item.now ∷ past) self.new) }
    {
        let ctx = self.context_of(item);
        let visit = self.visit_by(item);
        let due = self.due_after(item);
        self.callbacks.follow(ctx, item)?;
        self.follow_calls(alloc, visit, due, item)?;
        self.count(item);
        Ok(())
    }

    /// The open calls of the item's task after it, and the miss that is due then; `visit` is what the item
    /// is as a visit. The error says that memory ran out.
    fn follow_calls(
        &mut self,
        alloc: Global,
        visit: Option<Visit>,
        due: Option<Due>,
        item: &Item,
    ) -> Result<(), NoMemory>
        requires { (t : ℕ) (x : TaskPast) → slice_get self.old.tasks.items t ≡ Some x → HasRoom x }
        ensures told { (job : PlainJob) (past : List Item) → map spec_of self.old.specs.now ≡ job.users → self.old.done ≡ done_in past
            → AreTasksOf job past (item.now ∷ past) self.old.tasks.items → KeepsPlainRun job past item.now → IsOfJob job item.now
            → IsVisitBy job past item.now visit → IsDueBy job past item.now due
            → OnOk result (AreTasksOf job (item.now ∷ past) (item.now ∷ past) self.new.tasks.items) }
        ensures rest { self.new ≡ record self.old { tasks = self.new.tasks } }
    {
        let Some(call) = item.call() else {
            return Ok(());
        };
        let (specs, done) = (self.specs, self.done);
        match self.tasks.get_mut(call.task.0 as usize) {
            Some(task) => {
                task.due = due;
                task.follow(alloc, specs, done, visit, item)
            }
            None => Ok(()),
        }
    }

    /// How many commands have returned and begun, and how many items there were, after an item.
    fn count(&mut self, item: &Item)
        requires done { self.old.done + 1 < 2 ^ 32 }
        requires begun { self.old.begun + 1 < 2 ^ 32 }
        requires place { self.old.place + 1 < 2 ^ 32 }
        ensures done { (past : List Item) → self.old.done ≡ done_in past → self.new.done ≡ done_in (item.now ∷ past) }
        ensures begun { (past : List Item) → self.old.begun ≡ begun_in past → self.new.begun ≡ begun_in (item.now ∷ past) }
        ensures place { self.new.place ≡ self.old.place + 1 }
        ensures lines { (n : ℕ) (ctls : List PlainCtl) (past : List Item) → lines_of n self.old.lines.now ≡ lines_after (begun_in past) ctls
            → lines_of n self.new.lines.now ≡ lines_after (begun_in (item.now ∷ past)) ctls }
        ensures rest { self.new ≡ record self.old { lines = self.new.lines; done = self.new.done; begun = self.new.begun; place = self.new.place } }
    {
        self.place += 1;
        match item {
            Item::Begin { .. } => {
                self.lines = after_command(self.lines);
                self.begun += 1;
            }
            Item::Return { .. } => self.done += 1,
            _ => {}
        }
    }

    /// The context of the call that an item is in.
    fn context_of(&self, item: &Item) -> Option<Ctx>
        ensures { (job : PlainJob) (past : List Item) → IsPastAt job past (item.now ∷ past) self.now → KeepsPlainRun job past item.now → IsContextOf past item.now result }
    {
        match self.top(item) {
            Some(top) => Some(top.ctx),
            None => None,
        }
    }

    /// What an item is as a visit, if it is one.
    fn visit_by(&self, item: &Item) -> Option<Visit>
        ensures { (job : PlainJob) (past : List Item) → IsPastAt job past (item.now ∷ past) self.now → KeepsPlainRun job past item.now → IsVisitBy job past item.now result }
    {
        match *item {
            Item::Back { user, .. } => Some(self.visit(self.top(item)?, user, true)),
            Item::Refuse { user, .. } => Some(self.visit(self.top(item)?, user, false)),
            _ => None,
        }
    }

    /// The miss that is due in an item's task after it.
    fn due_after(&self, item: &Item) -> Option<Due>
        ensures { (job : PlainJob) (past : List Item) → IsPastAt job past (item.now ∷ past) self.now → KeepsPlainRun job past item.now → IsDueBy job past item.now result }
    {
        let Item::Back { call, user } = *item else {
            return None;
        };
        let top = self.top(item)?;
        if kind_of(self.specs, user).has_exit() && top.held == self.frames {
            Some(Due { call, user })
        } else {
            None
        }
    }

    /// A callback of a user in its task's top call, or a refusal.
    fn visit(&self, top: &OpenCall, user: UserNo, back: bool) -> Visit
        ensures { (job : PlainJob) (past now : List Item) → IsPastAt job past now self.now → IsTop job past top.now.call top.now
            → visit_of top.now.call result ≡ visit_in job top.now.call user.0 past (all_visits job past) back }
    {
        let at = self
            .desks
            .registered_at(self.done, self.begun, user, top.func);
        Visit {
            user,
            reg: self.desks.reg(at, user),
            since: self.desks.since(at, user),
            place: self.place,
            back,
            framed: back && self.gets_frame(top, user),
        }
    }

    /// Whether a callback of a user in its task's top call gets a frame on the shadow stack.
    fn gets_frame(&self, top: &OpenCall, user: UserNo) -> bool
        ensures { (job : PlainJob) (past now : List Item) → IsPastAt job past now self.now → IsTop job past top.now.call top.now
            → result ≡ gets_frame job top.now.call user.0 past (all_visits job past) }
    {
        let kind = kind_of(self.specs, user);
        kind.has_depth() || (kind.has_exit() && top.held < self.frames)
    }
}

/// Control's lines after its next command.
fn after_command(lines: &[Ctl]) -> &[Ctl]
    ensures { (n : ℕ) → lines_of n result.now ≡ lines_after 1 (lines_of n lines.now) }
{
    let mut rest = lines;
    while let Some((line, later)) = rest.split_first() {
        rest = later;
        if let Ctl::Run(_) = line {
            return rest;
        }
    }
    rest
}
