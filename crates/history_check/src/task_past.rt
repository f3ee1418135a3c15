//! A task of the job, as far as the rules ask for it.

ghost use Rattle.std.specs.Prelude.{◌≡◌, ℕ, List, ◌∷◌, OnOk, IsSome, true, map, option_map, slice_get};
ghost use Rattle.ft_base.specs.declared.item.Item.{Item};
ghost use Rattle.ft_base.specs.Job.{Job as PlainJob};
ghost use Rattle.ft_hist.specs.Past.{done as returned, is_of};
ghost use Rattle.ft_hist.specs.Plain.{plain};
ghost use Rattle.history_check.specs.TaskCalls.{AreCallsOf, HasRoom, IsVisitBy, holding};
ghost use Rattle.user_specs.specs.Plain.{spec_of};

use crate::open_call::{OpenCall, Visit};
use crate::run::TaskRun;
use ft_base::{CallNo, Item, NoMemory, UserNo};
use std::alloc::Global;
use std::collections::VecDeque;
use user_specs::Spec;

/// A miss that has to be the next item of its task.
#[derive(Clone, Copy, Drop)]
pub(crate) struct Due {
    pub(crate) call: CallNo,
    pub(crate) user: UserNo,
}

/// A task of the job.
#[derive(Drop)]
pub(crate) struct TaskPast<'a> {
    /// Its plain run so far.
    pub(crate) run: TaskRun<'a>,
    /// Its open calls, the top first.
    pub(crate) calls: VecDeque<OpenCall>,
    pub(crate) due: Option<Due>,
}

impl<'a> TaskPast<'a> {
    /// The call on the top.
    pub(crate) fn top(&self) -> Option<&OpenCall>
        ensures { option_map (λ c. c.now) result ≡ slice_get self.now.calls.items 0 }
    {
        self.calls.front()
    }

    /// The open calls after an item of the task, when `done` commands have returned; `visit` is what the
    /// item is as a visit. The error says that memory ran out.
    pub(crate) fn follow(
        &mut self,
        alloc: Global,
        specs: &[Spec],
        done: u32,
        visit: Option<Visit>,
        item: &Item,
    ) -> Result<(), NoMemory>
        requires { HasRoom self.old }
        ensures told { (job : PlainJob) (past : List Item) (t : ℕ) → map spec_of specs.now ≡ job.users → AreCallsOf job past t self.old.calls.items
            → is_of t item.now ≡ true → IsSome (plain job t (item.now ∷ past)) → IsVisitBy job past item.now visit → done ≡ returned past
            → OnOk result (AreCallsOf job (item.now ∷ past) t self.new.calls.items) }
        ensures rest { self.new ≡ record self.old { calls = self.new.calls } }
    {
        match *item {
            Item::Enter {
                call,
                ctx,
                func,
                ..
            } => {
                let held = self.held(specs);
                let entered = OpenCall::new(alloc, call, ctx, func, done, held);
                self.push(entered)
            }
            Item::Ret { .. } => {
                self.calls.pop_front();
                Ok(())
            }
            _ => match self.calls.front_mut() {
                Some(top) => top.follow(done, visit, item),
                None => Ok(()),
            },
        }
    }

    /// One call more, on the top. The error says that memory ran out.
    fn push(&mut self, entered: OpenCall) -> Result<(), NoMemory>
        ensures more { OnOk result (self.new.calls.items ≡ entered ∷ self.old.calls.items) }
        ensures rest { self.new ≡ record self.old { calls = self.new.calls } }
    {
        self.calls.push_front(entered).map_err(|_| NoMemory)
    }

    /// How many of its calls hold a frame of the shadow stack.
    fn held(&self, specs: &[Spec]) -> u32
        requires { HasRoom self.now }
        ensures { (job : PlainJob) (past : List Item) (t : ℕ) → map spec_of specs.now ≡ job.users → AreCallsOf job past t self.now.calls.items
            → result ≡ holding job past self.now.calls.items }
    {
        let Some(top) = self.top() else {
            return 0;
        };
        if top.holds(specs) {
            return top.held + 1;
        }
        top.held
    }
}
