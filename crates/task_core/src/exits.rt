//! The body of a call, its return, and the exits of the users of its frame. All of it is of the top
//! call.

ghost use Rattle.std.specs.Prelude.{◌≡◌, ◌<◌, true, suc, IsSome};
ghost use Rattle.ft_base.specs.declared.item.Item.TheVariants.{Body, Leave, Exit, ExitEnd, Ret};
ghost use Rattle.ft_base.specs.declared.limits.TheConstants.{USERS};
ghost use Rattle.return_stack.specs.Calls.{caller_of};
ghost use Rattle.task_core.specs.TaskNeeds.{CanReturn, HasAct, IsInCall};
ghost use Rattle.task_core.specs.TaskOps.{frame_user, owed, top};
ghost use Rattle.task_core.specs.TaskSteps.{at, body_begun, exit_from, exit_stated, returned};

use crate::moment::{Moment, ToMark};
use crate::task::{Task, same_context};
use ft_base::Item;
use word_map::Sel;

impl Task {
    /// The dispatch is over, and the body runs.
    pub(crate) fn body_begun(&mut self) -> Item
        requires call { IsInCall self.old }
        requires act { (top self.old).scripted ≡ true → HasAct self.old }
        ensures task { self.new ≡ body_begun self.old }
        ensures item { result ≡ Body (top self.old).call (top self.old).runs (top self.old).ran }
    {
        let top = self.opens.top();
        let item = Item::Body {
            call: top.call,
            func: top.runs,
            ran: top.ran,
        };
        let scripted = top.scripted;
        // A frame that owes nothing is given back now. Kept until the return, it would be missing to
        // the calls within the body: their users would be refused, or their exits missed.
        self.stacks.drop_empty();
        if scripted {
            self.finish();
        } else {
            // A call that an act makes returns at once.
            self.moment = Moment::Mark(ToMark::Leaving);
        }
        item
    }

    /// The body is over.
    pub(crate) fn leave(&mut self) -> Item
        requires { IsInCall self.old }
        ensures task { self.new ≡ exit_from self.old 0 }
        ensures item { result ≡ Leave (top self.old).call }
    {
        let call = self.opens.top().call;
        self.exit_from(0);
        Item::Leave { call }
    }

    /// The state of the user at this place of the frame is loaded. The user gets its exit if it is on
    /// by the registration of its entry. By any registration, a user that was registered anew while
    /// the body ran would get an exit for an entry that its present registration never had.
    pub(crate) fn exit_state(&mut self, i: u32, value: u64)
        requires call { IsInCall self.old }
        requires user { IsSome (owed self.old i) }
        requires place { i < USERS }
        ensures { self.new ≡ exit_stated self.old i value }
    {
        if Sel::of(value).stands(self.frame_user(i).reg) {
            self.moment = Moment::Mark(ToMark::Exiting(i));
        } else {
            self.exit_from(i + 1);
        }
    }

    /// The exit callback has begun. It needs no guard: it makes no call, so nobody is called back in
    /// its context before it ends.
    pub(crate) fn exit_begun(&mut self, i: u32) -> Item
        requires call { IsInCall self.old }
        requires user { IsSome (owed self.old i) }
        ensures task { self.new ≡ at self.old (Moment.Mark (ToMark.EndingExit i)) }
        ensures item { result ≡ Exit (top self.old).call (frame_user self.old i).user (frame_user self.old i).entry }
    {
        let owed = self.frame_user(i);
        self.moment = Moment::Mark(ToMark::EndingExit(i));
        Item::Exit {
            call: self.opens.top().call,
            user: owed.user,
            entry: owed.entry,
        }
    }

    /// The exit callback has ended. The next exit is that of the user which was called back after
    /// this one.
    pub(crate) fn exit_ended(&mut self, i: u32) -> Item
        requires call { IsInCall self.old }
        requires user { IsSome (owed self.old i) }
        requires place { i < USERS }
        ensures task { self.new ≡ exit_from self.old (suc i) }
        ensures item { result ≡ ExitEnd (top self.old).call (frame_user self.old i).user }
    {
        let user = self.frame_user(i).user;
        self.exit_from(i + 1);
        Item::ExitEnd {
            call: self.opens.top().call,
            user,
        }
    }

    /// The call has returned, to the caller that the stacks tell. If an act made it, the callback of
    /// that act ends.
    pub(crate) fn returned(&mut self) -> Item
        requires call { IsInCall self.old }
        requires can { CanReturn self.old }
        ensures task { self.new ≡ returned self.old }
        ensures item { result ≡ Ret (top self.old).call (caller_of self.old.stacks.calls) }
    {
        let call = self.opens.top().call;
        let ctx = self.opens.top().ctx;
        let scripted = self.opens.top().scripted;
        let to = self.stacks.pop_return();
        self.opens.pop();
        if scripted {
            self.finish();
        } else {
            let user = self.opens.top().user;
            if !same_context(ctx, self.opens.top().ctx) {
                // The interrupt is over before its callback ends. Otherwise the callback would give
                // back a level of the interrupt's guard, and its own would be held for ever.
                self.guards.lower();
            }
            self.moment = Moment::Mark(ToMark::Ending { user });
        }
        Item::Ret { call, to }
    }
}
