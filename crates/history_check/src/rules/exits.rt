//! Exits: misses come when they are due; exits in the order of their entry callbacks, while the
//! registration is live; and none lacks but of a registration that was not.

ghost use Rattle.std.specs.List.{list_any};
ghost use Rattle.std.specs.Prelude.{◌≡◌, ◌⊎◌, ◌==◌, ◌+◌, ◌<◌, ◌≤◌, ◌^◌, ℕ, List, length, None, true, false, option_map, IsTrue, ◌↔◌};
ghost use Rattle.ft_base.specs.declared.item.Item.{Item};
ghost use Rattle.ft_base.specs.declared.number.CallNo.{CallNo};
ghost use Rattle.ft_base.specs.Desk.{desk, is_live};
ghost use Rattle.ft_base.specs.Job.{Job as PlainJob};
ghost use Rattle.ft_hist.specs.Past.{begun, miss_due};
ghost use Rattle.ft_hist.specs.Rules.{AtReturnedOrBegun, HasExit, AreExitsDone, MayExit, MayMiss, KeepsExits};
ghost use Rattle.history_check.specs.TaskCalls.{IsTop, visit_of};
ghost use Rattle.history_check.specs.JudgePast.{IsPast, IsTopOf};

use crate::open_call::{OpenCall, Visit};
use crate::past::Past;
use crate::users::kind_of;
use ft_base::{CallNo, Item, TaskNo, UserNo};

/// Whether the next item, of the top call of its task, keeps the rules of misses and exits.
pub(crate) fn keeps_exits(past: &Past<'_>, top: Option<&OpenCall>, item: &Item) -> bool
    requires { past.now.begun + 1 < 2 ^ 32 }
    ensures { (job : PlainJob) (items : List Item) → IsPast job items past.now → IsTopOf job items item.now (option_map (λ c. c.now) top.entry)
        → IsTrue result ↔ KeepsExits job items item.now }
{
    let Some(call) = item.call() else {
        return true;
    };
    match (*item, top) {
        (Item::Miss { user, .. }, _) => may_miss(past, call, user),
        (Item::Exit { user, entry, .. }, Some(top)) => {
            may_exit(past, top, user, entry) && is_none_due(past, call.task)
        }
        (Item::Ret { .. }, Some(top)) => {
            are_exits_done(past, top) && is_none_due(past, call.task)
        }
        _ => is_none_due(past, call.task),
    }
}

/// Whether no miss has to be the next item of a task.
fn is_none_due(past: &Past<'_>, task: TaskNo) -> bool
    ensures { (job : PlainJob) (items : List Item) → IsPast job items past.now → task.0 < length job.tasks
        → IsTrue result ↔ (miss_due job task.0 items ≡ None) }
{
    past.due(task).is_none()
}

/// Whether a miss is the one that is due.
pub fn may_miss(past: &Past<'_>, call: CallNo, user: UserNo) -> bool
    ensures { (job : PlainJob) (items : List Item) → IsPast job items past.now → call.task.0 < length job.tasks
        → IsTrue result ↔ MayMiss job items call user.0 }
{
    match past.due(call.task) {
        Some(due) => due.call == call && due.user == user,
        None => false,
    }
}

/// Whether a user may have the exit of the entry callback at this place: that set one up, it is later than
/// those that had theirs, and its registration is live.
fn may_exit(past: &Past<'_>, top: &OpenCall, user: UserNo, entry: u32) -> bool
    ensures { (job : PlainJob) (items : List Item) → IsPast job items past.now → IsTop job items top.now.call top.now
        → IsTrue result ↔ MayExit job items top.now.call user.0 entry }
{
    if !top.comes_after(entry) {
        return false;
    }
    for at in 0..top.visits.len() {
        let visit = top.visits[at];
        if may_end(past, &visit, user, entry) {
            return true;
        }
    }
    false
}

/// Whether this is the visit of a user whose exit may come: the entry callback at this place.
fn may_end(past: &Past<'_>, visit: &Visit, user: UserNo, entry: u32) -> bool
    ensures { (job : PlainJob) (items : List Item) (call : CallNo) → IsPast job items past.now
        → IsTrue result ↔ ((visit.now.user.0 ≡ user.0) × (visit.now.place ≡ entry) × HasExit job (visit_of call visit.now)
        × AtReturnedOrBegun items (λ k. is_live (desk job k) visit.now.user.0 visit.now.reg ≡ true)) }
{
    if !is_at(visit, user, entry) {
        return false;
    }
    if !has_exit(past, visit) {
        return false;
    }
    is_live(past, visit)
}

/// Whether a visit is of this user and at this place.
pub fn is_at(visit: &Visit, user: UserNo, place: u32) -> bool
    ensures { IsTrue result ↔ ((visit.now.user.0 ≡ user.0) × (visit.now.place ≡ place)) }
{
    visit.user == user && visit.place == place
}

/// Whether all entry callbacks of a call that set up an exit have had it, but for those whose registration
/// was not live at some time since the body was over.
pub fn are_exits_done(past: &Past<'_>, top: &OpenCall) -> bool
    requires { past.now.begun + 1 < 2 ^ 32 }
    ensures { (job : PlainJob) (items : List Item) → IsPast job items past.now → IsTop job items top.now.call top.now
        → IsTrue result ↔ AreExitsDone job items top.now.call }
{
    for at in 0..top.visits.len() {
        let visit = top.visits[at];
        if !is_settled(past, top, &visit) {
            return false;
        }
    }
    true
}

/// Whether a visit set up no exit, or the call had it, or the registration was not live at some time since
/// the body was over.
fn is_settled(past: &Past<'_>, top: &OpenCall, visit: &Visit) -> bool
    requires { past.now.begun + 1 < 2 ^ 32 }
    ensures { (job : PlainJob) (items : List Item) → IsPast job items past.now
        → IsTrue result ↔ (HasExit job (visit_of top.now.call visit.now) → (list_any (λ e. e == visit.now.place) top.now.exits.items ≡ true)
        ⊎ ((k : ℕ) × (top.now.left ≤ k) × (k ≤ begun items) × (is_live (desk job k) visit.now.user.0 visit.now.reg ≡ false))) }
{
    if !has_exit(past, visit) {
        return true;
    }
    let had = top.has_exit(visit.place);
    if had {
        return true;
    }
    was_dead(past, top.left, visit)
}

/// Whether a visit set up an exit: an entry callback that got a frame, of a user that doesn't cancel it.
pub fn has_exit(past: &Past<'_>, visit: &Visit) -> bool
    ensures { (job : PlainJob) (items : List Item) (call : CallNo) → IsPast job items past.now → IsTrue result ↔ HasExit job (visit_of call visit.now) }
{
    visit.back && visit.framed && !kind_of(past.specs, visit.user).cancels()
}

/// Whether a visit's registration is live, after the commands that have returned or after those that have
/// begun.
fn is_live(past: &Past<'_>, visit: &Visit) -> bool
    ensures { (job : PlainJob) (items : List Item) → IsPast job items past.now
        → IsTrue result ↔ AtReturnedOrBegun items (λ k. is_live (desk job k) visit.now.user.0 visit.now.reg ≡ true) }
{
    past.desks.is_live(past.done, visit.user, visit.reg)
        || past.desks.is_live(past.begun, visit.user, visit.reg)
}

/// Whether a visit's registration was not live after some number of commands, from this one on up to those
/// that have begun.
fn was_dead(past: &Past<'_>, from: u32, visit: &Visit) -> bool
    requires { past.now.begun + 1 < 2 ^ 32 }
    ensures { (job : PlainJob) (items : List Item) → IsPast job items past.now
        → IsTrue result ↔ ((k : ℕ) × (from ≤ k) × (k ≤ begun items) × (is_live (desk job k) visit.now.user.0 visit.now.reg ≡ false)) }
{
    for k in from..past.begun + 1 {
        if !past.desks.is_live(k, visit.user, visit.reg) {
            return true;
        }
    }
    false
}
