//! Refusals: a user is refused for the first reason that holds, and is called back only if none does.

ghost use Rattle.std.specs.Prelude.{◌≡◌, ◌<◌, ◌≤◌, ◌⊎◌, List, option_map, IsTrue, ◌↔◌};
ghost use Rattle.ft_base.specs.declared.item.Item.{Item};
ghost use Rattle.ft_base.specs.Desk.{desk, is_allowed};
ghost use Rattle.ft_base.specs.Job.{Job as PlainJob};
ghost use Rattle.ft_hist.specs.Rules.{AtReturnedOrBegun, IsFree, MayRefuse, PassesPid, KeepsRefusals, PassesAll};
ghost use Rattle.history_check.specs.TaskCalls.{IsTop};
ghost use Rattle.history_check.specs.JudgePast.{IsPast, IsTopOf};

use crate::open_call::OpenCall;
use crate::past::Past;
use crate::users::{is_by_pid, kind_of};
use ft_base::{Item, Reason, UserNo};

/// Whether the next item, of the top call of its task, keeps the rules of refusals.
pub fn keeps_refusals(past: &Past<'_>, top: Option<&OpenCall>, item: &Item) -> bool
    ensures { (job : PlainJob) (items : List Item) → IsPast job items past.now → IsTopOf job items item.now (option_map (λ c. c.now) top.entry)
        → IsTrue result ↔ KeepsRefusals job items item.now }
{
    match (*item, top) {
        (Item::Back { user, .. }, Some(top)) => passes_all(past, top, user),
        (Item::Refuse { user, reason, .. }, Some(top)) => may_refuse(past, top, user, reason),
        _ => true,
    }
}

/// Whether there is no reason to refuse a user.
fn passes_all(past: &Past<'_>, top: &OpenCall, user: UserNo) -> bool
    ensures { (job : PlainJob) (items : List Item) → IsPast job items past.now → IsTop job items top.now.call top.now
        → IsTrue result ↔ PassesAll job items top.now.call user.0 }
{
    passes_pid(past, top, user)
        && is_free(past, top)
        && (!kind_of(past.specs, user).has_depth()
            || (top.held < past.frames && is_within(past, top)))
}

/// Whether a user may be refused for this reason.
fn may_refuse(past: &Past<'_>, top: &OpenCall, user: UserNo, reason: Reason) -> bool
    ensures { (job : PlainJob) (items : List Item) → IsPast job items past.now → IsTop job items top.now.call top.now
        → IsTrue result ↔ MayRefuse job items top.now.call user.0 reason }
{
    match reason {
        Reason::Pid => is_by_pid(past.specs, user) && was_allowed(past, top, false),
        Reason::Recursion => passes_pid(past, top, user) && !is_free(past, top),
        Reason::Depth => {
            passes_pid(past, top, user)
                && is_free(past, top)
                && kind_of(past.specs, user).has_depth()
                && (top.held == past.frames || is_beyond(past, top))
        }
    }
}

/// Whether the pid lists let a user's callback be, if they matter to it.
fn passes_pid(past: &Past<'_>, top: &OpenCall, user: UserNo) -> bool
    ensures { (job : PlainJob) (items : List Item) → IsPast job items past.now → IsTop job items top.now.call top.now
        → IsTrue result ↔ PassesPid job items top.now.call user.0 }
{
    !is_by_pid(past.specs, user) || was_allowed(past, top, true)
}

/// Whether the pid lists allowed the call's task, or didn't, after the commands that have returned or
/// after those that have begun.
fn was_allowed(past: &Past<'_>, top: &OpenCall, is: bool) -> bool
    ensures { (job : PlainJob) (items : List Item) → IsPast job items past.now → IsTop job items top.now.call top.now
        → IsTrue result ↔ AtReturnedOrBegun items (λ k. is_allowed (desk job k) top.now.call.task.0 ≡ is) }
{
    let task = top.call.task;
    past.desks.is_allowed(past.done, task) == is || past.desks.is_allowed(past.begun, task) == is
}

/// Whether a level of the guard of the call's task and context is free.
pub fn is_free(past: &Past<'_>, top: &OpenCall) -> bool
    ensures { (job : PlainJob) (items : List Item) → IsPast job items past.now → IsTop job items top.now.call top.now
        → IsTrue result ↔ IsFree job items top.now.call }
{
    past.callbacks.count(top.call.task, top.ctx) < past.levels as usize
}

/// Whether a call was within the graph depth, after the commands that have returned or after those that
/// have begun.
fn is_within(past: &Past<'_>, top: &OpenCall) -> bool
    ensures { (job : PlainJob) (items : List Item) → IsPast job items past.now
        → IsTrue result ↔ AtReturnedOrBegun items (λ k. ((desk job k).depth ≡ 0) ⊎ (top.now.held < (desk job k).depth)) }
{
    is_level_within(past, past.done, top) || is_level_within(past, past.begun, top)
}

/// Whether a call is within the graph depth after this many commands.
fn is_level_within(past: &Past<'_>, k: u32, top: &OpenCall) -> bool
    ensures { (job : PlainJob) (items : List Item) → IsPast job items past.now
        → IsTrue result ↔ (((desk job k).depth ≡ 0) ⊎ (top.now.held < (desk job k).depth)) }
{
    let depth = past.desks.depth(k);
    depth == 0 || top.held < depth
}

/// Whether a call was beyond the graph depth, after the commands that have returned or after those that
/// have begun.
fn is_beyond(past: &Past<'_>, top: &OpenCall) -> bool
    ensures { (job : PlainJob) (items : List Item) → IsPast job items past.now
        → IsTrue result ↔ AtReturnedOrBegun items (λ k. (0 < (desk job k).depth) × ((desk job k).depth ≤ top.now.held)) }
{
    is_level_beyond(past, past.done, top) || is_level_beyond(past, past.begun, top)
}

/// Whether a call is beyond the graph depth after this many commands.
pub fn is_level_beyond(past: &Past<'_>, k: u32, top: &OpenCall) -> bool
    ensures { (job : PlainJob) (items : List Item) → IsPast job items past.now
        → IsTrue result ↔ ((0 < (desk job k).depth) × ((desk job k).depth ≤ top.now.held)) }
{
    !is_level_within(past, k, top)
}
