//! Callbacks: who may be visited in a call, and that none is open of a user that was taken off.

ghost use Rattle.std.specs.Prelude.{List, option_map, IsTrue, ◌↔◌};
ghost use Rattle.ft_base.specs.declared.item.Item.{Item};
ghost use Rattle.ft_base.specs.Job.{Job as PlainJob};
ghost use Rattle.ft_hist.specs.Rules.{MayVisit, KeepsCallbacks};
ghost use Rattle.history_check.specs.TaskCalls.{IsTop};
ghost use Rattle.history_check.specs.JudgePast.{IsPast, IsTopOf};

use crate::open_call::OpenCall;
use crate::past::Past;
use ft_base::{Answer, Item, UserNo};

/// Whether the next item, of the top call of its task, keeps the rules of callbacks.
pub(crate) fn keeps_callbacks(past: &Past<'_>, top: Option<&OpenCall>, item: &Item) -> bool
    ensures { (job : PlainJob) (items : List Item) → IsPast job items past.now → IsTopOf job items item.now (option_map (λ c. c.now) top.entry)
        → IsTrue result ↔ KeepsCallbacks job items item.now }
{
    match (*item, top) {
        (Item::Back { user, .. }, Some(top)) => may_visit(past, top, user),
        (Item::Refuse { user, .. }, Some(top)) => may_visit(past, top, user),
        (
            Item::Return {
                k,
                answer: Answer::Accepted,
            },
            _,
        ) => past.callbacks.is_still(&past.desks, k),
        _ => true,
    }
}

/// Whether a user may be visited in a call: it is on, was not visited, and was registered before those
/// that were.
fn may_visit(past: &Past<'_>, top: &OpenCall, user: UserNo) -> bool
    ensures { (job : PlainJob) (items : List Item) → IsPast job items past.now → IsTop job items top.now.call top.now
        → IsTrue result ↔ MayVisit job items top.now.call user.0 }
{
    let at = past
        .desks
        .registered_at(past.done, past.begun, user, top.func);
    past.desks.is_on(at, user, top.func)
        && !top.has_visited(user)
        && top.is_before_all(past.desks.since(at, user))
}
