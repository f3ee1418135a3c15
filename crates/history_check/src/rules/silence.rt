//! Silence: whoever was not visited in a call was off at some time of its window.

ghost use Rattle.std.specs.Prelude.{◌+◌, ◌<◌, ◌^◌, List, option_map, IsTrue, ◌↔◌};
ghost use Rattle.ft_base.specs.declared.item.Item.{Item};
ghost use Rattle.ft_base.specs.Job.{Job as PlainJob};
ghost use Rattle.ft_hist.specs.Rules.{IsSilent, KeepsSilence};
ghost use Rattle.history_check.specs.TaskCalls.{IsTop};
ghost use Rattle.history_check.specs.JudgePast.{IsPast, IsTopOf};

use crate::open_call::OpenCall;
use crate::past::Past;
use ft_base::{Item, UserNo};

/// Whether the next item, of the top call of its task, keeps the rule of silence.
pub(crate) fn keeps_silence(past: &Past<'_>, top: Option<&OpenCall>, item: &Item) -> bool
    requires { past.now.begun + 1 < 2 ^ 32 }
    ensures { (job : PlainJob) (items : List Item) → IsPast job items past.now → IsTopOf job items item.now (option_map (λ c. c.now) top.entry)
        → IsTrue result ↔ KeepsSilence job items item.now }
{
    match (*item, top) {
        (Item::Body { .. }, Some(top)) => is_silent(past, top),
        _ => true,
    }
}

/// Whether each user that was not visited in a call was off at some time since its entry.
fn is_silent(past: &Past<'_>, top: &OpenCall) -> bool
    requires { past.now.begun + 1 < 2 ^ 32 }
    ensures { (job : PlainJob) (items : List Item) → IsPast job items past.now → IsTop job items top.now.call top.now
        → IsTrue result ↔ IsSilent job items top.now.call }
{
    for u in 0..past.desks.users() {
        let user = UserNo(u);
        if !top.has_visited(user) && !past.desks.was_off(top.from, past.begun, user, top.func) {
            return false;
        }
    }
    true
}
