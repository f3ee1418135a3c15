//! Fetches: what was fetched at a call site, whom it lets in, and what runs.

ghost use Rattle.std.specs.List.{list_all};
ghost use Rattle.std.specs.Prelude.{◌≡◌, ◌==◌, ◌+◌, ◌<◌, ◌^◌, List, None, if◌then◌else◌, option_map, IsTrue, ◌↔◌};
ghost use Rattle.ft_base.specs.declared.item.Item.{Item};
ghost use Rattle.ft_base.specs.Desk.{desk, spec_at, target};
ghost use Rattle.ft_base.specs.Job.{Job as PlainJob};
ghost use Rattle.ft_hist.specs.Past.{visits};
ghost use Rattle.ft_hist.specs.Rules.{InWindow, OneReplaces, OnlyThose, backs_with_replacement, replacement, IsFetched, KeepsFetches};
ghost use Rattle.history_check.specs.TaskCalls.{IsTop};
ghost use Rattle.history_check.specs.JudgePast.{IsPast, IsTopOf};

use crate::open_call::{OpenCall, Visit};
use crate::past::Past;
use crate::users::replacement_of;
use ft_base::{FuncNo, Item, Ran, UserNo};

/// Whether the next item, of the top call of its task, keeps the rules of fetches.
pub fn keeps_fetches(past: &Past<'_>, top: Option<&OpenCall>, item: &Item) -> bool
    requires { past.now.begun + 1 < 2 ^ 32 }
    ensures { (job : PlainJob) (items : List Item) → IsPast job items past.now → IsTopOf job items item.now (option_map (λ c. c.now) top.entry)
        → IsTrue result ↔ KeepsFetches job items item.now }
{
    match (*item, top) {
        (Item::Body { func, ran, .. }, Some(top)) => is_fetched(past, top, func, ran),
        _ => true,
    }
}

/// Whether this could be fetched at a call's site and lets in those who were visited, and this function
/// runs.
fn is_fetched(past: &Past<'_>, top: &OpenCall, runs: FuncNo, ran: Ran) -> bool
    requires { past.now.begun + 1 < 2 ^ 32 }
    ensures { (job : PlainJob) (items : List Item) → IsPast job items past.now → IsTop job items top.now.call top.now
        → IsTrue result ↔ IsFetched job items top.now.call runs.0 ran }
{
    was_target(past, top, ran) && lets_in(top, ran) && is_replaced_by(past, top, runs)
}

/// Whether the target of a call's site was this after some number of commands, from those that had
/// returned when the call was entered to those that have begun.
fn was_target(past: &Past<'_>, top: &OpenCall, ran: Ran) -> bool
    requires { past.now.begun + 1 < 2 ^ 32 }
    ensures { (job : PlainJob) (items : List Item) → IsPast job items past.now → IsTop job items top.now.call top.now
        → IsTrue result ↔ InWindow top.now.call items (λ k. ran ≡ target (desk job k) top.now.func.0) }
{
    for k in top.from..past.begun + 1 {
        if is_same(past.desks.ran(k, top.func), ran) {
            return true;
        }
    }
    false
}

/// Whether two fetched instructions are the same.
fn is_same(one: Ran, other: Ran) -> bool
    ensures { IsTrue result ↔ (one ≡ other) }
{
    one == other
}

/// Whether what was fetched lets in all that were visited.
pub fn lets_in(top: &OpenCall, ran: Ran) -> bool
    ensures { (job : PlainJob) (items : List Item) → IsTop job items top.now.call top.now → IsTrue result ↔ OnlyThose ran (visits job top.now.call items) }
{
    match ran {
        Ran::Nop => top.visits.is_empty(),
        Ran::List => true,
        Ran::Own(user) => has_only(top, user),
    }
}

/// Whether all that were visited are this user.
fn has_only(top: &OpenCall, user: UserNo) -> bool
    ensures { result ≡ list_all (λ m. m.user.0 == user.0) top.now.visits.items }
{
    top.visits.iter().all(|visit| visit.user == user)
}

/// Whether at most one of the users that were called back replaces the function, and this is what runs.
pub fn is_replaced_by(past: &Past<'_>, top: &OpenCall, runs: FuncNo) -> bool
    ensures { (job : PlainJob) (items : List Item) → IsPast job items past.now → IsTop job items top.now.call top.now
        → IsTrue result ↔ (OneReplaces (backs_with_replacement job (visits job top.now.call items))
        × (runs.0 ≡ replacement job top.now.func.0 (backs_with_replacement job (visits job top.now.call items)))) }
{
    let mut found: Option<FuncNo> = None;
    for at in 0..top.visits.len() {
        let visit = top.visits[at];
        if let Some(func) = replaced_by(past, &visit) {
            if found.is_some() {
                return false;
            }
            found = Some(func);
        }
    }
    match found {
        Some(func) => runs == func,
        None => runs == top.func,
    }
}

/// The function that runs in the place of the traced one for a visit, if it is a callback of a user that
/// replaces it.
fn replaced_by(past: &Past<'_>, visit: &Visit) -> Option<FuncNo>
    ensures { (job : PlainJob) (items : List Item) → IsPast job items past.now
        → result ≡ (if visit.now.back then (spec_at job visit.now.user.0).ipmodify else None) }
{
    if visit.back {
        replacement_of(past.specs, visit.user)
    } else {
        None
    }
}
