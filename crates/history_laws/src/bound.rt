//! How long a legal history can be: `call_bound` is enough. A scripted call, from its Enter to its
//! Ret, with all its callbacks, their acts and its exits, has at most that many items of its task,
//! for users of every kind. So a machine that makes legal histories, whichever it is, can take the
//! room for all items at its start.
//!
//! And so many of its calls can be open at once: one for each call of its script, and one for each
//! level of two guards. So what follows the open calls of a task along its items can take the room for
//! them at its start.
//!
//! The proof of the first is a *credit*: an open call counts what its phase and the users that were not visited
//! yet leave of its bound, and each item pays one. A callback holds a level of its context's guard.
//! So acts nest as deep as the guard of the call's context has levels, and then as deep as that of an
//! interrupt. Nothing here has code; the laws speak of histories alone.

ghost use Rattle.std.specs.Prelude.{◌≤◌, ◌+◌, ◌*◌, ℕ, List, length};
ghost use Rattle.ft_base.specs.Job.{Job as PlainJob, commands};
ghost use Rattle.ft_base.specs.declared.item.Item.{Item};
ghost use Rattle.ft_base.specs.Versions.{levels};
ghost use Rattle.ft_hist.specs.Rules.{IsLegal, IsLegalPast};
ghost use Rattle.ft_hist.specs.Telling.{open_calls};
ghost use Rattle.history_laws.specs.Bound.{all_calls, calls_of, items_of};
ghost use Rattle.user_specs.specs.Bound.{call_bound_in};

/// In a legal history a task has at most `call_bound` items for each call of its script.
pub fn each_call_is_bounded()
    ensures { (job : PlainJob) (items : List Item) (t : ℕ) → IsLegal job items
        → items_of t items ≤ call_bound_in job * calls_of job t }
{}

/// And a legal history has at most `call_bound` items for each call of all scripts, and two for
/// each command. A script's limits make this at most 4,000,000 and two a command.
pub fn each_history_is_bounded()
    ensures { (job : PlainJob) (items : List Item) → IsLegal job items
        → length items ≤ 2 * length (commands job) + call_bound_in job * all_calls job.tasks }
{}

/// After the items of a legal history so far, the latest first, a task has at most as many open calls
/// as its script makes, and one for each level of the guards of two contexts.
pub fn each_stack_is_bounded()
    ensures { (job : PlainJob) (past : List Item) (t : ℕ) → IsLegalPast job past
        → length (open_calls t past) ≤ calls_of job t + 2 * levels job }
{}
