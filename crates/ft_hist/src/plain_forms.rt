//! Passages of the rules that are hard to read, in a plainer form, and that both say the same.
//!
//! None of the functions does anything: a law is proved where a contract names it.
ghost use Rattle.std.specs.Prelude.{◌≡◌, ◌↔◌, List, length, reverse};
ghost use Rattle.ft_base.specs.Job.{Job as PlainJob};
ghost use Rattle.ft_base.specs.declared.number.CallNo.{CallNo};
ghost use Rattle.ft_base.specs.declared.item.Item.{Item};
ghost use Rattle.ft_hist.specs.Finished.{AreWaitsMet};
ghost use Rattle.ft_hist.specs.Past.{held};
ghost use Rattle.ft_hist.specs.Rules.{HasWaited, IsLegal};
ghost use Rattle.ft_hist.specs.ShadowStack.{shadow_stack, without};

/// The frames that the other calls of a task hold, which the depth rule and the misses count, are
/// those of the other calls on its shadow stack: a list that moves by one item at a time.
pub fn held_is_the_shadow_stack()
    ensures { (job : PlainJob) (items : List Item) (call : CallNo) → IsLegal job items
        → held job call (reverse items) ≡ length (without call (shadow_stack job call.task.0 (reverse items))) }
{}

/// The waits before control's next command are met exactly if none of them is for more acts than
/// its task has done: the longest beginning of its acts that has no more calls and returns than the
/// Bodies and Rets of the task's calls that were entered outside of any callback of it.
pub fn waits_count_what_is_finished()
    ensures { (job : PlainJob) (items : List Item) → IsLegal job items → HasWaited job (reverse items) ↔ AreWaitsMet job (reverse items) }
{}
