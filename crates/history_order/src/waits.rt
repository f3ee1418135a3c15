//! What has to come before what waits for it.
//!
//! None of the functions does anything: a law is proved where a contract names it.
ghost use Rattle.std.specs.Prelude.{◌≡◌, ℕ, ◌<◌, ◌≤◌, true, false, List, ◌∷◌, ◌++◌, Option, Some, get_or, reverse, slice_get};
ghost use Rattle.ft_base.specs.Job.{Job as PlainJob, no_task};
ghost use Rattle.ft_base.specs.declared.context.Ctx.{Ctx};
ghost use Rattle.ft_base.specs.declared.number.CallNo.{CallNo};
ghost use Rattle.ft_base.specs.declared.number.FuncNo.{FuncNo};
ghost use Rattle.ft_base.specs.declared.item.Item.{Item};
ghost use Rattle.ft_base.specs.declared.item.Item.TheVariants.{Begin, Enter, Leave};
ghost use Rattle.ft_base.specs.declared.task.TaskAct.TheVariants.{Call, Ret as RetAct};
ghost use Rattle.ft_hist.specs.Finished.{AreWaitsMet, acts_done, is_in_callback, is_scripted};
ghost use Rattle.ft_hist.specs.Past.{done};
ghost use Rattle.ft_hist.specs.Rules.{IsLegal};
ghost use Rattle.history_order.specs.Waits.{AreAftersMet};

/// Acts below `after N` come once N commands have returned: where a task enters or leaves a call of
/// its script, that is the act after those that it has done, and each `after N` among these is met.
/// A call is one of the script if it is entered outside of any callback of its task.
pub fn acts_wait_for_their_commands()
    ensures enter { (job : PlainJob) (items first rest : List Item) (call : CallNo) (ctx : Ctx) (f : FuncNo) (caller : Option CallNo)
        → IsLegal job items → items ≡ first ++ Enter call ctx f caller ∷ rest → is_in_callback call.task.0 (reverse first) ≡ false
        → (slice_get (get_or job.tasks call.task.0 no_task).acts (acts_done job call.task.0 (reverse first)) ≡ Some (Call f))
        × AreAftersMet job call.task.0 (reverse first) }
    ensures leave { (job : PlainJob) (items first rest : List Item) (call : CallNo)
        → IsLegal job items → items ≡ first ++ Leave call ∷ rest → is_scripted call (reverse first) ≡ true
        → (slice_get (get_or job.tasks call.task.0 no_task).acts (acts_done job call.task.0 (reverse first)) ≡ Some RetAct)
        × AreAftersMet job call.task.0 (reverse first) }
{}

/// A command begins once control's waits are met: before its Begin each task for which control
/// waits has done as many acts as the wait says.
pub fn commands_wait_for_their_tasks()
    ensures { (job : PlainJob) (items first rest : List Item) (k : ℕ)
        → IsLegal job items → items ≡ first ++ Begin k ∷ rest → AreWaitsMet job (reverse first) }
{}
