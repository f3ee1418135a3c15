//! Laws of the rings. The functions do nothing.

ghost use Rattle.std.specs.Prelude.{◌≡◌, ◌<◌, ℕ, Bool, false, true, List, length, Option, Some, slice_get};
ghost use Rattle.ft_base.specs.declared.context.Ctx.{Ctx as PlainCtx};
ghost use Rattle.ft_base.specs.declared.item.Item.{Item as PlainItem};
ghost use Rattle.ft_base.specs.declared.item.Item.TheVariants.{Back, Enter};
ghost use Rattle.ft_base.specs.declared.number.CallNo.{CallNo as PlainCall};
ghost use Rattle.ft_base.specs.declared.number.FuncNo.{FuncNo as PlainFunc};
ghost use Rattle.ft_base.specs.declared.number.UserNo.{UserNo as PlainUser};
ghost use Rattle.ft_base.specs.Desk.{spec_at};
ghost use Rattle.ft_base.specs.Job.{Job as PlainJob};
ghost use Rattle.ft_base.specs.Marks.{holds};
ghost use Rattle.ring_rules.specs.Fold.{Rings as PlainRings, fold};
ghost use Rattle.ring_rules.specs.Hits.{has, hits_in, is_traced, quota, trigger};
ghost use Rattle.ring_rules.specs.Legal.{IsSublist, OnlyOwnFired, RingsLegal, fired_at, items_on, own_places, ring_with};
ghost use Rattle.ring_rules.specs.Plan.{TracePlan as PlainPlan, plan_of};
ghost use Rattle.ft_base.specs.Kinds.{is_function};

/// The rings of a history that is gone through by place are legal for it, whatever the plan and the
/// history.
pub fn the_fold_is_legal()
    ensures { (plan : PlainPlan) (history : List PlainItem) → RingsLegal plan history (fold plan history) }
{}

/// By the plan of a job, an entry callback is written exactly if the job declares its user of kind
/// function.
pub fn function_users_are_traced()
    ensures { (job : PlainJob) (call : PlainCall) (user : PlainUser) → is_traced (plan_of job) (Back call user) ≡ is_function (spec_at job user.0).kind }
{}

/// In legal rings a trigger has fired as often as it was hit, but no more often than its limit; at
/// calls of functions in its set, and at no call twice.
pub fn triggers_fire_as_often_as_they_may()
    ensures times { (plan : PlainPlan) (history : List PlainItem) (rings : PlainRings) (i : ℕ) → RingsLegal plan history rings
        → i < length plan.triggers → length (fired_at rings.fired i) ≡ quota (trigger plan i).limit (hits_in (trigger plan i) history) }
    ensures calls { (plan : PlainPlan) (history : List PlainItem) (rings : PlainRings) (i p : ℕ) → RingsLegal plan history rings
        → i < length plan.triggers → has (fired_at rings.fired i) p ≡ true
        → (call : PlainCall) × (ctx : PlainCtx) × (func : PlainFunc) × (caller : Option PlainCall)
        × (slice_get history p ≡ Some (Enter call ctx func caller)) × (holds (trigger plan i).set func.0 ≡ true) }
    ensures apart { (plan : PlainPlan) (history : List PlainItem) (rings : PlainRings) (i j k p : ℕ) → RingsLegal plan history rings
        → i < length plan.triggers → slice_get (fired_at rings.fired i) j ≡ Some p → slice_get (fired_at rings.fired i) k ≡ Some p → j ≡ k }
{}

/// Where no other CPU has a fired hit that switches tracing off, all entry callbacks of a CPU at which
/// its own switch is on were written into its ring. Where none has one that switches it on, no others
/// were.
pub fn a_ring_differs_by_other_cpus_alone()
    ensures lost { (plan : PlainPlan) (history : List PlainItem) (rings : PlainRings) (c : ℕ) → RingsLegal plan history rings → c < plan.cpus
        → OnlyOwnFired plan history rings.fired c false
        → (written : List ℕ) × (slice_get rings.cpus c ≡ Some (ring_with plan written))
        × IsSublist (own_places plan rings.fired (items_on plan c history) plan.tracing) written }
    ensures added { (plan : PlainPlan) (history : List PlainItem) (rings : PlainRings) (c : ℕ) → RingsLegal plan history rings → c < plan.cpus
        → OnlyOwnFired plan history rings.fired c true
        → (written : List ℕ) × (slice_get rings.cpus c ≡ Some (ring_with plan written))
        × IsSublist written (own_places plan rings.fired (items_on plan c history) plan.tracing) }
{}

/// Where no other CPU has a fired hit, the entries that were written into the ring of a CPU are those of
/// exactly its entry callbacks at which its own switch is on.
pub fn alone_a_cpu_writes_by_its_own_switch()
    ensures { (plan : PlainPlan) (history : List PlainItem) (rings : PlainRings) (c : ℕ) → RingsLegal plan history rings → c < plan.cpus
        → ((on : Bool) → OnlyOwnFired plan history rings.fired c on)
        → slice_get rings.cpus c ≡ Some (ring_with plan (own_places plan rings.fired (items_on plan c history) plan.tracing)) }
{}
