//! The switch of tracing, and how often each trigger was hit.

ghost use Rattle.std.specs.Prelude.{◌≡◌, ◌<◌, ℕ, length, slice_index, IfOk};
ghost use Rattle.ring_rules.specs.Fold.{Tracing, at_start, hit, hit_all};

use ft_base::{Item, NoMemory};
use ring_rules::TracePlan;
use std::alloc::Global;

/// Whether tracing is on, and how often each trigger was hit.
#[derive(Drop)]
pub(crate) struct Switch {
    /// Whether tracing is on.
    on: bool,
    /// By trigger.
    hits: Vec<u32>,
}

impl Switch {
    ghost use Rattle.trace_views.specs.RingViews.{IsSwitchOf};

    /// Before the first item. The error says that memory ran out.
    pub(crate) fn new(alloc: Global, plan: &TracePlan) -> Result<Switch, NoMemory>
        ensures { IfOk result (λ switch. IsSwitchOf (at_start plan.now) switch) }
    {
        let count = plan.trigger_count();
        let mut hits = Vec::with_capacity(alloc, count as usize).map_err(|_| NoMemory)?;
        for i in 0..count {
            let _number = i;
            hits.push_reserved(0);
        }
        Ok(Switch {
            on: plan.tracing(),
            hits,
        })
    }

    /// Whether tracing is on.
    pub(crate) fn is_on(&self) -> bool
        ensures { result ≡ self.now.on }
    {
        self.on
    }

    /// How often a trigger was hit.
    pub(crate) fn hits(&self, i: u32) -> u32
        requires { i < length self.now.hits.items }
        ensures { result ≡ slice_index self.now.hits.items i }
    {
        self.hits[i as usize]
    }

    /// All triggers at an item, in the order of lines.
    pub(crate) fn hit_all(&mut self, plan: &TracePlan, item: &Item)
        requires count { length self.old.hits.items ≡ length plan.now.triggers }
        requires few { (i : ℕ) → slice_index self.old.hits.items i < 4294967295 }
        ensures { (p : ℕ) (s : Tracing) → IsSwitchOf s self.old
            → IsSwitchOf (hit_all plan.now p item.now (length plan.now.triggers) s) self.new }
    {
        for i in 0..plan.trigger_count() {
            if plan.is_hit(i, item) {
                self.hit(plan, i);
            }
        }
    }

    /// A trigger that is hit.
    fn hit(&mut self, plan: &TracePlan, i: u32)
        requires trigger { i < length plan.now.triggers }
        requires count { i < length self.old.hits.items }
        requires few { slice_index self.old.hits.items i < 4294967295 }
        ensures { (p : ℕ) (s : Tracing) → IsSwitchOf s self.old → IsSwitchOf (hit plan.now p i s) self.new }
    {
        let before = self.hits[i as usize];
        if plan.fires(i, u64::from(before)) {
            self.on = plan.switches_on(i);
        }
        self.hits[i as usize] = before + 1;
    }
}
