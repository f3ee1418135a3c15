//! The rings so far, item by item.

ghost use Rattle.std.specs.Prelude.{◌≡◌, ◌+◌, ◌<◌, ◌≤◌, ◌∷◌, ◌++◌, [], ℕ, length, replicate, set, slice_index, slice_index_or, IfOk, OnOk};
ghost use Rattle.ring_rules.specs.Fold.{after_item, at_start, hit, hit_all, no_ring};
ghost use Rattle.ring_rules.specs.Gathered.{AreFew, empty_box, lists_of, no_lists, written_box};
ghost use Rattle.ring_rules.specs.Legal.{fired_at};
ghost use Rattle.trace_rings.specs.Traced.{IsFor, with_fold, with_written};

use ft_base::{Item, NoMemory};
use ring_rules::{CpuRing, Rings, TracePlan};
use std::alloc::Global;
use std::marker::Model;

/// The rings so far. Contracts see them as the definition has them, with how many places each ring
/// holds and how many items came.
#[derive(Drop)]
pub(crate) struct Tracer {
    on: bool,
    /// By trigger.
    hits: Vec<u32>,
    /// By CPU.
    rings: Vec<CpuRing>,
    /// By trigger.
    fired: Vec<Vec<u32>>,
    most: u32,
    seen: u32,
}

impl Model for Tracer {
    ghost use Rattle.ring_rules.specs.Gathered.{lists_of, rings_in};
    ghost use Rattle.trace_rings.specs.Traced.{IsTraced, Traced};

    ghost Value = { Traced };

    ghost view = { λ t. record { so_far = record { on = t.on; hits = t.hits.items; rings = record { cpus = rings_in t.rings.items; fired = lists_of t.fired.items } }; most = t.most; seen = t.seen } };

    ghost invariant = { λ t. IsTraced t.hits.items t.rings.items t.most t.seen };
}

impl Tracer {
    /// No item has come. The error says that memory ran out.
    pub(crate) fn new(alloc: Global, plan: &TracePlan) -> Result<Tracer, NoMemory>
        ensures { IfOk result (λ t. t ≡ record { so_far = at_start plan.now; most = plan.now.ring; seen = 0 }) }
    {
        let hits = zeros(alloc, plan.trigger_count())?;
        let rings = empty_rings(alloc, plan.cpus(), plan.ring())?;
        let fired = empty_lists(alloc, plan.trigger_count())?;
        Ok(Tracer {
            on: plan.tracing(),
            hits,
            rings,
            fired,
            most: plan.ring(),
            seen: 0,
        })
    }

    /// The next item. The error says that memory ran out.
    pub(crate) fn take(&mut self, plan: &TracePlan, item: &Item) -> Result<(), NoMemory>
        requires plan { IsFor plan.now self.old }
        requires few { self.old.seen < 4294967295 }
        ensures { OnOk result (self.new ≡ record { so_far = after_item plan.now self.old.seen item.now self.old.so_far; most = self.old.most; seen = self.old.seen + 1 }) }
    {
        self.facts();
        let place = self.seen;
        self.pass();
        self.hit_all(plan, item, place)?;
        if plan.is_traced(item) && self.on {
            self.write(plan.cpu(item), place);
        }
        Ok(())
    }

    /// The rings. The error says that memory ran out.
    pub(crate) fn finish(self, alloc: Global, plan: &TracePlan) -> Result<Rings, NoMemory>
        requires plan { IsFor plan.now self }
        requires few { AreFew (length plan.now.triggers) (self.so_far.rings.fired ∷ []) }
        ensures { IfOk result (λ r. r ≡ self.so_far.rings) }
    {
        let parts = one_part(alloc, self.fired)?;
        Ok(Rings::new(self.rings, parts, plan.trigger_count()))
    }

    /// Changes nothing. A caller learns that nothing was counted more often than items came.
    fn facts(&self)
        ensures hits { (i : ℕ) → slice_index self.now.so_far.hits i ≤ self.now.seen }
        ensures written { (c : ℕ) → (slice_index_or self.now.so_far.rings.cpus c no_ring).written ≤ self.now.seen }
    {
        let _seen = self.seen;
    }

    /// One more item comes.
    fn pass(&mut self)
        requires { self.old.seen < 4294967295 }
        ensures { self.new ≡ record { so_far = self.old.so_far; most = self.old.most; seen = self.old.seen + 1 } }
    {
        self.seen += 1;
    }

    /// All triggers at an item, in the order of lines. The error says that memory ran out.
    fn hit_all(&mut self, plan: &TracePlan, item: &Item, place: u32) -> Result<(), NoMemory>
        requires plan { IsFor plan.now self.old }
        requires few { (i : ℕ) → slice_index self.old.so_far.hits i < self.old.seen }
        ensures { OnOk result (self.new ≡ with_fold self.old (hit_all plan.now place item.now (length plan.now.triggers) self.old.so_far)) }
    {
        for i in 0..plan.trigger_count() {
            if plan.is_hit(i, item) {
                self.hit(plan, i, place)?;
            }
        }
        Ok(())
    }

    /// A trigger that is hit at a place. The error says that memory ran out.
    fn hit(&mut self, plan: &TracePlan, i: u32, place: u32) -> Result<(), NoMemory>
        requires plan { IsFor plan.now self.old }
        requires trigger { i < length plan.now.triggers }
        requires few { slice_index self.old.so_far.hits i < self.old.seen }
        ensures { OnOk result (self.new ≡ with_fold self.old (hit plan.now place i self.old.so_far)) }
    {
        let before = self.hits[i as usize];
        let fires = plan.fires(i, u64::from(before));
        if fires {
            push_place(&mut self.fired, i, place)?;
            self.on = plan.switches_on(i);
        }
        self.hits[i as usize] = before + 1;
        Ok(())
    }

    /// The place of an entry callback is written, if there is such a CPU.
    fn write(&mut self, cpu: u32, place: u32)
        requires { (slice_index_or self.old.so_far.rings.cpus cpu no_ring).written < self.old.seen }
        ensures { self.new ≡ with_written self.old cpu place }
    {
        write_at(&mut self.rings, cpu, place);
    }
}

/// One part alone. The error says that memory ran out.
fn one_part(alloc: Global, fired: Vec<Vec<u32>>) -> Result<Vec<Vec<Vec<u32>>>, NoMemory>
    ensures { IfOk result (λ v. v.items ≡ fired ∷ []) }
{
    let mut parts = Vec::with_capacity(alloc, 1).map_err(|_| NoMemory)?;
    parts.push_reserved(fired);
    Ok(parts)
}

/// Notes a place at which a trigger fired. The error says that memory ran out.
fn push_place(fired: &mut Vec<Vec<u32>>, i: u32, place: u32) -> Result<(), NoMemory>
    requires { i < length fired.old.items }
    ensures { OnOk result (lists_of fired.new.items ≡ set (lists_of fired.old.items) i (fired_at (lists_of fired.old.items) i ++ place ∷ [])) }
{
    match fired[i as usize].push(place) {
        Ok(()) => Ok(()),
        Err(_) => Err(NoMemory),
    }
}

/// Writes one more place into the ring of a CPU, if there is such a CPU.
fn write_at(rings: &mut Vec<CpuRing>, cpu: u32, place: u32)
    requires { (slice_index_or rings.old.items cpu (empty_box 0)).ring.written < 4294967295 }
    ensures { rings.new.items ≡ set rings.old.items cpu (written_box place (slice_index_or rings.old.items cpu (empty_box 0))) }
{
    if (cpu as usize) < rings.len() {
        rings[cpu as usize].write(place);
    }
}

/// So many empty rings, each of which holds so many places. The error says that memory ran out.
fn empty_rings(alloc: Global, count: u32, most: u32) -> Result<Vec<CpuRing>, NoMemory>
    ensures { IfOk result (λ v. v.items ≡ replicate count (empty_box most)) }
{
    let mut rings = Vec::with_capacity(alloc, count as usize).map_err(|_| NoMemory)?;
    for i in 0..count {
        let _number = i;
        rings.push_reserved(CpuRing::new(alloc, most)?);
    }
    Ok(rings)
}

/// So many empty lists. The error says that memory ran out.
fn empty_lists(alloc: Global, count: u32) -> Result<Vec<Vec<u32>>, NoMemory>
    ensures { IfOk result (λ v. lists_of v.items ≡ no_lists count) }
{
    let mut lists = Vec::with_capacity(alloc, count as usize).map_err(|_| NoMemory)?;
    for i in 0..count {
        let _number = i;
        lists.push_reserved(Vec::new(alloc));
    }
    Ok(lists)
}

/// So many zeros. The error says that memory ran out.
fn zeros(alloc: Global, count: u32) -> Result<Vec<u32>, NoMemory>
    ensures { IfOk result (λ v. v.items ≡ replicate count 0) }
{
    let mut numbers = Vec::with_capacity(alloc, count as usize).map_err(|_| NoMemory)?;
    for i in 0..count {
        let _number = i;
        numbers.push_reserved(0);
    }
    Ok(numbers)
}
