//! The view rings of items that come one after the other.

ghost use Rattle.std.specs.Prelude.{◌≡◌, ◌<◌, ◌≤◌, ◌+◌, ◌^◌, ◌&&◌, [], ◌∷◌, ◌++◌, ℕ, true, false, List, None, Some, length, reverse, replicate, set, slice_index_or, IfOk, OnOk};
ghost use Rattle.ft_base.specs.declared.item.Item.{Item};
ghost use Rattle.ft_base.specs.Items.{call_of};
ghost use Rattle.ft_base.specs.Job.{Job as PlainJob};
ghost use Rattle.ft_hist.specs.Rules.{IsLegalPast};
ghost use Rattle.ring_rules.specs.Fold.{cpu_of_call, fold};
ghost use Rattle.ring_rules.specs.Hits.{is_traced};
ghost use Rattle.ring_rules.specs.Plan.{plan_of};
ghost use Rattle.trace_views.specs.OpenCalls.{IsFollowed};
ghost use Rattle.trace_views.specs.RingLines.{IsLineAt, rings_line_text};
ghost use Rattle.trace_views.specs.LineRings.{empty_lines, kept_text, with_line};
ghost use Rattle.trace_views.specs.RingViews.{IsFiredBy};
ghost use Rattle.trace_views.specs.RingsText.{rings_body, trigger_text};
ghost use Rattle.trace_views.specs.Words.{lines_text, numbered_texts};

use crate::function::{FunctionLine, back_line};
use crate::line_ring::LineRing;
use crate::named::Named;
use crate::open_calls::OpenCalls;
use crate::rings::{RingsLine, push_line};
use crate::switch::Switch;
use ft_base::{Item, NoMemory};
use ring_rules::TracePlan;
use std::alloc::Global;

/// The rings of a job's items so far, gone through by place. It takes the items one after the other, each
/// when it is marked, and no memory for them: of the entries it keeps the lines of those that the rings
/// hold.
#[derive(Drop)]
pub struct RingsView {
    /// What rings need to know of the job.
    plan: TracePlan,
    /// The calls that are open.
    stacks: OpenCalls,
    /// The place of the next item.
    place: u32,
    /// Whether tracing is on, and the hits of the triggers.
    switch: Switch,
    /// By CPU.
    rings: Vec<LineRing>,
}

impl RingsView {
    ghost use Rattle.trace_views.specs.RingViews.{HasRings};

    /// Before the first item of a job, with what rings need to know of it. The error says that memory ran
    /// out.
    pub fn new<N: Named>(alloc: Global, names: &N, plan: TracePlan) -> Result<RingsView, NoMemory>
        requires { plan ≡ plan_of (N.job names.now) }
        ensures { IfOk result (λ view. HasRings (N.job names.now) [] view) }
    {
        let stacks = OpenCalls::new(alloc, names)?;
        let switch = Switch::new(alloc, &plan)?;
        let rings = empty_rings(alloc, plan.cpus(), plan.ring())?;
        Ok(RingsView {
            plan,
            stacks,
            place: 0,
            switch,
            rings,
        })
    }

    /// Takes the next item of the job.
    pub fn take(&mut self, item: &Item)
        requires { (job : PlainJob) × (past : List Item) × HasRings job past self.old
            × IsLegalPast job (item.now ∷ past) × (length past + 1 < 2 ^ 32) }
        ensures { (job : PlainJob) (past : List Item) → HasRings job past self.old
            → IsLegalPast job (item.now ∷ past) → HasRings job (item.now ∷ past) self.new }
    {
        self.switch.hit_all(&self.plan, item);
        let line = self.entry(item);
        write_entry(&mut self.rings, &self.plan, item, line);
        self.stacks.follow(item);
        self.place += 1;
    }

    /// The line of the next item, if it is an entry that is written now.
    fn entry(&self, item: &Item) -> Option<FunctionLine>
        requires { (job : PlainJob) × (past : List Item) × IsFollowed job past self.now.stacks × IsLegalPast job (item.now ∷ past) }
        ensures none { result ≡ None → (is_traced self.now.plan item.now && self.now.switch.on) ≡ false }
        ensures some { (line : FunctionLine) → result ≡ Some line → (is_traced self.now.plan item.now && self.now.switch.on) ≡ true }
        ensures line { (job : PlainJob) (past : List Item) (line : FunctionLine) → IsFollowed job past self.now.stacks
            → IsLegalPast job (item.now ∷ past) → self.now.place ≡ length past → result ≡ Some line
            → IsLineAt job (reverse (item.now ∷ past)) (length past) line }
    {
        match *item {
            Item::Back { call, user } => {
                if self.plan.is_traced(item) && self.switch.is_on() {
                    Some(back_line(&self.stacks, self.place, call, user))
                } else {
                    None
                }
            }
            _ => None,
        }
    }

    /// The lines: for each CPU its head and the entries that its ring holds, and then the triggers. The
    /// error says that memory ran out.
    pub fn lines(&self, alloc: Global) -> Result<Vec<RingsLine>, NoMemory>
        requires { (job : PlainJob) × (past : List Item) × HasRings job past self.now }
        ensures { IfOk result (λ lines. (job : PlainJob) (past : List Item) → HasRings job past self.now
            → lines_text (rings_line_text job) lines.items ≡ rings_body job (reverse past) (fold (plan_of job) (reverse past))) }
    {
        let mut lines = Vec::new(alloc);
        push_rings(&mut lines, self.rings.as_slice(), &self.plan)?;
        push_fired(&mut lines, &self.switch, &self.plan)?;
        Ok(lines)
    }
}

/// Adds the lines of the rings of all CPUs.
fn push_rings(
    lines: &mut Vec<RingsLine>,
    rings: &[LineRing],
    plan: &TracePlan,
) -> Result<(), NoMemory>
    requires { length rings.now ≡ plan.now.cpus }
    ensures { OnOk result ((job : PlainJob) → lines_text (rings_line_text job) lines.new.items
        ≡ lines_text (rings_line_text job) lines.old.items ++ numbered_texts (kept_text job) 0 rings.now) }
{
    for cpu in 0..plan.cpus() {
        rings[cpu as usize].push_lines(lines, cpu)?;
    }
    Ok(())
}

/// Adds the lines of the triggers.
fn push_fired(lines: &mut Vec<RingsLine>, switch: &Switch, plan: &TracePlan) -> Result<(), NoMemory>
    requires { length switch.now.hits.items ≡ length plan.now.triggers }
    ensures { OnOk result ((job : PlainJob) (fired : List (List ℕ)) → IsFiredBy plan.now switch.now.hits.items fired
        → lines_text (rings_line_text job) lines.new.items
        ≡ lines_text (rings_line_text job) lines.old.items ++ numbered_texts trigger_text 0 fired) }
{
    for trigger in 0..plan.trigger_count() {
        let fired = plan.most_fires(trigger, switch.hits(trigger));
        push_line(lines, RingsLine::Trigger { trigger, fired })?;
    }
    Ok(())
}

/// Writes the line of an item into the ring of its CPU, if it has one.
#[inline(always)]
fn write_entry(rings: &mut Vec<LineRing>, plan: &TracePlan, item: &Item, line: Option<FunctionLine>)
    requires { (cpu : ℕ) → (slice_index_or rings.old.items cpu (empty_lines 0)).written < 4294967295 }
    ensures none { line ≡ None → rings.new.items ≡ rings.old.items }
    ensures some { (l : FunctionLine) → line ≡ Some l → rings.new.items ≡ set rings.old.items (cpu_of_call plan.now (call_of item.now))
        (with_line l (slice_index_or rings.old.items (cpu_of_call plan.now (call_of item.now)) (empty_lines 0))) }
{
    if let Some(line) = line {
        write_at(rings, plan.cpu(item), line);
    }
}

/// Writes one more entry into the ring of a CPU, if there is such a CPU.
fn write_at(rings: &mut Vec<LineRing>, cpu: u32, line: FunctionLine)
    requires { (slice_index_or rings.old.items cpu (empty_lines 0)).written < 4294967295 }
    ensures { rings.new.items ≡ set rings.old.items cpu (with_line line (slice_index_or rings.old.items cpu (empty_lines 0))) }
{
    if (cpu as usize) < rings.len() {
        rings[cpu as usize].write(line);
    }
}

/// So many empty rings, each of which holds so many entries. The error says that memory ran out.
fn empty_rings(alloc: Global, count: u32, most: u32) -> Result<Vec<LineRing>, NoMemory>
    ensures { IfOk result (λ v. v.items ≡ replicate count (empty_lines most)) }
{
    let mut rings = Vec::with_capacity(alloc, count as usize).map_err(|_| NoMemory)?;
    for i in 0..count {
        let _number = i;
        rings.push_reserved(LineRing::new(alloc, most)?);
    }
    Ok(rings)
}
