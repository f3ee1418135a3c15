//! The lines of the view rings: what the ring of each CPU holds, and how often each trigger fired.

ghost use Rattle.std.specs.Prelude.{◌≡◌, ◌<◌, ◌≤◌, ◌++◌, List, Contains, length, slice_index_or, IfOk, OnOk};
ghost use Rattle.std.specs.List.{AllByRecursion as Each};
ghost use Rattle.std.specs.List.Sorted.{IsNonDecreasingBy};
ghost use Rattle.ft_base.specs.declared.item.Item.{Item as PlainItem};
ghost use Rattle.ft_base.specs.declared.limits.TheConstants.{CPUS};
ghost use Rattle.ft_base.specs.Job.{Job as PlainJob};
ghost use Rattle.ft_hist.specs.Rules.{IsLegal};
ghost use Rattle.ring_rules.specs.Fold.{no_ring};
ghost use Rattle.trace_views.specs.RingLines.{HasEntries, HasLine, HaveTexts, rings_line_text};
ghost use Rattle.trace_views.specs.RingsText.{cpu_text, entry_text, rings_body, trigger_text};
ghost use Rattle.trace_views.specs.Words.{lines_text, numbered_texts};

use crate::function::{FunctionLine, back_lines};
use crate::named::Named;
use ft_base::{CpuNo, NoMemory};
use ft_hist::History;
use ring_rules::Rings;
use std::alloc::Global;

/// A line.
#[derive(Clone, Copy)]
pub enum RingsLine {
    /// The head of a CPU: the entries that its ring holds follow.
    Cpu {
        /// The number of the CPU.
        cpu: u32,
        /// How many entries its ring holds.
        held: u32,
        /// How many were written into it.
        written: u32,
    },
    /// An entry that the ring holds: an entry callback.
    Entry(FunctionLine),
    /// A trigger.
    Trigger {
        /// The number of the trigger, from 0.
        trigger: u32,
        /// How often it fired.
        fired: u32,
    },
}

/// The line of a place, among lines whose places rise.
fn line_of(lines: &[FunctionLine], place: u32) -> FunctionLine
    requires rising { IsNonDecreasingBy (λ line. line.place) lines.now }
    requires there { HasLine lines.now place }
    ensures among { Contains lines.now result }
    ensures place { result.place ≡ place }
{
    let first = lines.partition_point(|line| line.place < place);
    lines[first]
}

/// Adds a line.
pub(crate) fn push_line(lines: &mut Vec<RingsLine>, line: RingsLine) -> Result<(), NoMemory>
    ensures { OnOk result ((job : PlainJob) → lines_text (rings_line_text job) lines.new.items
        ≡ lines_text (rings_line_text job) lines.old.items ++ rings_line_text job line) }
{
    lines.push(line).map_err(|_| NoMemory)
}

/// Adds the lines of the entries that the ring of a CPU holds. `backs` has the lines of all entry
/// callbacks.
fn push_entries(
    lines: &mut Vec<RingsLine>,
    backs: &[FunctionLine],
    rings: &Rings,
    cpu: CpuNo,
) -> Result<(), NoMemory>
    requires cpu { cpu.0 < length rings.now.cpus }
    requires rising { IsNonDecreasingBy (λ line. line.place) backs.now }
    requires there { Each (HasLine backs.now) (slice_index_or rings.now.cpus cpu.0 no_ring).held }
    ensures { OnOk result ((job : PlainJob) (items : List PlainItem) → HaveTexts job items backs.now
        → lines_text (rings_line_text job) lines.new.items
        ≡ lines_text (rings_line_text job) lines.old.items
        ++ lines_text (entry_text job items) (slice_index_or rings.now.cpus cpu.0 no_ring).held) }
{
    for i in 0..rings.held(cpu) {
        let line = line_of(backs, rings.entry(cpu, i));
        push_line(lines, RingsLine::Entry(line))?;
    }
    Ok(())
}

/// Adds the lines of a CPU: its head, and the entries that its ring holds.
fn push_cpu(
    lines: &mut Vec<RingsLine>,
    backs: &[FunctionLine],
    rings: &Rings,
    cpu: CpuNo,
) -> Result<(), NoMemory>
    requires cpu { cpu.0 < length rings.now.cpus }
    requires rising { IsNonDecreasingBy (λ line. line.place) backs.now }
    requires there { Each (HasLine backs.now) (slice_index_or rings.now.cpus cpu.0 no_ring).held }
    ensures { OnOk result ((job : PlainJob) (items : List PlainItem) → HaveTexts job items backs.now
        → lines_text (rings_line_text job) lines.new.items
        ≡ lines_text (rings_line_text job) lines.old.items
        ++ cpu_text job items cpu.0 (slice_index_or rings.now.cpus cpu.0 no_ring)) }
{
    let head = RingsLine::Cpu {
        cpu: cpu.0,
        held: rings.held(cpu),
        written: rings.written(cpu),
    };
    push_line(lines, head)?;
    push_entries(lines, backs, rings, cpu)
}

/// Adds the lines of all CPUs.
fn push_cpus(
    lines: &mut Vec<RingsLine>,
    backs: &[FunctionLine],
    rings: &Rings,
) -> Result<(), NoMemory>
    requires few { length rings.now.cpus ≤ CPUS }
    requires rising { IsNonDecreasingBy (λ line. line.place) backs.now }
    requires there { Each (λ ring. Each (HasLine backs.now) ring.held) rings.now.cpus }
    ensures { OnOk result ((job : PlainJob) (items : List PlainItem) → HaveTexts job items backs.now
        → lines_text (rings_line_text job) lines.new.items
        ≡ lines_text (rings_line_text job) lines.old.items
        ++ numbered_texts (cpu_text job items) 0 rings.now.cpus) }
{
    for cpu in 0..rings.cpus() {
        push_cpu(lines, backs, rings, CpuNo(cpu as u32))?;
    }
    Ok(())
}

/// Adds the lines of the triggers.
fn push_triggers(lines: &mut Vec<RingsLine>, rings: &Rings) -> Result<(), NoMemory>
    ensures { OnOk result ((job : PlainJob) → lines_text (rings_line_text job) lines.new.items
        ≡ lines_text (rings_line_text job) lines.old.items
        ++ numbered_texts trigger_text 0 rings.now.fired) }
{
    for trigger in 0..rings.triggers() {
        let fired = rings.fired(trigger);
        push_line(lines, RingsLine::Trigger { trigger, fired })?;
    }
    Ok(())
}

/// The lines of the rings of a legal history: for each CPU its head and the entry callbacks that its
/// ring holds, and then the triggers. There are no more rings than a job may have CPUs. It takes time
/// linear in the history, and for each entry the logarithm of that. The error says that memory ran
/// out.
pub fn rings_lines<N: Named>(
    alloc: Global,
    names: &N,
    history: &History,
    rings: &Rings,
) -> Result<Vec<RingsLine>, NoMemory>
    requires legal { IsLegal (N.job names.now) history.now.items }
    requires few { length rings.now.cpus ≤ CPUS }
    requires entries { HasEntries history.now.items rings.now }
    ensures { IfOk result (λ lines. lines_text (rings_line_text (N.job names.now)) lines.items
        ≡ rings_body (N.job names.now) history.now.items rings.now) }
{
    let backs = back_lines(alloc, names, history)?;
    let mut lines = Vec::new(alloc);
    push_cpus(&mut lines, backs.as_slice(), rings)?;
    push_triggers(&mut lines, rings)?;
    Ok(lines)
}
