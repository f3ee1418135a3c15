//! The lowest line of a call that isn't covered.

ghost use Rattle.std.specs.Prelude.{◌≡◌, ◌≤◌, ◌↔◌, ℕ, true, false, map, Contains, IsTrue, IfOk};
ghost use Rattle.std.specs.List.Sorted.{IsNonDecreasingBy};
ghost use Rattle.script_waits.specs.Tasks.{lined_task, tracks_of};
ghost use Rattle.script_waits.specs.Greedy.{IsLeast, lower_of};
ghost use Rattle.module_coverage.specs.Plan.{ModulePlan, owner_in, loaded_by};
ghost use Rattle.module_coverage.specs.declared.span.Span.{Span};
ghost use Rattle.module_coverage.specs.Histories.{lists, Keeps};
ghost use Rattle.module_coverage.specs.Uncovered.{IsUncovered, IsUncoveredLine};

use crate::change::Change;
use crate::history::{first_away, histories, modules_of, story};
use crate::span::Span;
use crate::walk::spans_of;
use ft_base::{FuncNo, NoMemory};
use script_waits::{ControlLine, LinedTask, lower};
use std::alloc::{AllocError, Global};

/// The module of a function, if it lies in one.
fn owner_of(owners: &[Option<u32>], func: FuncNo) -> Option<u32>
    ensures { result ≡ owner_in owners.now func.0 }
{
    match owners.get(func.0 as usize) {
        Some(owner) => *owner,
        None => None,
    }
}

/// Whether a module with this history isn't loaded after a number of commands in the span.
fn is_away_in(history: &[Change], span: Span) -> bool
    ensures { IsNonDecreasingBy (λ change. change.at) history.now
        → IsTrue result ↔ ((k : ℕ) × (span.from ≤ k) × (k ≤ span.to) × (loaded_by k true history.now ≡ false)) }
{
    match first_away(history, span.from) {
        Some(away) => away as usize <= span.to,
        None => false,
    }
}

/// The line of the call if it isn't covered.
fn uncovered_line(owners: &[Option<u32>], histories: &[Vec<Change>], span: Span) -> Option<u32>
    ensures { (plan : ModulePlan) → Keeps plan owners.now (lists histories.now) → IsLeast (λ n. IsUncovered plan span × (n ≡ span.line)) result }
{
    let owner = owner_of(owners, span.func)?;
    let history = histories.get(owner as usize)?;
    if is_away_in(history.as_slice(), span) {
        Some(span.line)
    } else {
        None
    }
}

/// The lowest line of these calls that aren't covered.
fn lowest(owners: &[Option<u32>], histories: &[Vec<Change>], spans: &[Span]) -> Option<u32>
    ensures { (plan : ModulePlan) → Keeps plan owners.now (lists histories.now)
        → IsLeast (λ n. (s : Span) × Contains spans.now s × IsUncovered plan s × (n ≡ s.line)) result }
{
    let mut low = None;
    for span in spans.iter() {
        low = lower(low, uncovered_line(owners, histories, *span));
    }
    low
}

/// The lowest line of all calls that aren't covered, if the histories of all modules are these.
fn lowest_of_all(
    alloc: Global,
    tasks: &[LinedTask],
    control: &[ControlLine],
    owners: &[Option<u32>],
    histories: &[Vec<Change>],
) -> Result<Option<u32>, AllocError>
    ensures { IfOk result (λ low. (plan : ModulePlan) → Keeps plan owners.now (lists histories.now)
        → IsLeast (IsUncoveredLine (tracks_of (map lined_task tasks.now)) control.now plan) low) }
{
    let mut low = None;
    for t in 0..tasks.len() {
        let spans = spans_of(alloc, control, t, tasks[t].acts.as_slice())?;
        low = lower(low, lowest(owners, histories, spans.as_slice()));
    }
    Ok(low)
}

/// The same, if the modules that aren't loaded at first and the changes are these.
fn lowest_with(
    alloc: Global,
    tasks: &[LinedTask],
    control: &[ControlLine],
    owners: &[Option<u32>],
    absent: &[u32],
    changes: &[Change],
) -> Result<Option<u32>, AllocError>
    requires { IsNonDecreasingBy (λ change. change.at) changes.now }
    ensures { IfOk result (IsLeast (IsUncoveredLine (tracks_of (map lined_task tasks.now)) control.now
        (record { owners = owners.now; absent = absent.now; changes = changes.now }))) }
{
    let story = story(alloc, absent, changes)?;
    let histories = histories(alloc, modules_of(owners), story.as_slice())?;
    lowest_of_all(alloc, tasks, control, owners, histories.as_slice())
}

/// The lowest line of a call that isn't covered. `None` exactly if all calls are.
///
/// The number of a task is its place in `tasks`, and an act `After` counts the commands in `control`. `owners` has for each function
/// the number of its module, if it lies in one, `absent` the modules that aren't loaded at first, and `changes` what loads and unloads
/// modules, in order. Memory is taken for as many modules as there are numbers up to the highest in `owners`.
pub fn lowest_uncovered(
    alloc: Global,
    tasks: &[LinedTask],
    control: &[ControlLine],
    owners: &[Option<u32>],
    absent: &[u32],
    changes: &[Change],
) -> Result<Option<u32>, NoMemory>
    requires { IsNonDecreasingBy (λ change. change.at) changes.now }
    ensures { IfOk result (IsLeast (IsUncoveredLine (tracks_of (map lined_task tasks.now)) control.now
        (record { owners = owners.now; absent = absent.now; changes = changes.now }))) }
{
    lowest_with(alloc, tasks, control, owners, absent, changes).map_err(|_| NoMemory)
}
