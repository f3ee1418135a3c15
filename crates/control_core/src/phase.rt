//! Where control stands in a command, and where it goes from there by the desk's plan.

ghost use Rattle.std.specs.Prelude.{◌≡◌, ◌+◌, ◌<◌, ◌≤◌, ◌^◌, length, All};
ghost use Rattle.patch_core.specs.Moves.{IsChange};
ghost use Rattle.ft_desk.specs.Plans.{plain_plan};
ghost use Rattle.control_core.specs.Plans.{IsPlanIn};
ghost use Rattle.control_core.specs.Phases.{batch_to, begin_to, list_to, number_to, quiet_to, release_in, store_to};

use ft_desk::{ListChange, Plan, TrampChange};
use grace_core::Waiter;
use hash_pages::PageWriter;
use ops_list::Linker;
use patch_core::{Batch, BatchNext};
use word_map::{Sel, WordMap};

/// Where control stands: at a line, or in a command before its next operation.
#[derive(Drop)]
pub(crate) enum Phase {
    /// At a line, or after the last one.
    Line,
    /// The user takes its trampoline.
    Taking,
    /// A copy of the user's sets, and then the user's state.
    Writing(PageWriter),
    /// The user's state alone.
    Selecting,
    /// The list of users.
    Linking(Linker),
    /// The tasks that are traced.
    StoringPids,
    /// The graph depth.
    StoringDepth,
    /// A store of the batch.
    Patching,
    /// A wait of the batch, until each CPU has acknowledged.
    Syncing(Waiter),
    /// The wait until each task was at a quiet point.
    Quieting(Waiter),
    /// The user's trampoline is free again.
    Releasing,
    /// The Return.
    Closing,
}

/// After the Begin. The trampoline's word is stored before any call site calls it: a task that came
/// there earlier would find nobody.
pub(crate) fn begin_phase(map: &WordMap, plan: &Plan) -> Phase
    requires { IsPlanIn map.now (plain_plan plan.now) }
    ensures { result ≡ begin_to map.now (plain_plan plan.now) }
{
    match plan.tramp {
        TrampChange::Set { .. } => Phase::Taking,
        TrampChange::Keep | TrampChange::Clear { .. } => store_phase(map, plan),
    }
}

/// After the trampoline is taken, or if none is: the user's sets and state, or else what the plan
/// stores of tasks and depth.
pub(crate) fn store_phase(map: &WordMap, plan: &Plan) -> Phase
    requires { IsPlanIn map.now (plain_plan plan.now) }
    ensures { result ≡ store_to map.now (plain_plan plan.now) }
{
    let (Some(user), Some(sel)) = (plan.user, plan.sel) else {
        return number_phase(plan);
    };
    if plan.pair {
        Phase::Writing(PageWriter::new(user, Sel::of(sel).copy, sel, *map))
    } else {
        Phase::Selecting
    }
}

/// The store of the traced tasks, or of the graph depth, or none.
fn number_phase(plan: &Plan) -> Phase
    ensures { result ≡ number_to plan.now.pids plan.now.depth }
{
    if plan.pids.is_some() {
        Phase::StoringPids
    } else if plan.depth.is_some() {
        Phase::StoringDepth
    } else {
        Phase::Closing
    }
}

/// After the user's state is stored, if the batch was not begun. The list comes after the state: a
/// walker passes over a user that is off, and the sets that the state names are there.
pub(crate) fn list_phase(map: &WordMap, plan: &Plan, batch: &Batch, request: u32) -> Phase
    requires plan { IsPlanIn map.now (plain_plan plan.now) }
    requires batch { batch.now.shape ≡ map.now }
    requires request { request + 1 < 2 ^ 32 }
    ensures { result ≡ list_to map.now (plain_plan plan.now) batch.now.made request }
{
    match (plan.list, plan.user) {
        (ListChange::Push { first }, Some(user)) => {
            Phase::Linking(Linker::push(user, first, *map))
        }
        (ListChange::Unlink { before, after }, _) => {
            Phase::Linking(Linker::unlink(before, after, *map))
        }
        _ => batch_phase(map, plan, batch, request),
    }
}

/// The next move of the batch, or what follows the batch. So many requests were stored.
pub(crate) fn batch_phase(map: &WordMap, plan: &Plan, batch: &Batch, request: u32) -> Phase
    requires plan { IsPlanIn map.now (plain_plan plan.now) }
    requires batch { batch.now.shape ≡ map.now }
    requires request { request + 1 < 2 ^ 32 }
    ensures { result ≡ batch_to map.now (plain_plan plan.now) batch.now.made request }
{
    match batch.next(plan.sites.as_slice()) {
        BatchNext::Do(_) => Phase::Patching,
        BatchNext::Sync => Phase::Syncing(Waiter::sync(request + 1, *map)),
        BatchNext::Done => quiet_phase(map, plan, request),
    }
}

/// After all that the command stores before its wait. A command that took something away waits for
/// quiet points: a task within a call may still use what it found before.
pub(crate) fn quiet_phase(map: &WordMap, plan: &Plan, request: u32) -> Phase
    requires { request + 1 < 2 ^ 32 }
    ensures { result ≡ quiet_to map.now (plain_plan plan.now) request }
{
    if plan.quiet {
        Phase::Quieting(Waiter::quiet(request + 1, *map))
    } else {
        Phase::Closing
    }
}

/// After the wait for quiet points. The trampoline's word is cleared no earlier: a task that was on
/// its way there would find nobody.
pub(crate) fn release_phase(plan: &Plan) -> Phase
    ensures { result ≡ release_in plan.now.tramp }
{
    match plan.tramp {
        TrampChange::Clear { .. } => Phase::Releasing,
        TrampChange::Keep | TrampChange::Set { .. } => Phase::Closing,
    }
}
