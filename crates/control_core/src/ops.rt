//! The operations of control that no part of a command has a stepper for.

ghost use Rattle.std.specs.Prelude.{◌≡◌, ℕ, ◌<◌, ◌≤◌, length, All, slice_get, option_map, IfSome};
ghost use Rattle.ft_base.specs.Desk.{user_at};
ghost use Rattle.word_map.specs.Ops.{placed};
ghost use Rattle.patch_core.specs.Moves.{batch_next};
ghost use Rattle.ft_desk.specs.Commands.{ctl_of};
ghost use Rattle.ft_desk.specs.Plans.{plain_plan};
ghost use Rattle.word_machine_laws.specs.Orders.{AreLed, picked};
ghost use Rattle.control_core.specs.Plans.{IsPlanIn};
ghost use Rattle.control_core.specs.Steps.{depth_next, line_next, patch_next, pids_next, release_next, select_next, take_next, write_next};
ghost use Rattle.control_core.specs.Lines.{IsTaskIn};

use crate::order::present;
use ft_desk::{Ctl, Desk, Plan, TrampChange};
use hash_pages::PageWriter;
use patch_core::{Batch, BatchNext};
use word_map::{Op, WordMap, tramp};

/// At a line of those that are led: the Begin of a command, or the load of the word of a task that is
/// waited for.
pub(crate) fn line_op(map: &WordMap, lines: &[Ctl], order: &[u32], line: u32) -> Option<Op>
    requires lines { All (IsTaskIn map.now.tasks) lines.now }
    requires led { AreLed (length lines.now) order.now }
    ensures { (done : ℕ) → result ≡ option_map (placed map.now)
        (line_next done (option_map (ctl_of map.now.tasks) (slice_get (picked lines.now order.now) line))) }
{
    match present(lines, order, line)? {
        Ctl::Run(_) => Some(Op::Mark { command: true }),
        Ctl::Until { task, .. } => Some(Op::Load {
            word: map.quiet(*task),
        }),
    }
}

/// The user is put into its trampoline.
pub(crate) fn take_op(map: &WordMap, plan: &Plan) -> Option<Op>
    requires { IsPlanIn map.now (plain_plan plan.now) }
    ensures { result ≡ option_map (placed map.now) (take_next plan.now.user plan.now.tramp) }
{
    // Not for its value: its contract says that the shape is within the limits.
    let _shape = map.shape();
    match (plan.user, plan.tramp) {
        (Some(user), TrampChange::Set { slot, reg }) => Some(Op::Store {
            word: map.tramp(slot),
            value: tramp::word(reg, user),
        }),
        _ => None,
    }
}

/// The next store of the user's page.
pub(crate) fn write_op(desk: &Desk, writer: &PageWriter) -> Option<Op>
    requires user { IfSome desk.now.plan.user (λ u. u.0 < length desk.now.declared.specs) }
    requires size { IfSome desk.now.plan.user (λ u. length (user_at desk.now.state u.0).filter ≡ writer.now.shape.funcs) }
    ensures { result ≡ option_map (placed writer.now.shape) (write_next desk.now.state writer.now desk.now.plan.user) }
{
    writer.next(desk.pair(desk.last().user?))
}

/// The user's state.
pub(crate) fn select_op(map: &WordMap, plan: &Plan) -> Option<Op>
    requires { IsPlanIn map.now (plain_plan plan.now) }
    ensures { result ≡ option_map (placed map.now) (select_next plan.now.user plan.now.sel) }
{
    Some(Op::Store {
        word: map.sel(plan.user?),
        value: plan.sel?,
    })
}

/// The traced tasks.
pub(crate) fn pids_op(map: &WordMap, plan: &Plan) -> Option<Op>
    ensures { result ≡ option_map (placed map.now) (pids_next plan.now.pids) }
{
    Some(Op::Store {
        word: map.pids(),
        value: plan.pids?,
    })
}

/// The graph depth.
pub(crate) fn depth_op(map: &WordMap, plan: &Plan) -> Option<Op>
    ensures { result ≡ option_map (placed map.now) (depth_next plan.now.depth) }
{
    Some(Op::Store {
        word: map.depth(),
        value: u64::from(plan.depth?),
    })
}

/// The next store of the batch.
pub(crate) fn patch_op(plan: &Plan, batch: &Batch) -> Option<Op>
    requires { IsPlanIn batch.now.shape (plain_plan plan.now) }
    ensures { result ≡ option_map (placed batch.now.shape) (patch_next (batch_next plan.now.sites.items batch.now.made)) }
{
    match batch.next(plan.sites.as_slice()) {
        BatchNext::Do(op) => Some(op),
        BatchNext::Sync | BatchNext::Done => None,
    }
}

/// The user's trampoline names nobody.
pub(crate) fn release_op(map: &WordMap, plan: &Plan) -> Option<Op>
    requires { IsPlanIn map.now (plain_plan plan.now) }
    ensures { result ≡ option_map (placed map.now) (release_next plan.now.tramp) }
{
    match plan.tramp {
        TrampChange::Clear { slot } => Some(Op::Store {
            word: map.tramp(slot),
            value: 0,
        }),
        TrampChange::Keep | TrampChange::Set { .. } => None,
    }
}
