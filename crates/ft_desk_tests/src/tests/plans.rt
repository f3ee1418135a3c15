//! What accepted commands store.

use super::bench::{APPEND, Bench, CLEAR, Line, REPLACE};
use super::{ACCEPTED, FIRST, GRAPH, LIST, NOP, PLAIN, PROBE};
use ft_base::{FuncNo, UserNo};
use ft_desk::{ListChange, Plan, TrampChange};
use site_bytes::{Insn, SiteChange};
use std::alloc::Global;
use std::process::Abort;
use std::test::Fail;

/// A command, and what it stores: the user's state, a word, with its registration number in the high
/// half; whether its sets are written; the slot; the list; and the sites.
type Row = (
    Line,
    Option<(UserNo, u64)>,
    bool,
    TrampChange,
    ListChange,
    &'static [(u32, Insn)],
);

const KEEP: TrampChange = TrampChange::Keep;

const TAKE: TrampChange = TrampChange::Set { slot: 0, reg: 1 };

const GIVE: TrampChange = TrampChange::Clear { slot: 0 };

const SAME: ListChange = ListChange::Keep;

const PUSH: ListChange = ListChange::Push { first: None };

const ALONE: ListChange = ListChange::Unlink {
    before: None,
    after: None,
};

const U0: UserNo = UserNo(0);

const U1: UserNo = UserNo(1);

const U2: UserNo = UserNo(2);

/// Before user 1, and before user 0.
const PUSH_ON_1: ListChange = ListChange::Push { first: Some(U1) };

const PUSH_ON_0: ListChange = ListChange::Push { first: Some(U0) };

const BETWEEN_2_AND_1: ListChange = ListChange::Unlink {
    before: Some(U2),
    after: Some(U1),
};

const AFTER_2: ListChange = ListChange::Unlink {
    before: Some(U2),
    after: None,
};

/// Whether these sites change, in this order.
fn are_changed(changes: &[SiteChange], sites: &[(u32, Insn)]) -> bool {
    for (at, change) in changes.iter().enumerate() {
        if sites.get(at) != Some(&(change.func.0, change.insn)) {
            return false;
        }
    }
    changes.len() == sites.len()
}

/// Whether a plan stores what a row tells, and waits if it is to.
fn is_stored(plan: &Plan, row: &Row, quiet: bool) -> bool {
    let (_, state, pair, tramp, list, sites) = row;
    let (user, sel) = match state {
        Some((user, sel)) => (Some(*user), Some(*sel)),
        None => (None, None),
    };
    plan.user == user
        && plan.sel == sel
        && plan.pair == *pair
        && plan.tramp == *tramp
        && plan.list == *list
        && are_changed(plan.sites.as_slice(), *sites)
        && plan.quiet == quiet
        && plan.pids.is_none()
        && plan.depth.is_none()
}

/// Whether a command waits: not one that registers or enables, and none that stores nothing.
fn waits(row: &Row) -> bool {
    row.1.is_some() && !matches!(&row.0, Line::Register(_) | Line::Enable(_))
}

/// Commands that are accepted, with what they store.
fn stores(rt: &impl Abort, alloc: Global, bench: &mut Bench, rows: &[Row]) -> Result<(), Fail> {
    for (n, row) in rows.iter().enumerate() {
        assert!(rt; bench.ask(rt, alloc, row.0)? == ACCEPTED, "command {n}");
        assert!(rt; is_stored(bench.last(), row, waits(row)), "command {n}");
    }
    Ok(())
}

static EDITS: [Row; 9] = [
    (
        Line::Filter(0, REPLACE, 0b011),
        None,
        false,
        KEEP,
        SAME,
        &[],
    ),
    (
        Line::Register(0),
        Some((U0, 0x1_0000_0007)),
        true,
        TAKE,
        PUSH,
        &[(0, FIRST), (1, FIRST)],
    ),
    (
        Line::Filter(0, REPLACE, 0b110),
        Some((U0, 0x1_0000_0003)),
        true,
        KEEP,
        SAME,
        &[(0, NOP), (2, FIRST)],
    ),
    (
        Line::Filter(0, CLEAR, 0),
        Some((U0, 0x1_0000_000f)),
        true,
        KEEP,
        SAME,
        &[(0, FIRST)],
    ),
    (
        Line::Filter(0, REPLACE, 0b101),
        Some((U0, 0x1_0000_0003)),
        true,
        KEEP,
        SAME,
        &[(1, NOP)],
    ),
    (
        Line::Filter(0, APPEND, 0b100),
        Some((U0, 0x1_0000_0007)),
        true,
        KEEP,
        SAME,
        &[],
    ),
    (
        Line::Filter(0, APPEND, 0b010),
        Some((U0, 0x1_0000_0003)),
        true,
        KEEP,
        SAME,
        &[(1, FIRST)],
    ),
    (
        Line::Unregister(0),
        Some((U0, 0x1_0000_0002)),
        false,
        GIVE,
        ALONE,
        &[(0, NOP), (1, NOP), (2, NOP)],
    ),
    (Line::Notrace(0, CLEAR, 0), None, false, KEEP, SAME, &[]),
];

#[test]
fn stores_sets(rt: HostRuntime) -> Result<(), Fail> {
    let alloc = rt.alloc();
    let mut bench = Bench::new(&rt, alloc, &[PLAIN], 3, 16)?;
    stores(&rt, alloc, &mut bench, &EDITS)
}

// One slot for three users, of which the list is 0, then 1, then 2 before them at its longest.
static ENDS: [Row; 8] = [
    (
        Line::Register(0),
        Some((U0, 0x1_0000_000f)),
        true,
        TAKE,
        PUSH,
        &[(0, FIRST)],
    ),
    (
        Line::Unregister(0),
        Some((U0, 0x1_0000_000e)),
        false,
        GIVE,
        ALONE,
        &[(0, NOP)],
    ),
    (
        Line::Register(1),
        Some((U1, 0x1_0000_000f)),
        true,
        TAKE,
        PUSH,
        &[(0, FIRST)],
    ),
    (
        Line::Register(0),
        Some((U0, 0x2_0000_000b)),
        true,
        KEEP,
        PUSH_ON_1,
        &[(0, LIST)],
    ),
    (
        Line::Register(2),
        Some((U2, 0x1_0000_000f)),
        true,
        KEEP,
        PUSH_ON_0,
        &[],
    ),
    (
        Line::Unregister(0),
        Some((U0, 0x2_0000_000a)),
        false,
        KEEP,
        BETWEEN_2_AND_1,
        &[],
    ),
    (
        Line::Unregister(1),
        Some((U1, 0x1_0000_000e)),
        false,
        GIVE,
        AFTER_2,
        &[],
    ),
    (
        Line::Unregister(2),
        Some((U2, 0x1_0000_000e)),
        false,
        KEEP,
        ALONE,
        &[(0, NOP)],
    ),
];

#[test]
fn stores_slots_and_lists(rt: HostRuntime) -> Result<(), Fail> {
    let alloc = rt.alloc();
    let mut bench = Bench::new(&rt, alloc, &[GRAPH, PLAIN, PROBE], 1, 1)?;
    stores(&rt, alloc, &mut bench, &ENDS)
}

static SWITCHES: [Row; 4] = [
    (
        Line::Register(0),
        Some((U0, 0x1_0000_000f)),
        true,
        TAKE,
        PUSH,
        &[(0, FIRST)],
    ),
    (
        Line::Disable(0),
        Some((U0, 0x1_0000_000d)),
        false,
        KEEP,
        SAME,
        &[],
    ),
    (
        Line::Disable(0),
        Some((U0, 0x1_0000_000d)),
        false,
        KEEP,
        SAME,
        &[],
    ),
    (
        Line::Enable(0),
        Some((U0, 0x1_0000_000f)),
        false,
        KEEP,
        SAME,
        &[],
    ),
];

// The tasks that are allowed, as bits, or the graph depth. There are three tasks.
static NUMBERS: [(Line, Option<u64>, Option<u32>); 5] = [
    (Line::Pid(0b1011), Some(0b011), None),
    (Line::NoPid(0b001), Some(0b010), None),
    (Line::Pid(0), Some(0b110), None),
    (Line::MaxDepth(7), None, Some(7)),
    (Line::MaxDepth(0), None, Some(0)),
];

/// Commands for all users, with what they store.
fn numbers(
    rt: &impl Abort,
    alloc: Global,
    bench: &mut Bench,
    rows: &[(Line, Option<u64>, Option<u32>)],
) -> Result<(), Fail> {
    for (n, (line, pids, depth)) in rows.iter().enumerate() {
        assert!(rt; bench.ask(rt, alloc, *line)? == ACCEPTED, "command {n}");
        assert!(rt; is_for_all(bench.last(), *pids, *depth), "command {n}");
    }
    Ok(())
}

/// Whether a plan stores the allowed tasks and the depth alone, and waits.
fn is_for_all(plan: &Plan, pids: Option<u64>, depth: Option<u32>) -> bool {
    plan.pids == pids
        && plan.depth == depth
        && plan.user.is_none()
        && plan.sel.is_none()
        && !plan.pair
        && plan.sites.is_empty()
        && plan.quiet
}

/// The commands of the two tables.
fn switches_and_numbers(rt: &impl Abort, alloc: Global, bench: &mut Bench) -> Result<(), Fail> {
    stores(rt, alloc, bench, &SWITCHES)?;
    numbers(rt, alloc, bench, &NUMBERS)
}

#[test]
fn stores_switches_and_numbers(rt: HostRuntime) -> Result<(), Fail> {
    let alloc = rt.alloc();
    let mut bench = Bench::new(&rt, alloc, &[PROBE], 1, 16)?;
    switches_and_numbers(&rt, alloc, &mut bench)
}
