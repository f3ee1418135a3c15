//! What a schedule's text is read as, why it is refused, and the actors that its player gives.

use ft_base::CpuNo;
use ft_base::limits::STEPS;
use ft_schedule::{
    Actor, LAST_ROUNDS, Player, SchedFault, SchedItem, Schedule, Turn, Who, has_unknown, held,
    is_past_limit, push_turns, read_items, read_sched, steps_with,
};
use script_text::words;
use std::alloc::Global;
use std::test::Fail;

const CPU_0: Who = Who::Cpu(CpuNo(0));

const CPU_1: Who = Who::Cpu(CpuNo(1));

const CPU_3: Who = Who::Cpu(CpuNo(3));

/// Whether these are the turns, each with whose it is and its count.
fn are_turns(turns: &[Turn], wanted: &[(Who, u32)]) -> bool {
    for (at, turn) in turns.iter().enumerate() {
        if wanted.get(at) != Some(&(turn.who, turn.count)) {
            return false;
        }
    }
    turns.len() == wanted.len()
}

/// The items of a line, which is well formed.
fn items(alloc: Global, line: &str) -> Result<Vec<SchedItem>, Fail> {
    let words = words(alloc, line)?;
    let items = read_items(alloc, words.as_slice())?;
    Ok(items.ok_or("a word is no item")?)
}

static ITEMS: [(Who, u32); 7] = [
    (Who::Control, 9),
    (CPU_0, 13),
    (Who::All, 1_000),
    (CPU_1, 1),
    (Who::Control, 1),
    (Who::All, 1),
    (CPU_3, 7),
];

#[test]
fn reads_items(rt: HostRuntime) -> Result<(), Fail> {
    let schedule = read_sched(rt.alloc(), "k*9 0*13\t  all*1000 1 k all 3*0000000007", 4)?;
    assert!(rt; are_turns(schedule.turns.as_slice(), &ITEMS));
    Ok(())
}

/// A text of 4,000 items.
fn long_text(alloc: Global) -> Result<String, Fail> {
    let mut text = String::new(alloc);
    for _ in 0..2_000 {
        text.push_str("k*3 1 ")?;
    }
    Ok(text)
}

/// Whether these are as many turns as that text has, and the last two are its own.
fn are_of_long_text(turns: &[Turn]) -> bool {
    turns.len() == 4_000 && are_turns(&turns[3_998..], &[(Who::Control, 3), (CPU_1, 1)])
}

#[test]
fn reads_a_long_text(rt: HostRuntime) -> Result<(), Fail> {
    let text = long_text(rt.alloc())?;
    let schedule = read_sched(rt.alloc(), text.as_str(), 2)?;
    assert!(rt; are_of_long_text(schedule.turns.as_slice()));
    Ok(())
}

// Texts, each with how many CPUs there are.
static GOOD: [(&str, u32); 10] = [
    ("k", 0),
    ("all", 0),
    (" k ", 0),
    ("\tall*2", 2),
    ("7", 8),
    ("k*4000000", 0),
    ("all*4000000", 0),
    ("all*2000000", 1),
    ("all*444444 0*4", 8),
    ("k*3999999 0", 1),
];

#[test]
fn accepts_good_texts(rt: HostRuntime) {
    for (text, cpus) in GOOD.iter() {
        assert!(rt; read_sched(rt.alloc(), text, *cpus).is_ok(), "{text}");
    }
}

static BAD: [(&str, u32, SchedFault); 32] = [
    // not an item
    ("", 8, SchedFault::Syntax),
    (" \t ", 8, SchedFault::Syntax),
    ("8", 8, SchedFault::Syntax),
    ("00", 8, SchedFault::Syntax),
    ("07", 8, SchedFault::Syntax),
    ("K", 8, SchedFault::Syntax),
    ("kk", 8, SchedFault::Syntax),
    ("ALL", 8, SchedFault::Syntax),
    ("k*", 8, SchedFault::Syntax),
    ("*3", 8, SchedFault::Syntax),
    ("k*3*4", 8, SchedFault::Syntax),
    ("k*+3", 8, SchedFault::Syntax),
    ("k*3x", 8, SchedFault::Syntax),
    ("k *3", 8, SchedFault::Syntax),
    ("k*12345678901", 8, SchedFault::Syntax),
    ("k\n", 8, SchedFault::Syntax),
    ("k,0", 8, SchedFault::Syntax),
    // a count, or too many steps
    ("k*0", 8, SchedFault::Limit),
    ("all*0", 8, SchedFault::Limit),
    ("k*4000001", 8, SchedFault::Limit),
    ("k*4294967296", 8, SchedFault::Limit),
    ("k*9999999999", 8, SchedFault::Limit),
    ("all*2000001", 1, SchedFault::Limit),
    ("all*444445", 8, SchedFault::Limit),
    ("k*4000000 k", 8, SchedFault::Limit),
    // no such CPU
    ("0", 0, SchedFault::Unknown),
    ("1*5", 1, SchedFault::Unknown),
    ("k all 7", 7, SchedFault::Unknown),
    // the first of several causes
    ("k*0 x", 8, SchedFault::Syntax),
    ("1 k*0", 1, SchedFault::Limit),
    ("1*4000001", 1, SchedFault::Limit),
    ("1 x", 1, SchedFault::Syntax),
];

/// Whether a text is refused for this cause.
fn is_refused(alloc: Global, text: &str, cpus: u32, fault: SchedFault) -> bool {
    read_sched(alloc, text, cpus).err() == Some(fault)
}

#[test]
fn refuses_bad_texts(rt: HostRuntime) {
    for (text, cpus, fault) in BAD.iter() {
        let refused = is_refused(rt.alloc(), text, *cpus, *fault);
        assert!(rt; refused, "{text} with {cpus} CPUs");
    }
}

// The steps of the lines before a line, the line, how many CPUs there are, and all steps, if these
// are within the limit.
static TOTALS: [(u32, &str, u32, Option<u32>); 7] = [
    (0, "k 0 all*2", 3, Some(10)),
    (3_999_990, "k 0 all*2", 3, Some(4_000_000)),
    (3_999_991, "k 0 all*2", 3, None),
    (4_000_000, "k", 8, None),
    (5, "7*9", 0, Some(14)),
    (5, "k*0", 8, None),
    (5, "k*4294967296", 8, None),
];

/// Whether these items make this total after so many steps, and are past the limit if there is none.
fn have_total(steps: u32, items: &[SchedItem], cpus: u32, total: Option<u32>) -> bool {
    steps <= STEPS
        && steps_with(steps, items, cpus) == total
        && is_past_limit(steps, items, cpus) == total.is_none()
}

#[test]
fn counts_line_by_line(rt: HostRuntime) -> Result<(), Fail> {
    for (steps, line, cpus, total) in TOTALS.iter() {
        let items = items(rt.alloc(), line)?;
        let counted = have_total(*steps, items.as_slice(), *cpus, *total);
        assert!(rt; counted, "{line} after {steps}");
    }
    Ok(())
}

/// Puts the items of a line last, if they aren't past the limit, and tells whether it did.
fn put(alloc: Global, turns: &mut Vec<Turn>, line: &str) -> Result<bool, Fail> {
    let items = items(alloc, line)?;
    if is_past_limit(0, items.as_slice(), 4) {
        return Ok(false);
    }
    push_turns(turns, items.as_slice())?;
    Ok(true)
}

#[test]
fn puts_turns_last(rt: HostRuntime) -> Result<(), Fail> {
    let mut turns = Vec::new(rt.alloc());
    for line in ["k*2 3", "all*5"] {
        assert!(rt; put(rt.alloc(), &mut turns, line)?);
    }
    assert!(rt;
        are_turns(
            turns.as_slice(),
            &[(Who::Control, 2), (CPU_3, 1), (Who::All, 5)]
        )
    );
    Ok(())
}

static UNKNOWN: [(&str, u32, bool); 3] = [
    ("k all 3", 4, false),
    ("k all 3", 3, true),
    ("0", 0, true),
];

#[test]
fn finds_unknown_cpus(rt: HostRuntime) -> Result<(), Fail> {
    for (line, cpus, unknown) in UNKNOWN.iter() {
        let items = items(rt.alloc(), line)?;
        let found = has_unknown(items.as_slice(), *cpus) == *unknown;
        assert!(rt; found, "{line} with {cpus} CPUs");
    }
    Ok(())
}

const FIRST: Actor = Actor::Cpu(CpuNo(0));

const SECOND: Actor = Actor::Cpu(CpuNo(1));

static ACTORS: [Actor; 9] = [
    Actor::Control,
    Actor::Control,
    FIRST,
    Actor::Control,
    FIRST,
    SECOND,
    Actor::Control,
    FIRST,
    SECOND,
];

/// Whether a schedule gives these actors of two CPUs, and then none and again none.
fn gives(schedule: &Schedule, actors: &[Actor]) -> bool {
    let mut player = Player::new(schedule, 2);
    for actor in actors.iter() {
        if player.next_actor() != Some(*actor) {
            return false;
        }
    }
    player.next_actor().is_none() && player.next_actor().is_none()
}

#[test]
fn plays_a_schedule(rt: HostRuntime) -> Result<(), Fail> {
    let schedule = read_sched(rt.alloc(), "k*2 0 all*2", 2)?;
    assert!(rt; gives(&schedule, &ACTORS));
    Ok(())
}

#[test]
fn skips_counts_of_zero(rt: HostRuntime) -> Result<(), Fail> {
    let none = Turn {
        who: Who::All,
        count: 0,
    };
    let one = Turn {
        who: Who::Control,
        count: 1,
    };
    let turns = vec![in rt.alloc(); none, none, one, none]?;
    assert!(rt; gives(&Schedule { turns }, &[Actor::Control]));
    Ok(())
}

#[test]
fn holds_an_actor(rt: HostRuntime) -> Result<(), Fail> {
    let schedule = held(rt.alloc(), Who::Control, 7, CPU_0, 200)?;
    let turns = &[(Who::Control, 7), (CPU_0, 200), (Who::All, LAST_ROUNDS)];
    assert!(rt; are_turns(schedule.turns.as_slice(), turns));
    Ok(())
}

#[test]
fn leaves_out_turns_without_steps(rt: HostRuntime) -> Result<(), Fail> {
    let schedule = held(rt.alloc(), CPU_0, 0, Who::Control, 1)?;
    let turns = &[(Who::Control, 1), (Who::All, LAST_ROUNDS)];
    assert!(rt; are_turns(schedule.turns.as_slice(), turns));
    Ok(())
}
