//! Turns one after the other, and what is left for the end.

ghost use Rattle.std.specs.Prelude.{◌≡◌, ◌≤◌, [], length, sum};
ghost use Rattle.ft_base.specs.declared.limits.TheConstants.{COMMANDS, LANES};

use super::notes::Notes;
use desk_lock::{Finished, LaneNames, Served1, TurnStart, Turns};
use std::alloc::{AllocError, Global};
use std::marker::Brand;
use std::sync::Wait;
use std::test::Fail;

/// What was seen of turns: their answers, the journal, and what the value itself has noted.
#[derive(Drop)]
struct Seen {
    answers: Vec<bool>,
    journal: Vec<Served1>,
    value: Notes,
}

/// What a test has its lanes do, and what is to come of it: the lanes whose turns are taken, the answers,
/// and the journal as pairs of lane and item.
struct Row<'a> {
    counts: &'a [u32],
    turns: &'a [usize],
    answers: &'a [bool],
    journal: &'a [(u32, u32)],
}

/// Takes the turns of these lanes, one after the other, and finishes.
fn take_turns<N: LaneNames, R: Wait>(
    rt: &R,
    alloc: Global,
    notes: Notes,
    counts: &[u32],
    lanes: &[usize],
) -> Result<Seen, AllocError>
    requires names { (N.counts ≡ counts.now) × (N.name ≡ []) }
    requires notes { (notes.counts ≡ counts.now) × (notes.served ≡ []) }
    requires few { (length counts.now ≤ LANES) × (sum counts.now ≤ COMMANDS) }
{
    let mut answers = Vec::new(alloc);
    let Ok(TurnStart { turns, mut seats }) = Turns::<Notes, N>::new(alloc, notes, counts) else {
        return Err(AllocError);
    };
    for lane in lanes {
        let taken = match seats.get_mut(*lane) {
            Some(seat) => turns.turn(rt, seat),
            None => false,
        };
        answers.push(taken)?;
    }
    let Finished { value, journal } = turns.finish(rt);
    Ok(Seen {
        answers,
        journal,
        value,
    })
}

/// Whether a journal has these pairs of lane and item, in this order.
fn has(journal: &[Served1], pairs: &[(u32, u32)]) -> bool {
    journal.len() == pairs.len()
        && journal.iter().zip(pairs).all(|(served, pair)| served.lane == pair.0
            && served.item == pair.1)
}

/// Whether the row comes out as it says.
fn is_so<R: Wait>(rt: &R, alloc: Global, row: &Row<'_>) -> Result<bool, AllocError>
    requires few { (length row.now.counts.now ≤ LANES) × (sum row.now.counts.now ≤ COMMANDS) }
{
    let notes = Notes::new(alloc, row.counts)?;
    let seen = take_turns::<Brand, R>(rt, alloc, notes, row.counts, row.turns)?;
    Ok(
        seen.answers.as_slice() == row.answers
            && has(seen.journal.as_slice(), row.journal)
            && has(seen.value.served(), row.journal),
    )
}

#[test]
fn the_turns_make_the_order(rt: HostRuntime) -> Result<(), Fail> {
    // Lane 1 gets the lock before lane 0, and has no other item.
    let so = is_so(
        &rt,
        rt.alloc(),
        &Row {
            counts: &[2, 1],
            turns: &[1, 0, 1, 0, 0],
            answers: &[true, true, false, true, false],
            journal: &[(1, 0), (0, 0), (0, 1)],
        },
    )?;
    assert!(rt; so);
    Ok(())
}

#[test]
fn what_is_left_is_served_at_the_end(rt: HostRuntime) -> Result<(), Fail> {
    let so = is_so(
        &rt,
        rt.alloc(),
        &Row {
            counts: &[2, 3, 1],
            turns: &[1],
            answers: &[true],
            journal: &[(1, 0), (0, 0), (0, 1), (1, 1), (1, 2), (2, 0)],
        },
    )?;
    assert!(rt; so);
    Ok(())
}

#[test]
fn lanes_end_early(rt: HostRuntime) -> Result<(), Fail> {
    // Lane 1 has no item at all.
    let so = is_so(
        &rt,
        rt.alloc(),
        &Row {
            counts: &[1, 0, 2],
            turns: &[0, 0, 1, 2, 0, 2, 2],
            answers: &[true, false, false, true, false, true, false],
            journal: &[(0, 0), (2, 0), (2, 1)],
        },
    )?;
    assert!(rt; so);
    Ok(())
}

#[test]
fn there_may_be_no_lane(rt: HostRuntime) -> Result<(), Fail> {
    let so = is_so(
        &rt,
        rt.alloc(),
        &Row {
            counts: &[],
            turns: &[],
            answers: &[],
            journal: &[],
        },
    )?;
    assert!(rt; so);
    Ok(())
}
