//! Lanes in threads of their own.

ghost use Rattle.std.specs.Prelude.{◌≡◌, ◌≤◌, [], length, sum};
ghost use Rattle.ft_base.specs.declared.limits.TheConstants.{COMMANDS, LANES};

use super::notes::Notes;
use desk_lock::{LaneNames, LaneSeat, Served1, TurnStart, Turns};
use std::alloc::{AllocError, Global};
use std::marker::Brand;
use std::sync::Wait;
use std::test::Fail;
use std::thread;
use std::thread::{Scope, Threads};

/// All turns of a lane. Gives how many they were.
fn run_lane<N: LaneNames, R: Wait>(rt: &R, turns: &Turns<Notes, N>, mut seat: LaneSeat<N>) -> u32 {
    while turns.turn(rt, &mut seat) {}
    seat.done()
}

/// Starts a thread for each lane. False if one couldn't be started.
fn start_lanes<'s, E, N: LaneNames + Send + Sync, R: Threads + Wait + Sync>(
    scope: &'s Scope<'s, E>,
    rt: &'s R,
    turns: &'s Turns<Notes, N>,
    seats: Vec<LaneSeat<N>>,
) -> bool {
    let mut all = true;
    for seat in seats {
        if scope.spawn(move || run_lane(rt, turns, seat)).is_err() {
            all = false;
        }
    }
    all
}

/// Runs each lane in a thread of its own, to its end. False if a thread couldn't be started.
fn run_all<N: LaneNames + Send + Sync, R: Threads + Wait + Sync>(
    rt: &R,
    turns: &Turns<Notes, N>,
    seats: Vec<LaneSeat<N>>,
) -> bool {
    thread::scope(thread::scope_env(), rt, move |scope| {
        start_lanes(scope, rt, turns, seats)
    })
}

/// The journal of lanes that ran in threads of their own.
fn run_lanes<N: LaneNames + Send + Sync, R: Threads + Wait + Sync>(
    rt: &R,
    alloc: Global,
    notes: Notes,
    counts: &[u32],
) -> Result<Vec<Served1>, AllocError>
    requires names { (N.counts ≡ counts.now) × (N.name ≡ []) }
    requires notes { (notes.counts ≡ counts.now) × (notes.served ≡ []) }
    requires few { (length counts.now ≤ LANES) × (sum counts.now ≤ COMMANDS) }
{
    let Ok(TurnStart { turns, seats }) = Turns::<Notes, N>::new(alloc, notes, counts) else {
        return Err(AllocError);
    };
    let all = run_all(rt, &turns, seats);
    let journal = turns.finish(rt).journal;
    if all { Ok(journal) } else { Err(AllocError) }
}

/// As many lanes as there may be, which have as many items as there may be.
const COUNTS: [u32; 8] = [128; 8];

/// Whether these are all items of the lanes, and each lane's in order.
fn is_merged(journal: &[Served1]) -> bool {
    let mut next = [0; 8];
    for served in journal {
        let Some(item) = next.get_mut(served.lane as usize) else {
            return false;
        };
        if served.item != *item {
            return false;
        }
        *item = served.item.saturating_add(1);
    }
    next == COUNTS
}

#[test]
fn lanes_run_in_threads(rt: HostRuntime) -> Result<(), Fail> {
    let notes = Notes::new(rt.alloc(), &COUNTS)?;
    let journal = run_lanes::<Brand, _>(&rt, rt.alloc(), notes, &COUNTS)?;
    assert!(rt; is_merged(journal.as_slice()));
    Ok(())
}
