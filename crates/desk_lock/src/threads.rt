//! Turns of lanes, each lane in a thread of its own.

ghost use Rattle.std.specs.Prelude.{◌≡◌, ◌≤◌, [], length, vec_capacity};

use crate::seat::LaneSeat;
use crate::served::{LaneNames, Served};
use crate::turns::Turns;
use ft_io::Gate;
use std::sync::Wait;
use std::sync::atomic::{AtomicBool, Ordering};
use std::thread;
use std::thread::{Scope, Threads};

/// The number of lane 0, as gates number actors. Those of the others follow.
pub const FIRST_LANE: u32 = 100;

/// All turns of a lane. It passes the gate before each, and once more before the call that finds none
/// left.
fn run_lane<T: Served, N: LaneNames, R: Wait, G: Gate>(
    rt: &R,
    gate: &G,
    turns: &Turns<T, N>,
    mut seat: LaneSeat<N>,
) {
    for _ in rt.forever() {
        gate.pass(
            FIRST_LANE.saturating_add(seat.lane()),
            u64::from(seat.done()),
        );
        if !turns.turn(rt, &mut seat) {
            break;
        }
    }
}

/// What a thread does: all turns of the lane, or none if the flag is set. Then the seat comes back.
fn lane_thread<T: Served, N: LaneNames, R: Wait, G: Gate>(
    rt: &R,
    gate: &G,
    turns: &Turns<T, N>,
    refused: &AtomicBool,
    seat: LaneSeat<N>,
) -> Option<LaneSeat<N>> {
    // Relaxed is enough, as for the flag of a CPU's seat: the thread that sets it reads it itself.
    if refused.load(Ordering::Relaxed) {
        return Some(seat);
    }
    run_lane(rt, gate, turns, seat);
    None
}

/// Starts a thread for a lane. The seat comes back if none can be started.
fn launch_lane<
    's,
    E,
    T: Served + Send,
    N: LaneNames + Send + Sync,
    R: Threads + Wait + Sync,
    G: Gate,
>(
    scope: &'s Scope<'s, E>,
    rt: &'s R,
    gate: &'s G,
    turns: &'s Turns<T, N>,
    refused: &'s AtomicBool,
    seat: LaneSeat<N>,
) -> Option<LaneSeat<N>> {
    let job = move || -> Option<LaneSeat<N>> { lane_thread(rt, gate, turns, refused, seat) };
    match scope.spawn(job) {
        // What the thread owes, `Turns::finish` serves if need be, so nothing is asked of it.
        Ok(_handle) => None,
        // The closure has the seat, so it is called for it.
        Err(failed) => {
            refused.store(true, Ordering::Relaxed);
            (failed.value)()
        }
    }
}

/// Starts a thread for each lane. Those for which none can be started come back.
fn launch_lanes<
    's,
    E,
    T: Served + Send,
    N: LaneNames + Send + Sync,
    R: Threads + Wait + Sync,
    G: Gate,
>(
    scope: &'s Scope<'s, E>,
    rt: &'s R,
    gate: &'s G,
    turns: &'s Turns<T, N>,
    flags: &'s [AtomicBool],
    seats: Vec<LaneSeat<N>>,
    mut left: Vec<LaneSeat<N>>,
) -> Vec<LaneSeat<N>>
    requires flags { length flags.now ≡ length seats.items }
    requires left { (left.items ≡ []) × (length seats.items ≤ vec_capacity left) }
{
    let mut launched = 0;
    for seat in seats {
        let flag = &flags[launched];
        if let Some(seat) = launch_lane(scope, rt, gate, turns, flag, seat) {
            left.push_reserved(seat);
        }
        launched += 1;
    }
    left
}

/// All turns of all lanes. Those of a lane without a thread are made here, once all threads are
/// started: a gate may hold one lane until another has come.
fn make_turns<
    's,
    E,
    T: Served + Send,
    N: LaneNames + Send + Sync,
    R: Threads + Wait + Sync,
    G: Gate,
>(
    scope: &'s Scope<'s, E>,
    rt: &'s R,
    gate: &'s G,
    turns: &'s Turns<T, N>,
    flags: &'s [AtomicBool],
    seats: Vec<LaneSeat<N>>,
    left: Vec<LaneSeat<N>>,
)
    requires flags { length flags.now ≡ length seats.items }
    requires left { (left.items ≡ []) × (length seats.items ≤ vec_capacity left) }
{
    let left = launch_lanes(scope, rt, gate, turns, flags, seats, left);
    for seat in left {
        run_lane(rt, gate, turns, seat);
    }
}

/// All turns of all lanes, each lane in a thread of its own. They have ended when it returns.
pub fn run_turns<T: Served + Send, N: LaneNames + Send + Sync, R: Threads + Wait + Sync, G: Gate>(
    rt: &R,
    gate: &G,
    turns: &Turns<T, N>,
    flags: &[AtomicBool],
    seats: Vec<LaneSeat<N>>,
    left: Vec<LaneSeat<N>>,
)
    requires flags { length flags.now ≡ length seats.items }
    requires left { (left.items ≡ []) × (length seats.items ≤ vec_capacity left) }
{
    thread::scope(
        thread::scope_env(),
        rt,
        move |scope|
            requires { (length flags.now ≡ length seats.items) × (left.items ≡ []) × (length seats.items ≤ vec_capacity left) }
        { make_turns(scope, rt, gate, turns, flags, seats, left) },
    );
}
