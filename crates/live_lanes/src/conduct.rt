//! All commands, carried out by lanes that take turns.

ghost use Rattle.std.specs.Prelude.{◌≡◌, ◌≤◌, ◌<◌, ◌≢◌, ℕ, [], length, sum, slice_index, None};
ghost use Rattle.ft_base.specs.declared.limits.TheConstants.{LANES};
ghost use Rattle.desk_lock.specs.Journals.{IsMerge, done_of};
ghost use Rattle.word_machine.specs.Control.{control_next};
ghost use Rattle.live_table.specs.Seats.{ControlSitsAt, control_at};
ghost use Rattle.live_seats.specs.AnySeats.{AreSameSeats, AreSeatsOf, without_rings};
ghost use Rattle.live_seats.specs.Seatings.{own_seats};
ghost use Rattle.live_lanes.specs.Conducted.{IsReady, actors_of};
ghost use Rattle.live_lanes.specs.LaneItems.{as_items};

use crate::conductor::{Conductor, TableNames};
use crate::control::LedControl;
use desk_lock::{FIRST_LANE, Served, TurnStart, Turns, run_turns};
use ft_base::limits::COMMANDS;
use ft_io::Gate;
use live_seats::{HereSeat, make_flags};
use live_table::{ControlSeat, Live};
use std::alloc::Global;
use std::marker::{Brand, PhantomData};
use std::sync::Wait;
use std::thread::Threads;

/// Serves a lane of which nothing was served. The gate is passed as for the lane's turns.
fn serve_lane<'a, G: Gate, N: TableNames, W: Wait>(
    rt: &W,
    gate: &G,
    value: &mut Conductor<'a, G, N>,
    lane: u32,
    count: u32,
)
    requires lane { (lane < length N.counts) × (count ≡ slice_index N.counts lane) }
    requires none { done_of lane (as_items value.old.lanes value.old.control.order) ≡ 0 }
    ensures whole { done_of lane (as_items value.new.lanes value.new.control.order) ≡ slice_index N.counts lane }
    ensures others { (m : ℕ) → m ≢ lane → done_of m (as_items value.new.lanes value.new.control.order) ≡ done_of m (as_items value.old.lanes value.old.control.order) }
{
    for item in 0..count {
        gate.pass(FIRST_LANE.saturating_add(lane), u64::from(item));
        value.serve(rt, lane, item);
    }
}

/// Serves all lanes one after the other, without turns, if there is no memory for them. The CPUs'
/// threads run already, and may wait for these commands, so they are carried out all the same.
fn serve_all<'a, G: Gate, N: TableNames, W: Wait>(
    rt: &W,
    gate: &G,
    mut value: Conductor<'a, G, N>,
    counts: &[u32],
) -> Conductor<'a, G, N>
    requires counts { (counts.now ≡ N.counts) × (length counts.now ≤ LANES) }
    requires none { value.control.order ≡ [] }
    ensures { IsMerge N.counts (as_items result.lanes result.control.order) }
{
    for lane in 0..counts.len() {
        serve_lane(rt, gate, &mut value, lane as u32, counts[lane]);
    }
    value.keeps();
    value
}

/// Serves all lanes, each in a thread of its own.
fn conduct<'a, G: Gate, N: TableNames + Send + Sync, R: Threads + Wait + Sync>(
    rt: &R,
    alloc: Global,
    gate: &G,
    value: Conductor<'a, G, N>,
    counts: &[u32],
) -> Conductor<'a, G, N>
    requires counts { (counts.now ≡ N.counts) × (length counts.now ≤ LANES) }
    requires items { sum counts.now ≤ length value.lanes }
    requires none { value.control.order ≡ [] }
    ensures { IsMerge N.counts (as_items result.lanes result.control.order) }
{
    // No script has more commands, and no lock is made for more turns.
    if value.commands() > COMMANDS as usize {
        return serve_all(rt, gate, value, counts);
    }
    let Ok(flags) = make_flags(alloc, counts.len()) else {
        return serve_all(rt, gate, value, counts);
    };
    let Ok(left) = Vec::with_capacity(alloc, counts.len()) else {
        return serve_all(rt, gate, value, counts);
    };
    value.keeps();
    match Turns::<Conductor<'a, G, N>, N>::new(alloc, value, counts) {
        Ok(TurnStart { turns, seats }) => {
            run_turns(rt, gate, &turns, flags.as_slice(), seats, left);
            turns.finish(rt).value
        }
        Err(value) => serve_all(rt, gate, value, counts),
    }
}

/// The same for the table and the seats that are named.
fn conduct_as<N: TableNames + Send + Sync, R: Threads + Wait + Sync, G: Gate>(
    rt: &R,
    alloc: Global,
    live: &Live,
    gate: &G,
    lanes: &[u32],
    counts: &[u32],
    control: ControlSeat,
    here: Vec<HereSeat>,
) -> (ControlSeat, Vec<HereSeat>)
    requires names { (N.board ≡ live.now) × (N.counts ≡ counts.now) × (N.name ≡ actors_of (own_seats here.items)) × (N.here ≡ own_seats here.items) }
    requires ready { IsReady live.now lanes.now counts.now control }
    requires here { AreSeatsOf (without_rings live.now) (own_seats here.items) }
    ensures control { ControlSitsAt live.now result.0 × (control_next result.0.led (control_at result.0) ≡ None) }
    ensures here { AreSameSeats (own_seats here.items) (own_seats result.1.items) }
    ensures order { IsMerge counts.now (as_items lanes.now result.0.order) }
{
    let value: Conductor<'_, G, N> = Conductor {
        live,
        gate,
        lanes,
        control: LedControl {
            seat: control,
            steps: 0,
        },
        here,
        of: PhantomData,
    };
    let value = conduct(rt, alloc, gate, value, counts);
    value.keeps();
    value.into_seats()
}

/// Carries out all commands of the table's job, of which none was led. Control's seat comes back at
/// its end, and the CPUs' seats that are here are the same.
pub(crate) fn conduct_all<R: Threads + Wait + Sync, G: Gate>(
    rt: &R,
    alloc: Global,
    live: &Live,
    gate: &G,
    lanes: &[u32],
    counts: &[u32],
    control: ControlSeat,
    here: Vec<HereSeat>,
) -> (ControlSeat, Vec<HereSeat>)
    requires ready { IsReady live.now lanes.now counts.now control }
    requires here { AreSeatsOf (without_rings live.now) (own_seats here.items) }
    ensures control { ControlSitsAt live.now result.0 × (control_next result.0.led (control_at result.0) ≡ None) }
    ensures here { AreSameSeats (own_seats here.items) (own_seats result.1.items) }
    ensures order { IsMerge counts.now (as_items lanes.now result.0.order) }
{
    conduct_as::<Brand, R, G>(rt, alloc, live, gate, lanes, counts, control, here)
}
