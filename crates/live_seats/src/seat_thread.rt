//! The thread of a seat.

ghost use Rattle.std.specs.Prelude.{MatchResult};
ghost use Rattle.live_seats.specs.AnySeats.{IsEndedSeat, IsSameSeat, IsSeatOf, tables};

use crate::seat::{AnySeat, run_seat};
use ft_io::Gate;
use live_table::Live;
use ring_table::RingTable;
use std::snapshot::Snapshot;
use std::sync::Wait;
use std::sync::atomic::{AtomicBool, Ordering};
use std::thread::{Promise, PromisedHandle, Scope, Threads};

/// What a thread promises of the seat that it was given: it comes back at its end (`Ok`), or without a
/// step (`Err`).
#[derive(Drop)]
pub struct SeatPromise(pub Snapshot<AnySeat>);

impl Promise<Result<AnySeat, AnySeat>> for SeatPromise {
    ghost use Rattle.std.specs.Prelude.{MatchResult};
    ghost use Rattle.live_seats.specs.AnySeats.{IsEndedSeat, IsSameSeat};

    ghost kept_by = { λ p r. MatchResult r (λ t. IsEndedSeat p.0.value t) (λ t. IsSameSeat p.0.value t) };
}

/// The handle of a thread that steps a seat.
pub type SeatThread = PromisedHandle<Result<AnySeat, AnySeat>, SeatPromise>;

/// What a thread does: it steps the seat until its end, or gives it back at once if the flag is set.
fn seat_thread<R: Wait, G: Gate>(
    rt: &R,
    live: &Live,
    rings: &Option<RingTable>,
    gate: &G,
    refused: &AtomicBool,
    seat: AnySeat,
) -> Result<AnySeat, AnySeat>
    requires { IsSeatOf (tables live.now rings.now) seat }
    ensures { MatchResult result (λ t. IsEndedSeat seat t) (λ t. IsSameSeat seat t) }
{
    // Relaxed is enough: the flag is set by the thread that then runs this very closure itself, so it
    // reads its own store. A thread that was started never finds its flag set. No data hangs on it.
    if refused.load(Ordering::Relaxed) {
        return Err(seat);
    }
    Ok(run_seat(rt, live, rings, gate, seat))
}

/// Starts a thread for the seat. If none can be started, the seat comes back. The flag is the seat's
/// own, and isn't set.
pub(crate) fn launch<'s, E, R: Threads + Wait + Sync, G: Gate>(
    scope: &'s Scope<'s, E>,
    rt: &'s R,
    live: &'s Live,
    rings: &'s Option<RingTable>,
    gate: &'s G,
    refused: &'s AtomicBool,
    seat: AnySeat,
) -> Result<SeatThread, AnySeat>
    requires { IsSeatOf (tables live.now rings.now) seat }
    ensures { MatchResult result (λ h. IsSameSeat seat h.promise.0.value) (λ t. IsSameSeat seat t) }
{
    let promise = SeatPromise(Snapshot::of(&seat));
    let job = move || -> Result<AnySeat, AnySeat>
        requires { IsSeatOf (tables live.now rings.now) seat }
        ensures { MatchResult result (λ t. IsEndedSeat seat t) (λ t. IsSameSeat seat t) }
    { seat_thread(rt, live, rings, gate, refused, seat) };
    match scope.spawn_with(promise, job) {
        Ok(handle) => Ok(handle),
        // The closure has the seat, so it is called for it. With the flag set it makes no step: run to
        // its end here, the seat could wait for others that aren't launched yet, without end.
        Err(failed) => {
            refused.store(true, Ordering::Relaxed);
            match (failed.value)() {
                Ok(seat) => Err(seat),
                Err(seat) => Err(seat),
            }
        }
    }
}

/// The seat of a thread, at its end.
pub(crate) fn join_seat<R: Threads + Wait + Sync, G: Gate>(
    rt: &R,
    live: &Live,
    rings: &Option<RingTable>,
    gate: &G,
    handle: SeatThread,
) -> AnySeat
    requires { IsSeatOf (tables live.now rings.now) handle.promise.0.value }
    ensures { IsEndedSeat handle.promise.0.value result }
{
    match handle.join(rt) {
        Ok(seat) => seat,
        Err(seat) => run_seat(rt, live, rings, gate, seat),
    }
}
