//! Seats, each in a thread of its own or here.

ghost use Rattle.std.specs.Prelude.{List, ◌≡◌, ◌+◌, ◌≤◌, ◌++◌, length, vec_len, vec_capacity};
ghost use Rattle.live_seats.specs.declared.seat.AnySeat.{AnySeat};
ghost use Rattle.live_seats.specs.AnySeats.{AreAtEnd, AreEndedSeats, AreSameSeats, AreSeatsOf, tables};
ghost use Rattle.live_seats.specs.Rooms.{HasPlaces};
ghost use Rattle.live_seats.specs.Seatings.{here_in, own_seats, seats_in};

use crate::here::{HereSeat, step_all};
use crate::seat::AnySeat;
use crate::seat_thread::{SeatThread, join_seat, launch};
use ft_io::Gate;
use live_table::Live;
use ring_table::RingTable;
use std::sync::Wait;
use std::sync::atomic::AtomicBool;
use std::thread::{Scope, Threads};

/// Where a seat is.
#[derive(Drop)]
pub enum Place {
    /// In a thread of its own.
    There(SeatThread),
    /// Among those that are here.
    Here,
}

/// Where all seats are. Those that are here are a list of their own, which may go to another thread,
/// as no handle may.
#[derive(Drop)]
pub struct Seating {
    /// For each seat where it is.
    pub places: Vec<Place>,
    /// The seats that are here, in order.
    pub here: Vec<HereSeat>,
}

/// Launches each seat, in order. Those for which no thread can be started stay here.
pub fn launch_all<'s, E, R: Threads + Wait + Sync, G: Gate>(
    scope: &'s Scope<'s, E>,
    rt: &'s R,
    live: &'s Live,
    rings: &'s Option<RingTable>,
    gate: &'s G,
    flags: &'s [AtomicBool],
    seats: Vec<AnySeat>,
    seating: Seating,
) -> Seating
    requires seats { AreSeatsOf (tables live.now rings.now) seats.items }
    requires flags { length seats.items ≤ length flags.now }
    requires seating { HasPlaces seating (length seats.items) }
    ensures same { AreSameSeats seats.items (seats_in result.places.items result.here.items) }
    ensures here { here_in result.places.items ≡ length result.here.items }
{
    let Seating {
        mut places,
        mut here,
    } = seating;
    for seat in seats {
        let flag = &flags[places.len()];
        match launch(scope, rt, live, rings, gate, flag, seat) {
            Ok(thread) => places.push_reserved(Place::There(thread)),
            Err(seat) => {
                places.push_reserved(Place::Here);
                here.push_reserved(HereSeat::new(seat));
            }
        }
    }
    Seating { places, here }
}

/// Each seat at its end, in order, after those of `ended`. The seats that are here are at their ends
/// already.
fn finish_all<R: Threads + Wait + Sync, G: Gate>(
    rt: &R,
    live: &Live,
    rings: &Option<RingTable>,
    gate: &G,
    seating: Seating,
    mut ended: Vec<AnySeat>,
) -> Vec<AnySeat>
    requires seats { AreSeatsOf (tables live.now rings.now) (seats_in seating.places.items seating.here.items) }
    requires here { here_in seating.places.items ≡ length seating.here.items }
    requires over { AreAtEnd (own_seats seating.here.items) }
    requires room { vec_len ended + length seating.places.items ≤ vec_capacity ended }
    ensures { (seats : List AnySeat) × (result.items ≡ ended.items ++ seats) × AreEndedSeats (seats_in seating.places.items seating.here.items) seats }
{
    let Seating { places, here } = seating;
    let mut rest = here.into_iter();
    for place in places {
        match place {
            Place::There(thread) => ended.push_reserved(join_seat(rt, live, rings, gate, thread)),
            Place::Here => {
                let Some(own) = rest.next() else {
                    unreachable!();
                };
                ended.push_reserved(own.seat);
            }
        }
    }
    ended
}

/// Brings each seat to its end, in order, after those of `ended`.
///
/// Those that are here are stepped to their ends before any thread is joined. Joined first, a thread that
/// waits for a seat that is here would never come to its end; no clause says this.
pub fn end_all<R: Threads + Wait + Sync, G: Gate>(
    rt: &R,
    live: &Live,
    rings: &Option<RingTable>,
    gate: &G,
    seating: Seating,
    ended: Vec<AnySeat>,
) -> Vec<AnySeat>
    requires seats { AreSeatsOf (tables live.now rings.now) (seats_in seating.places.items seating.here.items) }
    requires here { here_in seating.places.items ≡ length seating.here.items }
    requires room { vec_len ended + length seating.places.items ≤ vec_capacity ended }
    ensures { (seats : List AnySeat) × (result.items ≡ ended.items ++ seats) × AreEndedSeats (seats_in seating.places.items seating.here.items) seats }
{
    let Seating { places, mut here } = seating;
    step_all(rt, live, rings, gate, &mut here);
    finish_all(rt, live, rings, gate, Seating { places, here }, ended)
}
