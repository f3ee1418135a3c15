//! All seats of a table, brought to their ends.

ghost use Rattle.std.specs.Prelude.{◌≡◌, ◌≤◌, [], length, vec_capacity, IfOk, IfErr};
ghost use Rattle.live_table.specs.Seats.{AreSeats, ControlSitsAt};
ghost use Rattle.live_seats.specs.AnySeats.{AreEndedSeats, AreSeatsOf, tables};
ghost use Rattle.live_seats.specs.Ends.{AreEnded, IsEndedControl};
ghost use Rattle.live_seats.specs.Rooms.{HasPlaces, HasRooms};

use ft_io::Gate;
use live_seats::{
    AnySeat, Ended, Rooms, Seating, add_cpus, end_all, launch_all, make_rooms, take_apart,
};
use live_table::{ControlSeat, CpuSeat, Live};
use ring_table::RingTable;
use std::alloc::Global;
use std::sync::Wait;
use std::sync::atomic::AtomicBool;
use std::thread;
use std::thread::{Scope, Threads};

/// Brings each seat to its end.
///
/// All seats are launched before any is stepped here, and no clause says this: a thread that was started
/// may wait for a seat that wasn't yet, and goes on once that one steps.
fn run_all<'s, E, R: Threads + Wait + Sync, G: Gate>(
    scope: &'s Scope<'s, E>,
    rt: &'s R,
    live: &'s Live,
    rings: &'s Option<RingTable>,
    gate: &'s G,
    flags: &'s [AtomicBool],
    seats: Vec<AnySeat>,
    seating: Seating,
    ended: Vec<AnySeat>,
) -> Vec<AnySeat>
    requires seats { AreSeatsOf (tables live.now rings.now) seats.items }
    requires flags { length seats.items ≤ length flags.now }
    requires seating { HasPlaces seating (length seats.items) }
    requires ended { (ended.items ≡ []) × (length seats.items ≤ vec_capacity ended) }
    ensures { AreEndedSeats seats.items result.items }
{
    let seating = launch_all(scope, rt, live, rings, gate, flags, seats, seating);
    end_all(rt, live, rings, gate, seating, ended)
}

/// The same with threads of its own.
pub(crate) fn run_scoped<R: Threads + Wait + Sync, G: Gate>(
    rt: &R,
    live: &Live,
    rings: &Option<RingTable>,
    gate: &G,
    flags: &[AtomicBool],
    seats: Vec<AnySeat>,
    seating: Seating,
    ended: Vec<AnySeat>,
) -> Vec<AnySeat>
    requires seats { AreSeatsOf (tables live.now rings.now) seats.items }
    requires flags { length seats.items ≤ length flags.now }
    requires seating { HasPlaces seating (length seats.items) }
    requires ended { (ended.items ≡ []) × (length seats.items ≤ vec_capacity ended) }
    ensures { AreEndedSeats seats.items result.items }
{
    thread::scope(
        thread::scope_env(),
        rt,
        move |scope| -> Vec<AnySeat>
            requires { AreSeatsOf (tables live.now rings.now) seats.items × (length seats.items ≤ length flags.now) × HasPlaces seating (length seats.items) × (ended.items ≡ []) × (length seats.items ≤ vec_capacity ended) }
            ensures { AreEndedSeats seats.items result.items }
        { run_all(scope, rt, live, rings, gate, flags, seats, seating, ended) },
    )
}

/// Brings the seats to their ends, with all memory at hand.
fn run_in<R: Threads + Wait + Sync, G: Gate>(
    rt: &R,
    live: &Live,
    control: ControlSeat,
    cpus: Vec<CpuSeat>,
    gate: &G,
    rooms: Rooms,
) -> Ended
    requires control { ControlSitsAt live.now control }
    requires cpus { AreSeats live.now cpus.items }
    requires rooms { HasRooms rooms (length cpus.items) }
    ensures control { IsEndedControl control result.control }
    ensures cpus { AreEnded cpus.items result.cpus.items }
{
    let Rooms {
        flags,
        mut seats,
        seating,
        ended,
        cpus: room,
    } = rooms;
    seats.push_reserved(AnySeat::Control(control));
    let seats = add_cpus(seats, cpus);
    let rings = None;
    let ended = run_scoped(
        rt,
        live,
        &rings,
        gate,
        flags.as_slice(),
        seats,
        seating,
        ended,
    );
    take_apart(ended, room)
}

/// Brings the seats of a table to their ends, each in a thread of its own. A seat for which no thread
/// can be started is stepped here, in turn with the others of that kind.
///
/// Each seat passes the gate before each of its steps, and once more before the call that finds no step
/// left. The seats come back in the order in which they were given. The error says that memory ran out;
/// it comes before the first step, and hands the seats back as they were.
///
/// It may wait without end: nothing is said of whether a thread gets on.
pub fn run_live<R: Threads + Wait + Sync, G: Gate>(
    rt: &R,
    alloc: Global,
    live: &Live,
    control: ControlSeat,
    cpus: Vec<CpuSeat>,
    gate: &G,
) -> Result<Ended, Ended>
    requires control { ControlSitsAt live.now control }
    requires cpus { AreSeats live.now cpus.items }
    ensures ok { IfOk result (λ e. IsEndedControl control e.control × AreEnded cpus.items e.cpus.items) }
    ensures err { IfErr result (λ e. (e.control ≡ control) × (e.cpus.items ≡ cpus.items)) }
{
    match make_rooms(alloc, cpus.len()) {
        Ok(rooms) => Ok(run_in(rt, live, control, cpus, gate, rooms)),
        Err(_) => Err(Ended { control, cpus }),
    }
}
