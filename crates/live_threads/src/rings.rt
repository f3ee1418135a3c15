//! A run whose CPUs offer their items to rings.

ghost use Rattle.std.specs.Prelude.{List, ◌≡◌, ◌≤◌, ◌+◌, ◌++◌, [], length, map, vec_len, vec_capacity, IfOk};
ghost use Rattle.ft_hist.specs.Rules.{IsWhole};
ghost use Rattle.ring_rules.specs.Legal.{RingsLegal};
ghost use Rattle.ring_rules.specs.Plan.{plan_of};
ghost use Rattle.ring_table.specs.Seats.{AreSeats as AreRings, SeatPlace};
ghost use Rattle.word_machine.specs.Limits.{IsLimited};
ghost use Rattle.live_table.specs.Seats.{AreAtEnd, AreSeats, ControlPlace, ControlSitsAt, CpuPlace, IsMadeByTurns};
ghost use Rattle.live_seats.specs.declared.seat.AnySeat.TheVariants.{Traced};
ghost use Rattle.live_seats.specs.AnySeats.{AreSeatsOf, all_traced, tables};
ghost use Rattle.live_seats.specs.Ends.{AreEnded, IsEndedControl};
ghost use Rattle.live_seats.specs.Rooms.{HasRooms};
ghost use Rattle.live_seats.specs.Traced.{AreSameRings, AreTraced, traced};

use crate::ring_rooms::ring_rooms;
use crate::run::run_scoped;
use ft_base::NoMemory;
use ft_hist::History;
use ft_io::Gate;
use ft_job::Job;
use live_seats::{AnySeat, Rooms, TracedSeat, make_rooms};
use live_table::{ControlSeat, CpuSeat, Live, Started};
use ring_rules::Rings;
use ring_table::{RingSeat, RingStart, RingTable};
use std::alloc::Global;
use std::sync::Wait;
use std::thread::Threads;
use trace_rings::trace_plan;

/// A whole run, with the rings of its CPUs.
#[derive(Drop)]
pub struct RingRun {
    /// What happened.
    pub history: History,
    /// The rings.
    pub rings: Rings,
}

/// All seats at their ends.
#[derive(Drop)]
struct TracedEnd {
    control: ControlSeat,
    cpus: Vec<CpuSeat>,
    rings: Vec<RingSeat>,
}

/// The two seats of each CPU after these, in order.
fn add_traced(mut seats: Vec<AnySeat>, cpus: Vec<CpuSeat>, rings: Vec<RingSeat>) -> Vec<AnySeat>
    requires traced { AreTraced cpus.items rings.items }
    requires room { vec_len seats + length cpus.items ≤ vec_capacity seats }
    ensures { result.items ≡ seats.items ++ map (λ s. Traced s) (traced cpus.items rings.items) }
{
    let mut rings = rings.into_iter();
    for cpu in cpus {
        let Some(ring) = rings.next() else {
            unreachable!();
        };
        seats.push_reserved(AnySeat::Traced(TracedSeat::new(cpu, ring)));
    }
    seats
}

/// Control's seat and the two of each CPU apart again.
fn take_traced_apart(
    seats: Vec<AnySeat>,
    mut cpus: Vec<CpuSeat>,
    mut rings: Vec<RingSeat>,
) -> TracedEnd
    requires seats { (control : ControlPlace) × (all : List CpuPlace) × (own : List SeatPlace) × (seats.items ≡ all_traced control (traced all own)) }
    requires cpus { (cpus.items ≡ []) × (length seats.items ≤ vec_capacity cpus + 1) }
    requires rings { (rings.items ≡ []) × (length seats.items ≤ vec_capacity rings + 1) }
    ensures seats { seats.items ≡ all_traced result.control (traced result.cpus.items result.rings.items) }
    ensures traced { AreTraced result.cpus.items result.rings.items }
{
    let mut seats = seats.into_iter();
    let Some(AnySeat::Control(control)) = seats.next() else {
        unreachable!();
    };
    for seat in seats {
        match seat {
            AnySeat::Traced(seat) => {
                let (cpu, ring) = seat.into_seats();
                cpus.push_reserved(cpu);
                rings.push_reserved(ring);
            }
            AnySeat::Control(_) | AnySeat::Cpu(_) => unreachable!(),
        }
    }
    TracedEnd {
        control,
        cpus,
        rings,
    }
}

/// Brings the seats to their ends, with all memory at hand. `spare` has room for the CPUs' seats at the
/// rings.
fn run_traced<R: Threads + Wait + Sync, G: Gate>(
    rt: &R,
    live: &Live,
    table: &Option<RingTable>,
    control: ControlSeat,
    cpus: Vec<CpuSeat>,
    rings: Vec<RingSeat>,
    gate: &G,
    rooms: Rooms,
    spare: Vec<RingSeat>,
) -> TracedEnd
    requires seats { AreSeatsOf (tables live.now table.now) (all_traced control (traced cpus.items rings.items)) }
    requires traced { AreTraced cpus.items rings.items }
    requires rooms { HasRooms rooms (length cpus.items) }
    requires spare { (spare.items ≡ []) × (length cpus.items ≤ vec_capacity spare) }
    ensures control { IsEndedControl control result.control }
    ensures cpus { AreEnded cpus.items result.cpus.items }
    ensures rings { AreSameRings rings.items result.rings.items }
    ensures traced { AreTraced result.cpus.items result.rings.items }
{
    let Rooms {
        flags,
        mut seats,
        seating,
        ended,
        cpus: room,
    } = rooms;
    seats.push_reserved(AnySeat::Control(control));
    let seats = add_traced(seats, cpus, rings);
    let ended = run_scoped(
        rt,
        live,
        table,
        gate,
        flags.as_slice(),
        seats,
        seating,
        ended,
    );
    take_traced_apart(ended, room, spare)
}

/// The history and the rings that the seats have made, each at its end. The error says that memory ran
/// out.
fn gathered(
    alloc: Global,
    live: Live,
    table: RingTable,
    ended: TracedEnd,
) -> Result<RingRun, NoMemory>
    requires limited { IsLimited live.job }
    requires plan { table.plan ≡ plan_of live.job }
    requires control { ControlSitsAt live ended.control }
    requires led { ended.control.led ≡ live.job }
    requires cpus { AreSeats live ended.cpus.items }
    requires rings { AreRings table ended.rings.items }
    requires traced { AreTraced ended.cpus.items ended.rings.items }
    requires ended { AreAtEnd ended.control ended.cpus.items }
    ensures whole { IfOk result (λ r. IsWhole live.job r.history.items) }
    ensures turns { IfOk result (λ r. IsMadeByTurns live.job r.history.items) }
    ensures legal { IfOk result (λ r. RingsLegal (plan_of live.job) r.history.items r.rings) }
{
    let TracedEnd {
        control,
        cpus,
        rings,
    } = ended;
    let Ok(history) = live.gather(alloc, control, cpus) else {
        return Err(NoMemory);
    };
    let Ok(rings) = table.close(alloc, rings) else {
        return Err(NoMemory);
    };
    Ok(RingRun { history, rings })
}

/// Runs a job by threads, one for control and one for each CPU, as [`crate::run_live`] does. Each CPU
/// offers each item that it marks to its trace ring, right after the step that marked it. The rings are
/// legal for the history: they are those that the CPUs may have made of it side by side, and not always
/// those that its fold makes, in which the items come by place.
///
/// The error says that memory ran out. All of it but that of gathering is taken before the first step.
///
/// It may wait without end: nothing is said of whether a thread gets on.
pub fn run_rings<R: Threads + Wait + Sync, G: Gate>(
    rt: &R,
    alloc: Global,
    job: &Job,
    gate: &G,
) -> Result<RingRun, NoMemory>
    ensures whole { IfOk result (λ r. IsWhole job.now r.history.items) }
    ensures turns { IfOk result (λ r. IsMadeByTurns job.now r.history.items) }
    ensures legal { IfOk result (λ r. RingsLegal (plan_of job.now) r.history.items r.rings) }
{
    // For its contract alone: a job is within the limits of scripts.
    let _users = job.users();
    let plan = trace_plan(alloc, job)?;
    let items = ring_rooms(alloc, job)?;
    let RingStart { table, seats } = RingTable::start(alloc, plan, items.as_slice())?;
    let Started {
        live,
        control,
        cpus,
    } = Live::start(alloc, job)?;
    let Ok(rooms) = make_rooms(alloc, cpus.len()) else {
        return Err(NoMemory);
    };
    let Ok(spare) = Vec::with_capacity(alloc, cpus.len()) else {
        return Err(NoMemory);
    };
    let table = Some(table);
    let ended = run_traced(rt, &live, &table, control, cpus, seats, gate, rooms, spare);
    let Some(table) = table else {
        unreachable!();
    };
    gathered(alloc, live, table, ended)
}
