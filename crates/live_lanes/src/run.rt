//! A run of lanes.

ghost use Rattle.std.specs.Prelude.{ℕ, List, ◌≡◌, ◌≤◌, ◌+◌, ◌∷◌, [], length, vec_capacity, IfOk, IfErr, None};
ghost use Rattle.ft_hist.specs.Rules.{IsWhole};
ghost use Rattle.desk_lock.specs.Journals.{IsMerge};
ghost use Rattle.word_machine_laws.specs.Led.{in_order};
ghost use Rattle.word_machine_laws.specs.Orders.{IsLaneOrder};
ghost use Rattle.word_machine.specs.Control.{control_next};
ghost use Rattle.ft_job.specs.Plans.{HasLanes};
ghost use Rattle.live_table.specs.Seats.{AreAtEnd, AreSeats, ControlSitsAt, IsMadeByTurns, control_at};
ghost use Rattle.live_seats.specs.AnySeats.{AreSeatsOf, tables};
ghost use Rattle.live_seats.specs.Ends.{AreEnded};
ghost use Rattle.live_seats.specs.Rooms.{HasPlaces, HasRooms};
ghost use Rattle.live_lanes.specs.Conducted.{IsReady, IsRun};
ghost use Rattle.live_lanes.specs.LaneItems.{AreAllServed, as_items};

use crate::conduct::conduct_all;
use crate::counts::counts_of;
use ft_hist::History;
use ft_io::Gate;
use ft_job::Job;
use live_seats::{
    AnySeat, Ended, Rooms, Seating, add_cpus, end_all, launch_all, make_rooms, take_apart,
};
use live_table::{ControlSeat, CpuSeat, Live, Started};
use ring_table::RingTable;
use std::alloc::{AllocError, Global};
use std::sync::Wait;
use std::sync::atomic::AtomicBool;
use std::thread;
use std::thread::{Scope, Threads};

/// A whole run of lanes.
#[derive(Drop)]
pub struct LaneRun {
    /// The job with its commands in the order in which the lock let them through.
    pub job: Job,
    /// What happened.
    pub history: History,
}

/// The CPUs in threads of their own, and the lanes beside them: control's seat at its end, and after
/// it the CPUs' at theirs.
///
/// The order is what keeps a run from hanging, and no clause says it:
///
/// 1. The CPUs' threads are started first. A command may wait for a CPU, and that CPU may be one whose
///    thread isn't started yet.
/// 2. Then the lanes' threads are started, all of them before a lane is carried out here: a gate may
///    hold one until another has come.
/// 3. Then all commands are carried out, while the CPUs that are here step in turn with control. No
///    thread of a CPU is joined before: it may wait for a command that is still to come. So nothing
///    gives up in between, either.
/// 4. Then the CPUs are brought to their ends, as in a run without lanes.
fn run_beside<'s, E, R: Threads + Wait + Sync, G: Gate>(
    scope: &'s Scope<'s, E>,
    rt: &'s R,
    alloc: Global,
    live: &'s Live,
    rings: &'s Option<RingTable>,
    gate: &'s G,
    lanes: &'s [u32],
    counts: &'s [u32],
    flags: &'s [AtomicBool],
    control: ControlSeat,
    seats: Vec<AnySeat>,
    seating: Seating,
    mut ended: Vec<AnySeat>,
) -> Vec<AnySeat>
    requires rings { rings.now ≡ None }
    requires ready { IsReady live.now lanes.now counts.now control }
    requires seats { AreSeatsOf (tables live.now rings.now) seats.items }
    requires flags { length seats.items ≤ length flags.now }
    requires seating { HasPlaces seating (length seats.items) }
    requires ended { (ended.items ≡ []) × (length seats.items + 1 ≤ vec_capacity ended) }
    ensures { IsRun live.now lanes.now counts.now seats.items result.items }
{
    let Seating { places, here } = launch_all(scope, rt, live, rings, gate, flags, seats, seating);
    let (control, here) = conduct_all(rt, alloc, live, gate, lanes, counts, control, here);
    ended.push_reserved(AnySeat::Control(control));
    end_all(rt, live, rings, gate, Seating { places, here }, ended)
}

/// The run, with all memory at hand.
fn run_in<R: Threads + Wait + Sync, G: Gate>(
    rt: &R,
    alloc: Global,
    live: &Live,
    gate: &G,
    lanes: &[u32],
    counts: &[u32],
    control: ControlSeat,
    cpus: Vec<CpuSeat>,
    rooms: Rooms,
) -> Ended
    requires ready { IsReady live.now lanes.now counts.now control }
    requires cpus { AreSeats live.now cpus.items }
    requires rooms { HasRooms rooms (length cpus.items) }
    ensures control { ControlSitsAt live.now result.control × (control_next result.control.led (control_at result.control) ≡ None) }
    ensures cpus { AreEnded cpus.items result.cpus.items }
    ensures order { IsMerge counts.now (as_items lanes.now result.control.order) }
{
    let Rooms {
        flags,
        seats,
        seating,
        ended,
        cpus: room,
    } = rooms;
    let seats = add_cpus(seats, cpus);
    let flags = flags.as_slice();
    let rings = None;
    let rings = &rings;
    let ended = thread::scope(
        thread::scope_env(),
        rt,
        move |scope| -> Vec<AnySeat>
            requires { (rings.now ≡ None) × IsReady live.now lanes.now counts.now control × AreSeatsOf (tables live.now rings.now) seats.items × (length seats.items ≤ length flags.now) × HasPlaces seating (length seats.items) × (ended.items ≡ []) × (length seats.items + 1 ≤ vec_capacity ended) }
            ensures { IsRun live.entry.now lanes.entry.now counts.entry.now seats.items result.items }
        {
            run_beside(
                scope, rt, alloc, live, rings, gate, lanes, counts, flags, control, seats, seating,
                ended,
            )
        },
    );
    take_apart(ended, room)
}

/// The same numbers. The error says that memory ran out.
fn copied(alloc: Global, numbers: &[u32]) -> Result<Vec<u32>, AllocError>
    ensures { IfOk result (λ v. v.items ≡ numbers.now) }
{
    numbers.to_vec(alloc)
}

/// The run of a table whose seats have all come to their ends. The error says that memory ran out, and
/// hands the job back.
fn gathered(alloc: Global, live: Live, job: Job, ended: Ended) -> Result<LaneRun, Job>
    requires job { HasLanes job × (live.job ≡ job) }
    requires control { ControlSitsAt live ended.control }
    requires cpus { AreSeats live ended.cpus.items }
    requires ended { AreAtEnd ended.control ended.cpus.items }
    requires served { AreAllServed job.lines.lanes ended.control.order }
    ensures ok { IfOk result (λ r. (order : List ℕ) × IsLaneOrder job.lines.lanes order × (r.job ≡ in_order job order) × IsWhole r.job r.history.items) }
    ensures turns { IfOk result (λ r. IsMadeByTurns r.job r.history.items) }
    ensures err { IfErr result (λ j. j ≡ job) }
{
    let Ended { control, cpus } = ended;
    let Ok(order) = copied(alloc, control.order()) else {
        return Err(job);
    };
    let Ok(history) = live.gather(alloc, control, cpus) else {
        return Err(job);
    };
    match job.in_order(alloc, order.as_slice()) {
        Ok(job) => Ok(LaneRun { job, history }),
        Err(job) => Err(job),
    }
}

/// Carries out a job whose commands belong to lanes: each lane in a thread of its own, and each CPU.
/// A lane holds the lock for one whole command. The history is whole for the job with its commands in
/// the order in which the lock let them through, which is a merge of the lanes.
///
/// Lane n passes the gate as actor 100 + n before each of its turns, with the number of its commands
/// so far, and once more before it finds none left. Control and each CPU pass it before each of their
/// steps, and once more before the call that finds none left, whoever steps them.
///
/// The error says that memory ran out, and hands the job back unchanged. Most memory is taken before
/// the first step, but not that of the history and of its order, so the run may have been made.
///
/// It may wait without end: nothing is said of whether a thread gets on.
pub fn run_lanes<R: Threads + Wait + Sync, G: Gate>(
    rt: &R,
    alloc: Global,
    job: Job,
    gate: &G,
) -> Result<LaneRun, Job>
    requires lanes { HasLanes job }
    ensures ok { IfOk result (λ r. (order : List ℕ) × IsLaneOrder job.lines.lanes order × (r.job ≡ in_order job order) × IsWhole r.job r.history.items) }
    ensures turns { IfOk result (λ r. IsMadeByTurns r.job r.history.items) }
    ensures err { IfErr result (λ j. j ≡ job) }
{
    // For its contract alone: a job is within the limits of scripts.
    let _users = job.users();
    let Ok(counts) = counts_of(alloc, job.lanes()) else {
        return Err(job);
    };
    let Ok(
        Started {
            live,
            control,
            cpus,
        },
    ) = Live::start_open(alloc, &job)
    else {
        return Err(job);
    };
    let Ok(rooms) = make_rooms(alloc, cpus.len()) else {
        return Err(job);
    };
    let lanes = job.lanes();
    let ended = run_in(
        rt,
        alloc,
        &live,
        gate,
        lanes,
        counts.as_slice(),
        control,
        cpus,
        rooms,
    );
    gathered(alloc, live, job, ended)
}
