//! The seats of a run without rings, put together and taken apart again.

ghost use Rattle.std.specs.Prelude.{List, ◌≡◌, ◌≤◌, ◌+◌, ◌++◌, [], length, vec_len, vec_capacity};
ghost use Rattle.live_table.specs.Seats.{ControlPlace, CpuPlace};
ghost use Rattle.live_seats.specs.AnySeats.{all_of, cpus_as_any};

use crate::seat::AnySeat;
use live_table::{ControlSeat, CpuSeat};

/// The seats, each at its end.
#[derive(Drop)]
pub struct Ended {
    /// Control's seat.
    pub control: ControlSeat,
    /// The CPUs' seats in the order in which they were given.
    pub cpus: Vec<CpuSeat>,
}

/// The CPUs' seats after these, in order.
pub fn add_cpus(mut seats: Vec<AnySeat>, cpus: Vec<CpuSeat>) -> Vec<AnySeat>
    requires { vec_len seats + length cpus.items ≤ vec_capacity seats }
    ensures { result.items ≡ seats.items ++ cpus_as_any cpus.items }
{
    for cpu in cpus {
        seats.push_reserved(AnySeat::Cpu(cpu));
    }
    seats
}

/// Control's seat and the CPUs' apart again.
pub fn take_apart(seats: Vec<AnySeat>, mut cpus: Vec<CpuSeat>) -> Ended
    requires seats { (control : ControlPlace) × (all : List CpuPlace) × (seats.items ≡ all_of control all) }
    requires room { (cpus.items ≡ []) × (length seats.items ≤ vec_capacity cpus + 1) }
    ensures { seats.items ≡ all_of result.control result.cpus.items }
{
    let mut seats = seats.into_iter();
    let Some(AnySeat::Control(control)) = seats.next() else {
        unreachable!();
    };
    for seat in seats {
        match seat {
            AnySeat::Cpu(cpu) => cpus.push_reserved(cpu),
            AnySeat::Control(_) | AnySeat::Traced(_) => unreachable!(),
        }
    }
    Ended { control, cpus }
}
