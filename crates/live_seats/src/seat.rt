//! A seat of any kind, and its steps up to its end.

ghost use Rattle.std.specs.Prelude.{◌≡◌, ◌≤◌, None};
ghost use Rattle.live_seats.specs.AnySeats.{IsEndedSeat, IsSameSeat, IsSeatOf, actor_of, next_of, tables};

use crate::pace::Pace;
use crate::passing::Passing;
use crate::traced::TracedSeat;
use live_table::{ControlSeat, CpuSeat, Going, Live};
use ring_table::RingTable;
use std::sync::Wait;

/// Control's number, as gates number actors. That of CPU c is c + 1.
pub const CONTROL: u32 = 0;

/// A seat of any kind: control's, or a CPU's, without a ring or with one.
#[derive(Drop)]
pub enum AnySeat {
    /// Control's.
    Control(ControlSeat),
    /// A CPU's without a ring.
    Cpu(CpuSeat),
    /// A CPU's with its seat at the rings.
    Traced(TracedSeat),
}

impl AnySeat {
    /// Its actor, as gates number them.
    fn actor(&self) -> u32
        ensures { actor_of self.now ≤ u32.MAX → result ≡ actor_of self.now }
    {
        match self {
            AnySeat::Control(_) => CONTROL,
            AnySeat::Cpu(seat) => seat.number().0.saturating_add(1),
            AnySeat::Traced(seat) => seat.number().0.saturating_add(1),
        }
    }

    /// How many items its actor has marked.
    pub(crate) fn marked(&self) -> usize {
        match self {
            AnySeat::Control(seat) => seat.items().len(),
            AnySeat::Cpu(seat) => seat.items().len(),
            AnySeat::Traced(seat) => seat.marked(),
        }
    }
}

/// Passes the gate and makes one step, if there is one. `steps` is the number of the seat's steps so far.
pub(crate) fn step_seat<G: Passing>(
    live: &Live,
    rings: &Option<RingTable>,
    gate: &G,
    steps: u64,
    seat: &mut AnySeat,
) -> Going
    requires { IsSeatOf (tables live.now rings.now) seat.old }
    ensures same { IsSameSeat seat.old seat.new }
    ensures end { result ≡ Going.End → next_of seat.new ≡ None }
{
    gate.let_pass(seat.actor(), steps);
    match seat {
        AnySeat::Control(seat) => live.control_step(seat),
        AnySeat::Cpu(seat) => live.cpu_step(seat),
        AnySeat::Traced(seat) => match rings {
            Some(rings) => seat.step(live, rings),
            None => unreachable!(),
        },
    }
}

/// Steps a seat that hasn't stepped until its end.
pub(crate) fn run_seat<R: Wait, G: Passing>(
    rt: &R,
    live: &Live,
    rings: &Option<RingTable>,
    gate: &G,
    mut seat: AnySeat,
) -> AnySeat
    requires { IsSeatOf (tables live.now rings.now) seat }
    ensures { IsEndedSeat seat result }
{
    let mut steps: u64 = 0;
    let mut pace = Pace::new();
    for _ in rt.forever() {
        if step_seat(live, rings, gate, steps, &mut seat) == Going::End {
            break;
        }
        steps = steps.saturating_add(1);
        pace.stepped(seat.marked());
    }
    seat
}
