//! Seats that are stepped here, in turn.

ghost use Rattle.std.specs.Prelude.{◌≡◌, None};
ghost use Rattle.live_seats.specs.AnySeats.{AreAtEnd, AreEndedSeats, AreSameSeats, AreSeatsOf, IsSameSeat, IsSeatOf, next_of, tables};
ghost use Rattle.live_seats.specs.Seatings.{own_seats};

use crate::pace::Pace;
use crate::passing::Passing;
use crate::seat::{AnySeat, step_seat};
use ft_io::OpenGate;
use live_table::{Going, Live};
use ring_table::RingTable;
use std::sync::Wait;

/// A seat that is stepped here, in turn with others.
#[derive(Drop)]
pub struct HereSeat {
    /// The seat.
    pub seat: AnySeat,
    /// The number of its steps so far.
    pub steps: u64,
    /// Whether it has come to its end, and has passed the gate before the call that found it.
    pub over: bool,
}

impl HereSeat {
    /// A seat that hasn't stepped.
    pub(crate) fn new(seat: AnySeat) -> HereSeat
        ensures { result.seat ≡ seat }
    {
        HereSeat {
            seat,
            steps: 0,
            over: false,
        }
    }

    /// One step, if the seat isn't at its end. It passes the gate before each, and once more before the
    /// call that finds none left.
    pub(crate) fn step<G: Passing>(
        &mut self,
        live: &Live,
        rings: &Option<RingTable>,
        gate: &G,
    ) -> Going
        requires { IsSeatOf (tables live.now rings.now) self.old.seat }
        ensures same { IsSameSeat self.old.seat self.new.seat }
        ensures end { result ≡ Going.End → next_of self.new.seat ≡ None }
    {
        if self.over {
            // This call finds no step again, and no gate has to hear of it a second time.
            return step_seat(live, rings, &OpenGate, self.steps, &mut self.seat);
        }
        let going = step_seat(live, rings, gate, self.steps, &mut self.seat);
        match going {
            Going::More => self.steps = self.steps.saturating_add(1),
            Going::End => self.over = true,
        }
        going
    }
}

/// One step of each seat that isn't at its end. `End` tells that all are.
pub fn step_each<G: Passing>(
    live: &Live,
    rings: &Option<RingTable>,
    gate: &G,
    here: &mut Vec<HereSeat>,
) -> Going
    requires { AreSeatsOf (tables live.now rings.now) (own_seats here.old.items) }
    ensures same { AreSameSeats (own_seats here.old.items) (own_seats here.new.items) }
    ensures end { result ≡ Going.End → AreAtEnd (own_seats here.new.items) }
{
    let mut going = Going::End;
    for i in 0..here.len() {
        going = either(going, here[i].step(live, rings, gate));
    }
    going
}

/// Whether one of two went on.
fn either(going: Going, other: Going) -> Going
    ensures { result ≡ Going.End → (going ≡ Going.End) × (other ≡ Going.End) }
{
    match going {
        Going::More => Going::More,
        Going::End => other,
    }
}

/// How many items the actors of these seats have marked.
fn marked(here: &[HereSeat]) -> usize {
    let mut all: usize = 0;
    for own in here {
        all = all.saturating_add(own.seat.marked());
    }
    all
}

/// Steps the seats in turn until all of them are at their ends. One may wait for another, so none is
/// stepped to its end alone.
pub(crate) fn step_all<R: Wait, G: Passing>(
    rt: &R,
    live: &Live,
    rings: &Option<RingTable>,
    gate: &G,
    here: &mut Vec<HereSeat>,
)
    requires { AreSeatsOf (tables live.now rings.now) (own_seats here.old.items) }
    ensures { AreEndedSeats (own_seats here.old.items) (own_seats here.new.items) }
{
    let mut pace = Pace::new();
    for _ in rt.forever() {
        if step_each(live, rings, gate, here) == Going::End {
            break;
        }
        pace.stepped(marked(here.as_slice()));
    }
}
