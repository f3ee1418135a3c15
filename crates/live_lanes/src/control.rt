//! Control's seat, to which commands are led.

ghost use Rattle.std.specs.Prelude.{◌≡◌, ◌∷◌, ◌++◌, [], slice_get, Some, None};
ghost use Rattle.ft_base.specs.Job.{Command, Run};
ghost use Rattle.word_machine_laws.specs.Orders.{IsLed};
ghost use Rattle.word_machine.specs.Control.{control_next};
ghost use Rattle.live_table.specs.Seats.{ControlSitsAt, control_at};
ghost use Rattle.live_seats.specs.AnySeats.{AreSameSeats, AreSeatsOf, without_rings};
ghost use Rattle.live_seats.specs.Ends.{IsEndedControl, IsSameControl};
ghost use Rattle.live_seats.specs.Seatings.{own_seats};
ghost use Rattle.live_lanes.specs.Led.{IsLedOn};

use live_seats::{CONTROL, HereSeat, Pace, Passing, step_each};
use live_table::{ControlSeat, Going, Live};
use std::sync::Wait;

/// Control's seat, with the number of its steps so far.
#[derive(Drop)]
pub(crate) struct LedControl {
    pub(crate) seat: ControlSeat,
    pub(crate) steps: u64,
}

impl LedControl {
    /// Leads a command, whose Begin is marked in one step. The gate is passed before it.
    pub(crate) fn lead<G: Passing>(&mut self, live: &Live, gate: &G, command: u32)
        requires control { ControlSitsAt live.now self.old.seat }
        requires ended { control_next self.old.seat.led (control_at self.old.seat) ≡ None }
        requires command { (c : Command) × (slice_get self.old.seat.job.ctls command ≡ Some (Run c)) }
        requires fresh { IsLed self.old.seat.order command → ⊥ }
        ensures { IsLedOn self.old.seat command self.new.seat }
    {
        // The call that found no step left of the command before has passed it for this step.
        if self.steps == 0 {
            gate.let_pass(CONTROL, 0);
        }
        live.lead(&mut self.seat, command);
        self.steps = self.steps.saturating_add(1);
    }

    /// Passes the gate and makes one step, if there is one.
    fn step<G: Passing>(&mut self, live: &Live, gate: &G) -> Going
        requires { ControlSitsAt live.now self.old.seat }
        ensures same { IsSameControl self.old.seat self.new.seat }
        ensures end { result ≡ Going.End → control_next self.new.seat.led (control_at self.new.seat) ≡ None }
    {
        gate.let_pass(CONTROL, self.steps);
        let going = live.control_step(&mut self.seat);
        if going == Going::More {
            self.steps = self.steps.saturating_add(1);
        }
        going
    }

    /// Steps control to its end, in turn with the seats that are here: what control waits for may be
    /// one of theirs to do.
    pub(crate) fn carry_out<W: Wait, G: Passing>(
        &mut self,
        rt: &W,
        live: &Live,
        gate: &G,
        here: &mut Vec<HereSeat>,
    )
        requires control { ControlSitsAt live.now self.old.seat }
        requires here { AreSeatsOf (without_rings live.now) (own_seats here.old.items) }
        ensures control { IsEndedControl self.old.seat self.new.seat }
        ensures here { AreSameSeats (own_seats here.old.items) (own_seats here.new.items) }
    {
        let rings = None;
        let mut pace = Pace::new();
        for _ in rt.forever() {
            if self.step(live, gate) == Going::End {
                break;
            }
            step_each(live, &rings, gate, here);
            pace.stepped(self.seat.items().len());
        }
    }
}
