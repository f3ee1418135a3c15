//! What the lanes take turns at.

ghost use Rattle.std.specs.Prelude.{◌≡◌, length};
ghost use Rattle.live_seats.specs.Seatings.{own_seats};
ghost use Rattle.live_lanes.specs.Conducted.{IsConducted};

use crate::control::LedControl;
use crate::counts::command_of;
use desk_lock::{LaneNames, Served};
use live_seats::{HereSeat, Passing};
use live_table::{ControlSeat, Live};
use std::marker::{Brand, Model, PhantomData};
use std::sync::Wait;

/// Names the table at which commands are led, and the seats that are stepped in turn with control's.
/// Each call of a program picks them.
pub(crate) trait TableNames: LaneNames {
    ghost use Rattle.std.specs.Prelude.{List};
    ghost use Rattle.live_table.specs.Seats.{Board};
    ghost use Rattle.live_seats.specs.declared.seat.AnySeat.{AnySeat};

    /// The table, and its job.
    ghost board: { Board };

    /// The CPUs' seats, as they were given.
    ghost here: { List AnySeat };
}

impl TableNames for Brand {
    ghost use Rattle.std.specs.Prelude.{[]};
    ghost use Rattle.live_lanes.specs.Conducted.{no_board};

    ghost board = { no_board };

    ghost here = { [] };
}

/// Control, at its end, with the seats of the CPUs that have no thread. Its name is the numbers of
/// these.
#[derive(Drop)]
pub(crate) struct Conductor<'a, G: Passing, N: TableNames> {
    pub(crate) live: &'a Live,
    pub(crate) gate: &'a G,
    /// The lane of each command.
    pub(crate) lanes: &'a [u32],
    pub(crate) control: LedControl,
    pub(crate) here: Vec<HereSeat>,
    pub(crate) of: PhantomData<N>,
}

impl<'a, G: Passing, N: TableNames> Model for Conductor<'a, G, N> {
    ghost use Rattle.live_seats.specs.Seatings.{own_seats};
    ghost use Rattle.live_lanes.specs.Conducted.{Conducted, IsConducted};

    ghost Value = { Conducted };

    ghost view = { λ c. record { lanes = c.lanes.now; control = c.control.seat; here = own_seats c.here.items } };

    ghost invariant = { λ c. IsConducted N.board N.counts N.name N.here c.live.now c.lanes.now c.control.seat (own_seats c.here.items) };
}

impl<'a, G: Passing, N: TableNames> Served for Conductor<'a, G, N> {
    ghost use Rattle.live_lanes.specs.Conducted.{actors_of};
    ghost use Rattle.live_lanes.specs.LaneItems.{as_items};

    ghost counts = { λ c. N.counts };

    ghost name = { λ c. actors_of c.here };

    ghost served = { λ c. as_items c.lanes c.control.order };

    fn serve<W: Wait>(&mut self, rt: &W, lane: u32, item: u32) {
        let command = command_of(self.lanes, lane, item);
        self.control.lead(self.live, self.gate, command);
        self.control
            .carry_out(rt, self.live, self.gate, &mut self.here);
    }
}

impl<'a, G: Passing, N: TableNames> Conductor<'a, G, N> {
    /// Changes nothing: what it keeps.
    pub(crate) fn keeps(&self)
        ensures { IsConducted N.board N.counts N.name N.here N.board self.now.lanes self.now.control self.now.here }
    {
        let _lanes = self.lanes;
    }

    /// How many commands there are.
    pub(crate) fn commands(&self) -> usize
        ensures { result ≡ length self.now.lanes }
    {
        self.lanes.len()
    }

    /// Its seats.
    pub(crate) fn into_seats(self) -> (ControlSeat, Vec<HereSeat>)
        ensures { (result.0 ≡ self.entry.control) × (own_seats result.1.items ≡ self.entry.here) }
    {
        let Conductor {
            live: _,
            gate: _,
            lanes: _,
            control,
            here,
            of: _,
        } = self;
        (control.seat, here)
    }
}
