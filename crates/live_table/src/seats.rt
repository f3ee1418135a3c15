//! The seats of the actors.

ghost use Rattle.std.specs.Prelude.{◌≡◌, ◌≤◌, length, option_map};
ghost use Rattle.word_machine_laws.specs.Led.{in_order};
ghost use Rattle.word_machine_laws.specs.Orders.{AreLed};
ghost use Rattle.word_machine.specs.Laws.{room_on};
ghost use Rattle.live_table.specs.Seats.{IsRising, control_items_at, items_at, last_at};

use crate::view::View;
use atomic_table::Seat;
use control_core::Control;
use cpu_core::Cpu;
use ft_base::{CpuNo, Stamped};
use std::marker::Model;

/// A CPU's seat. Contracts see which seat it is, and the values that its CPU has taken.
#[derive(Drop)]
pub struct CpuSeat {
    pub(crate) seat: Seat<(), View>,
    pub(crate) cpu: Cpu,
    pub(crate) number: CpuNo,
    /// Whether its last step marked an item.
    pub(crate) fresh: bool,
}

impl Model for CpuSeat {
    ghost use Rattle.live_table.specs.Seats.{CpuPlace, CpuSits};
    ghost use Rattle.live_table.specs.Views.{values_of};

    ghost Value = { CpuPlace };

    ghost view = { λ s. record { table_id = s.seat.table_id; id = s.seat.id; job = s.seat.me.0.job; number = s.number.0; values = values_of s.seat.me.0.parts } };

    ghost invariant = { λ s. CpuSits s.seat.me s.number.0 s.cpu s.fresh };
}

impl CpuSeat {
    /// The CPU's number.
    pub fn number(&self) -> CpuNo
        ensures { result.0 ≡ self.now.number }
    {
        self.number
    }

    /// What the CPU has marked so far. The places increase, and there are no more than its calls can
    /// make.
    pub fn items(&self) -> &[Stamped]
        ensures items { result.now ≡ items_at self.now }
        ensures rising { IsRising result.now }
        ensures few { length result.now ≤ room_on self.now.job self.now.number }
    {
        self.cpu.items()
    }

    /// The item that the CPU's last step marked. `None` exactly if that step marked none, or there was
    /// no step. A call that finds no step left is no step.
    pub fn last(&self) -> Option<&Stamped>
        ensures { option_map (λ x. x.now) result ≡ last_at self.now }
    {
        if self.fresh {
            self.cpu.items().last()
        } else {
            None
        }
    }
}

/// Control's seat. Contracts see which seat it is, the job with the lines that were led so far, the
/// numbers of these lines, how many CPUs were split off from the seat, and the values that control has
/// taken.
#[derive(Drop)]
pub struct ControlSeat {
    pub(crate) seat: Seat<(), View>,
    pub(crate) control: Control,
}

impl Model for ControlSeat {
    ghost use Rattle.live_table.specs.Seats.{ControlPlace, ControlSits};
    ghost use Rattle.live_table.specs.Views.{values_of};

    ghost Value = { ControlPlace };

    ghost view = { λ s. record { table_id = s.seat.table_id; id = s.seat.id; job = s.seat.me.0.job; led = s.seat.me.0.led; order = s.control.order; split = s.seat.me.0.split; values = values_of s.seat.me.0.parts } };

    ghost invariant = { λ s. ControlSits s.seat.me s.control };
}

impl ControlSeat {
    /// The numbers of the lines that were led so far, in the order in which they were. Each line of the
    /// job was led once at most.
    pub fn order(&self) -> &[u32]
        ensures order { result.now ≡ self.now.order }
        ensures once { AreLed (length self.now.job.ctls) self.now.order }
        ensures led { self.now.led ≡ in_order self.now.job self.now.order }
    {
        self.control.order()
    }

    /// What control has marked so far. The places increase.
    pub fn items(&self) -> &[Stamped]
        ensures items { result.now ≡ control_items_at self.now }
        ensures rising { IsRising result.now }
    {
        self.control.items()
    }
}
