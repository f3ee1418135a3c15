//! A CPU whose items are offered to a ring.

ghost use Rattle.std.specs.Prelude.{◌≡◌, None};
ghost use Rattle.word_machine.specs.Cpu.{cpu_next};
ghost use Rattle.live_table.specs.Seats.{SitsAt, cpu_at};
ghost use Rattle.ring_table.specs.Seats.{SitsAt as SitsAtRings};
ghost use Rattle.live_seats.specs.Ends.{IsSameCpu};
ghost use Rattle.live_seats.specs.Traced.{IsTraced, ring_name};

use ft_base::CpuNo;
use live_table::{CpuSeat, Going, Live};
use ring_table::{RingSeat, RingTable};
use std::marker::Model;

/// A CPU's seat, and its seat at the rings, which was offered exactly what the CPU has marked.
#[derive(Drop)]
pub struct TracedSeat {
    cpu: CpuSeat,
    ring: RingSeat,
}

impl Model for TracedSeat {
    ghost use Rattle.live_seats.specs.Traced.{IsTraced, TracedPlace};

    ghost Value = { TracedPlace };

    ghost view = { λ s. record { cpu = s.cpu; ring = s.ring } };

    ghost invariant = { λ s. IsTraced record { cpu = s.cpu; ring = s.ring } };
}

impl TracedSeat {
    /// The two seats of a CPU.
    pub fn new(cpu: CpuSeat, ring: RingSeat) -> TracedSeat
        requires { IsTraced record { cpu = cpu; ring = ring } }
        ensures { result ≡ record { cpu = cpu; ring = ring } }
    {
        TracedSeat { cpu, ring }
    }

    /// The CPU's number.
    pub(crate) fn number(&self) -> CpuNo
        ensures { result.0 ≡ self.now.cpu.number }
    {
        self.cpu.number()
    }

    /// How many items the CPU has marked.
    pub(crate) fn marked(&self) -> usize {
        self.cpu.items().len()
    }

    /// One step of the CPU, and then its item, if it marked one, is offered to the ring. Another CPU's
    /// item may have a later place and be offered before it. The call that finds no step left offers
    /// nothing: the last item was offered when it was marked.
    pub(crate) fn step(&mut self, live: &Live, rings: &RingTable) -> Going
        requires live { SitsAt live.now self.old.cpu }
        requires rings { SitsAtRings rings.now self.old.ring }
        ensures same { IsSameCpu self.old.cpu self.new.cpu }
        ensures end { result ≡ Going.End → cpu_next self.new.cpu.job (cpu_at self.new.cpu) ≡ None }
        ensures ring { ring_name self.new.ring ≡ ring_name self.old.ring }
    {
        match live.cpu_step(&mut self.cpu) {
            Going::End => Going::End,
            Going::More => {
                // For its contract alone: the places increase, and the ring has room for all items.
                let _items = self.cpu.items();
                if let Some(item) = self.cpu.last() {
                    rings.offer(&mut self.ring, item);
                }
                Going::More
            }
        }
    }

    /// The two seats apart.
    pub fn into_seats(self) -> (CpuSeat, RingSeat)
        ensures seats { (result.0 ≡ self.cpu) × (result.1 ≡ self.ring) }
        ensures traced { IsTraced self }
    {
        let TracedSeat { cpu, ring } = self;
        (cpu, ring)
    }
}
