//! The ring of a CPU.

ghost use Rattle.std.specs.Prelude.{◌≡◌, ◌<◌, ◌^◌, length, slice_index, IfOk};
ghost use Rattle.ring_rules.specs.Gathered.{empty_box, written_box};

use circular_buffer::HeapCircularBuffer;
use ft_base::NoMemory;
use std::alloc::Global;
use std::marker::Model;

/// A ring, with the number of places that were written into it.
#[derive(Drop)]
pub struct CpuRing {
    held: HeapCircularBuffer<u32>,
    written: u32,
}

impl Model for CpuRing {
    ghost use Rattle.std.specs.Prelude.{◌<◌, ◌^◌};
    ghost use Rattle.ring_rules.specs.Gathered.{RingBox};

    ghost Value = { RingBox };

    ghost view = { λ r. record { ring = record { written = r.written; held = r.held.items }; most = r.held.capacity } };

    ghost invariant = { λ r. r.held.capacity < 2 ^ 32 };
}

impl CpuRing {
    /// An empty ring that holds so many places. The error says that memory ran out.
    pub fn new(alloc: Global, most: u32) -> Result<CpuRing, NoMemory>
        ensures { IfOk result (λ r. r ≡ empty_box most) }
    {
        let held = HeapCircularBuffer::with_capacity(alloc, most as usize).map_err(|_| NoMemory)?;
        Ok(CpuRing { held, written: 0 })
    }

    /// Writes one more place. If the ring is full, it takes the room of the oldest.
    pub fn write(&mut self, place: u32)
        requires { self.old.ring.written < 4294967295 }
        ensures { self.new ≡ written_box place self.old }
    {
        self.held.push_back(place);
        self.written += 1;
    }

    /// How many places were written.
    pub fn written(&self) -> u32
        ensures { result ≡ self.now.ring.written }
    {
        self.written
    }

    /// How many of them the ring holds, the last ones.
    pub fn held(&self) -> u32
        ensures { result ≡ length self.now.ring.held }
    {
        self.held.len() as u32
    }

    /// The `i`-th place that it holds, the oldest first.
    pub fn entry(&self, i: u32) -> u32
        requires { i < length self.now.ring.held }
        ensures { result ≡ slice_index self.now.ring.held i }
    {
        match self.held.get(i as usize) {
            Some(place) => *place,
            None => 0,
        }
    }
}
