//! What seats have made, put together.

ghost use Rattle.std.specs.Prelude.{◌≡◌, ◌<◌, ◌∷◌, ◌++◌, [], length, IfOk};
ghost use Rattle.ring_rules.specs.Gathered.{AreFew, all_fired, lists_of};

use ft_base::NoMemory;
use ring_rules::{CpuRing, Rings};
use std::alloc::Global;
use std::marker::Model;

/// The rings of seats in order, and the places at which triggers fired for each. There is room for
/// those of so many seats.
#[derive(Drop)]
pub(crate) struct Collected {
    rings: Vec<CpuRing>,
    fired: Vec<Vec<Vec<u32>>>,
    room: usize,
}

impl Model for Collected {
    ghost use Rattle.std.specs.Prelude.{◌≡◌, ◌≤◌, vec_capacity, vec_len};
    ghost use Rattle.ring_rules.specs.Gathered.{part_lists, rings_in};
    ghost use Rattle.ring_table.specs.Seats.{Shares};

    ghost Value = { Shares };

    ghost view = { λ c. record { rings = rings_in c.rings.items; fired = part_lists c.fired.items; room = c.room } };

    ghost invariant = { λ c. (vec_len c.rings ≡ vec_len c.fired) × (c.room ≤ vec_capacity c.rings) × (c.room ≤ vec_capacity c.fired) };
}

impl Collected {
    /// Nothing yet, with room for so many seats. The error says that memory ran out.
    pub(crate) fn with_room(alloc: Global, room: usize) -> Result<Collected, NoMemory>
        ensures { IfOk result (λ c. c ≡ record { rings = []; fired = []; room = room }) }
    {
        let rings = Vec::with_capacity(alloc, room).map_err(|_| NoMemory)?;
        let fired = Vec::with_capacity(alloc, room).map_err(|_| NoMemory)?;
        Ok(Collected { rings, fired, room })
    }

    /// Adds those of one more seat.
    pub(crate) fn push(&mut self, ring: CpuRing, fired: Vec<Vec<u32>>)
        requires { length self.old.rings < self.old.room }
        ensures { self.new ≡ record { rings = self.old.rings ++ ring.ring ∷ []; fired = self.old.fired ++ lists_of fired.items ∷ []; room = self.old.room } }
    {
        self.rings.push_reserved(ring);
        self.fired.push_reserved(fired);
    }

    /// The rings, of so many triggers.
    pub(crate) fn finish(self, triggers: u32) -> Rings
        requires { AreFew triggers self.fired }
        ensures { result ≡ record { cpus = self.rings; fired = all_fired triggers self.fired } }
    {
        Rings::new(self.rings, self.fired, triggers)
    }
}
