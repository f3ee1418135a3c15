//! A value that notes what it serves.

ghost use Rattle.std.specs.Prelude.{◌≡◌, ◌≤◌, [], length, sum, IfOk};
ghost use Rattle.ft_base.specs.declared.limits.TheConstants.{COMMANDS, LANES};

use desk_lock::{Served, Served1};
use ft_base::limits::COMMANDS;
use std::alloc::{AllocError, Global};
use std::marker::Model;
use std::sync::Wait;

/// What was served, with room for all items of all lanes.
#[derive(Drop)]
pub struct Notes {
    counts: Vec<u32>,
    served: Vec<Served1>,
}

impl Model for Notes {
    ghost use Rattle.std.specs.Prelude.{[], vec_capacity};
    ghost use Rattle.desk_lock.specs.LockInvariant.{LockInvariant, lanes_from};
    ghost use Rattle.threads_tests.specs.Noted.{Noted};

    ghost Value = { Noted };

    ghost view = { λ n. record { counts = n.counts.items; served = n.served.items } };

    ghost invariant = { λ n. LockInvariant n.counts.items [] n.counts.items [] n.served.items n.served.items (lanes_from 0 n.counts.items n.served.items) (vec_capacity n.served) };
}

impl Served for Notes {
    ghost use Rattle.std.specs.Prelude.{[]};

    ghost counts = { λ n. n.counts };

    ghost name = { λ n. [] };

    ghost served = { λ n. n.served };

    fn serve<W: Wait>(&mut self, _rt: &W, lane: u32, item: u32) {
        self.served.push_reserved(Served1 { lane, item });
    }
}

impl Notes {
    /// Nothing is served yet.
    pub fn new(alloc: Global, counts: &[u32]) -> Result<Notes, AllocError>
        requires lanes { length counts.now ≤ LANES }
        requires items { sum counts.now ≤ COMMANDS }
        ensures { IfOk result (λ n. (n.counts ≡ counts.now) × (n.served ≡ [])) }
    {
        let served = Vec::with_capacity(alloc, COMMANDS as usize)?;
        let counts = counts.to_vec(alloc)?;
        Ok(Notes { counts, served })
    }

    /// What was served, in order.
    pub fn served(&self) -> &[Served1] {
        self.served.as_slice()
    }
}
