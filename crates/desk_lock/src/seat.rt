//! The lanes' seats.

ghost use Rattle.std.specs.Prelude.{◌≡◌, ◌≤◌, length, IfOk};
ghost use Rattle.ft_base.specs.declared.limits.TheConstants.{LANES};
ghost use Rattle.desk_lock.specs.LockInvariant.{seats_from};

use crate::served::LaneNames;
use std::alloc::{AllocError, Global};
use std::marker::{Model, PhantomData};

/// A lane's right to take its turns, which one thread at a time has. By its names it is for the turns
/// that were made with it. Contracts see the lane, how many items it has, and how many turns were taken
/// with this seat.
#[derive(Drop)]
pub struct LaneSeat<N: LaneNames> {
    pub(crate) lane: u32,
    pub(crate) count: u32,
    pub(crate) done: u32,
    pub(crate) of: PhantomData<N>,
}

impl<N: LaneNames> Model for LaneSeat<N> {
    ghost use Rattle.desk_lock.specs.LockInvariant.{LanePlace, IsSeat};

    ghost Value = { LanePlace };

    ghost view = { λ s. record { lane = s.lane; count = s.count; done = s.done } };

    ghost invariant = { λ s. IsSeat N.counts (record { lane = s.lane; count = s.count; done = s.done }) };
}

impl<N: LaneNames> LaneSeat<N> {
    /// The lane.
    pub fn lane(&self) -> u32
        ensures { result ≡ self.now.lane }
    {
        self.lane
    }

    /// How many turns were taken.
    pub fn done(&self) -> u32
        ensures { result ≡ self.now.done }
    {
        self.done
    }
}

/// A seat for each lane, before its first turn. The error says that memory ran out.
pub(crate) fn first_seats<N: LaneNames>(
    alloc: Global,
    counts: &[u32],
) -> Result<Vec<LaneSeat<N>>, AllocError>
    requires { (counts.now ≡ N.counts) × (length counts.now ≤ LANES) }
    ensures { IfOk result (λ v. v.items ≡ seats_from 0 N.counts) }
{
    let mut seats = Vec::with_capacity(alloc, counts.len())?;
    for lane in 0..counts.len() {
        seats.push_reserved(LaneSeat {
            lane: lane as u32,
            count: counts[lane],
            done: 0,
            of: PhantomData,
        });
    }
    Ok(seats)
}
