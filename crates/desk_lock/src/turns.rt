//! Turns of lanes at a value under a lock.

ghost use Rattle.std.specs.Prelude.{◌≡◌, ◌<◌, ◌≤◌, ◌↔◌, [], length, sum, IsTrue, IfOk, IfErr};
ghost use Rattle.std.specs.Bool.{OnTrue, OnFalse};
ghost use Rattle.ft_base.specs.declared.limits.TheConstants.{COMMANDS, LANES};
ghost use Rattle.desk_lock.specs.LockInvariant.{one_more, seats_from};
ghost use Rattle.desk_lock.specs.Journals.{IsMerge};

use crate::lane::{first_lanes, total};
use crate::locked::Locked;
use crate::seat::{LaneSeat, first_seats};
use crate::served::{LaneNames, Served, Served1};
use std::alloc::Global;
use std::marker::PhantomData;
use std::sync::{Mutex, Wait};

/// A value under a lock, at which lanes take turns. Threads share it by reference.
#[derive(Drop)]
pub struct Turns<T: Served, N: LaneNames> {
    locked: Mutex<Locked<T, N>>,
}

/// Turns before the first one is taken.
#[derive(Drop)]
pub struct TurnStart<T: Served, N: LaneNames> {
    /// The turns.
    pub turns: Turns<T, N>,
    /// A seat for each lane, in the lanes' order.
    pub seats: Vec<LaneSeat<N>>,
}

/// What is there once all items are served.
#[derive(Drop)]
pub struct Finished<T> {
    /// The value.
    pub value: T,
    /// What it has served, in order.
    pub journal: Vec<Served1>,
}

impl<T: Served, N: LaneNames> Turns<T, N> {
    /// Turns at a value that has served nothing yet. The error says that memory ran out, and hands the
    /// value back. It takes all memory that the turns need.
    pub fn new(alloc: Global, value: T, counts: &[u32]) -> Result<TurnStart<T, N>, T>
        requires counts { (counts.now ≡ N.counts) × (T.counts value ≡ N.counts) }
        requires name { T.name value ≡ N.name }
        requires fresh { T.served value ≡ [] }
        requires lanes { length counts.now ≤ LANES }
        requires items { sum counts.now ≤ COMMANDS }
        ensures seats { IfOk result (λ s. s.seats.items ≡ seats_from 0 N.counts) }
        ensures err { IfErr result (λ v. v ≡ value) }
    {
        let Ok(journal) = Vec::with_capacity(alloc, total(counts) as usize) else {
            return Err(value);
        };
        let Ok(lanes) = first_lanes(alloc, counts) else {
            return Err(value);
        };
        let Ok(seats) = first_seats::<N>(alloc, counts) else {
            return Err(value);
        };
        let locked = Locked {
            value,
            lanes,
            journal,
            of: PhantomData,
        };
        Ok(TurnStart {
            turns: Turns {
                locked: Mutex::new(locked),
            },
            seats,
        })
    }

    /// A turn of the seat's lane: its next item is served, with the lock held for all of it. False
    /// exactly if the seat has had all of its turns, and then nothing is done. It may wait.
    pub fn turn<W: Wait>(&self, rt: &W, seat: &mut LaneSeat<N>) -> bool
        ensures left { IsTrue result ↔ (seat.old.done < seat.old.count) }
        ensures taken { OnTrue result (seat.new ≡ one_more seat.old) }
        ensures all { OnFalse result (seat.old.done ≡ seat.old.count) }
        ensures none { OnFalse result (seat.new ≡ seat.old) }
    {
        if seat.done == seat.count {
            return false;
        }
        // It answers true, since no other seat is of this lane. No clause says so, and none needs it.
        self.locked.lock(rt).advance(rt, seat.lane);
        seat.done += 1;
        true
    }

    /// Serves what is left, lane by lane, and gives the value and the journal. It may wait, since
    /// serving may.
    pub fn finish<W: Wait>(self, rt: &W) -> Finished<T>
        ensures counts { T.counts result.value ≡ N.counts }
        ensures name { T.name result.value ≡ N.name }
        ensures served { T.served result.value ≡ result.journal.items }
        ensures merge { IsMerge N.counts result.journal.items }
    {
        let mut locked = self.locked.into_inner();
        locked.advance_all(rt);
        let Locked {
            value,
            lanes: _,
            journal,
            of: _,
        } = locked;
        Finished { value, journal }
    }
}
