//! What is under the lock.

ghost use Rattle.std.specs.Prelude.{ℕ, ◌≡◌, ◌≢◌, ◌<◌, ◌↔◌, [], ◌∷◌, ◌++◌, length, slice_index, IsTrue};
ghost use Rattle.std.specs.Bool.{OnTrue, OnFalse};
ghost use Rattle.desk_lock.specs.Journals.{done_of, next_of};

use crate::lane::Lane;
use crate::served::{LaneNames, Served, Served1};
use std::marker::{Model, PhantomData};
use std::sync::Wait;

/// The value, and the journal of what it has served. Contracts see both. Whoever takes the lock finds
/// the journal to be the value's own list, with each lane's items in order.
#[derive(Drop)]
pub struct Locked<T: Served, N: LaneNames> {
    pub(crate) value: T,
    pub(crate) lanes: Vec<Lane>,
    pub(crate) journal: Vec<Served1>,
    pub(crate) of: PhantomData<N>,
}

impl<T: Served, N: LaneNames> Model for Locked<T, N> {
    ghost use Rattle.std.specs.Prelude.{vec_capacity};
    ghost use Rattle.desk_lock.specs.LockInvariant.{LockView, LockInvariant};

    ghost Value = { LockView T };

    ghost view = { λ s. record { value = s.value; journal = s.journal.items } };

    ghost invariant = { λ s. LockInvariant N.counts N.name (T.counts s.value) (T.name s.value) (T.served s.value) s.journal.items s.lanes.items (vec_capacity s.journal) };
}

impl<T: Served, N: LaneNames> Locked<T, N> {
    /// Serves the next item of a lane, and notes it in the journal. False exactly if the journal has all
    /// items of the lane, and then nothing changes. It takes no memory.
    pub fn advance<W: Wait>(&mut self, rt: &W, lane: u32) -> bool
        requires { lane < length N.counts }
        ensures left { IsTrue result ↔ (done_of lane self.old.journal < slice_index N.counts lane) }
        ensures served { OnTrue result (self.new.journal ≡ self.old.journal ++ next_of lane self.old.journal ∷ []) }
        ensures all { OnFalse result (done_of lane self.old.journal ≡ slice_index N.counts lane) }
        ensures none { OnFalse result (self.new ≡ self.old) }
    {
        let Lane { count, next } = self.lanes[lane as usize];
        if next == count {
            return false;
        }
        self.value.serve(rt, lane, next);
        self.lanes[lane as usize].next = next + 1;
        self.journal.push_reserved(Served1 { lane, item: next });
        true
    }

    /// Serves what is left of a lane.
    fn advance_lane<W: Wait>(&mut self, rt: &W, lane: u32)
        requires { lane < length N.counts }
        ensures whole { done_of lane self.new.journal ≡ slice_index N.counts lane }
        ensures others { (m : ℕ) → m ≢ lane → done_of m self.new.journal ≡ done_of m self.old.journal }
    {
        let mut left = true;
        while left {
            left = self.advance(rt, lane);
        }
    }

    /// Serves what is left, lane by lane.
    pub(crate) fn advance_all<W: Wait>(&mut self, rt: &W)
        ensures { (l : ℕ) → l < length N.counts → done_of l self.new.journal ≡ slice_index N.counts l }
    {
        for lane in 0..self.lanes.len() {
            self.advance_lane(rt, lane as u32);
        }
    }
}
