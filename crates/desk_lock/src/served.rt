//! What is served, and the names by which contracts know it on both sides of the lock.

ghost use Rattle.std.specs.Prelude.{ℕ, List, ◌≡◌, ◌<◌, [], ◌∷◌, ◌++◌, length, slice_index};
ghost use Rattle.desk_lock.specs.Journals.{done_of, pair};

use std::marker::Brand;
use std::sync::Wait;

/// An item of a lane, in a list of those that were served.
#[derive(Clone, Copy, PartialEq, Eq)]
pub struct Served1 {
    /// The lane, from 0.
    pub lane: u32,
    /// The number of the item among those of its lane, from 0.
    pub item: u32,
}

/// A value that serves the items of lanes, one at a time. Contracts see what it has served so far, and
/// two things that serving never changes.
pub trait Served {
    ghost use Rattle.std.specs.Prelude.{ℕ, List};
    ghost use Rattle.desk_lock.specs.declared.served.Served1.{Served1};

    /// How many items each lane has.
    ghost counts: { Self → List ℕ };

    /// Which value it is.
    ghost name: { Self → List ℕ };

    /// What it has served so far, in order.
    ghost served: { Self → List Served1 };

    /// Serves the next item of a lane, which isn't past the lane's last one. It takes no memory, since
    /// the value has its room from its making. It may wait.
    fn serve<W: Wait>(&mut self, rt: &W, lane: u32, item: u32)
        requires lane { lane < length (counts self.old) }
        requires next { item ≡ done_of lane (served self.old) }
        requires below { item < slice_index (counts self.old) lane }
        ensures counts { counts self.new ≡ counts self.old }
        ensures name { name self.new ≡ name self.old }
        ensures served { served self.new ≡ served self.old ++ pair lane item ∷ [] };
}

/// What the turns of one start, their seats and the value are known by. A contract can't follow a value
/// through a lock; what is said by these names holds on both sides of it. Each call of a program picks
/// its own.
pub trait LaneNames {
    /// How many items each lane has.
    ghost counts: { List ℕ };

    /// Which value is served.
    ghost name: { List ℕ };
}

impl LaneNames for Brand {
    ghost counts = { [] };

    ghost name = { [] };
}
