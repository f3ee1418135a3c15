//! A walk of the list.

ghost use Rattle.std.specs.Prelude.{◌≡◌};
ghost use Rattle.std.specs.Option.{option_map};
ghost use Rattle.word_map.specs.Ops.{placed};
ghost use Rattle.ops_list.specs.Walks.{WalkFits, walk_op, walk_after, walk_at, walk_to};

use ft_base::UserNo;
use std::marker::Model;
use word_map::name::named;
use word_map::{Op, WordMap};

/// Where a walk stands.
#[derive(Clone, Copy, PartialEq, Eq)]
pub enum WalkPhase {
    /// Before the list.
    Starting,
    /// At this user.
    At(UserNo),
    /// After the list.
    Ended,
}

/// One walk of the list, from its head on. The list may change meanwhile. Contracts see the shape of
/// the words, and where the walk stands.
#[derive(Clone, Copy)]
pub struct Walker {
    map: WordMap,
    phase: WalkPhase,
}

impl Model for Walker {
    ghost use Rattle.ops_list.specs.Walks.{Walk, walk_at};
    ghost use Rattle.ops_list.specs.Names.{IsUserIn};

    ghost Value = { Walk };

    ghost view = { λ s. record { shape = s.map; phase = s.phase } };

    ghost inverse = { λ v. record { map = v.shape; phase = v.phase } };

    ghost invariant = { λ s. IsUserIn s.map (walk_at s.phase) };
}

impl Walker {
    /// A walk before its first load.
    pub fn new(map: WordMap) -> Walker
        ensures { result ≡ record { shape = map; phase = WalkPhase.Starting } }
    {
        Walker {
            map,
            phase: WalkPhase::Starting,
        }
    }

    /// The next load. None at the end of the list.
    pub fn next(&self) -> Option<Op>
        ensures { result ≡ option_map (placed self.now.shape) (walk_op self.now.phase) }
    {
        match self.phase {
            WalkPhase::Starting => Some(Op::Load {
                word: self.map.first(),
            }),
            WalkPhase::At(user) => Some(Op::Load {
                word: self.map.link(user),
            }),
            WalkPhase::Ended => None,
        }
    }

    /// The load gave this value. It names a user of the shape, or nobody.
    pub fn got(&mut self, value: u64)
        requires { WalkFits self.old.shape self.old.phase value }
        ensures { self.new ≡ record self.old { phase = walk_after self.old.phase value } }
    {
        self.phase = match self.phase {
            WalkPhase::Starting | WalkPhase::At(_) => phase_at(named(value)),
            WalkPhase::Ended => WalkPhase::Ended,
        };
    }

    /// The user that the walk is at. None before the first load and at the end of the list.
    pub fn at(&self) -> Option<UserNo>
        ensures { result ≡ walk_at self.now.phase }
    {
        match self.phase {
            WalkPhase::At(user) => Some(user),
            WalkPhase::Starting | WalkPhase::Ended => None,
        }
    }
}

// At this user, or at the end if there is none.
fn phase_at(user: Option<UserNo>) -> WalkPhase
    ensures { result ≡ walk_to user }
{
    match user {
        None => WalkPhase::Ended,
        Some(user) => WalkPhase::At(user),
    }
}
