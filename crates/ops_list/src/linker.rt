//! Putting a user on the list, and taking one off it.

ghost use Rattle.std.specs.Prelude.{◌≡◌, ◌<◌};
ghost use Rattle.std.specs.Option.{option_map};
ghost use Rattle.word_map.specs.Ops.{placed};
ghost use Rattle.word_map.specs.Places.{place};
ghost use Rattle.ops_list.specs.Names.{IsUserIn, namer};
ghost use Rattle.ops_list.specs.Links.{link_op, link_after};

use ft_base::UserNo;
use std::marker::Model;
use word_map::name::name_of;
use word_map::{Op, WordMap};

/// Where a change of the list stands: what its next store is.
#[derive(Clone, Copy, PartialEq, Eq)]
pub enum LinkPhase {
    /// The link of a user that is put on the list, which names the first user of the list before.
    Linking(UserNo, Option<UserNo>),
    /// The head of the list, which names the user that is put on it.
    Heading(UserNo),
    /// The link of the user before the one that is taken off, or the head if there is none before.
    /// It names the user after the one that is taken off.
    Unlinking(Option<UserNo>, Option<UserNo>),
    /// Nothing more is stored.
    Ended,
}

/// One change of the list. The list is changed by one at a time. Contracts see the shape of the words,
/// and where the change stands.
#[derive(Clone, Copy)]
pub struct Linker {
    map: WordMap,
    phase: LinkPhase,
}

impl Model for Linker {
    ghost use Rattle.ops_list.specs.Links.{Linked};
    ghost use Rattle.ops_list.specs.LinkUsers.{IsLinkIn};

    ghost Value = { Linked };

    ghost view = { λ s. record { shape = s.map; phase = s.phase } };

    ghost inverse = { λ v. record { map = v.shape; phase = v.phase } };

    ghost invariant = { λ s. IsLinkIn s.map s.phase };
}

impl Linker {
    /// Puts a user in front of the list. It is not on the list, and `first` is the user at the head
    /// of the list.
    pub fn push(user: UserNo, first: Option<UserNo>, map: WordMap) -> Linker
        requires user { user.0 < map.users }
        requires first { IsUserIn map first }
        ensures { result ≡ record { shape = map; phase = LinkPhase.Linking user first } }
    {
        Linker {
            map,
            phase: LinkPhase::Linking(user, first),
        }
    }

    /// Takes the user between these two off the list. `before` is none if that user is the first of
    /// the list, and `after` is none if it is the last.
    pub fn unlink(before: Option<UserNo>, after: Option<UserNo>, map: WordMap) -> Linker
        requires before { IsUserIn map before }
        requires after { IsUserIn map after }
        ensures { result ≡ record { shape = map; phase = LinkPhase.Unlinking before after } }
    {
        Linker {
            map,
            phase: LinkPhase::Unlinking(before, after),
        }
    }

    /// The next store. None once the change is made.
    pub fn next(&self) -> Option<Op>
        ensures { result ≡ option_map (placed self.now.shape) (link_op self.now.phase) }
    {
        match self.phase {
            // Before the head is stored. A walker that comes by the new head would else find the end
            // of the list at this user, and the users after it would miss a call.
            LinkPhase::Linking(user, first) => Some(Op::Store {
                word: self.map.link(user),
                value: name_of(first),
            }),
            LinkPhase::Heading(user) => Some(Op::Store {
                word: self.map.first(),
                value: name_of(Some(user)),
            }),
            // The link of the user that is taken off stays as it is. A walker that stands on that
            // user would else find the end of the list, and the users after it would miss a call.
            LinkPhase::Unlinking(before, after) => Some(Op::Store {
                word: namer_place(&self.map, before),
                value: name_of(after),
            }),
            LinkPhase::Ended => None,
        }
    }

    /// The store was made. Every value fits.
    pub fn got(&mut self, _value: u64)
        ensures { self.new ≡ record self.old { phase = link_after self.old.phase } }
    {
        self.phase = match self.phase {
            LinkPhase::Linking(user, _) => LinkPhase::Heading(user),
            LinkPhase::Heading(_) | LinkPhase::Unlinking(_, _) | LinkPhase::Ended => {
                LinkPhase::Ended
            }
        };
    }
}

// The place of the word that names the user after this one.
fn namer_place(map: &WordMap, before: Option<UserNo>) -> u32
    requires { IsUserIn map.now before }
    ensures { result ≡ place map.now (namer before) }
{
    match before {
        None => map.first(),
        Some(user) => map.link(user),
    }
}
