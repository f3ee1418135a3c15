//! Writing a pair of sets into one copy, and then naming that copy.

ghost use Rattle.std.specs.Prelude.{◌≡◌, suc, ◌*◌, ◌<◌, ◌≤◌, ◌↔◌, option_map, IsSome};
ghost use Rattle.site_set.specs.Marks.{word_of};
ghost use Rattle.filter_hash.specs.Pair.{set_of, size_of};
ghost use Rattle.word_map.specs.Words.{Bits};
ghost use Rattle.word_map.specs.Places.{half_number, words_for};
ghost use Rattle.word_map.specs.Ops.{Store, placed};
ghost use Rattle.hash_pages.specs.Pages.{page_next};

use filter_hash::HashPair;
use ft_base::{Half, UserNo};
use std::marker::Model;
use word_map::{Op, SET_WORDS, WordMap};

/// The writing of a user's sets into one of its two copies, and of the state that names this copy.
/// The caller sees to it that the state doesn't name this copy yet, and that no CPU reads it any more. A
/// CPU that did would find some words of the older sets and some of the newer ones: it could call back a
/// user at a function that neither of them matches, or pass one over that both match.
#[derive(Clone, Copy)]
pub struct PageWriter {
    map: WordMap,
    user: UserNo,
    copy: u8,
    sel: u64,
    stored: u32,
}

impl Model for PageWriter {
    ghost use Rattle.hash_pages.specs.Pages.{Page};
    ghost use Rattle.hash_pages.specs.PageInvariant.{PageInvariant, fields_of, page_of};

    ghost Value = { Page };

    ghost view = { page_of };

    ghost inverse = { fields_of };

    ghost invariant = { PageInvariant };
}

impl PageWriter {
    /// A page before its first store. `copy` is 0 or 1, and `sel` is the user's new state, which names
    /// that copy.
    pub fn new(user: UserNo, copy: u8, sel: u64, map: WordMap) -> PageWriter
        requires user { user.0 < map.users }
        requires copy { copy < 2 }
        ensures { result ≡ record { shape = map; user = user.0; copy = copy; sel = sel; stored = 0 } }
    {
        PageWriter {
            map,
            user,
            copy,
            sel,
            stored: 0,
        }
    }

    /// The next store of a page with these sets, the same at each call: the words of the filter, those
    /// of the notrace set, and the user's state. `None` exactly if all are made.
    pub fn next(&self, pair: &HashPair) -> Option<Op>
        requires { size_of pair.now ≡ self.now.shape.funcs }
        ensures store { result ≡ option_map (placed self.now.shape) (page_next self.now pair.now) }
        ensures more { IsSome result ↔ (self.now.stored ≤ 2 * words_for self.now.shape.funcs) }
    {
        let words = self.words();
        if self.stored < words {
            Some(self.word_store(pair, Half::Filter, self.stored))
        } else if self.stored < 2 * words {
            Some(self.word_store(pair, Half::Notrace, self.stored - words))
        } else if self.stored == 2 * words {
            // The state is stored after all words that it leads to. Stored before them, it would send a
            // CPU to words of older sets: the CPU would call back a user that doesn't want the function,
            // or pass one over that does.
            Some(Op::Store {
                word: self.map.sel(self.user),
                value: self.sel,
            })
        } else {
            None
        }
    }

    /// The store that `next` gave is made.
    pub fn did(&mut self)
        requires { self.old.stored ≤ 2 * words_for self.old.shape.funcs }
        ensures { self.new ≡ record self.old { stored = suc self.old.stored } }
    {
        self.stored += 1;
    }

    /// How many words a set has.
    fn words(&self) -> u32
        ensures words { result ≡ words_for self.now.shape.funcs }
        ensures few { result ≤ SET_WORDS }
    {
        self.map.shape().funcs.div_ceil(64)
    }

    /// The store of a word of one of the two sets.
    fn word_store(&self, pair: &HashPair, half: Half, w: u32) -> Op
        requires size { size_of pair.now ≡ self.now.shape.funcs }
        requires word { w < words_for self.now.shape.funcs }
        ensures { result ≡ placed self.now.shape (Store
            (Bits self.now.user self.now.copy (half_number half) w) (word_of (set_of pair.now half) w)) }
    {
        Op::Store {
            word: self.map.bits(self.user, self.copy, half, w),
            value: pair.word(half, w),
        }
    }
}
