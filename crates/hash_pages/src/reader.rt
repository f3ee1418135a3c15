//! Asking by the words whether a user is on at a function.

ghost use Rattle.std.specs.Prelude.{◌≡◌, false, ◌/◌, ◌<◌, ◌↔◌, option_map, IsSome};
ghost use Rattle.word_map.specs.Words.{Bits};
ghost use Rattle.word_map.specs.Places.{half_number};
ghost use Rattle.word_map.specs.Ops.{Load, placed};
ghost use Rattle.hash_pages.specs.Reads.{read_by, read_got, read_next, sets_read, state_read, verdict_of};
ghost use Rattle.hash_pages.specs.ReadInvariant.{IsPhase};

use ft_base::{FuncNo, Half, UserNo};
use std::marker::Model;
use word_map::bits::has_function;
use word_map::{Op, Sel, WordMap};

/// What a read finds.
#[derive(Clone, Copy, PartialEq, Eq)]
pub enum Verdict {
    /// Nothing yet: the read has not ended.
    Open,
    /// The user is not registered, or not enabled.
    Off,
    /// The user is on, but its sets don't match the function.
    Apart,
    /// The user is on at the function, under this registration number.
    On { reg: u32 },
}

/// Where a read stands.
#[derive(Clone, Copy, PartialEq, Eq)]
pub enum ReadPhase {
    /// Before the load of the user's state.
    AtSel,
    /// Before the load of the filter's word, in this copy; with the user's registration number.
    AtFilter(u8, u32),
    /// Before the load of the notrace set's word, in this copy; with the user's registration number.
    AtNotrace(u8, u32),
    /// At its end.
    Ended(Verdict),
}

/// A read: whether a user is on at a function.
#[derive(Clone, Copy)]
pub struct PageReader {
    map: WordMap,
    user: UserNo,
    func: FuncNo,
    phase: ReadPhase,
}

impl Model for PageReader {
    ghost use Rattle.hash_pages.specs.Reads.{Read};
    ghost use Rattle.hash_pages.specs.ReadInvariant.{ReadInvariant, fields_of, read_of};

    ghost Value = { Read };

    ghost view = { read_of };

    ghost inverse = { fields_of };

    ghost invariant = { ReadInvariant };
}

impl PageReader {
    /// A read before its first load.
    pub fn new(user: UserNo, f: FuncNo, map: WordMap) -> PageReader
        requires user { user.0 < map.users }
        requires func { f.0 < map.funcs }
        ensures { result ≡ record { shape = map; user = user.0; func = f.0; phase = ReadPhase.AtSel } }
    {
        PageReader {
            map,
            user,
            func: f,
            phase: ReadPhase::AtSel,
        }
    }

    /// The next load, the same at each call. `None` exactly at the end.
    pub fn next(&self) -> Option<Op>
        ensures { result ≡ option_map (placed self.now.shape) (read_next self.now) }
    {
        match self.phase {
            ReadPhase::AtSel => Some(Op::Load {
                word: self.map.sel(self.user),
            }),
            ReadPhase::AtFilter(copy, _) => Some(self.word_load(copy, Half::Filter)),
            ReadPhase::AtNotrace(copy, _) => Some(self.word_load(copy, Half::Notrace)),
            ReadPhase::Ended(_) => None,
        }
    }

    /// The load that `next` gave is made, and the word held this value. At the end nothing changes.
    pub fn got(&mut self, value: u64)
        ensures { self.new ≡ read_got self.old value }
    {
        self.phase = match self.phase {
            ReadPhase::AtSel => after_state(value),
            ReadPhase::AtFilter(copy, reg) => {
                if has_function(value, self.func) {
                    ReadPhase::AtNotrace(copy, reg)
                } else {
                    ReadPhase::Ended(Verdict::Apart)
                }
            }
            ReadPhase::AtNotrace(_, reg) => {
                if !has_function(value, self.func) {
                    ReadPhase::Ended(Verdict::On { reg })
                } else {
                    ReadPhase::Ended(Verdict::Apart)
                }
            }
            ReadPhase::Ended(verdict) => ReadPhase::Ended(verdict),
        };
    }

    /// The same of a user that isn't asked whether it is on: of its state only the copy, the empty filter
    /// and the number are looked at.
    pub fn got_unasked(&mut self, value: u64)
        ensures { self.new ≡ read_by false self.old value }
    {
        match self.phase {
            ReadPhase::AtSel => self.phase = at_sets(Sel::of(value)),
            _ => self.got(value),
        }
    }

    /// What the read has found.
    pub fn verdict(&self) -> Verdict
        ensures found { result ≡ verdict_of self.now.phase }
        ensures open { (result ≡ Verdict.Open) ↔ IsSome (read_next self.now) }
    {
        match self.phase {
            ReadPhase::Ended(verdict) => verdict,
            _ => Verdict::Open,
        }
    }

    /// The load of the word that has the function, of one of the two sets.
    fn word_load(&self, copy: u8, half: Half) -> Op
        requires { copy < 2 }
        ensures { result ≡ placed self.now.shape
            (Load (Bits self.now.user copy (half_number half) (self.now.func / 64))) }
    {
        Op::Load {
            word: self.map.bits(self.user, copy, half, self.func.0 / 64),
        }
    }
}

/// Where a read stands after the load of a user's state.
fn after_state(value: u64) -> ReadPhase
    ensures phase { result ≡ state_read value }
    ensures kept { IsPhase result }
{
    let state = Sel::of(value);
    if !state.is_on() {
        return ReadPhase::Ended(Verdict::Off);
    }
    at_sets(state)
}

/// Before the first set of a user in this state.
fn at_sets(state: Sel) -> ReadPhase
    requires { state.copy < 2 }
    ensures phase { result ≡ sets_read state }
    ensures kept { IsPhase result }
{
    // The copy and the number come from this one load. With a load of the state before each of the two
    // sets, the filter could be that of one command and the notrace set that of the next: the user
    // could be called back at a function that it never wanted, and under a number of another time.
    if state.empty {
        ReadPhase::AtNotrace(state.copy, state.reg)
    } else {
        ReadPhase::AtFilter(state.copy, state.reg)
    }
}
