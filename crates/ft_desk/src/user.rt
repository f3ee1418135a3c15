//! A user on the desk.

ghost use Rattle.std.specs.Prelude.{◌≡◌, ◌+◌, ◌<◌, ◌^◌, IfOk, is_some, length};
ghost use Rattle.filter_hash.specs.Pair.{size_of};
ghost use Rattle.site_set.specs.Edits.{plain_edit};
ghost use Rattle.ft_desk.specs.Users.{declared_as, edited_user, enrolled, retired, state_of};
ghost use Rattle.word_map.specs.Contents.{digit, sel_of};

use filter_hash::HashPair;
use ft_base::{FuncNo, Half, Kind, NoMemory};
use site_set::Edit;
use std::alloc::Global;
use user_specs::Spec;
use word_map::Sel;

/// A user: what of its declaration the desk needs, and its state.
#[derive(Drop)]
pub(crate) struct User {
    pub(crate) kind: Kind,
    /// Whether its callbacks are given the registers.
    pub(crate) regs: bool,
    /// The function that runs in the place of those that it traces, if it replaces them.
    pub(crate) ipmodify: Option<FuncNo>,
    pub(crate) registered: bool,
    /// Its registration number: how often it was registered.
    pub(crate) reg: u32,
    /// The number of the command that registered it last.
    pub(crate) since: u32,
    pub(crate) enabled: bool,
    /// Its two sets.
    pub(crate) pair: HashPair,
    /// Its trampoline slot.
    pub(crate) slot: Option<u8>,
    /// Whether the second of the two copies of its sets in the shared words is in use.
    pub(crate) second: bool,
}

impl User {
    /// A user that was never registered, with two empty sets of functions below `funcs`.
    pub(crate) fn new(alloc: Global, spec: &Spec, funcs: u32) -> Result<User, NoMemory>
        ensures { IfOk result (λ user. user ≡ declared_as funcs spec.now) }
    {
        let pair = HashPair::new(alloc, funcs)?;
        Ok(User {
            kind: spec.kind,
            regs: spec.regs,
            ipmodify: spec.ipmodify,
            registered: false,
            reg: 0,
            since: 0,
            enabled: false,
            pair,
            slot: None,
            second: false,
        })
    }

    /// Whether it replaces functions.
    pub(crate) fn modifies(&self) -> bool
        ensures { result ≡ is_some self.now.ipmodify }
    {
        self.ipmodify.is_some()
    }

    /// Its state as a word, which names the copy of its sets that is in use.
    pub(crate) fn sel(&self) -> u64
        ensures { result ≡ sel_of (state_of self.now) (digit self.now.second) }
    {
        let state = Sel {
            reg: self.reg,
            registered: self.registered,
            enabled: self.enabled,
            copy: u8::from(self.second),
            empty: self.pair.is_open(),
        };
        state.word()
    }

    /// It is registered by a command of this number, and has this slot. Its sets are written into the
    /// copy that wasn't in use.
    pub(crate) fn enroll(&mut self, since: u32, slot: Option<u8>)
        requires { self.old.reg + 1 < 2 ^ 32 }
        ensures { self.new ≡ enrolled since slot self.old }
    {
        self.registered = true;
        self.reg += 1;
        self.since = since;
        self.enabled = true;
        self.slot = slot;
        self.second = !self.second;
    }

    /// One of its sets is edited. If it is registered, its sets are written into the copy that wasn't
    /// in use.
    pub(crate) fn edit(&mut self, half: Half, edit: &Edit)
        requires { length edit.now.set ≡ size_of self.old.pair }
        ensures { self.new ≡ edited_user half (plain_edit edit.now) self.old }
    {
        self.pair.edit(half, edit);
        self.second = self.second != self.registered;
    }

    /// It is unregistered, and has no slot any more.
    pub(crate) fn retire(&mut self)
        ensures { self.new ≡ retired self.old }
    {
        self.registered = false;
        self.slot = None;
    }
}
