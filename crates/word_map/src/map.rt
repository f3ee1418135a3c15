//! Where each word stands.

ghost use Rattle.std.specs.Prelude.{◌≡◌, ◌-◌, ◌<◌, ◌≤◌, ◌++◌, length, replicate, IfOk, OnOk};
ghost use Rattle.word_map.specs.Words.{Clock, Want, First, Pids, Depth, Head, Tail, Next, Ack, Quiet, Tramp, Link, Sel, Bits};
ghost use Rattle.word_map.specs.Shapes.{IsShape};
ghost use Rattle.word_map.specs.Places.{half_number, len, place, words_for, IsOpening};

use crate::shape::Shape;
use ft_base::limits::FUNCS;
use ft_base::{CpuNo, FuncNo, Half, NoMemory, TaskNo, UserNo};
use site_bytes::{Insn, head_of, tail_of};
use std::alloc::Global;
use std::marker::Model;

/// The places of the words of a shape, from 0 on. A call that is named for a word gives its place.
/// What it is given has to be in the shape: functions, users, CPUs, tasks and trampolines are below
/// their number there.
#[derive(Clone, Copy)]
pub struct WordMap {
    shape: Shape,
}

impl Model for WordMap {
    ghost use Rattle.word_map.specs.declared.shape.Shape.{Shape as PlainShape};
    ghost use Rattle.word_map.specs.Shapes.{IsShape};

    ghost Value = { PlainShape };

    ghost view = { λ m. m.shape };

    ghost inverse = { λ shape. record { shape = shape } };

    ghost invariant = { λ m. IsShape m.shape };
}

/// The words that there is one of: the clock, the request, the first user, the traced tasks, the
/// graph depth.
const SINGLE_WORDS: u32 = 5;

/// The most words that a set has.
pub const SET_WORDS: u32 = FUNCS / 64;

impl WordMap {
    /// The map of a shape, which is within the limits.
    pub fn new(shape: Shape) -> WordMap
        requires { IsShape shape }
        ensures { result ≡ shape }
    {
        WordMap { shape }
    }

    /// The shape: how many there are of each thing.
    pub fn shape(&self) -> Shape
        ensures shape { result ≡ self.now }
        ensures within { IsShape result }
    {
        self.shape
    }

    /// How many words there are. Each place is below it.
    pub fn len(&self) -> u32
        ensures { result ≡ len self.now }
    {
        self.sets() + self.shape.users * 4 * self.set_words()
    }

    /// The clock. Its low half counts the items of the history, its high half those among them that are
    /// the begin or the return of a command.
    pub fn clock(&self) -> u32
        ensures { result ≡ place self.now Clock }
    {
        0
    }

    /// The number of control's last request, 0 before the first.
    pub fn want(&self) -> u32
        ensures { result ≡ place self.now Want }
    {
        1
    }

    /// The user that was registered last: its number plus 1, or 0 if nobody is registered.
    pub fn first(&self) -> u32
        ensures { result ≡ place self.now First }
    {
        2
    }

    /// The tasks that are traced for users with the pid flag: bit `t` is 1 if task `t` is.
    pub fn pids(&self) -> u32
        ensures { result ≡ place self.now Pids }
    {
        3
    }

    /// The graph depth, 0 for no limit.
    pub fn depth(&self) -> u32
        ensures { result ≡ place self.now Depth }
    {
        4
    }

    /// The first byte of the call site of function `f`: that of its instruction, or the breakpoint while
    /// the site is patched.
    pub fn head(&self, f: FuncNo) -> u32
        requires { f.0 < self.now.funcs }
        ensures { result ≡ place self.now (Head f.0) }
    {
        self.heads() + f.0
    }

    /// The other four bytes of the call site of function `f`, as one number, the lowest byte first. They
    /// are the nop's own, or the distance to what is called.
    pub fn tail(&self, f: FuncNo) -> u32
        requires { f.0 < self.now.funcs }
        ensures { result ≡ place self.now (Tail f.0) }
    {
        SINGLE_WORDS + self.shape.funcs + f.0
    }

    /// The instruction that was last put at the call site of function `f`, or that is about to be put
    /// there: 0 for the nop, 1 for a call of the list caller, `2 + s` for a call of trampoline `s`. A
    /// CPU that finds the breakpoint takes it from here.
    pub fn next_word(&self, f: FuncNo) -> u32
        requires { f.0 < self.now.funcs }
        ensures { result ≡ place self.now (Next f.0) }
    {
        SINGLE_WORDS + 2 * self.shape.funcs + f.0
    }

    /// The last request that CPU `c` has seen, or the greatest number of 64 bits once all its tasks have
    /// ended.
    pub fn ack(&self, c: CpuNo) -> u32
        requires { c.0 < self.now.cpus }
        ensures { result ≡ place self.now (Ack c.0) }
    {
        self.acks() + c.0
    }

    /// What task `t` has come to. The high half counts the acts that it has finished. The low half is
    /// the last request at which it was between two acts, or the greatest number of 32 bits once the
    /// task has ended.
    pub fn quiet(&self, t: TaskNo) -> u32
        requires { t.0 < self.now.tasks }
        ensures { result ≡ place self.now (Quiet t.0) }
    {
        self.acks() + self.shape.cpus + t.0
    }

    /// The user of trampoline `s` and its registration number, as `tramp::word` has them, or 0
    /// if the trampoline is free.
    pub fn tramp(&self, s: u8) -> u32
        requires { s < self.now.tramps }
        ensures { result ≡ place self.now (Tramp s) }
    {
        self.tramps() + u32::from(s)
    }

    /// The user that comes after user `u` in the list of registered users, the latest first: its number
    /// plus 1, or 0 if `u` is the last. It stays when `u` is unregistered.
    pub fn link(&self, u: UserNo) -> u32
        requires { u.0 < self.now.users }
        ensures { result ≡ place self.now (Link u.0) }
    {
        self.links() + u.0
    }

    /// The state of user `u`. The high half is its registration number. Bit 0 is 1 if it is registered,
    /// bit 1 if it is enabled, bit 2 if copy 1 of its sets is in use, and bit 3 if its filter is empty.
    pub fn sel(&self, u: UserNo) -> u32
        requires { u.0 < self.now.users }
        ensures { result ≡ place self.now (Sel u.0) }
    {
        self.links() + self.shape.users + u.0
    }

    /// One word of a set of user `u`: of the set that `half` names, in copy `copy`, which is 0 or 1. Bit
    /// `i` is 1 if function `64 * w + i` is in the set. `w` is below the number of functions over 64,
    /// rounded up.
    pub fn bits(&self, u: UserNo, copy: u8, half: Half, w: u32) -> u32
        requires user { u.0 < self.now.users }
        requires copy { copy < 2 }
        requires word { w < words_for self.now.funcs }
        ensures { result ≡ place self.now (Bits u.0 copy (half_number half) w) }
    {
        let part = match half {
            Half::Filter => 0,
            Half::Notrace => 1,
        };
        self.sets() + (u.0 * 4 + u32::from(copy) * 2 + part) * self.set_words() + w
    }

    /// What each word holds at the start, in the order of the places: every call site is the nop, nobody
    /// is registered, no set has a member, and the tasks in `pids` are traced (bit `t` for task `t`).
    /// The error says that memory ran out.
    pub fn opening(&self, alloc: Global, pids: u64) -> Result<Vec<u64>, NoMemory>
        ensures { IfOk result (λ list. IsOpening self.now pids list.items) }
    {
        let tails = self.heads() + self.shape.funcs;
        let mut list = Vec::with_capacity(alloc, self.len() as usize).map_err(|_| NoMemory)?;
        fill_to(&mut list, self.pids(), 0)?;
        fill_to(&mut list, self.depth(), pids)?;
        fill_to(&mut list, self.heads(), 0)?;
        fill_to(&mut list, tails, u64::from(head_of(Insn::Nop)))?;
        // The nop has the same tail at each function.
        let tail = tail_of(FuncNo(0), Insn::Nop);
        fill_to(&mut list, tails + self.shape.funcs, u64::from(tail))?;
        fill_to(&mut list, self.len(), 0)?;
        Ok(list)
    }

    // Where the call sites begin.
    fn heads(&self) -> u32
        ensures place { result ≡ place self.now (Head 0) }
        ensures within { IsShape self.now }
    {
        let _shape = self.shape;
        SINGLE_WORDS
    }

    // Where the requests seen begin.
    fn acks(&self) -> u32
        ensures place { result ≡ place self.now (Ack 0) }
        ensures within { IsShape self.now }
    {
        SINGLE_WORDS + 3 * self.shape.funcs
    }

    // Where the trampolines begin.
    fn tramps(&self) -> u32
        ensures place { result ≡ place self.now (Tramp 0) }
        ensures within { IsShape self.now }
    {
        self.acks() + self.shape.cpus + self.shape.tasks
    }

    // Where the links begin.
    fn links(&self) -> u32
        ensures place { result ≡ place self.now (Link 0) }
        ensures within { IsShape self.now }
    {
        self.tramps() + u32::from(self.shape.tramps)
    }

    // Where the words of sets begin.
    fn sets(&self) -> u32
        ensures place { result ≡ place self.now (Bits 0 0 0 0) }
        ensures within { IsShape self.now }
    {
        self.links() + 2 * self.shape.users
    }

    // How many words a set has.
    fn set_words(&self) -> u32
        ensures words { result ≡ words_for self.now.funcs }
        ensures few { result ≤ SET_WORDS }
    {
        self.shape.funcs.div_ceil(64)
    }
}

// Lengthens a list to `count` words, each new one with this value.
fn fill_to(list: &mut Vec<u64>, count: u32, value: u64) -> Result<(), NoMemory>
    requires { length list.old.items ≤ count }
    ensures { OnOk result
        (list.new.items ≡ list.old.items ++ replicate (count - length list.old.items) value) }
{
    list.resize(count as usize, value).map_err(|_| NoMemory)
}
