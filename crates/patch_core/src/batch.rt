//! The moves of a batch, one at a time.

ghost use Rattle.std.specs.Prelude.{◌≡◌, ◌<◌, ◌≤◌, ◌^◌, ◌+◌, ◌*◌, suc, length, All};
ghost use Rattle.ft_base.specs.declared.limits.TheConstants.{FUNCS};
ghost use Rattle.patch_core.specs.Moves.{batch_next, coded, is_store, IsChange};

use site_bytes::{BREAKPOINT, SiteChange, head_of, tail_of};
use std::marker::Model;
use word_map::{Op, WordMap, next};

/// What a batch does next.
#[derive(Clone, Copy, PartialEq, Eq)]
pub enum BatchNext {
    /// One operation on the words: a store.
    Do(Op),
    /// A wait until each CPU has acknowledged a request that is made now.
    Sync,
    /// Nothing any more: all moves were made.
    Done,
}

/// A batch under way: the words that it stores into, and how many of its moves were made. The sites
/// that it changes are kept by the caller, who hands in the same ones each time.
#[derive(Drop)]
pub struct Batch {
    map: WordMap,
    made: u32,
}

impl Model for Batch {
    ghost use Rattle.word_map.specs.Shapes.{IsShape};
    ghost use Rattle.patch_core.specs.Moves.{Batched};

    ghost Value = { Batched };

    ghost view = { λ b. record { shape = b.map; made = b.made } };

    ghost invariant = { λ b. IsShape b.map };
}

impl Batch {
    /// A batch before its first move.
    pub fn new(map: WordMap) -> Batch
        ensures { result ≡ record { shape = map; made = 0 } }
    {
        // Not for its value: its contract says that the shape is within the limits.
        let _shape = map.shape();
        Batch { map, made: 0 }
    }

    /// The next move, if these are the sites to change.
    ///
    /// There are four stages, each of which goes over all sites in their order. The last three end
    /// with a sync, which serves all sites at once.
    pub fn next(&self, sites: &[SiteChange]) -> BatchNext
        requires changes { All (IsChange self.now.shape) sites.now }
        requires few { length sites.now ≤ FUNCS }
        ensures { result ≡ coded self.now.shape (batch_next sites.now self.now.made) }
    {
        // If no site changes, no CPU is asked to acknowledge anything.
        if sites.is_empty() {
            return BatchNext::Done;
        }
        let made = self.made as usize;
        // How many moves come before each stage. A sync ends the second and the third one.
        let breakpoints = sites.len();
        let tails = breakpoints + sites.len() + 1;
        let heads = tails + sites.len() + 1;
        if made < breakpoints {
            self.tell_next(sites, made)
        } else if made < tails {
            self.put_breakpoint(sites, made - breakpoints)
        } else if made < heads {
            self.change_tail(sites, made - tails)
        } else {
            self.change_head(sites, made - heads)
        }
    }

    /// Whether the next move is a store, if these are the sites to change: `next` without the store.
    pub fn is_at_store(&self, sites: &[SiteChange]) -> bool
        requires few { length sites.now ≤ FUNCS }
        ensures { result ≡ is_store (batch_next sites.now self.now.made) }
    {
        let made = self.made as usize;
        let count = sites.len();
        // A sync ends the second stage and the third. The stores of the fourth are the last ones.
        if made == 2 * count || made == 3 * count + 1 || made >= 4 * count + 2 {
            return false;
        }
        true
    }

    /// The operation that `next` gave was done.
    pub fn did(&mut self)
        requires { suc self.old.made < 2 ^ 32 }
        ensures { self.new ≡ record { shape = self.old.shape; made = suc self.old.made } }
    {
        self.made += 1;
    }

    /// The sync that `next` gave is over: each CPU has acknowledged its request.
    pub fn synced(&mut self)
        requires { suc self.old.made < 2 ^ 32 }
        ensures { self.new ≡ record { shape = self.old.shape; made = suc self.old.made } }
    {
        self.made += 1;
    }

    // The first stage: each site's `next` word tells what the site is to become. No CPU loads it before
    // the breakpoint is there.
    //
    // Without it, a CPU that meets the breakpoint would run what an earlier batch told, or the nop of
    // the start.
    fn tell_next(&self, sites: &[SiteChange], moved: usize) -> BatchNext
        requires changes { All (IsChange self.now.shape) sites.now }
        requires within { moved < length sites.now }
        ensures { result ≡ coded self.now.shape (batch_next sites.now moved) }
    {
        let change = sites[moved];
        store(
            self.map.next_word(change.func),
            next::number_of(change.insn),
        )
    }

    // The second stage: the breakpoint, in the place of each head. A CPU that comes to the site from now
    // on loads `next` in the place of the tail.
    //
    // Earlier, a CPU that meets it would load a `next` that isn't told yet. Without it, a CPU between the
    // two loads of a fetch would run the old head with the new tail. Without the sync, so would a CPU
    // that loaded the old head just before the breakpoint came.
    fn put_breakpoint(&self, sites: &[SiteChange], moved: usize) -> BatchNext
        requires changes { All (IsChange self.now.shape) sites.now }
        requires some { 0 < length sites.now }
        requires within { moved ≤ length sites.now }
        ensures { result ≡ coded self.now.shape (batch_next sites.now (length sites.now + moved)) }
    {
        match sites.get(moved) {
            Some(change) => store(self.map.head(change.func), u64::from(BREAKPOINT)),
            None => BatchNext::Sync,
        }
    }

    // The third stage: the new tails. Since the sync no CPU loads one while the breakpoint stands.
    //
    // Earlier, a CPU that has loaded the old head would run it with the new tail. Without the sync, a CPU
    // that the two stores reach in another order could run the new head with the old tail. Here each
    // store reaches all CPUs at once, and no CPU is harmed; the kernel waits to be safe.
    fn change_tail(&self, sites: &[SiteChange], moved: usize) -> BatchNext
        requires changes { All (IsChange self.now.shape) sites.now }
        requires some { 0 < length sites.now }
        requires within { moved ≤ length sites.now }
        ensures { result ≡ coded self.now.shape (batch_next sites.now (2 * length sites.now + 1 + moved)) }
    {
        match sites.get(moved) {
            Some(change) => store(
                self.map.tail(change.func),
                u64::from(tail_of(change.func, change.insn)),
            ),
            None => BatchNext::Sync,
        }
    }

    // The fourth stage: the new heads, in the place of the breakpoints. A CPU that comes to the site from
    // now on loads the new instruction, whole.
    //
    // Earlier, a CPU would run the new head with the old tail. Without the sync, a CPU that met the
    // breakpoint and has yet to load `next` could load what the next batch stores there, and run an
    // instruction of another command.
    fn change_head(&self, sites: &[SiteChange], moved: usize) -> BatchNext
        requires changes { All (IsChange self.now.shape) sites.now }
        requires some { 0 < length sites.now }
        ensures { result ≡ coded self.now.shape (batch_next sites.now (3 * length sites.now + 2 + moved)) }
    {
        match sites.get(moved) {
            Some(change) => store(self.map.head(change.func), u64::from(head_of(change.insn))),
            None if moved == sites.len() => BatchNext::Sync,
            None => BatchNext::Done,
        }
    }
}

// The move that stores a value into the word at a place.
fn store(word: u32, value: u64) -> BatchNext
    ensures { result ≡ BatchNext.Do (Op.Store word value) }
{
    BatchNext::Do(Op::Store { word, value })
}
