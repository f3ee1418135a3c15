//! A filter and a notrace set.

ghost use Rattle.std.specs.Prelude.{◌≡◌, ℕ, ◌+◌, ◌*◌, ◌<◌, ◌==◌, length, IfOk};
ghost use Rattle.std.specs.Int.{bit_at};
ghost use Rattle.ft_base.specs.Marks.{holds, is_empty};
ghost use Rattle.ft_base.specs.Desk.{edited, matches_by};
ghost use Rattle.site_set.specs.Marks.{word_of};
ghost use Rattle.site_set.specs.Edits.{plain_edit};
ghost use Rattle.filter_hash.specs.Pair.{size_of, empty_pair, set_of, with_set, matched};

use ft_base::{Half, NoMemory};
use site_set::{Edit, SiteSet};
use std::alloc::Global;
use std::marker::Model;

/// A user's filter and its notrace set: two sets of functions of one size, which is fixed when
/// they are made.
#[derive(Drop)]
pub struct HashPair {
    filter: SiteSet,
    notrace: SiteSet,
}

impl Model for HashPair {
    ghost use Rattle.std.specs.Prelude.{◌≡◌, length};
    ghost use Rattle.filter_hash.specs.Pair.{Pair};

    ghost Value = { Pair };

    ghost view = { λ p. record { filter = p.filter; notrace = p.notrace } };

    ghost invariant = { λ p. length p.notrace ≡ length p.filter };
}

impl HashPair {
    /// Two empty sets of functions below `size`. The error says that memory ran out.
    pub fn new(alloc: Global, size: u32) -> Result<HashPair, NoMemory>
        ensures pair { IfOk result (λ pair. pair ≡ empty_pair size) }
        ensures size { IfOk result (λ pair. size_of pair ≡ size) }
    {
        let filter = SiteSet::empty(alloc, size).map_err(|_| NoMemory)?;
        let notrace = SiteSet::empty(alloc, size).map_err(|_| NoMemory)?;
        Ok(HashPair { filter, notrace })
    }

    /// An equal pair. The error says that memory ran out.
    pub fn copy(&self) -> Result<HashPair, NoMemory>
        ensures { IfOk result (λ pair. pair ≡ self.now) }
    {
        let filter = self.filter.copy().map_err(|_| NoMemory)?;
        let notrace = self.notrace.copy().map_err(|_| NoMemory)?;
        Ok(HashPair { filter, notrace })
    }

    /// Makes the pair equal to another one of its size.
    pub fn copy_from(&mut self, other: &HashPair)
        requires { size_of other.now ≡ size_of self.old }
        ensures { self.new ≡ other.now }
    {
        self.filter.clear();
        self.filter.unite(&other.filter);
        self.notrace.clear();
        self.notrace.unite(&other.notrace);
    }

    /// How many functions there are: each function's number is below it.
    pub fn size(&self) -> u32
        ensures filter { result ≡ size_of self.now }
        ensures notrace { result ≡ length self.now.notrace }
    {
        self.filter.size()
    }

    /// One of the two sets.
    pub fn set(&self, half: Half) -> &SiteSet
        ensures { result.now ≡ set_of self.now half }
    {
        match half {
            Half::Filter => &self.filter,
            Half::Notrace => &self.notrace,
        }
    }

    /// Carries out an edit on one of the two sets; the other stays as it was. An edit that appends
    /// (`>>`) starts from the set as it is, and any other (`>`) from the empty set. The selected
    /// functions are added to it or, with `!`, taken out of it. An edit that clears leaves the empty
    /// set (`ftrace.rst`, "Filter commands").
    pub fn edit(&mut self, half: Half, edit: &Edit)
        requires { length edit.now.set ≡ size_of self.old }
        ensures pair { self.new
            ≡ with_set self.old half (edited (size_of self.old) (set_of self.old half) (plain_edit edit.now)) }
        ensures size { size_of self.new ≡ size_of self.old }
    {
        match half {
            Half::Filter => edit_set(&mut self.filter, edit),
            Half::Notrace => edit_set(&mut self.notrace, edit),
        }
    }

    /// Whether the function `f` is matched.
    pub fn matches(&self, f: u32) -> bool
        requires { f < size_of self.now }
        ensures { result ≡ matches_by self.now.filter self.now.notrace f }
    {
        (self.is_open() || self.filter.contains(f)) && !self.notrace.contains(f)
    }

    /// Makes `out` the set of all matched functions, whatever it was before.
    pub fn matched_into(&self, out: &mut SiteSet)
        requires { length out.old ≡ size_of self.now }
        ensures set { out.new ≡ matched self.now }
        ensures members { (f : ℕ) → f < size_of self.now
            → holds out.new f ≡ matches_by self.now.filter self.now.notrace f }
        ensures size { length out.new ≡ length out.old }
    {
        if self.is_open() {
            out.fill();
        } else {
            out.clear();
            out.unite(&self.filter);
        }
        out.subtract(&self.notrace);
    }

    /// The functions from `64 * w` to `64 * w + 63` of one of the two sets as bits, the lowest in
    /// bit 0. A bit is 1 if the set holds the function. A number from the size on has the bit 0.
    pub fn word(&self, half: Half, w: u32) -> u64
        requires { 64 * w < size_of self.now }
        ensures value { result ≡ word_of (set_of self.now half) w }
        ensures bits { (i : ℕ) → i < 64
            → (bit_at result i == 1) ≡ holds (set_of self.now half) (64 * w + i) }
    {
        match half {
            Half::Filter => self.filter.word(w),
            Half::Notrace => self.notrace.word(w),
        }
    }

    /// Whether the filter is empty, and so means all functions.
    pub fn is_open(&self) -> bool
        ensures { result ≡ is_empty self.now.filter }
    {
        self.filter.is_empty()
    }
}

/// Carries out an edit on one set.
fn edit_set(set: &mut SiteSet, edit: &Edit)
    requires { length edit.now.set ≡ length set.old }
    ensures edited { set.new ≡ edited (length set.old) set.old (plain_edit edit.now) }
    ensures size { length set.new ≡ length set.old }
{
    if edit.clear {
        set.clear();
        return;
    }
    if !edit.append {
        set.clear();
    }
    if edit.remove {
        set.subtract(&edit.set);
    } else {
        set.unite(&edit.set);
    }
}
