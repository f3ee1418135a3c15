//! A set of numbers below a size.

ghost use Rattle.std.specs.Prelude.{◌≡◌, ℕ, ◌+◌, ◌*◌, ◌<◌, ◌==◌, ◌↔◌, length, true, false, IfOk, IfSome, IsNone, IsTrue, count_by, replicate, slice_set};
ghost use Rattle.std.specs.Int.{bit_at};
ghost use Rattle.ft_base.specs.Marks.{holds, empty, is_empty, union, difference};
ghost use Rattle.site_set.specs.Marks.{least_common, word_of, IsEmpty, AreDisjoint, IsLeastCommon};

use crate::words::{and_not_words, are_zero, fill_words, lowest_common_bit, or_words};
use std::alloc::{AllocError, Global};
use std::marker::Model;

/// A set of numbers below a size, which is fixed when the set is made. Contracts see its marks, one
/// for each number below the size.
#[derive(Debug, Drop)]
pub struct SiteSet {
    words: Vec<u64>,
    size: u32,
}

impl Model for SiteSet {
    ghost use Rattle.ft_base.specs.Marks.{Marks};
    ghost use Rattle.site_set.specs.Packed.{IsPacked, marks_of};

    ghost Value = { Marks };

    ghost view = { λ s. marks_of s.size s.words.items };

    ghost invariant = { λ s. IsPacked s.size s.words.items };
}

impl SiteSet {
    /// The empty set of numbers below `size`. The error says that memory ran out.
    pub fn empty(alloc: Global, size: u32) -> Result<SiteSet, AllocError>
        ensures members { IfOk result (λ set. set ≡ empty size) }
        ensures size { IfOk result (λ set. length set ≡ size) }
    {
        let words = vec![in alloc; 0u64; (size as usize).div_ceil(64)]?;
        Ok(SiteSet { words, size })
    }

    /// An equal set. The error says that memory ran out.
    pub fn copy(&self) -> Result<SiteSet, AllocError>
        ensures { IfOk result (λ set. set ≡ self.now) }
    {
        let words = self.words.clone()?;
        Ok(SiteSet {
            words,
            size: self.size,
        })
    }

    /// The size, which every member is below.
    pub fn size(&self) -> u32
        ensures { result ≡ length self.now }
    {
        self.size
    }

    /// Whether `f` is a member.
    pub fn contains(&self, f: u32) -> bool
        requires { f < length self.now }
        ensures { result ≡ holds self.now f }
    {
        (self.words[(f / 64) as usize] >> (f % 64)) & 1 == 1
    }

    /// Makes `f` a member.
    pub fn add(&mut self, f: u32)
        requires { f < length self.old }
        ensures members { self.new ≡ slice_set self.old f true }
        ensures size { length self.new ≡ length self.old }
    {
        self.words[(f / 64) as usize] |= 1 << (f % 64);
    }

    /// Takes `f` out.
    pub fn remove(&mut self, f: u32)
        requires { f < length self.old }
        ensures members { self.new ≡ slice_set self.old f false }
        ensures size { length self.new ≡ length self.old }
    {
        self.words[(f / 64) as usize] &= !(1 << (f % 64));
    }

    /// Takes every member out.
    pub fn clear(&mut self)
        ensures members { self.new ≡ empty (length self.old) }
        ensures size { length self.new ≡ length self.old }
    {
        self.words.fill(0);
    }

    /// Makes each number below the size a member.
    pub fn fill(&mut self)
        ensures members { self.new ≡ replicate (length self.old) true }
        ensures size { length self.new ≡ length self.old }
    {
        fill_words(self.words.as_mut_slice(), self.size);
    }

    /// Makes each member of `other` a member.
    pub fn unite(&mut self, other: &SiteSet)
        requires { length self.old ≡ length other.now }
        ensures members { self.new ≡ union self.old other.now }
        ensures size { length self.new ≡ length self.old }
    {
        or_words(self.words.as_mut_slice(), other.words.as_slice());
    }

    /// Takes each member of `other` out.
    pub fn subtract(&mut self, other: &SiteSet)
        requires { length self.old ≡ length other.now }
        ensures members { self.new ≡ difference self.old other.now }
        ensures size { length self.new ≡ length self.old }
    {
        and_not_words(self.words.as_mut_slice(), other.words.as_slice());
    }

    /// The lowest number that is a member of both sets. `None` exactly if no number is.
    pub fn first_common(&self, other: &SiteSet) -> Option<u32>
        requires { length self.now ≡ length other.now }
        ensures value { result ≡ least_common self.now other.now }
        ensures none { IsNone result ↔ AreDisjoint self.now other.now }
        ensures least { IfSome result (IsLeastCommon self.now other.now) }
    {
        for (w, word) in self.words.iter().enumerate() {
            if let Some(bit) = lowest_common_bit(*word, other.words[w]) {
                return Some(w as u32 * 64 + bit);
            }
        }
        None
    }

    /// Whether no number is a member.
    pub fn is_empty(&self) -> bool
        ensures value { result ≡ is_empty self.now }
        ensures members { IsTrue result ↔ IsEmpty self.now }
    {
        are_zero(self.words.as_slice())
    }

    /// How many members there are.
    pub fn count(&self) -> u32
        ensures { result ≡ count_by (λ mark. mark) self.now }
    {
        let mut count = 0;
        for word in self.words.iter() {
            count += word.count_ones();
        }
        count
    }

    /// The marks of the numbers from `64 * w` to `64 * w + 63` as bits, the lowest in bit 0. A
    /// number from the size on has the bit 0.
    pub fn word(&self, w: u32) -> u64
        requires { 64 * w < length self.now }
        ensures value { result ≡ word_of self.now w }
        ensures bits { (i : ℕ) → i < 64 → (bit_at result i == 1) ≡ holds self.now (64 * w + i) }
    {
        self.words[w as usize]
    }
}
