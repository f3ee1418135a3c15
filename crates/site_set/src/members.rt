//! The members of a set, one after the other: a walk from word to word and from bit to bit.

ghost use Rattle.std.specs.Prelude.{◌≡◌, ℕ, ◌+◌, ◌*◌, ◌≤◌, ◌<◌, ◌^◌, ◌||◌, false, length, IfNone, IfSome};
ghost use Rattle.std.specs.Int.{bit_at};
ghost use Rattle.ft_base.specs.Marks.{holds};
ghost use Rattle.site_set.specs.Members.{IsNextBit, IsNextMember, IsNextOfTwo};

use crate::SiteSet;

impl SiteSet {
    /// The lowest member that is `from` or more. `None` says that no member is. `from` may be greater
    /// than the size.
    pub fn next_member(&self, from: u32) -> Option<u32>
        ensures some { IfSome result (IsNextMember self.now from) }
        ensures none { IfNone result ((f : ℕ) → from ≤ f → holds self.now f ≡ false) }
        ensures size { length self.now < 2 ^ 32 }
    {
        if from >= self.size() {
            return None;
        }
        // Mostly it is in the same word as `from`.
        let first = from / 64;
        if let Some(bit) = next_bit(self.word(first), from % 64) {
            return Some(first * 64 + bit);
        }
        for w in first + 1..self.size().div_ceil(64) {
            if let Some(bit) = next_bit(self.word(w), 0) {
                return Some(w * 64 + bit);
            }
        }
        None
    }

    /// The lowest member of either of two sets of one size that is `from` or more. `None` says that
    /// neither has such a member. Both are read in one pass, as a set with no member would otherwise
    /// be read to its end for each member of the other.
    pub fn next_of_two(one: &SiteSet, other: &SiteSet, from: u32) -> Option<u32>
        requires { length one.now ≡ length other.now }
        ensures some { IfSome result (IsNextOfTwo one.now other.now from) }
        ensures none { IfNone result ((f : ℕ) → from ≤ f → (holds one.now f || holds other.now f) ≡ false) }
        ensures size { length one.now < 2 ^ 32 }
    {
        if from >= one.size() {
            return None;
        }
        // Mostly it is in the same word as `from`.
        let first = from / 64;
        if let Some(bit) = next_bit(one.word(first) | other.word(first), from % 64) {
            return Some(first * 64 + bit);
        }
        for w in first + 1..one.size().div_ceil(64) {
            if let Some(bit) = next_bit(one.word(w) | other.word(w), 0) {
                return Some(w * 64 + bit);
            }
        }
        None
    }
}

/// The lowest bit that is set, from a place on.
fn next_bit(word: u64, from: u32) -> Option<u32>
    requires { from < 64 }
    ensures some { IfSome result (IsNextBit word from) }
    ensures none { IfNone result ((i : ℕ) → from ≤ i → bit_at word i ≡ 0) }
{
    let rest = word >> from;
    if rest == 0 {
        None
    } else {
        Some(from + rest.trailing_zeros())
    }
}
