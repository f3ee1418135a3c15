//! Slices of 64-bit words as sets of bits, a whole word at a time.

ghost use Rattle.std.specs.Prelude.{◌≡◌, ℕ, slice_index, ◌+◌, ◌-◌, ◌/◌, ◌<◌, ◌^◌, ◌==◌, nat_lt, map, bit_or, bit_and, length, IfNone, IfSome};
ghost use Rattle.std.specs.List.{zip, list_all};
ghost use Rattle.site_set.specs.Packed.{IsLowestBit, has_bit};

/// Sets in each word the bits that are set in the other word at its place.
pub(crate) fn or_words(words: &mut [u64], others: &[u64])
    requires { length words.old ≡ length others.now }
    ensures fits { (k : ℕ) → slice_index others.now k < 2 ^ 64 }
    ensures merged { words.new ≡ map (λ p. bit_or p.0 p.1) (zip words.old others.now) }
{
    for (w, other) in others.iter().enumerate() {
        words[w] |= *other;
    }
}

/// Clears in each word the bits that are set in the other word at its place.
pub(crate) fn and_not_words(words: &mut [u64], others: &[u64])
    requires { length words.old ≡ length others.now }
    ensures fits { (k : ℕ) → slice_index others.now k < 2 ^ 64 }
    ensures merged { words.new ≡ map (λ p. bit_and p.0 (2 ^ 64 - 1 - p.1)) (zip words.old others.now) }
{
    for (w, other) in others.iter().enumerate() {
        words[w] &= !*other;
    }
}

/// Sets the bit of each number below the size, and clears the others.
pub(crate) fn fill_words(words: &mut [u64], size: u32)
    requires { length words.old ≡ (size + 63) / 64 }
    ensures bits { (f : ℕ) → has_bit words.new f ≡ nat_lt f size }
    ensures size { length words.new ≡ length words.old }
{
    words.fill(u64::MAX);
    let rest = size % 64;
    if rest > 0 {
        words[(size / 64) as usize] = u64::MAX >> (64 - rest);
    }
}

/// Whether no word has a bit set.
pub(crate) fn are_zero(words: &[u64]) -> bool
    ensures fits { (k : ℕ) → slice_index words.now k < 2 ^ 64 }
    ensures zero { result ≡ list_all (λ word. word == 0) words.now }
{
    words.iter().all(|word| *word == 0)
}

/// The place of the lowest bit that is set in both words.
pub(crate) fn lowest_common_bit(a: u64, b: u64) -> Option<u32>
    ensures none { IfNone result (bit_and a b ≡ 0) }
    ensures some { IfSome result (IsLowestBit (bit_and a b)) }
{
    let both = a & b;
    if both == 0 {
        None
    } else {
        Some(both.trailing_zeros())
    }
}
