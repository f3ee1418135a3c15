//! Sets of places as words of 64 bits, and a table of such sets, one for each byte.

ghost use Rattle.std.specs.Prelude.{◌≡◌, ℕ, ◌+◌, ◌*◌, ◌/◌, ◌<◌, ◌≤◌, ◌==◌, ◌&&◌, ◌||◌, length};
ghost use Rattle.std.specs.List.{list_all};
ghost use Rattle.glob_filter.specs.Places.{has_place, has_byte};

/// Sets the bit of a place.
pub fn set_place(words: &mut [u64], place: usize)
    requires { place / 64 < length words.old }
    ensures places { (p : ℕ) → has_place words.new p ≡ (p == place || has_place words.old p) }
    ensures size { length words.new ≡ length words.old }
{
    words[place / 64] |= 1 << (place % 64);
}

/// Sets the bit of a place in the set of a byte.
pub fn set_byte(table: &mut [u64], place: usize, byte: u8)
    requires { place / 64 * 256 + 256 ≤ length table.old }
    ensures bytes { (p b : ℕ) → b < 256 → has_byte table.new p b ≡ ((p == place && b == byte) || has_byte table.old p b) }
    ensures size { length table.new ≡ length table.old }
{
    table[place / 64 * 256 + byte as usize] |= 1 << (place % 64);
}

/// Whether no place has its bit set.
pub fn has_none(words: &[u64]) -> bool
    ensures { result ≡ list_all (λ word. word == 0) words.now }
{
    words.iter().all(|word| *word == 0)
}

/// One byte of a name: from each place the item takes the byte, and the place below has its bit, or
/// the place's `*` takes it, and it keeps its own. A word for 64 places.
pub fn step(state: &mut [u64], takes: &[u64], stars: &[u64], byte: u8)
    requires table { length takes.now ≡ 256 * length state.old }
    requires stars { length stars.now ≡ length state.old }
    ensures places { (p : ℕ) → has_place state.new p
        ≡ ((has_place state.old (p + 1) && has_byte takes.now (p + 1) byte) || (has_place state.old p && has_place stars.now p)) }
    ensures size { length state.new ≡ length state.old }
{
    // The bit that comes down from the word above.
    let mut carry = 0;
    let mut w = state.len();
    while w > 0 {
        w -= 1;
        let word = state[w];
        let taken = word & takes[w * 256 + byte as usize];
        state[w] = taken >> 1 | carry | word & stars[w];
        carry = taken << 63;
    }
}
