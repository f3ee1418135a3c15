//! The places of a pattern, and which of them a name reaches.

ghost use Rattle.std.specs.Prelude.{◌≡◌, ℕ, ◌+◌, ◌*◌, ◌/◌, ◌<◌, ◌≤◌, ◌==◌, ◌&&◌, ◌||◌, ◌∷◌, false, List, length, map, IfOk};
ghost use Rattle.glob_filter.specs.Items.{Item};
ghost use Rattle.glob_filter.specs.Matching.{takes};
ghost use Rattle.glob_filter.specs.TokenItems.{item_of, token_items};
ghost use Rattle.glob_filter.specs.Places.{has_place, has_byte, matches_from, StandsFor, IsFilled};

use crate::bits::{has_none, set_byte, set_place, step};
use crate::token::Token;
use ft_base::limits::PATTERN_BYTES;
use std::alloc::{AllocError, Global};

/// So many words have a bit for each place of a pattern.
const WORDS: usize = PATTERN_BYTES as usize / 64 + 1;

/// What a search needs to know of a pattern. A place is the number of items but for stars that are
/// still to be matched.
#[derive(Debug, Drop)]
pub struct Places {
    /// For 64 places 256 words, one for each byte: from which places the next item takes it.
    takes: Vec<u64>,
    /// For 64 places a word: before which places a `*` stands.
    stars: Vec<u64>,
    /// The place of the whole pattern.
    start: usize,
    ghost table: { length takes.items ≡ 256 * length stars.items },
    ghost small: { length stars.items ≤ 4 },
    ghost within: { start / 64 < length stars.items },
}

impl Places {
    /// The places of a pattern's items. The error says that memory ran out.
    pub fn new(alloc: Global, tokens: &[Token]) -> Result<Places, AllocError>
        requires { length tokens.now ≤ PATTERN_BYTES }
        ensures { IfOk result (λ places. StandsFor places.takes.items places.stars.items places.start (token_items tokens.now)) }
    {
        let words = tokens.len() / 64 + 1;
        let mut takes = vec![in alloc; 0u64; 256 * words]?;
        let mut stars = vec![in alloc; 0u64; words]?;
        let start = fill(takes.as_mut_slice(), stars.as_mut_slice(), tokens);
        Ok(Places {
            takes,
            stars,
            start,
        })
    }

    /// Whether the pattern matches the name. Each byte is looked at once, with a step for each word
    /// of places, whatever the items are.
    pub fn matches(&self, name: &[u8]) -> bool
        ensures { result ≡ matches_from self.now.takes.items self.now.stars.items self.now.start name.now }
    {
        let mut state = [0u64; WORDS];
        search(
            &mut state[..self.stars.len()],
            self.takes.as_slice(),
            self.stars.as_slice(),
            self.start,
            name,
        )
    }
}

/// Sets the bits of all items, the last item first, and returns the place of the first.
fn fill(takes: &mut [u64], stars: &mut [u64], tokens: &[Token]) -> usize
    requires table { length takes.old ≡ 256 * length stars.old }
    requires room { length tokens.now / 64 < length stars.old }
    requires no_bytes { (p b : ℕ) → b < 256 → has_byte takes.old p b ≡ false }
    requires no_stars { (p : ℕ) → has_place stars.old p ≡ false }
    ensures fits { StandsFor takes.new stars.new result (token_items tokens.now) }
    ensures most { result ≤ length tokens.now }
    ensures takes { length takes.new ≡ length takes.old }
    ensures stars { length stars.new ≡ length stars.old }
{
    let mut place = 0;
    let mut rest = tokens.len();
    while rest > 0 {
        rest -= 1;
        place = put_before(takes, stars, place, &tokens[rest]);
    }
    place
}

/// Sets the bits of an item that comes right before what the place stands for, and returns the
/// place of both.
fn put_before(takes: &mut [u64], stars: &mut [u64], place: usize, token: &Token) -> usize
    requires table { length takes.old ≡ 256 * length stars.old }
    requires room { (place + 1) / 64 < length stars.old }
    ensures filled { (items : List Item) → IsFilled takes.old stars.old place items → IsFilled takes.new stars.new result (item_of token.now ∷ items) }
    ensures most { result ≤ place + 1 }
    ensures takes { length takes.new ≡ length takes.old }
    ensures stars { length stars.new ≡ length stars.old }
{
    if let Token::Star = token {
        set_place(stars, place);
        return place;
    }
    set_taken(takes, place + 1, token);
    place + 1
}

/// Sets the bit of the place for each byte that the item matches.
fn set_taken(table: &mut [u64], place: usize, token: &Token)
    requires { place / 64 * 256 + 256 ≤ length table.old }
    ensures bytes { (p b : ℕ) → b < 256 → has_byte table.new p b ≡ ((p == place && takes (item_of token.now) b) || has_byte table.old p b) }
    ensures size { length table.new ≡ length table.old }
{
    if let Token::Byte(own) = token {
        set_byte(table, place, *own);
        return;
    }
    for code in 0..256u32 {
        let byte = code as u8;
        if token.takes(byte) {
            set_byte(table, place, byte);
        }
    }
}

/// Whether the items of a place match the name. The state has no place at first.
///
/// A place has its bit if its items may still match what is left of the name, so that the pattern
/// matches the name if one of these does match that.
fn search(state: &mut [u64], takes: &[u64], stars: &[u64], start: usize, name: &[u8]) -> bool
    requires table { length takes.now ≡ 256 * length state.old }
    requires stars { length stars.now ≡ length state.old }
    requires within { start / 64 < length state.old }
    requires none { (p : ℕ) → has_place state.old p ≡ false }
    ensures { result ≡ matches_from takes.now stars.now start name.now }
{
    set_place(state, start);
    for byte in name {
        step(state, takes, stars, *byte);
        if has_none(state) {
            return false;
        }
    }
    state[0] & 1 == 1
}
