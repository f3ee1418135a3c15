//! An item of a pattern, as a pattern keeps it.

ghost use Rattle.std.specs.Prelude.{◌≡◌};
ghost use Rattle.std.specs.List.{list_any};
ghost use Rattle.glob_filter.specs.Matching.{in_range, takes};
ghost use Rattle.glob_filter.specs.TokenItems.{bounds_of, item_of};

/// The bytes from `first` to `last`; none if `last` is below `first`.
#[derive(Clone, Copy, Debug)]
pub struct ByteRange {
    pub first: u8,
    pub last: u8,
}

impl ByteRange {
    /// Whether the byte is in the range.
    pub fn contains(&self, byte: u8) -> bool
        ensures { result ≡ in_range byte (bounds_of self.now) }
    {
        self.first <= byte && byte <= self.last
    }
}

/// One item of a pattern.
#[derive(Debug, Drop)]
pub enum Token {
    /// Matches this byte.
    Byte(u8),
    /// Matches one byte, whatever it is.
    Any,
    /// Matches any bytes, also none.
    Star,
    /// Matches one byte that is in one of the ranges or, negated, in none.
    Class {
        negated: bool,
        ranges: Vec<ByteRange>,
    },
}

impl Token {
    /// Whether the item matches this byte and no other bytes. A `*` doesn't count as such an item.
    #[tactic(auto, using(crate::proofs::Ranges::list_any_map))]
    pub fn takes(&self, byte: u8) -> bool
        ensures { result ≡ takes (item_of self.now) byte }
    {
        match self {
            Token::Byte(own) => byte == *own,
            Token::Any => true,
            Token::Star => false,
            Token::Class { negated, ranges } => {
                let within = is_within(ranges.as_slice(), byte);
                if *negated { !within } else { within }
            }
        }
    }
}

/// Whether one of the ranges holds the byte.
fn is_within(ranges: &[ByteRange], byte: u8) -> bool
    ensures { result ≡ list_any (λ range. in_range byte (bounds_of range)) ranges.now }
{
    ranges.iter().any(|range| range.contains(byte))
}
