//! Words of two halves, each a number below 2 ^ 32. What the halves mean, the module of each word says.

ghost use Rattle.std.specs.Prelude.{◌≡◌};
ghost use Rattle.word_map.specs.Contents.{halves, high, low};

/// The word that has these two halves.
pub fn halves(high: u32, low: u32) -> u64
    ensures { result ≡ halves high low }
{
    (u64::from(high) << 32) | u64::from(low)
}

/// The high half of a word.
pub fn high(word: u64) -> u32
    ensures { result ≡ high word }
{
    (word >> 32) as u32
}

/// The low half of a word.
pub fn low(word: u64) -> u32
    ensures { result ≡ low word }
{
    (word & 0xFFFF_FFFF) as u32
}
