//! The words of a user's sets, `bits`: a bit for each function.

ghost use Rattle.std.specs.Prelude.{◌≡◌};
ghost use Rattle.word_map.specs.Contents.{is_marked};

use ft_base::FuncNo;

/// Whether the set that has this word among its words holds the function.
pub fn has_function(word: u64, f: FuncNo) -> bool
    ensures { result ≡ is_marked word f.0 }
{
    (word >> (f.0 % 64)) & 1 == 1
}
