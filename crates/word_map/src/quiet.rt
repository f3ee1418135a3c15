//! What a task has come to: its `quiet` word.

ghost use Rattle.std.specs.Prelude.{◌≡◌};
ghost use Rattle.word_map.specs.Contents.{halves, high, low};

use crate::halves::{halves, high, low};

/// The request of a task that has ended: it is at a quiet point for every request.
pub const ENDED: u32 = u32::MAX;

/// The word of a task that has finished so many acts, and was last between two acts at this request.
pub fn word(acts: u32, request: u32) -> u64
    ensures { result ≡ halves acts request }
{
    halves(acts, request)
}

/// How many acts the task has finished.
pub fn acts(word: u64) -> u32
    ensures { result ≡ high word }
{
    high(word)
}

/// The last request at which the task was between two acts.
pub fn request(word: u64) -> u32
    ensures { result ≡ low word }
{
    low(word)
}
