//! The clock: its low half counts the items of the history, its high half those among them that are the
//! begin or the return of a command.

ghost use Rattle.std.specs.Prelude.{◌≡◌};
ghost use Rattle.word_map.specs.Contents.{low, mark_weight, returned_at};

use crate::halves::{high, low};

/// What a mark of an item adds to the clock.
const ITEM: u64 = 1;

/// What a mark of a command's begin or return adds: the item, and one of a command.
const COMMAND_ITEM: u64 = 0x1_0000_0001;

/// What a mark adds to the clock: of a command's begin or return, or of another item.
pub fn mark_weight(command: bool) -> u64
    ensures { result ≡ mark_weight command }
{
    if command { COMMAND_ITEM } else { ITEM }
}

/// How many items there were when the clock held this. The item that was marked then stands at this
/// place of the history.
pub fn items_at(clock: u64) -> u32
    ensures { result ≡ low clock }
{
    low(clock)
}

/// How many commands had returned when the clock held this: two items of each are counted.
pub fn returned_at(clock: u64) -> u32
    ensures { result ≡ returned_at clock }
{
    high(clock) / 2
}
