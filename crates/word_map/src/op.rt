//! What an actor does to a word.

/// One operation on the words, each a single atomic step. What it gives to the actor that makes it
/// is its *value*.
#[derive(Clone, Copy, PartialEq, Eq)]
pub enum Op {
    /// Loads the word at this place. The value is what the word holds.
    Load { word: u32 },
    /// Stores into the word at this place. The value is 0.
    Store { word: u32, value: u64 },
    /// Adds one item to the clock, the word at place 0; if it is an item of a command, it is counted
    /// in the high half too. The value is what the clock held before, whose low half is the place of
    /// the item in the history.
    Mark { command: bool },
}
