//! The one answer that no contract rules out.

/// Out of memory. Any call that takes memory may answer it, and what the call was lent is then as
/// it was.
#[derive(Clone, Copy, Debug, PartialEq, Eq)]
pub struct NoMemory;
