//! Why a filter text or a trigger's text is refused.

use thiserror::Error;

/// Why a filter text is refused. If several causes hold, the first of `Command`, `Index` and
/// `Pattern` is the answer, unless memory runs out before.
#[derive(Clone, Copy, Debug, Drop, Error)]
pub enum EditFault {
    /// A glob of the text is no pattern, or the text is empty and the edit appends.
    #[error("a glob isn't a pattern")]
    Pattern,
    /// The text is the number of a line that the table of functions doesn't have. Lines count from 1.
    #[error("no function has this line number")]
    Index,
    /// The text has a `:` and isn't GLOB, `:mod:` and MODULE.
    #[error("the text isn't a known filter command")]
    Command,
    /// Memory ran out.
    #[error("out of memory")]
    NoMemory,
}

/// Why a trigger's text is refused.
#[derive(Clone, Copy, Debug, Drop, Error)]
pub enum TriggerFault {
    /// The text isn't GLOB, `:traceon` or `:traceoff`, and an optional `:` and limit.
    #[error("the text isn't a known trigger")]
    Command,
    /// The text is of that form, but its glob is no pattern.
    #[error("the glob isn't a pattern")]
    Pattern,
    /// Memory ran out.
    #[error("out of memory")]
    NoMemory,
}
