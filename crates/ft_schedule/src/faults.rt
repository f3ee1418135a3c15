//! Why the text of a schedule is refused.

use thiserror::Error;

/// Why the text of a schedule was refused. Of several causes the first in this order is reported.
#[derive(Clone, Copy, Debug, PartialEq, Eq, Drop, Error)]
pub enum SchedFault {
    /// There is no item, or an item has none of the forms.
    #[error("not an item of a schedule")]
    Syntax,
    /// A count is 0 or above 4,294,967,295, or the items have more than
    /// [`STEPS`](ft_base::limits::STEPS) steps.
    #[error("a count out of range, or too many steps")]
    Limit,
    /// An item names a CPU that doesn't exist.
    #[error("no such CPU")]
    Unknown,
    /// Out of memory. It may come in place of any other answer.
    #[error("out of memory")]
    NoMemory,
}
