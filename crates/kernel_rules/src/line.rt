//! What a recorded log tells: its head, and its lines.

use ft_base::{CallNo, FuncNo, Item};

/// In which order the exits of a call come, as the head of a log tells it.
#[derive(Clone, Copy, Debug, PartialEq, Eq, Drop)]
pub enum ExitOrder {
    /// In the order of their entry callbacks.
    AsEntered,
    /// In the opposite order: the head says `exits reversed`.
    Reversed,
}

/// A line of a recorded log. It tells an item, but that the place that an exit names is that of a line; or a
/// body of which nobody saw what its call site held, which is told by a `?`.
#[derive(Clone, Copy, Debug, PartialEq, Eq, Drop)]
pub enum Line {
    Seen(Item),
    Unfetched { call: CallNo, func: FuncNo },
}
