//! A line of the view graph, as numbers.

use ft_base::{FuncNo, TaskNo, UserNo};

/// An open call as its lines show it: its level is how many other open calls of the task have a
/// callback of the user.
#[derive(Clone, Copy)]
pub struct Shown {
    /// Its task.
    pub task: TaskNo,
    /// The called function.
    pub func: FuncNo,
    /// Its level.
    pub level: u32,
}

/// A line. It has no names, which are found by number when it is put: there may be about as many
/// lines as items, and all are in memory before the first is put.
#[derive(Clone, Copy)]
pub enum GraphLine {
    /// The name of the user whose lines follow.
    User(UserNo),
    /// An entry callback; a leaf has a time.
    Entry { shown: Shown, time: Option<u32> },
    /// An exit callback.
    Exit { shown: Shown, time: u32 },
}
