//! What a task keeps of its calls: its stacks, who has a part in a frame, and its guards.

mod graphs;
mod guards;
mod probes;
mod returns;

use ft_base::{CallNo, TaskNo, UserNo};
use return_stack::FrameUser;

/// A call of one task.
fn call(n: u32) -> CallNo {
    CallNo { task: TaskNo(0), n }
}

/// What a frame has of the user 0.
fn owed(reg: u32, entry: u32) -> Option<FrameUser> {
    owed_to(0, reg, entry)
}

/// What a frame has of a user.
fn owed_to(user: u32, reg: u32, entry: u32) -> Option<FrameUser> {
    Some(FrameUser {
        user: UserNo(user),
        reg,
        entry,
    })
}
