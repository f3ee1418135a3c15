//! What a task is told to do.

use crate::context::Ctx;
use crate::number::FuncNo;

/// One act of a task.
#[derive(Clone, Copy, PartialEq, Eq)]
pub enum TaskAct {
    /// It calls the function.
    Call(FuncNo),
    /// Its latest open call returns.
    Ret,
    /// An interrupt comes: the context is raised.
    Raise(Ctx),
    /// The interrupt is over: the context goes back to the one before.
    Lower,
    /// The task waits until this many commands have returned.
    After(u32),
}
