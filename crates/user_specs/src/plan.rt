//! Tasks and CPUs as a script declares them.

use ft_base::{TaskAct, TaskNo};

/// A task as a script declares it.
#[derive(PartialEq, Eq, Drop)]
pub struct TaskPlan {
    /// Its number, over all CPUs.
    pub task: TaskNo,
    /// Its pid, by which the script and the pid lists name it.
    pub pid: u32,
    /// What it does, in order.
    pub acts: Vec<TaskAct>,
}

/// A CPU as a script declares it.
#[derive(PartialEq, Eq, Drop)]
pub struct CpuPlan {
    /// The steps after which it switches to its next task.
    pub quantum: u32,
    /// Its tasks, the lowest number first.
    pub tasks: Vec<TaskPlan>,
}
