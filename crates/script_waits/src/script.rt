//! The parts of a script that matter to waits. Each knows its line in the script.

use ft_base::{TaskAct, TaskNo};

/// An act of a task.
#[derive(Clone, Copy)]
pub struct LinedAct {
    pub act: TaskAct,
    /// Its line in the script, from 1.
    pub line: u32,
}

/// What a line of control is to the tasks.
#[derive(Clone, Copy)]
pub enum Wait {
    /// A command. Control waits for nobody before it.
    Command,
    /// A wait until the task has passed this many acts.
    Until { task: TaskNo, acts: u32 },
}

/// A line of control.
#[derive(Clone, Copy)]
pub struct ControlLine {
    pub wait: Wait,
    /// Its line in the script, from 1.
    pub line: u32,
}

/// A task. Its number is its place among the tasks, from 0.
#[derive(Drop)]
pub struct LinedTask {
    pub pid: u32,
    /// The number of its CPU.
    pub cpu: u32,
    pub acts: Vec<LinedAct>,
}
