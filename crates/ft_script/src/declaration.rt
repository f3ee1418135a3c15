//! What a line declares.

use filter_commands::Trigger;
use ft_base::{TaskAct, TaskNo, Turn};
use module_table::ModLine;
use user_specs::Spec;

/// A line of control, as a script has it.
#[derive(Drop)]
pub enum ScriptCtl {
    /// A command, a load or an unload.
    Run(ModLine),
    /// Control waits until the task has finished this many acts.
    Until { task: TaskNo, acts: u32 },
}

/// What a line declares: what it names is a number, its filter text is an edit, and a trigger's text
/// is a trigger.
#[derive(Drop)]
pub enum Declaration<'a> {
    /// Nothing: a blank line, or a comment.
    Nothing,
    /// The version of the language.
    Version(u8),
    /// A function, and its module, if it has one.
    Function {
        name: &'a str,
        owner: Option<&'a str>,
    },
    /// The frames of a shadow stack.
    Frames(u32),
    /// The trampoline slots.
    Slots(u32),
    /// The number of a module that isn't loaded at first.
    Absence(u32),
    /// The entries of each CPU's trace ring.
    Entries(u32),
    /// Tracing is off at first.
    NoTracing,
    Trigger(Trigger),
    User(Spec),
    /// A CPU, which has the next number.
    Cpu {
        quantum: u32,
    },
    Task {
        pid: u32,
        cpu: u32,
    },
    /// An act of the last task.
    Act(TaskAct),
    /// A lane, which has the next number.
    Lane,
    /// A line of control.
    Ctl(ScriptCtl),
    /// Turns of the schedule, and how many steps it has with them.
    Turns {
        turns: Vec<Turn>,
        steps: u32,
    },
}

/// A line that isn't refused: its rank, and what it declares.
#[derive(Drop)]
pub struct Resolved<'a> {
    pub rank: u8,
    pub what: Declaration<'a>,
}
