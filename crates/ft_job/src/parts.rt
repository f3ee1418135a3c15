//! What a script declares, which a job is made of.

use filter_commands::Trigger;
use ft_base::Answer;
use ft_desk::Ctl;
use ft_schedule::Schedule;
use func_table::FuncTable;
use user_specs::{CpuPlan, Spec};

/// A line of a script that loads or unloads a module.
#[derive(Clone, Copy)]
pub struct ModRow {
    /// It loads the module, and doesn't unload it.
    pub load: bool,
    /// The number of the module. Modules are numbered from 0 in the order of their first functions.
    pub module: u32,
    /// Its answer.
    pub answer: Answer,
    /// The number, from 1, of the first command that carries it out.
    pub first: u32,
    /// The number of the last one.
    pub last: u32,
}

/// What a script declares. The limits are those of `ft_base::limits`.
#[derive(Drop)]
pub struct JobParts {
    /// The version of the language that the script is in: 1, 2 or 3.
    pub version: u8,
    /// The traceable functions.
    pub table: FuncTable,
    /// The users.
    pub specs: Vec<Spec>,
    /// How many frames each task's shadow stack has.
    pub frames: u32,
    /// How many trampolines there are.
    pub tramps: u8,
    /// The CPUs in order, each with its quantum and its tasks. Tasks are numbered from 0 over all
    /// CPUs.
    pub cpus: Vec<CpuPlan>,
    /// What control does, in order.
    pub ctls: Vec<Ctl>,
    /// Whose turn it is, step by step.
    pub schedule: Schedule,
    /// The lane of each command, if control's lines come in lanes; else nothing.
    pub lanes: Vec<u32>,
    /// The modules that aren't loaded at first, by number.
    pub absent: Vec<u32>,
    /// The lines that load and unload modules, in order.
    pub modules: Vec<ModRow>,
    /// How many entries each CPU's trace ring holds.
    pub ring: u32,
    /// Whether tracing is on at first.
    pub tracing: bool,
    /// What switches tracing on and off, in order.
    pub triggers: Vec<Trigger>,
}
