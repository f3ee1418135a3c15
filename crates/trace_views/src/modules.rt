//! The lines of the view modules: what loads and unloads modules.

use ft_base::Answer;

/// A line: a module that is loaded or unloaded.
#[derive(Clone, Copy)]
pub struct ModuleLine {
    /// It is loaded, and not unloaded.
    pub load: bool,
    /// The number of the module.
    pub module: u32,
    /// The answer.
    pub answer: Answer,
    /// The number, from 1, of the first command that carries it out.
    pub first: u32,
    /// The number of the last one.
    pub last: u32,
}
