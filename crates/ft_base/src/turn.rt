//! Whose turn it is.

use crate::number::CpuNo;

/// Who steps: control, which carries out the commands, or a CPU.
#[derive(Clone, Copy, PartialEq, Eq)]
pub enum Actor {
    Control,
    Cpu(CpuNo),
}

/// Whose turns an entry of a schedule has.
#[derive(Clone, Copy, PartialEq, Eq)]
pub enum Who {
    Control,
    Cpu(CpuNo),
    /// Control and then each CPU in order, at each count.
    All,
}

/// An entry of a schedule: `count` turns, one after the other.
#[derive(Clone, Copy, PartialEq, Eq)]
pub struct Turn {
    pub who: Who,
    pub count: u32,
}
