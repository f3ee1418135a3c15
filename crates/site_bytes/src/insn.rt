//! The instruction of a call site.

use ft_base::FuncNo;

/// The instruction of a call site (`ftrace.rst`, "dynamic ftrace").
#[derive(Clone, Copy, PartialEq, Eq)]
pub enum Insn {
    /// A nop: nothing is called.
    Nop,
    /// A call of the list caller, which goes through all users.
    List,
    /// A call of the trampoline of this slot. Slots are below `ft_base::limits::TRAMPS`.
    Own(u8),
}

/// A call site that is to change: its function, and the instruction that it is to have.
#[derive(Clone, Copy, PartialEq, Eq)]
pub struct SiteChange {
    pub func: FuncNo,
    pub insn: Insn,
}
