//! How many there are of each thing.

/// How many functions, users, CPUs, tasks and trampoline slots there are. A number of one of these
/// is *in the shape* if it is below its number here.
#[derive(Clone, Copy, PartialEq, Eq)]
pub struct Shape {
    /// At most `ft_base::limits::FUNCS`.
    pub funcs: u32,
    /// At most `ft_base::limits::USERS`.
    pub users: u32,
    /// At most `ft_base::limits::CPUS`.
    pub cpus: u32,
    /// At most `ft_base::limits::TASKS`.
    pub tasks: u32,
    /// At most `ft_base::limits::TRAMPS`.
    pub tramps: u8,
}
