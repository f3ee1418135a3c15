//! Lines of control where modules come and go.

use ft_desk::Command;

/// A line of control. A module's number counts from 0 in the order of the modules' first functions.
#[derive(Drop)]
pub enum ModLine {
    /// A command to the tracer. An edit of a notrace set is one of the user's own set.
    Plain(Command),
    /// Loads the module: its functions can be traced from then on.
    Load(u32),
    /// Unloads the module: its functions are hidden from then on.
    Unload(u32),
}
