//! What loads and unloads modules.

ghost use Rattle.std.specs.Prelude.{◌↔◌, IsTrue};
ghost use Rattle.std.specs.List.Sorted.{IsNonDecreasingBy};

/// From so many commands on a module is loaded, or it isn't.
#[derive(Clone, Copy)]
pub struct Change {
    /// The number of the module.
    pub module: u32,
    /// It is loaded from there on, and not away.
    pub load: bool,
    /// How many commands have returned then.
    pub at: u32,
}

/// Whether each change comes after as many commands as the one above it, or more.
pub fn are_in_order(changes: &[Change]) -> bool
    ensures { IsTrue result ↔ IsNonDecreasingBy (λ change. change.at) changes.now }
{
    for i in 1..changes.len() {
        if changes[i].at < changes[i - 1].at {
            return false;
        }
    }
    true
}
