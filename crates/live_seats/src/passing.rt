//! How a seat passes a gate.

use ft_io::Gate;

/// What a seat passes before a step: a gate, of which nothing is asked but that. That threads share it
/// is no business of what lies under a lock, which one thread has at a time.
pub trait Passing {
    /// Lets the actor take its next step, of which this is the number.
    fn let_pass(&self, actor: u32, step: u64);
}

impl<G: Gate> Passing for G {
    fn let_pass(&self, actor: u32, step: u64) {
        self.pass(actor, step);
    }
}
