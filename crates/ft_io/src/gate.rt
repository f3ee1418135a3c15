//! What running threads pass before each of their steps.

/// Passed by each running thread before each of its steps. It answers nothing and has no faults.
pub trait Gate: Sync {
    /// Lets the actor take its next step. Actor 0 is control, and actor c + 1 is CPU c. `step` is
    /// the number of that actor's steps before this one. It stays at `u64::MAX` once it is there.
    fn pass(&self, actor: u32, step: u64);
}

/// The gate that lets every step pass at once.
#[derive(Clone, Copy, PartialEq, Eq)]
pub struct OpenGate;

impl Gate for OpenGate {
    fn pass(&self, _actor: u32, _step: u64) {}
}
