//! A gate that notes its passes.

use ft_io::Gate;
use std::sync::atomic::{AtomicBool, AtomicU64, Ordering};

/// Control, two CPUs and two lanes.
const ACTORS: usize = 5;

/// Notes how often each actor passes, and whether it passes with the numbers 0, 1, 2 and so on, each
/// once.
///
/// Relaxed is enough, and orders nothing that the threads don't order themselves: no other memory hangs
/// on these words, and they are read when the threads have been joined.
#[derive(Drop)]
pub struct Tally {
    passes: [AtomicU64; ACTORS],
    broken: AtomicBool,
}

impl Tally {
    /// Nobody has passed yet.
    pub fn new() -> Tally {
        Tally {
            passes: [
                AtomicU64::new(0),
                AtomicU64::new(0),
                AtomicU64::new(0),
                AtomicU64::new(0),
                AtomicU64::new(0),
            ],
            broken: AtomicBool::new(false),
        }
    }

    /// How often each actor has passed.
    pub fn passes(&self) -> [u64; ACTORS] {
        let [control, first, second, lane, other] = &self.passes;
        [control, first, second, lane, other].map(|passes| passes.load(Ordering::Relaxed))
    }

    /// Whether an actor passed with another number than how often it had passed before, or one passed
    /// that isn't noted.
    pub fn is_broken(&self) -> bool {
        self.broken.load(Ordering::Relaxed)
    }
}

impl Gate for Tally {
    fn pass(&self, actor: u32, step: u64) {
        let place = match actor {
            0..=2 => actor as usize,
            100 => 3,
            101 => 4,
            _ => ACTORS,
        };
        let before = self
            .passes
            .get(place)
            .map(|passes| passes.fetch_add(1, Ordering::Relaxed));
        if before != Some(step) {
            self.broken.store(true, Ordering::Relaxed);
        }
    }
}
