//! What a CPU's poll tells.

ghost use Rattle.std.specs.Prelude.{◌≡◌};
ghost use Rattle.grace_core.specs.Views.{acknowledged as acknowledged_for, has_told, told_word};

use word_map::quiet;

/// A task, as the poll of its CPU sees it.
#[derive(Clone, Copy, PartialEq, Eq)]
pub struct TaskView {
    /// How many acts it has finished.
    pub acts: u32,
    /// Whether it is between two acts.
    pub quiet: bool,
    /// Whether it has an act left. If it has none, it is quiet for every request.
    pub left: bool,
    /// What its word holds (`word_map::quiet`): `acts`, and the last request at which it was quiet.
    pub word: u64,
}

impl TaskView {
    /// What the task's word is to hold once this request was loaded.
    pub fn told_word(&self, request: u32) -> u64
        ensures { result ≡ told_word request self.now }
    {
        let reached = if !self.left {
            quiet::ENDED
        } else if self.quiet {
            request
        } else {
            // The task goes on with what it has loaded, also if its CPU polls for another task. Told
            // now, it may be within a callback while the unregistration of its user returns.
            quiet::request(self.word)
        };
        quiet::word(self.acts, reached)
    }

    /// Whether its word is what it is to hold.
    pub fn has_told(&self, request: u32) -> bool
        ensures { result ≡ has_told request self.now }
    {
        self.word == self.told_word(request)
    }
}

/// What a CPU acknowledges once this request was loaded, if a task of it has an act left, or if none
/// has.
pub fn acknowledged(left: bool, request: u32) -> u64
    ensures { result ≡ acknowledged_for left request }
{
    if left {
        u64::from(request)
    } else {
        // The CPU polls no more. With a request, the wait for the next one would not end.
        u64::MAX
    }
}
