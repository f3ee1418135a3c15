//! What a history is judged to be.

/// A part of legality, in the order in which they are judged.
#[derive(Clone, Copy)]
pub enum Rule {
    /// The items of a task are a run of its acts on an ordinary stack of calls.
    PlainRun,
    /// A user that is visited is on at the called function; at most once a call, the latest registered
    /// first; and none of its callbacks is running when it has been unregistered or disabled.
    Callbacks,
    /// A user that isn't visited in a call was off at some time of its window.
    Silence,
    /// A user is refused for the first reason that holds, and is called back only if none does.
    Refusals,
    /// Misses, exits, their order, and those that lack.
    Exits,
    /// What ran at the call site was its target, and lets in those that were visited.
    Fetches,
    /// Commands begin and return in order, one at a time, with the answers of the desk.
    Commands,
}

/// What a history is judged to be.
#[derive(Clone, Copy)]
pub enum Verdict {
    /// It is legal, all commands have returned, and each task is at the end of its run.
    Whole,
    /// It is legal, and isn't whole.
    Legal,
    /// The items before `place` are legal, and with the item at `place` they aren't: this part is the
    /// first that fails there.
    Broken { place: u32, rule: Rule },
}
