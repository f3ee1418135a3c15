//! Control's side of a grace period: a wait.

ghost use Rattle.std.specs.Prelude.{◌≡◌, true, false, if◌then◌else◌};
ghost use Rattle.std.specs.Option.{option_map};
ghost use Rattle.word_map.specs.Contents.{low};
ghost use Rattle.word_map.specs.Ops.{placed};
ghost use Rattle.grace_core.specs.Waits.{wait_start, wait_next, wait_got, waiting_for as phase_for, reached as last_reached};

use ft_base::{CpuNo, TaskNo};
use std::marker::Model;
use word_map::{Op, WordMap, quiet};

/// Where a wait stands.
#[derive(Clone, Copy, PartialEq, Eq)]
pub enum WaitPhase {
    /// The request is stored next.
    Asking,
    /// The word of the CPU or task of this number is loaded next. Those of lower numbers have reached
    /// the request.
    Waiting(u32),
    /// All have reached it.
    Ended,
}

/// A wait: it stores a request, and then loads the word of one CPU or task after the other, each until
/// it has reached the request.
#[derive(Drop)]
pub struct Waiter {
    map: WordMap,
    /// Whether it waits for tasks, and not for CPUs.
    quiet: bool,
    request: u32,
    phase: WaitPhase,
}

impl Model for Waiter {
    ghost use Rattle.grace_core.specs.Waits.{Wait};
    ghost use Rattle.grace_core.specs.WaitInvariant.{wait_of, WaitInvariant};

    ghost Value = { Wait };

    ghost view = { wait_of };

    ghost invariant = { WaitInvariant };
}

impl Waiter {
    /// A wait until each CPU has acknowledged this request (`ftrace.rst`, dynamic ftrace: "sync all
    /// CPUs").
    pub fn sync(request: u32, map: WordMap) -> Waiter
        ensures { result ≡ wait_start map false request }
    {
        Waiter {
            map,
            quiet: false,
            request,
            phase: WaitPhase::Asking,
        }
    }

    /// A wait until each task was quiet at this request (`synchronize_rcu_tasks`).
    pub fn quiet(request: u32, map: WordMap) -> Waiter
        ensures { result ≡ wait_start map true request }
    {
        Waiter {
            map,
            quiet: true,
            request,
            phase: WaitPhase::Asking,
        }
    }

    /// The next operation. `None` exactly once the wait is over.
    pub fn next(&self) -> Option<Op>
        ensures { result ≡ option_map (placed self.now.shape) (wait_next self.now) }
    {
        match self.phase {
            // Nobody tells a request that is not stored: if the words came first, the wait would not
            // end. Whoever tells it has loaded it, and so sees all that control stored before it.
            WaitPhase::Asking => Some(Op::Store {
                word: self.map.want(),
                value: u64::from(self.request),
            }),
            WaitPhase::Waiting(n) => {
                let word = if self.quiet {
                    self.map.quiet(TaskNo(n))
                } else {
                    self.map.ack(CpuNo(n))
                };
                Some(Op::Load { word })
            }
            WaitPhase::Ended => None,
        }
    }

    /// Takes the value that the next operation gave.
    pub fn got(&mut self, value: u64)
        ensures { self.new ≡ wait_got self.old value }
    {
        match self.phase {
            WaitPhase::Asking => self.phase = waiting_for(awaited(&self.map, self.quiet), 0),
            WaitPhase::Waiting(n) => {
                // None is passed over: the one that has not told may be within a callback of a user that
                // control is about to call gone, or between the two loads of a call site.
                if u64::from(self.request) <= reached(self.quiet, value) {
                    self.phase = waiting_for(awaited(&self.map, self.quiet), n + 1);
                }
            }
            WaitPhase::Ended => {}
        }
    }
}

/// How many a wait is for: tasks if it is for quiet points, and CPUs if not.
fn awaited(map: &WordMap, quiet: bool) -> u32
    ensures { result ≡ (if quiet then map.now.tasks else map.now.cpus) }
{
    if quiet {
        map.shape().tasks
    } else {
        map.shape().cpus
    }
}

/// The last request that a word says was reached.
fn reached(quiet: bool, word: u64) -> u64
    ensures { result ≡ last_reached quiet word }
{
    if quiet {
        u64::from(quiet::request(word))
    } else {
        word
    }
}

/// The wait for this one of so many, or the end.
fn waiting_for(many: u32, n: u32) -> WaitPhase
    ensures { result ≡ phase_for many n }
{
    if n < many {
        WaitPhase::Waiting(n)
    } else {
        WaitPhase::Ended
    }
}
