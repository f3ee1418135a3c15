//! What a script may have at most, and what holds if it says nothing. Each limit has its one name
//! here, which code, clauses and definitions cite. Of functions, users, trampoline slots and levels of
//! recursion each version of the language has its own limit (`Limits::of`); what is here as a constant
//! without a version is what the layout of words, bytes and frames has room for, in all versions.

ghost use Rattle.std.specs.Prelude.{◌≡◌};
ghost use Rattle.ft_base.specs.Versions.{has_looks, limits_of};

/// The latest version of the language.
pub const VERSION: u8 = 3;

/// From this version on a script has the largest limits.
pub const LARGEST_SINCE: u8 = 2;

/// From this version on a CPU answers requests before the steps of its tasks, and plain users aren't
/// asked whether they are on.
pub const LOOKS_SINCE: u8 = 3;

/// CPUs.
pub const CPUS: u32 = 8;

/// Tasks, over all CPUs. A mask of tasks is one word of 64 bits.
pub const TASKS: u32 = 64;

/// Users. A frame of a shadow stack has room for the exits of so many.
pub const USERS: u32 = 64;

/// Users in version 1.
pub const USERS_IN_VERSION_1: u32 = 16;

/// Trampoline slots, also if a script doesn't say. Their addresses come after those of all functions
/// and of the list caller.
pub const TRAMPS: u32 = 64;

/// Trampoline slots in version 1, also if a script doesn't say.
pub const TRAMPS_IN_VERSION_1: u32 = 16;

/// Functions. So many have an address below that of the list caller.
pub const FUNCS: u32 = 4_096;

/// Functions in version 1.
pub const FUNCS_IN_VERSION_1: u32 = 1_024;

/// Callbacks of a task that can be open at a time in one context.
pub const GUARD_LEVELS: u8 = 2;

/// The same in version 1.
pub const GUARD_LEVELS_IN_VERSION_1: u8 = 1;

/// Commands.
pub const COMMANDS: u32 = 1_024;

/// Waits of control.
pub const UNTILS: u32 = 1_024;

/// Acts, over all tasks.
pub const ACTS: u32 = 20_000;

/// Scripted calls of a task that are open at a time.
pub const LEVELS: u32 = 512;

/// Frames of a task's shadow stack.
pub const FRAMES: u32 = 64;

/// Frames of a task's shadow stack if a script doesn't say.
pub const USUAL_FRAMES: u32 = 50;

/// The greatest graph depth.
pub const GRAPH_DEPTH: u32 = 512;

/// Items that the scripted calls can make, by the bound for one call.
pub const ITEMS: u32 = 4_000_000;

/// Entries of a CPU's trace ring if a script doesn't say.
pub const USUAL_RING: u32 = 1_024;

/// The most entries of a CPU's trace ring. The least is 1.
pub const RING: u32 = 65_536;

/// Triggers.
pub const TRIGGERS: u32 = 8;

/// The most times that a trigger with a limit may fire. The least is 1.
pub const TRIGGER_LIMIT: u32 = 1_000_000;

/// Lanes.
pub const LANES: u32 = 8;

/// Steps of a schedule.
pub const STEPS: u32 = 4_000_000;

/// Turns of control and of each CPU if a script has no schedule.
pub const USUAL_TURNS: u32 = 400_000;

/// The greatest quantum of a CPU, in steps.
pub const QUANTUM: u32 = 1_000_000;

/// The greatest pid. The least is 1.
pub const PID: u32 = 4_194_304;

/// Bytes of a name.
pub const NAME_BYTES: u32 = 63;

/// Bytes of a glob.
pub const PATTERN_BYTES: u32 = 255;

/// Bytes of a script.
pub const INPUT_BYTES: u32 = 16_777_216;

/// Whether CPUs of this version answer requests before the steps of their tasks, and plain users aren't
/// asked whether they are on.
pub fn has_looks(version: u8) -> bool
    ensures { result ≡ has_looks version }
{
    version >= LOOKS_SINCE
}

/// What a script of a version may have at most of what differs by version.
#[derive(Clone, Copy, PartialEq, Eq)]
pub struct Limits {
    /// Functions.
    pub funcs: u32,
    /// Users.
    pub users: u32,
    /// Trampoline slots, also if a script doesn't say.
    pub tramps: u8,
    /// Levels of each guard: how many callbacks of a task can be open at a time in one context.
    pub levels: u8,
}

impl Limits {
    /// The limits of a version of the language: the largest from version 2 on, and otherwise those of
    /// version 1.
    pub fn of(version: u8) -> Limits
        ensures { result ≡ limits_of version }
    {
        if version >= LARGEST_SINCE {
            Limits {
                funcs: FUNCS,
                users: USERS,
                tramps: TRAMPS as u8,
                levels: GUARD_LEVELS,
            }
        } else {
            Limits {
                funcs: FUNCS_IN_VERSION_1,
                users: USERS_IN_VERSION_1,
                tramps: TRAMPS_IN_VERSION_1 as u8,
                levels: GUARD_LEVELS_IN_VERSION_1,
            }
        }
    }
}
