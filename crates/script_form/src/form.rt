//! What a line says.

use ft_base::{Ctx, Half, Kind};
use ft_schedule::SchedItem;

/// What a user does at its entry callbacks.
#[derive(Clone, Copy)]
pub enum UserAct<'a> {
    /// It calls the function of this name.
    Call { function: &'a str },
    /// It raises an interrupt, which calls the function of this name.
    Irq { function: &'a str },
}

/// The line of a user (`ftrace-uses.rst`, "The ftrace FLAGS").
#[derive(Clone, Copy)]
pub struct UserLine<'a> {
    pub name: &'a str,
    pub kind: Kind,
    /// Whether its callbacks are given the registers.
    pub regs: bool,
    /// The name of the function that runs in place of those that it traces.
    pub ipmodify: Option<&'a str>,
    /// Whether it traces only the tasks that the pid lists allow.
    pub pid: bool,
    pub act: Option<UserAct<'a>>,
}

/// What a line says. A name is letters, digits, `_` and `.`, and may be too long; a number has up to
/// 10 digits, and may be too large.
#[derive(Drop)]
pub enum LineForm<'a> {
    /// Nothing: a blank line, or a comment.
    Skip,
    /// `ftrace 1`, `ftrace 2` or `ftrace 3`: the script is in this version of the language.
    Version {
        number: u8,
    },
    /// There is a function, and the module that it belongs to, if any.
    Func {
        name: &'a str,
        owner: Option<&'a str>,
    },
    /// How many frames a shadow stack has.
    Depth {
        frames: u64,
    },
    /// How many trampoline slots there are.
    Tramps {
        slots: u64,
    },
    /// The module of this name isn't loaded at first.
    Absent {
        owner: &'a str,
    },
    /// How many entries each CPU's trace ring holds (`ftrace.rst`, `buffer_size_kb`).
    Ring {
        entries: u64,
    },
    /// `tracing off`: nothing is written into the rings until a trigger switches tracing on
    /// (`ftrace.rst`, `tracing_on`).
    TracingOff,
    /// The text of a trigger, which switches tracing on or off when functions are called
    /// (`ftrace.rst`, "Filter commands": `traceon` and `traceoff`, with a count).
    Trigger {
        text: &'a str,
    },
    /// There is a user.
    User(UserLine<'a>),
    /// There is a CPU, of this number, whose tasks run for this many steps at a time.
    NewCpu {
        cpu: u64,
        quantum: u64,
    },
    /// There is a task on this CPU.
    NewTask {
        pid: u64,
        cpu: u64,
    },
    /// There is a lane, of this number, of which the commands below are. Each lane is a control script
    /// of its own, and one lock lets their commands through one at a time (`kernel/trace/ftrace.c`,
    /// `ftrace_lock`).
    NewLane {
        lane: u64,
    },
    /// The task calls the function of this name.
    Call {
        function: &'a str,
    },
    /// The task returns from the innermost open call.
    Ret,
    /// `softirq`, `irq` or `nmi`: the task is interrupted.
    Raise {
        to: Ctx,
    },
    /// `iret`: the interrupt is over.
    Lower,
    /// The task waits until this many commands have returned.
    After {
        commands: u64,
    },
    /// The user of this name is registered (`ftrace-uses.rst`, "The ftrace_ops structure").
    Register {
        user: &'a str,
    },
    /// The user of this name is unregistered.
    Unregister {
        user: &'a str,
    },
    /// A text is written to one of the user's two sets (`ftrace.rst`, `set_ftrace_filter` and
    /// `set_ftrace_notrace`). `append` says whether it adds to the set (`>>`). An empty text without
    /// `append` clears the set.
    Write {
        half: Half,
        append: bool,
        user: &'a str,
        text: &'a str,
    },
    /// Only the tasks of these pids are traced, or if `excluded` all others (`ftrace.rst`,
    /// `set_ftrace_pid` and `set_ftrace_notrace_pid`).
    Pids {
        excluded: bool,
        pids: Vec<u64>,
    },
    /// The user of this name is enabled.
    Enable {
        user: &'a str,
    },
    /// The user of this name is disabled.
    Disable {
        user: &'a str,
    },
    /// The graph depth (`ftrace.rst`, `max_graph_depth`).
    MaxDepth {
        depth: u64,
    },
    /// Control waits until the task of this pid has finished this many acts.
    Until {
        pid: u64,
        acts: u64,
    },
    /// The module of this name is loaded, as by `insmod` (`kernel/trace/ftrace.c`, `ftrace_module_enable`).
    Load {
        owner: &'a str,
    },
    /// The module of this name is unloaded, as by `rmmod` (`kernel/trace/ftrace.c`,
    /// `ftrace_release_mod`).
    Unload {
        owner: &'a str,
    },
    /// The next items of the schedule, of which there are one or more.
    Sched {
        items: Vec<SchedItem>,
    },
}
