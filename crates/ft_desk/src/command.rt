//! What control can be told to do.

ghost use Rattle.std.specs.Prelude.{◌≡◌, ℕ, IfOk, option_map};
ghost use Rattle.ft_base.specs.Job.{takes_off, user_of};
ghost use Rattle.ft_desk.specs.Commands.{command_of};

use ft_base::{NoMemory, TaskNo, UserNo};
use site_set::Edit;

/// A command to the tracer.
#[derive(Debug, Drop)]
pub enum Command {
    /// Registers the user (`ftrace-uses.rst`, "The ftrace_ops structure").
    Register(UserNo),
    /// Unregisters the user (the same section).
    Unregister(UserNo),
    /// Edits the user's filter (`ftrace.rst`, `set_ftrace_filter`).
    Filter(UserNo, Edit),
    /// Edits the user's notrace set (`ftrace.rst`, `set_ftrace_notrace`).
    Notrace(UserNo, Edit),
    /// Replaces the pid list (`ftrace.rst`, `set_ftrace_pid`). The mask has a bit for each task;
    /// bits of no task are ignored.
    Pid(u64),
    /// Replaces the nopid list (`ftrace.rst`, `set_ftrace_notrace_pid`), by a mask too.
    NoPid(u64),
    /// Enables the user, an fprobe (`fprobe.rst`, "The usage of fprobe").
    Enable(UserNo),
    /// Disables the user, an fprobe (the same section).
    Disable(UserNo),
    /// Sets the graph depth; 0 means no limit (`ftrace.rst`, `max_graph_depth`).
    MaxDepth(u32),
}

impl Command {
    /// The user that the command names, if it names one.
    pub fn user(&self) -> Option<UserNo>
        ensures { (tasks : ℕ) → option_map (λ u. u.0) result ≡ user_of (command_of tasks self.now) }
    {
        match self {
            Command::Register(user)
            | Command::Unregister(user)
            | Command::Filter(user, _)
            | Command::Notrace(user, _)
            | Command::Enable(user)
            | Command::Disable(user) => Some(*user),
            Command::Pid(_) | Command::NoPid(_) | Command::MaxDepth(_) => None,
        }
    }

    /// The user that the command takes off if it is accepted: none of its callbacks is open when the
    /// command has returned.
    pub fn takes_off(&self) -> Option<UserNo>
        ensures { (tasks : ℕ) → option_map (λ u. u.0) result ≡ takes_off (command_of tasks self.now) }
    {
        match self {
            Command::Unregister(user) | Command::Disable(user) => Some(*user),
            Command::Register(_)
            | Command::Filter(_, _)
            | Command::Notrace(_, _)
            | Command::Pid(_)
            | Command::NoPid(_)
            | Command::Enable(_)
            | Command::MaxDepth(_) => None,
        }
    }

    /// An equal command. The error says that memory ran out.
    pub fn copy(&self) -> Result<Command, NoMemory>
        ensures { IfOk result (λ copy. copy ≡ self.now) }
    {
        match self {
            Command::Register(user) => Ok(Command::Register(*user)),
            Command::Unregister(user) => Ok(Command::Unregister(*user)),
            Command::Filter(user, edit) => Ok(Command::Filter(*user, copy_edit(edit)?)),
            Command::Notrace(user, edit) => Ok(Command::Notrace(*user, copy_edit(edit)?)),
            Command::Pid(mask) => Ok(Command::Pid(*mask)),
            Command::NoPid(mask) => Ok(Command::NoPid(*mask)),
            Command::Enable(user) => Ok(Command::Enable(*user)),
            Command::Disable(user) => Ok(Command::Disable(*user)),
            Command::MaxDepth(depth) => Ok(Command::MaxDepth(*depth)),
        }
    }
}

/// A line of control.
#[derive(Drop)]
pub enum Ctl {
    /// Carries out a command.
    Run(Command),
    /// Waits until the task has finished this many acts.
    Until { task: TaskNo, acts: u32 },
}

impl Ctl {
    /// An equal line. The error says that memory ran out.
    pub fn copy(&self) -> Result<Ctl, NoMemory>
        ensures { IfOk result (λ ctl. ctl ≡ self.now) }
    {
        match self {
            Ctl::Run(command) => Ok(Ctl::Run(command.copy()?)),
            Ctl::Until { task, acts } => Ok(Ctl::Until {
                task: *task,
                acts: *acts,
            }),
        }
    }
}

/// An equal edit.
fn copy_edit(edit: &Edit) -> Result<Edit, NoMemory>
    ensures { IfOk result (λ copy. copy ≡ edit.now) }
{
    Ok(Edit {
        append: edit.append,
        remove: edit.remove,
        clear: edit.clear,
        set: edit.set.copy().map_err(|_| NoMemory)?,
    })
}
