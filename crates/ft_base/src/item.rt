//! Items of a history, and what they carry: answers, reasons, and what was fetched.

ghost use Rattle.std.specs.Prelude.{◌≡◌};
ghost use Rattle.ft_base.specs.Items.{call_of, kind_of, user_in};

use crate::context::Ctx;
use crate::number::{CallNo, FuncNo, UserNo};

/// Why a user that is on at a call's function was not called back.
#[derive(Clone, Copy, Debug, PartialEq, Eq)]
pub enum Reason {
    /// It has a pid filter, which the task doesn't pass (`ftrace.rst`, `set_ftrace_pid`).
    Pid,
    /// A callback of the same task and context is open (`ftrace-uses.rst`, "Protect your callback").
    Recursion,
    /// The shadow stack is full, or the graph depth is reached (`ftrace.rst`, `max_graph_depth`).
    Depth,
}

/// What was fetched at a call site.
#[derive(Clone, Copy, Debug, PartialEq, Eq)]
pub enum Ran {
    /// The nop: nobody traces the function.
    Nop,
    /// A call of the list caller, which goes through all users.
    List,
    /// A call of this user's own trampoline.
    Own(UserNo),
}

/// The answer of a command. All but `Accepted` are refusals, and a refused command changes nothing.
#[derive(Clone, Copy, Debug, PartialEq, Eq)]
pub enum Answer {
    Accepted,
    /// The user is registered already.
    Already,
    /// The user isn't registered.
    NotThere,
    /// The command doesn't go with the user's flags, kind or filter.
    Invalid,
    /// The text selects no function.
    NoMatch,
    /// Another registered user replaces this function already (`ftrace-uses.rst`,
    /// `FTRACE_OPS_FL_IPMODIFY`).
    Busy { func: FuncNo, holder: UserNo },
}

/// One item of a history. Its place in the history is the value of the trace clock `counter`
/// (`ftrace.rst`, `trace_clock`).
#[derive(Clone, Copy, Debug, PartialEq, Eq)]
pub enum Item {
    /// Command `k`, from 1, begins.
    Begin {
        k: u32,
    },
    /// Command `k` returns.
    Return {
        k: u32,
        answer: Answer,
    },
    /// The task calls the function; `caller` is the enclosing call.
    Enter {
        call: CallNo,
        ctx: Ctx,
        func: FuncNo,
        caller: Option<CallNo>,
    },
    /// The entry callback of the user begins.
    Back {
        call: CallNo,
        user: UserNo,
    },
    /// The entry callback of the user ends.
    BackEnd {
        call: CallNo,
        user: UserNo,
    },
    /// The user matched and was refused.
    Refuse {
        call: CallNo,
        user: UserNo,
        reason: Reason,
    },
    /// The exit of the user couldn't be set up (`fprobe.rst`, "The missed counter").
    Miss {
        call: CallNo,
        user: UserNo,
    },
    /// The dispatch is over and the body of `func` runs; `ran` is what was fetched.
    Body {
        call: CallNo,
        func: FuncNo,
        ran: Ran,
    },
    /// The body is over.
    Leave {
        call: CallNo,
    },
    /// The exit callback of the user begins; `entry` is the place of its entry callback.
    Exit {
        call: CallNo,
        user: UserNo,
        entry: u32,
    },
    /// The exit callback of the user ends.
    ExitEnd {
        call: CallNo,
        user: UserNo,
    },
    /// The return has reached the call `to`, or the outermost level.
    Ret {
        call: CallNo,
        to: Option<CallNo>,
    },
}

/// What kind of item it is.
#[derive(Clone, Copy)]
pub enum ItemKind {
    Begin,
    Return,
    Enter,
    Back,
    BackEnd,
    Refuse,
    Miss,
    Body,
    Leave,
    Exit,
    ExitEnd,
    Ret,
}

impl Item {
    /// Its kind.
    pub fn kind(&self) -> ItemKind
        ensures { result ≡ kind_of self.now }
    {
        match self {
            Item::Begin { .. } => ItemKind::Begin,
            Item::Return { .. } => ItemKind::Return,
            Item::Enter { .. } => ItemKind::Enter,
            Item::Back { .. } => ItemKind::Back,
            Item::BackEnd { .. } => ItemKind::BackEnd,
            Item::Refuse { .. } => ItemKind::Refuse,
            Item::Miss { .. } => ItemKind::Miss,
            Item::Body { .. } => ItemKind::Body,
            Item::Leave { .. } => ItemKind::Leave,
            Item::Exit { .. } => ItemKind::Exit,
            Item::ExitEnd { .. } => ItemKind::ExitEnd,
            Item::Ret { .. } => ItemKind::Ret,
        }
    }

    /// The call that it is of. `None` for the items of control.
    pub fn call(&self) -> Option<CallNo>
        ensures { result ≡ call_of self.now }
    {
        match *self {
            Item::Begin { .. } | Item::Return { .. } => None,
            Item::Enter { call, .. }
            | Item::Back { call, .. }
            | Item::BackEnd { call, .. }
            | Item::Refuse { call, .. }
            | Item::Miss { call, .. }
            | Item::Body { call, .. }
            | Item::Leave { call }
            | Item::Exit { call, .. }
            | Item::ExitEnd { call, .. }
            | Item::Ret { call, .. } => Some(call),
        }
    }

    /// The user whose callback, refusal or miss it tells. `None` for the other items.
    pub fn user(&self) -> Option<UserNo>
        ensures { result ≡ user_in self.now }
    {
        match *self {
            Item::Back { user, .. }
            | Item::BackEnd { user, .. }
            | Item::Refuse { user, .. }
            | Item::Miss { user, .. }
            | Item::Exit { user, .. }
            | Item::ExitEnd { user, .. } => Some(user),
            Item::Begin { .. }
            | Item::Return { .. }
            | Item::Enter { .. }
            | Item::Body { .. }
            | Item::Leave { .. }
            | Item::Ret { .. } => None,
        }
    }
}

/// An item and its place in the history.
#[derive(Clone, Copy, PartialEq, Eq)]
pub struct Stamped {
    pub place: u32,
    pub item: Item,
}
