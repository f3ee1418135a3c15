//! How a user of the tracer is declared: its kind, and what it does when it is called back.

ghost use Rattle.std.specs.Prelude.{◌≡◌};
ghost use Rattle.ft_base.specs.Kinds.{is_function, is_fprobe, has_depth, has_exit, cancels, wants_frame};

use crate::number::FuncNo;

/// The kind of a user.
#[derive(Clone, Copy, PartialEq, Eq)]
pub enum Kind {
    /// A function tracer (`ftrace.rst`, "function").
    Function,
    /// A function graph tracer (`ftrace.rst`, "function graph tracer").
    Graph,
    /// An fprobe (`fprobe.rst`): with an exit handler or not, and with an entry handler that
    /// cancels the exit or not.
    Fprobe { exit: bool, cancel: bool },
    /// The function profile (`ftrace.rst`, `function_profile_enabled`).
    Profile,
}

impl Kind {
    /// Whether it is a function tracer, whose entry callbacks the trace rings keep (`ftrace.rst`, "The
    /// Tracers").
    pub fn is_function(self) -> bool
        ensures { result ≡ is_function self }
    {
        matches!(self, Kind::Function)
    }

    /// Whether it is an fprobe, which alone can be disabled and enabled (`fprobe.rst`, "The usage of
    /// fprobe").
    pub fn is_fprobe(self) -> bool
        ensures { result ≡ is_fprobe self }
    {
        matches!(self, Kind::Fprobe { .. })
    }

    /// Whether the graph depth holds for it (`ftrace.rst`, `max_graph_depth`): a graph or profile user.
    pub fn has_depth(self) -> bool
        ensures { result ≡ has_depth self }
    {
        matches!(self, Kind::Graph | Kind::Profile)
    }

    /// Whether it is an fprobe with an exit handler.
    pub fn has_exit(self) -> bool
        ensures { result ≡ has_exit self }
    {
        matches!(self, Kind::Fprobe { exit: true, .. })
    }

    /// Whether it is an fprobe whose entry handler cancels the exit (`fprobe.rst`, "The fprobe
    /// entry/exit handler").
    pub fn cancels(self) -> bool
        ensures { result ≡ cancels self }
    {
        matches!(self, Kind::Fprobe { cancel: true, .. })
    }

    /// Whether its entry callback wants a frame of the shadow stack, which its exit callback needs.
    pub fn wants_frame(self) -> bool
        ensures { result ≡ wants_frame self }
    {
        self.has_depth() || self.has_exit()
    }
}

/// What a user does at each of its entry callbacks.
#[derive(Clone, Copy, PartialEq, Eq)]
pub enum Act {
    /// It calls the function in the same context.
    CallIn(FuncNo),
    /// It raises an interrupt that calls the function, if the context is below `Irq`.
    IrqIn(FuncNo),
}

/// One of a user's two sets of functions (`ftrace.rst`, `set_ftrace_filter` and
/// `set_ftrace_notrace`).
#[derive(Clone, Copy, PartialEq, Eq)]
pub enum Half {
    Filter,
    Notrace,
}
