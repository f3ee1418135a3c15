//! A user of the tracer as a script declares it.

ghost use Rattle.std.specs.Prelude.{◌≡◌};
ghost use Rattle.ft_base.specs.Kinds.{has_depth, wants_frame};

use ft_base::{Act, FuncNo, Kind};

/// A user of the tracer as a script declares it (`ftrace-uses.rst`, "The ftrace FLAGS").
#[derive(PartialEq, Eq, Drop)]
pub struct Spec {
    /// Its name, by which the script names it.
    pub name: String,
    /// What it traces, and whether it is called back at returns too.
    pub kind: Kind,
    /// Whether its callbacks are given the registers.
    pub regs: bool,
    /// The function that runs in the place of those that it traces, if it replaces them.
    pub ipmodify: Option<FuncNo>,
    /// Whether it traces only the tasks that the pid lists allow.
    pub pid: bool,
    /// What it does at each of its entry callbacks, beside tracing.
    pub act: Option<Act>,
}

/// Whether the user's entry callback wants a frame of the shadow stack, which its exit callback
/// needs: a graph or profile user, or an fprobe with an exit handler.
pub fn wants_frame(spec: &Spec) -> bool
    ensures { result ≡ wants_frame spec.now.kind }
{
    spec.kind.wants_frame()
}

/// Whether the graph depth holds for the user (`ftrace.rst`, `max_graph_depth`): a graph or profile
/// user.
pub fn has_depth(spec: &Spec) -> bool
    ensures { result ≡ has_depth spec.now.kind }
{
    spec.kind.has_depth()
}
