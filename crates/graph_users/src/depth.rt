//! The depth rule (`ftrace.rst`, `max_graph_depth`).

ghost use Rattle.std.specs.Prelude.{◌≡◌, ◌<◌, ◌⊎◌, ◌↔◌, length, drop, IsTrue};
ghost use Rattle.return_stack.specs.Calls.{frames_in};
ghost use Rattle.graph_users.specs.Depth.{MayEnter};

use return_stack::Stacks;

/// Whether a graph or profile user may be called back in the top call: the task's other calls hold
/// fewer frames than `limit`, and fewer than the graph depth, if there is one. A graph depth of 0
/// is none.
pub fn may_enter(stacks: &Stacks, limit: u32, graph_depth: u32) -> bool
    requires { 0 < length stacks.now.calls }
    ensures { IsTrue result ↔ MayEnter (frames_in (drop 1 stacks.now.calls)) limit graph_depth }
{
    let held = stacks.others();
    held < limit && (graph_depth == 0 || held < graph_depth)
}
