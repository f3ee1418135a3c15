//! The lowest line at which a task or control is left.

ghost use Rattle.std.specs.Prelude.{◌≡◌, length, map, slice_get, option_map};
ghost use Rattle.script_waits.specs.Tasks.{lined_task, tracks_of};
ghost use Rattle.script_waits.specs.Greedy.{IsLeast, lower_of, Waits};

use crate::script::{ControlLine, LinedAct, LinedTask};

/// The lower of two lines, each of which may be missing.
pub fn lower(a: Option<u32>, b: Option<u32>) -> Option<u32>
    ensures { result ≡ lower_of a b }
{
    match (a, b) {
        (None, _) => b,
        (_, None) => a,
        (Some(x), Some(y)) => { if x <= y { a } else { b } }
    }
}

/// The line of the act at this place, if there is one.
fn act_line(acts: &[LinedAct], at: usize) -> Option<u32>
    ensures { result ≡ option_map (λ act. act.line) (slice_get acts.now at) }
{
    acts.get(at).map(|act| act.line)
}

/// The line of control's line at this place, if there is one.
fn control_line(control: &[ControlLine], at: usize) -> Option<u32>
    ensures { result ≡ option_map (λ next. next.line) (slice_get control.now at) }
{
    control.get(at).map(|next| next.line)
}

/// The lowest line at which a task or control is, after this many acts of each task and lines of control.
pub fn lowest(
    tasks: &[LinedTask],
    at: &[usize],
    control: &[ControlLine],
    lines: usize,
) -> Option<u32>
    requires { length at.now ≡ length tasks.now }
    ensures { IsLeast (Waits (tracks_of (map lined_task tasks.now)) control.now (record { acts = at.now; lines = lines })) result }
{
    let mut low = control_line(control, lines);
    for t in 0..tasks.len() {
        low = lower(low, act_line(tasks[t].acts.as_slice(), at[t]));
    }
    low
}
