//! How far tasks and control go.

ghost use Rattle.std.specs.Prelude.{◌≡◌, ◌≤◌, ◌<◌, ℕ, true, false, [], List, length, map, get_or, slice_get};
ghost use Rattle.script_waits.specs.declared.script.ControlLine.{ControlLine};
ghost use Rattle.script_waits.specs.Tasks.{lined_task, tracks_of};
ghost use Rattle.script_waits.specs.Greedy.{commands_in, is_command, may_pass_wait, may_pass_act, passes_act, passes_line, Reaches};

use crate::script::{ControlLine, LinedAct, LinedTask, Wait};
use ft_base::TaskAct;

/// How many lines control has passed, and how many commands are among them.
#[derive(Clone, Copy)]
pub struct Place {
    pub lines: usize,
    pub commands: usize,
}

/// Whether an act is passed after this many commands.
fn may_pass_act(act: TaskAct, commands: usize) -> bool
    ensures { result ≡ may_pass_act commands act }
{
    match act {
        TaskAct::After(n) => n as usize <= commands,
        _ => true,
    }
}

/// How many acts a task has passed when it can't go on, if it had passed `from`.
fn go_task(acts: &[LinedAct], from: usize, commands: usize) -> usize
    requires { from ≤ length acts.now }
    ensures up { from ≤ result }
    ensures within { result ≤ length acts.now }
    ensures passed { (k : ℕ) → from ≤ k → k < result → passes_act commands (slice_get acts.now k) ≡ true }
    ensures stops { passes_act commands (slice_get acts.now result) ≡ false }
{
    let mut at = from;
    while at < acts.len() {
        let act = acts[at];
        if !may_pass_act(act.act, commands) {
            break;
        }
        at += 1;
    }
    at
}

/// Lets each task go as far as it can, after this many commands. `at` holds how many acts each has passed.
pub fn go_tasks(tasks: &[LinedTask], at: &mut [usize], commands: usize)
    requires lengths { length at.old ≡ length tasks.now }
    requires within { (t : ℕ) → get_or at.old t 0 ≤ length (get_or (tracks_of (map lined_task tasks.now)) t []) }
    ensures within { (t : ℕ) → get_or at.new t 0 ≤ length (get_or (tracks_of (map lined_task tasks.now)) t []) }
    ensures reached { (lines : List ControlLine) (n : ℕ) → commands ≡ commands_in lines n
        → Reaches (tracks_of (map lined_task tasks.now)) lines (record { acts = at.old; lines = n })
        → Reaches (tracks_of (map lined_task tasks.now)) lines (record { acts = at.new; lines = n }) }
    ensures stops { (t : ℕ) → passes_act commands (slice_get (get_or (tracks_of (map lined_task tasks.now)) t []) (get_or at.new t 0)) ≡ false }
{
    for t in 0..tasks.len() {
        at[t] = go_task(tasks[t].acts.as_slice(), at[t], commands);
    }
}

/// Whether a line of control is passed after this many acts of each task.
fn may_pass_wait(wait: Wait, acts: &[usize]) -> bool
    ensures { result ≡ may_pass_wait acts.now wait }
{
    match wait {
        Wait::Command => true,
        Wait::Until { task, acts: n } => match acts.get(task.0 as usize) {
            Some(passed) => n as usize <= *passed,
            None => n == 0,
        },
    }
}

/// Whether there is a line of control at this place that is passed after this many acts of each task.
fn passes_line(control: &[ControlLine], at: usize, acts: &[usize]) -> bool
    ensures { result ≡ passes_line acts.now (slice_get control.now at) }
{
    match control.get(at) {
        None => false,
        Some(next) => may_pass_wait(next.wait, acts),
    }
}

/// Whether a line of control is a command.
fn is_command(wait: Wait) -> bool
    ensures { result ≡ is_command wait }
{
    match wait {
        Wait::Command => true,
        Wait::Until { .. } => false,
    }
}

/// Where control is when it can't go on, after this many acts of each task, if it was at `from`.
pub fn go_control(control: &[ControlLine], from: Place, acts: &[usize]) -> Place
    requires within { from.lines ≤ length control.now }
    requires few { from.commands ≤ from.lines }
    requires counted { from.commands ≡ commands_in control.now from.lines }
    ensures up { from.lines ≤ result.lines }
    ensures within { result.lines ≤ length control.now }
    ensures few { result.commands ≤ result.lines }
    ensures counted { result.commands ≡ commands_in control.now result.lines }
    ensures passed { (k : ℕ) → from.lines ≤ k → k < result.lines → passes_line acts.now (slice_get control.now k) ≡ true }
    ensures stops { passes_line acts.now (slice_get control.now result.lines) ≡ false }
{
    let mut lines = from.lines;
    let mut commands = from.commands;
    while lines < control.len() {
        if !passes_line(control, lines, acts) {
            break;
        }
        if is_command(control[lines].wait) {
            commands += 1;
        }
        lines += 1;
    }
    Place { lines, commands }
}
