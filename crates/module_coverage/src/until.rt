//! How far control is before it waits for a task.

ghost use Rattle.std.specs.Prelude.{◌≡◌, ◌≤◌, ◌&&◌, ◌==◌, ℕ, nat_le, false, drop, length};
ghost use Rattle.module_coverage.specs.Spans.{commands_to, waits_in};
ghost use Rattle.module_coverage.specs.Walks.{is_wait_for, commands_at};

use script_waits::{ControlLine, Wait};

/// How many of control's lines are above, and how many commands are among them.
#[derive(Clone, Copy)]
pub struct Place {
    pub lines: usize,
    pub commands: usize,
}

/// Whether control waits there until the task has passed so many acts, or more.
fn is_wait_for(wait: Wait, task: usize, acts: usize) -> bool
    ensures { result ≡ is_wait_for task acts wait }
{
    match wait {
        Wait::Command => false,
        Wait::Until {
            task: other,
            acts: number,
        } => { other.0 as usize == task && acts <= number as usize }
    }
}

/// How many commands the line is.
fn commands_at(wait: Wait) -> usize
    ensures value { result ≡ commands_at wait }
    ensures few { result ≤ 1 }
{
    match wait {
        Wait::Command => 1,
        Wait::Until { .. } => 0,
    }
}

/// Where control first waits, from this place on, until the task has passed so many acts, or more; its end if it doesn't.
pub fn until(control: &[ControlLine], from: Place, task: usize, acts: usize) -> Place
    requires { from.commands ≤ from.lines }
    ensures few { result.commands ≤ result.lines }
    ensures passes { (n : ℕ) → acts ≤ n
        → commands_to task n from.commands (drop from.lines (waits_in control.now)) ≡ commands_to task n result.commands (drop result.lines (waits_in control.now)) }
    ensures stops { commands_to task acts result.commands (drop result.lines (waits_in control.now)) ≡ result.commands }
{
    let mut lines = from.lines;
    let mut commands = from.commands;
    while lines < control.len() {
        let wait = control[lines].wait;
        if is_wait_for(wait, task, acts) {
            break;
        }
        commands += commands_at(wait);
        lines += 1;
    }
    Place { lines, commands }
}
