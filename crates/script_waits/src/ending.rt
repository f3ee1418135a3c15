//! Whether all come to their ends.

ghost use Rattle.std.specs.Prelude.{◌≡◌, ◌<◌, ℕ, List, map, get_or, Option, IfOk};
ghost use Rattle.ft_base.specs.declared.number.TaskNo.{TaskNo};
ghost use Rattle.script_waits.specs.declared.script.ControlLine.{ControlLine};
ghost use Rattle.script_waits.specs.declared.script.LinedAct.{LinedAct};
ghost use Rattle.script_waits.specs.Tasks.{lined_task, tracks_of};
ghost use Rattle.script_waits.specs.Greedy.{commands_in, next_act, next_line, IsDeadlock, IsGreatest, Passed};

use crate::progress::{Place, go_control, go_tasks};
use crate::script::{ControlLine, LinedTask, Wait};
use crate::waiting::lowest;
use ft_base::TaskAct;
use std::alloc::{AllocError, Global};

/// The lowest line of the script at which a task or control is left waiting when nobody can go on. `None` exactly if
/// all come to their ends.
pub fn deadlock(
    alloc: Global,
    tasks: &[LinedTask],
    control: &[ControlLine],
) -> Result<Option<u32>, AllocError>
    ensures { IfOk result (IsDeadlock (tracks_of (map lined_task tasks.now)) control.now) }
{
    let mut at: Vec<usize> = vec![in alloc; 0usize; tasks.len()]?;
    let mut place = Place {
        lines: 0,
        commands: 0,
    };
    // Tasks wait for commands alone, so once control stays where it is, no task can go on either.
    loop {
        go_tasks(tasks, at.as_mut_slice(), place.commands);
        let next = go_control(control, place, at.as_slice());
        if next.lines == place.lines {
            break;
        }
        place = next;
    }
    Ok(lowest(tasks, at.as_slice(), control, place.lines))
}

/// A script has exactly one answer, whatever the order in which tasks and control go.
pub fn deadlock_is_one()
    ensures some { (tracks : List (List LinedAct)) (lines : List ControlLine) → (lowest : Option ℕ) × IsDeadlock tracks lines lowest }
    ensures one { (tracks : List (List LinedAct)) (lines : List ControlLine) (a b : Option ℕ)
        → IsDeadlock tracks lines a → IsDeadlock tracks lines b → a ≡ b }
{}

/// When nobody can go on, a task that isn't at its end is at an act `After(n)` with fewer than n commands passed, and
/// control, if it isn't at its end, is at a wait for more acts than the task has passed.
pub fn whoever_is_left_waits()
    ensures task { (tracks : List (List LinedAct)) (lines : List ControlLine) (p : Passed) (t : ℕ) (act : LinedAct)
        → IsGreatest tracks lines p → next_act tracks lines p t ≡ Some act
        → (n : ℕ) × (act.act ≡ TaskAct.After n) × (commands_in lines p.lines < n) }
    ensures control { (tracks : List (List LinedAct)) (lines : List ControlLine) (p : Passed) (next : ControlLine)
        → IsGreatest tracks lines p → next_line tracks lines p ≡ Some next
        → (task : TaskNo) × (n : ℕ) × (next.wait ≡ Wait.Until task n) × (get_or p.acts task.0 0 < n) }
{}
