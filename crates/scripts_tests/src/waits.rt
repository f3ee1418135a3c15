//! Small scripts, each with its lowest line that is left waiting.

use ft_base::{FuncNo, TaskAct, TaskNo};
use script_waits::{ControlLine, LinedAct, LinedTask, Wait, deadlock};
use std::alloc::{AllocError, Global};
use std::test::Fail;

/// An act, with the number of its task before it and its line after it.
type Act = (u32, TaskAct, u32);

/// What control waits for, with its line: the task and how many acts of it, or a command.
type Line = (Option<(u32, u32)>, u32);

/// The acts of two tasks, the lines of control, and the lowest line that waits for ever, if any.
type Row = (&'static [Act], &'static [Line], Option<u32>);

const CALL: TaskAct = TaskAct::Call(FuncNo(0));

const COMMAND: Option<(u32, u32)> = None;

/// Puts the acts of the task of this number last.
fn put_acts(acts: &mut Vec<LinedAct>, number: u32, all: &[Act]) -> Result<(), AllocError> {
    for (owner, act, line) in all.iter() {
        if *owner == number {
            acts.push(LinedAct {
                act: *act,
                line: *line,
            })?;
        }
    }
    Ok(())
}

/// The task of this number, with its own of all acts.
fn task(alloc: Global, number: u32, all: &[Act]) -> Result<LinedTask, AllocError> {
    let mut acts = Vec::new(alloc);
    put_acts(&mut acts, number, all)?;
    Ok(LinedTask {
        pid: 1,
        cpu: 0,
        acts,
    })
}

/// What control waits for.
fn wait(until: Option<(u32, u32)>) -> Wait {
    match until {
        Some((task, acts)) => Wait::Until {
            task: TaskNo(task),
            acts,
        },
        None => Wait::Command,
    }
}

/// These lines of control.
fn control(alloc: Global, lines: &[Line]) -> Result<Vec<ControlLine>, AllocError> {
    let mut control = Vec::new(alloc);
    for (until, line) in lines.iter() {
        control.push(ControlLine {
            wait: wait(*until),
            line: *line,
        })?;
    }
    Ok(control)
}

/// Whether the answer for the two tasks and the lines of control of a row is the row's.
fn is_answered(alloc: Global, row: &Row) -> Result<bool, AllocError> {
    let (acts, lines, answer) = row;
    let control = control(alloc, *lines)?;
    let tasks = [task(alloc, 0, *acts)?, task(alloc, 1, *acts)?];
    Ok(deadlock(alloc, &tasks, control.as_slice())? == *answer)
}

static ENDING: [Row; 6] = [
    (&[], &[], None),
    (&[(0, CALL, 3), (0, TaskAct::Ret, 4)], &[(COMMAND, 5)], None),
    (&[(0, TaskAct::After(1), 3)], &[(COMMAND, 4)], None),
    (
        &[(0, TaskAct::After(0), 3)],
        &[(Some((0, 0)), 4), (Some((0, 1)), 5)],
        None,
    ),
    (
        &[(0, CALL, 3), (1, TaskAct::After(1), 5)],
        &[(Some((0, 1)), 6), (COMMAND, 7), (Some((1, 1)), 8)],
        None,
    ),
    (
        &[
            (0, CALL, 3),
            (0, TaskAct::After(1), 4),
            (0, TaskAct::Ret, 5),
            (1, TaskAct::After(2), 7),
        ],
        &[
            (Some((0, 1)), 8),
            (COMMAND, 9),
            (Some((0, 3)), 10),
            (COMMAND, 11),
            (Some((1, 1)), 12),
        ],
        None,
    ),
];

#[test]
fn these_end(rt: HostRuntime) -> Result<(), Fail> {
    for (at, row) in ENDING.iter().enumerate() {
        assert!(rt; is_answered(rt.alloc(), row)?, "row {at}");
    }
    Ok(())
}

static WAITING: [Row; 7] = [
    // The command comes after the wait for the act that waits for it.
    (
        &[(0, TaskAct::After(1), 3)],
        &[(Some((0, 1)), 4), (COMMAND, 5)],
        Some(3),
    ),
    (
        &[(0, TaskAct::After(1), 5)],
        &[(Some((0, 1)), 3), (COMMAND, 4)],
        Some(3),
    ),
    // Two tasks wait, in either order of their lines.
    (
        &[
            (0, CALL, 3),
            (0, TaskAct::After(1), 4),
            (1, TaskAct::After(2), 6),
        ],
        &[],
        Some(4),
    ),
    (
        &[(0, TaskAct::After(1), 9), (1, TaskAct::After(1), 7)],
        &[],
        Some(7),
    ),
    // Control waits for more acts than there are, and the task is at its end.
    (
        &[(0, CALL, 3), (0, TaskAct::Ret, 4)],
        &[(Some((0, 3)), 5)],
        Some(5),
    ),
    // Control waits for the one of two tasks that waits for it.
    (
        &[(0, CALL, 3), (1, TaskAct::After(2), 5)],
        &[(COMMAND, 6), (Some((1, 1)), 7), (COMMAND, 8)],
        Some(5),
    ),
    // A wait of control is no command.
    (
        &[(0, TaskAct::After(2), 3)],
        &[(COMMAND, 4), (Some((0, 0)), 5)],
        Some(3),
    ),
];

#[test]
fn these_wait_for_ever(rt: HostRuntime) -> Result<(), Fail> {
    for (at, row) in WAITING.iter().enumerate() {
        assert!(rt; is_answered(rt.alloc(), row)?, "row {at}");
    }
    Ok(())
}
