//! Commands: they begin and return in order, one at a time, with the answers of the desk, after
//! control's waits.

ghost use Rattle.std.specs.Prelude.{◌+◌, ◌<◌, ◌^◌, List, IsTrue, ◌↔◌};
ghost use Rattle.ft_base.specs.declared.item.Item.{Item};
ghost use Rattle.ft_base.specs.Job.{Job as PlainJob, commands};
ghost use Rattle.ft_hist.specs.Rules.{HasWaited, MayBegin, IsAnswered, KeepsCommands};
ghost use Rattle.history_check.specs.JudgePast.{IsMet, IsPast};

use crate::past::Past;
use ft_base::{Answer, Item, TaskNo};
use ft_desk::Ctl;

/// Whether the next item keeps the rules of commands.
pub fn keeps_commands(past: &Past<'_>, item: &Item) -> bool
    requires done { past.now.done + 1 < 2 ^ 32 }
    requires begun { past.now.begun + 1 < 2 ^ 32 }
    ensures { (job : PlainJob) (items : List Item) → IsPast job items past.now → IsTrue result ↔ KeepsCommands job items item.now }
{
    match *item {
        Item::Begin { k } => may_begin(past, k) && has_waited(past),
        Item::Return { k, answer } => is_answered(past, k, answer),
        _ => true,
    }
}

/// Whether this is the next command, and none is under way.
fn may_begin(past: &Past<'_>, k: u32) -> bool
    requires { past.now.begun + 1 < 2 ^ 32 }
    ensures { (job : PlainJob) (items : List Item) → IsPast job items past.now → IsTrue result ↔ MayBegin job items k }
{
    k == past.begun + 1 && past.begun == past.done && (past.begun as usize) < past.desks.commands()
}

/// Whether the waits before control's next command are met. Those before the commands that have begun are,
/// since a task never goes back.
fn has_waited(past: &Past<'_>) -> bool
    ensures { (job : PlainJob) (items : List Item) → IsPast job items past.now → IsTrue result ↔ HasWaited job items }
{
    for line in past.lines {
        match line {
            Ctl::Until { task, acts } => {
                if !has_done(past, *task, *acts) {
                    return false;
                }
            }
            Ctl::Run(_) => return true,
        }
    }
    true
}

/// Whether a task has done so many acts.
fn has_done(past: &Past<'_>, task: TaskNo, acts: u32) -> bool
    ensures { (job : PlainJob) (items : List Item) → IsPast job items past.now → IsTrue result ↔ IsMet job items (task.0, acts) }
{
    match past.task(task) {
        Some(task) => acts <= task.run.acts_passed(),
        None => acts == 0,
    }
}

/// Whether this is the command under way, and its answer is that of the desk.
fn is_answered(past: &Past<'_>, k: u32, answer: Answer) -> bool
    requires { past.now.done + 1 < 2 ^ 32 }
    ensures { (job : PlainJob) (items : List Item) → IsPast job items past.now → IsTrue result ↔ IsAnswered job items k answer }
{
    if k != past.done + 1 || past.begun != k {
        return false;
    }
    match past.desks.answer(k) {
        Some(due) => due == answer,
        None => false,
    }
}
