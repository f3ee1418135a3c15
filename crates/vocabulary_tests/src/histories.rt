//! Histories and what is counted in them: a module for each crate that is tested, and the histories of both.

ghost use Rattle.std.specs.Prelude.{◌≡◌, ◌<◌, ◌^◌, length, IfOk};

mod items;
mod profiles;

use ft_base::{CallNo, Item, NoMemory, TaskNo};
use ft_hist::History;
use std::alloc::Global;

/// The first call of the first task.
const FIRST: CallNo = CallNo {
    task: TaskNo(0),
    n: 1,
};

/// A history of these items.
fn history_of(alloc: Global, items: &[Item]) -> Result<History, NoMemory>
    requires { length items.now < 2 ^ 32 }
    ensures { IfOk result (λ history. history.items ≡ items.now) }
{
    let mut history = History::with_room(alloc, items.len() as u32)?;
    for item in items {
        history.push(*item);
    }
    Ok(history)
}
