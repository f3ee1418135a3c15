//! Which entry callbacks of a user are leaves: those whose exit is the user's next callback in the
//! task.

ghost use Rattle.std.specs.Prelude.{◌≡◌, ℕ, ◌+◌, ◌<◌, List, [], ◌∷◌, Option, None, length, reverse, slice_index_or, IfOk, OnOk};
ghost use Rattle.ft_base.specs.declared.item.Item.{Item as PlainItem};
ghost use Rattle.trace_views.specs.Leaves.{leaf_exits, exit_for, IsInTasks, AreInTasks};

use ft_base::{Item, NoMemory, TaskNo, UserNo};
use ft_hist::History;
use std::alloc::Global;

/// An exit callback: its place, and that of the entry callback that it belongs to.
#[derive(Clone, Copy)]
pub(crate) struct NextExit {
    place: u32,
    entry: u32,
}

/// The leaves of a user among the items from a place on. A history is gone through from its end, so
/// that each entry callback finds what comes next.
#[derive(Drop)]
pub(crate) struct Leaves {
    /// For each task the user's next callback, if that is an exit.
    next: Vec<Option<NextExit>>,
    /// For each entry callback of the user the place of its exit if it is a leaf, the latest first.
    exits: Vec<Option<u32>>,
}

impl Leaves {
    ghost use Rattle.trace_views.specs.Leaves.{IsLeaves};

    /// Those of a history's end.
    fn new(alloc: Global, tasks: u32) -> Result<Leaves, NoMemory>
        ensures { IfOk result (λ leaves. (u p : ℕ) → IsLeaves u tasks p [] leaves) }
    {
        Ok(Leaves {
            next: vec![in alloc; None; tasks as usize].map_err(|_| NoMemory)?,
            exits: Vec::new(alloc),
        })
    }

    /// Takes in the item at a place before the others.
    fn note(&mut self, place: u32, item: &Item, user: UserNo) -> Result<(), NoMemory>
        requires { IsInTasks (length self.old.next.items) item.now }
        ensures { OnOk result ((rest : List PlainItem)
            → IsLeaves user.0 (length self.old.next.items) (place + 1) rest self.old
            → IsLeaves user.0 (length self.old.next.items) place (item.now ∷ rest) self.new) }
    {
        match *item {
            Item::Back { call, user: whose } => {
                if whose != user {
                    return Ok(());
                }
                let exit = self.exit_of(call.task, place);
                self.next[call.task.0 as usize] = None;
                match self.exits.push(exit) {
                    Ok(_) => Ok(()),
                    Err(_) => Err(NoMemory),
                }
            }
            Item::Exit {
                call,
                user: whose,
                entry,
            } => {
                if whose == user {
                    self.next[call.task.0 as usize] = Some(NextExit { place, entry });
                }
                Ok(())
            }
            _ => Ok(()),
        }
    }

    /// The place of the exit of the entry callback at a place, if it is the user's next callback in
    /// the task.
    fn exit_of(&self, task: TaskNo, place: u32) -> Option<u32>
        requires { task.0 < length self.now.next.items }
        ensures { result ≡ exit_for place (slice_index_or self.now.next.items task.0 None) }
    {
        match self.next[task.0 as usize] {
            Some(next) if next.entry == place => Some(next.place),
            _ => None,
        }
    }
}

/// For each entry callback of the user the place of its exit if it is a leaf, the latest first. Each
/// callback has to be of a task below `tasks`.
pub(crate) fn leaf_exits(
    alloc: Global,
    history: &History,
    tasks: u32,
    user: UserNo,
) -> Result<Vec<Option<u32>>, NoMemory>
    requires { AreInTasks tasks history.now.items }
    ensures { IfOk result (λ exits. exits.items ≡ reverse (leaf_exits user.0 0 history.now.items)) }
{
    let mut leaves = Leaves::new(alloc, tasks)?;
    let mut place = history.len();
    while place > 0 {
        place -= 1;
        leaves.note(place, history.item(place), user)?;
    }
    Ok(leaves.exits)
}
