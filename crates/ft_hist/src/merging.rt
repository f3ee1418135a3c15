//! Lists of marked items, put in the order of their places.

ghost use Rattle.std.specs.Prelude.{◌≡◌, ◌+◌, ◌≤◌, [], length};
ghost use Rattle.ft_hist.specs.Placing.{AreCounted, ArePlaced, by_place, items_of, placed, total};

use crate::History;
use ft_base::Stamped;

/// Puts marked items in order: each stands at its place in the result. It takes no memory, since
/// the room was taken before.
pub fn merge(room: History, lists: Vec<Vec<Stamped>>) -> History
    requires empty { room.items ≡ [] }
    requires space { total (items_of lists.items) ≤ room.spare }
    requires places { ArePlaced (total (items_of lists.items)) (items_of lists.items) }
    ensures { result.items ≡ by_place (items_of lists.items) }
{
    let mut history = room;
    for list in &lists {
        fill(&mut history, list);
    }
    for list in &lists {
        place(&mut history, list);
    }
    history
}

/// Makes the history as much longer as the list is. What stands there is written over afterwards.
fn fill(history: &mut History, list: &[Stamped])
    requires { length list.now ≤ history.old.spare }
    ensures longer { length history.new.items ≡ length history.old.items + length list.now }
    ensures room { history.old.spare ≤ history.new.spare + length list.now }
{
    for stamped in list {
        history.push(stamped.item);
    }
}

/// Writes each item of the list at its place.
fn place(history: &mut History, list: &[Stamped])
    requires { AreCounted (length history.old.items) list.now }
    ensures { history.new.items ≡ placed history.old.items list.now }
{
    for stamped in list {
        history.set(stamped.place, stamped.item);
    }
}
