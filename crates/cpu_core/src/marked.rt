//! The items that a CPU has marked.

ghost use Rattle.std.specs.Prelude.{◌≡◌, ◌++◌, ◌∷◌, [], IfOk, IsSome};
ghost use Rattle.cpu_core.specs.Marks.{HasRoom, handed_on, no_marks};

use ft_base::limits::ITEMS;
use ft_base::{Item, NoMemory, Stamped};
use std::alloc::Global;
use std::marker::Model;

/// The items that a CPU has marked, in the order of their places. Contracts see for how many there is
/// room, and how many more a history may have.
#[derive(Drop)]
pub(crate) struct Marked {
    items: Vec<Stamped>,
    /// For how many items the list has room.
    room: u32,
    /// How many can be marked from the list's first one on, of all that a history may have.
    left: u32,
}

impl Model for Marked {
    ghost use Rattle.cpu_core.specs.Marks.{Marks};

    ghost Value = { Marks };

    ghost use Rattle.cpu_core.specs.MarksInvariant.{marks_of, MarksInvariant};

    ghost view = { marks_of };

    ghost invariant = { MarksInvariant };
}

impl Marked {
    /// No item, and room for this many. The error says that memory ran out.
    pub(crate) fn new(alloc: Global, room: u32) -> Result<Marked, NoMemory>
        ensures { IfOk result (λ m. m ≡ no_marks room) }
    {
        let items = Vec::with_capacity(alloc, room as usize).map_err(|_| NoMemory)?;
        Ok(Marked {
            items,
            room,
            left: ITEMS,
        })
    }

    /// All items.
    pub(crate) fn items(&self) -> &[Stamped]
        ensures { result.now ≡ self.now.items }
    {
        self.items.as_slice()
    }

    /// All items; they are used up.
    pub(crate) fn into_items(self) -> Vec<Stamped>
        ensures { result.items ≡ self.items }
    {
        let Marked { items, .. } = self;
        items
    }

    /// One more item.
    pub(crate) fn push(&mut self, stamped: Stamped)
        requires { HasRoom self.old }
        ensures { self.new ≡ record self.old { items = self.old.items ++ stamped ∷ [] } }
    {
        self.items.push_reserved(stamped);
    }

    /// This item is marked, if it is one, and isn't kept.
    pub(crate) fn hand_on(&mut self, item: &Option<Item>)
        requires { IsSome item.now → HasRoom self.old }
        ensures { self.new ≡ handed_on item.now self.old }
    {
        if item.is_some() {
            self.left -= 1;
        }
    }
}
