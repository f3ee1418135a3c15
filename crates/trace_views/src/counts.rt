//! How many items of each kind a history has.

ghost use Rattle.std.specs.Prelude.{◌≡◌, ◌+◌, ◌<◌, ◌^◌, List, [], ◌∷◌, ◌++◌, length};
ghost use Rattle.ft_base.specs.declared.item.Item.{Item};
ghost use Rattle.trace_views.specs.Counted.{AreTotals, IsCounted, HasRoom, with_kind};

use ft_base::{Item, ItemKind};
use ft_hist::History;

/// How many items of some kinds there are.
#[derive(Clone, Copy)]
pub struct Counts {
    /// Calls: items that enter one.
    pub calls: u32,
    /// Entry callbacks.
    pub backs: u32,
    /// Refusals.
    pub refused: u32,
    /// Exit callbacks.
    pub exits: u32,
    /// Misses.
    pub missed: u32,
}

/// How many items there are, and how many of some kinds among them.
#[derive(Clone, Copy)]
pub struct Totals {
    /// All items.
    pub items: u32,
    /// Those of some kinds.
    pub counts: Counts,
}

impl Totals {
    /// Of no items.
    pub fn none() -> Totals
        ensures { AreTotals [] result }
    {
        Totals {
            items: 0,
            counts: no_items(),
        }
    }

    /// Of a history.
    pub fn of(history: &History) -> Totals
        ensures { AreTotals history.now.items result }
    {
        Totals {
            items: history.len(),
            counts: counted(history),
        }
    }

    /// Takes in one more item.
    pub fn add(&mut self, item: &Item)
        requires { (items : List Item) × AreTotals items self.old × (length items + 1 < 2 ^ 32) }
        ensures { (items : List Item) → AreTotals items self.old → AreTotals (items ++ item.now ∷ []) self.new }
    {
        self.items += 1;
        self.counts = with_kind(self.counts, item.kind());
    }
}

/// No item.
fn no_items() -> Counts
    ensures { IsCounted [] result }
{
    Counts {
        calls: 0,
        backs: 0,
        refused: 0,
        exits: 0,
        missed: 0,
    }
}

/// The counts with one more item of a kind.
fn with_kind(counts: Counts, kind: ItemKind) -> Counts
    requires { HasRoom counts }
    ensures { result ≡ with_kind kind counts }
{
    let mut more = counts;
    match kind {
        ItemKind::Enter => more.calls += 1,
        ItemKind::Back => more.backs += 1,
        ItemKind::Refuse => more.refused += 1,
        ItemKind::Exit => more.exits += 1,
        ItemKind::Miss => more.missed += 1,
        _ => {}
    }
    more
}

/// The counts of a history.
pub fn counted(history: &History) -> Counts
    ensures { IsCounted history.now.items result }
{
    let mut counts = no_items();
    for place in 0..history.len() {
        counts = with_kind(counts, history.item(place).kind());
    }
    counts
}
