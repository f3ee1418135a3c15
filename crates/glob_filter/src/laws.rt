//! Laws of patterns. Each is a function with an empty body, whose clause says it.

ghost use Rattle.std.specs.Prelude.{◌≡◌, ◌↔◌, ℕ, List, IsTrue};
ghost use Rattle.glob_filter.specs.Items.{Item, items_of};
ghost use Rattle.glob_filter.specs.Grammar.{HasItems};
ghost use Rattle.glob_filter.specs.Matching.{Fits, is_fit};

/// The test that `matches` computes passes exactly if the name can be cut into pieces that the items
/// match in order.
pub fn test_is_the_relation()
    ensures { (items : List Item) (name : List ℕ) → IsTrue (is_fit items name) ↔ Fits items name }
{}

/// The grammar gives each text one list of items, which is the one that `read` gives.
pub fn grammar_gives_the_items()
    ensures { (text : List ℕ) (items : List Item) → HasItems text items ↔ (items ≡ items_of text) }
{}
