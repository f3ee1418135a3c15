//! What holds of items, whatever is called. The law is a function with nothing to do, whose clause
//! says it.

ghost use Rattle.std.specs.Prelude.{◌≡◌, ◌↔◌, Some};
ghost use Rattle.script_text.specs.Lines.{Word};
ghost use Rattle.ft_schedule.specs.declared.item.SchedItem.{SchedItem};
ghost use Rattle.ft_schedule.specs.Items.{item_of};
ghost use Rattle.ft_schedule.specs.Grammar.{HasItem};

/// A word is written for an item by the grammar, which has one rule for each way to write it, if and
/// only if that is the item that the word is read as. So a word that is refused is none that the
/// grammar writes.
pub fn grammar_gives_the_item()
    ensures { (word : Word) (item : SchedItem) → HasItem word item ↔ (item_of word ≡ Some item) }
{}
