//! Who takes the items of a job as they are marked.

ghost use Rattle.std.specs.Prelude.{List, ◌∷◌, OnErr, OnOk};
ghost use Rattle.ft_base.specs.declared.item.Item.{Item};
ghost use Rattle.ft_base.specs.Job.{Job as PlainJob};
ghost use Rattle.ft_hist.specs.Rules.{IsLegalPast};
ghost use Rattle.word_machine.specs.Limits.{IsLimited};

use ft_base::{Item, NoMemory};
use ft_hist::History;

/// Who takes the items of a job, one after the other, each when it is marked.
pub trait Taker {
    ghost use Rattle.std.specs.Prelude.{List};
    ghost use Rattle.ft_base.specs.declared.item.Item.{Item};
    ghost use Rattle.ft_base.specs.Job.{Job as PlainJob};

    /// The taker, which was as the first one when it had taken nothing, has taken these items of this
    /// job, the latest first, and no others. What it has made of them and what it keeps of its beginning
    /// are part of it.
    ghost took: { PlainJob → List Item → Self → Self → Type 0 };

    /// The taker has room for one more item.
    ghost has_room: { Self → Type 0 };

    /// Takes room for one more item, if the taker has none. That is before the step that may mark the
    /// item: within a step no memory is taken. Whatever comes, the taker has taken the same items, and
    /// room that it had stays. The error says that it had none, and that memory ran out.
    fn make_room(&mut self) -> Result<(), NoMemory>
        ensures took { (job : PlainJob) (past : List Item) (first : Self) → took job past first self.old → took job past first self.new }
        ensures room { OnOk result (has_room self.new) }
        ensures kept { has_room self.old → has_room self.new }
        ensures full { OnErr result (has_room self.old → ⊥) };

    /// Takes the next item. It takes no memory, since there is room.
    fn take(&mut self, item: Item)
        requires room { has_room self.old }
        requires next { (job : PlainJob) × (past : List Item) × (first : Self) × IsLimited job × took job past first self.old
            × IsLegalPast job (item ∷ past) }
        ensures { (job : PlainJob) (past : List Item) (first : Self) → IsLimited job → took job past first self.old
            → IsLegalPast job (item ∷ past) → took job (item ∷ past) first self.new };
}

impl Taker for History {
    ghost use Rattle.std.specs.Prelude.{◌≡◌, ◌<◌};
    ghost use Rattle.ft_machine.specs.MachineStates.{past_in};

    ghost took = { λ _ past _ history. past_in history ≡ past };

    ghost has_room = { λ history. 0 < history.spare };

    fn make_room(&mut self) -> Result<(), NoMemory> {
        self.make_room()
    }

    fn take(&mut self, item: Item) {
        self.push(item);
    }
}
