//! The words in a table, and one operation on them.

ghost use Rattle.std.specs.Prelude.{◌≡◌, ℕ, ◌<◌, true, [], length, reverse, Some, None, IfOk};
ghost use mathlib.Core.Option.{some};
ghost use lib.ListN.{get_elem?};
ghost use Rattle.atomic_table.specs.Table.{Allows, State};
ghost use Rattle.word_map.specs.declared.op.Op.TheVariants.{Mark};
ghost use Rattle.word_map.specs.Places.{len};
ghost use Rattle.word_map.specs.Shapes.{shape_of};
ghost use Rattle.word_machine.specs.Limits.{IsLimited};
ghost use Rattle.word_machine.specs.Machine.{start, opening_words};
ghost use Rattle.ft_machine.specs.Worlds.{words_of};
ghost use Rattle.live_table.specs.Views.{View as SeatView, control_view, led_first};
ghost use Rattle.live_table.specs.AtomicSteps.{MakesOp};
ghost use Rattle.live_table.specs.Operations.{op_after, op_gives, op_word};
ghost use Rattle.live_table.specs.Rule.{LiveRule};

use crate::rule::{Key, Leads, NextLine, Puts, Rules, Takes};
use crate::view::View;
use atomic_table::{Seat, Shared, Table};
use ft_base::NoMemory;
use std::alloc::Global;
use std::marker::Brand;
use word_map::{Op, clock};

/// A table over the words of a job before its first step, with control's seat. The error says that
/// memory ran out.
pub(crate) fn open(
    alloc: Global,
    words: &[u64],
    key: &Key,
) -> Result<(Table<(), View, Key, Rules, Global>, Seat<(), View>), NoMemory>
    requires limited { IsLimited key.now.job.value }
    requires count { length words.now ≡ len (shape_of key.now.job.value) }
    requires opening { words_of key.now.job.value words.now ≡ opening_words key.now.job.value }
    ensures table { IfOk result (λ r. (r.0.shared.key ≡ key.now) × (r.0.shared.table_id.words ≡ len (shape_of key.now.job.value)) × (r.0.shared.table_id.slots ≡ 0)) }
    ensures seat { IfOk result (λ r. (r.1.table_id ≡ r.0.shared.table_id)
        × (r.1.me ≡ (control_view key.now.job.value (led_first key.now.job.value key.now.withheld) 0 [], []))) }
{
    Table::of_words(alloc, words, key).map_err(|_| NoMemory)
}

/// Makes an operation on a word, in a single atomic step. The answer is the value that it gives.
///
/// The table makes each of them sequentially consistent, and its contract lets no weaker order through:
/// the rule speaks of one order of all operations. With a weaker order of
///
/// - a load, a fetch could get a site's byte of before the acknowledgement that its CPU has stored:
///   control would go on patching under it, and the task would run half an instruction;
/// - a store, a request could be seen before what control has stored ahead of it: a CPU would
///   acknowledge bytes that it doesn't see yet, and so would its tasks;
/// - a mark, a call could be counted after the return of a registration whose stores it doesn't see:
///   the user would miss the call.
pub(crate) fn make(shared: &Shared<(), View, Key, Rules>, seat: &mut Seat<(), View>, op: Op) -> u64
    requires table { seat.old.table_id ≡ shared.now.table_id }
    requires word { op_word op < shared.now.table_id.words }
    requires allows { Allows (LiveRule shared.now.key.job.value) shared.now.table_id.slots seat.old.id seat.old.me (op_word op) (op_after op)
        (λ n m. MakesOp None op n seat.old.me m) }
    ensures same { (seat.new.table_id ≡ seat.old.table_id) × (seat.new.id ≡ seat.old.id) }
    ensures took { (n : ℕ) × (result ≡ op_gives op n) × MakesOp None op n seat.old.me seat.new.me }
{
    match op {
        Op::Load { word } => shared.load::<Takes>(seat, word as usize),
        Op::Store { word, value } => {
            shared.store::<Puts>(seat, word as usize, value);
            0
        }
        Op::Mark { command } => shared.fetch_add::<Takes>(seat, 0, clock::mark_weight(command)),
    }
}

/// Marks the Begin of the command at this line, and leads the line, in the same atomic step. The answer
/// is what the clock held.
///
/// Were the Begin marked first and the line led in a step of its own, a command would be under way for
/// a moment that is none of the job so far, and any other line might still come to stand at its place:
/// a call that a CPU begins then would be legal for some of the jobs that may come, and not for others.
pub(crate) fn make_begin(
    shared: &Shared<(), View, Key, Rules>,
    seat: &mut Seat<(), View>,
    line: u32,
) -> u64
    requires table { seat.old.table_id ≡ shared.now.table_id }
    requires word { 0 < shared.now.table_id.words }
    requires allows { Allows (LiveRule shared.now.key.job.value) shared.now.table_id.slots seat.old.id seat.old.me 0 (op_after (Mark true))
        (λ n m. MakesOp (Some line) (Mark true) n seat.old.me m) }
    ensures same { (seat.new.table_id ≡ seat.old.table_id) × (seat.new.id ≡ seat.old.id) }
    ensures took { MakesOp (Some line) (Mark true) result seat.old.me seat.new.me }
{
    make_begin_as::<Brand>(shared, seat, line)
}

/// The same, for a line that has a name.
fn make_begin_as<N: NextLine>(
    shared: &Shared<(), View, Key, Rules>,
    seat: &mut Seat<(), View>,
    line: u32,
) -> u64
    requires line { line ≡ N.line }
    requires table { seat.old.table_id ≡ shared.now.table_id }
    requires word { 0 < shared.now.table_id.words }
    requires allows { Allows (LiveRule shared.now.key.job.value) shared.now.table_id.slots seat.old.id seat.old.me 0 (op_after (Mark true))
        (λ n m. MakesOp (Some line) (Mark true) n seat.old.me m) }
    ensures same { (seat.new.table_id ≡ seat.old.table_id) × (seat.new.id ≡ seat.old.id) }
    ensures took { MakesOp (Some line) (Mark true) result seat.old.me seat.new.me }
{
    shared.fetch_add::<Leads<N>>(seat, 0, clock::mark_weight(true))
}

/// Closes the table. Its rule held to the end, with what the seat knows.
pub(crate) fn settle(table: Table<(), View, Key, Rules, Global>, seat: Seat<(), View>)
    requires table { seat.table_id ≡ table.shared.table_id }
    requires slots { table.shared.table_id.slots ≡ 0 }
    ensures { (t : State (Unit {0}) SeatView) × LiveRule table.shared.key.job.value t × (get_elem? t.views seat.id ≡ some seat.me.0) }
{
    let closed = table.close_with(seat);
    closed.free();
}
