//! The words in a table, and single operations on them.

ghost use Rattle.std.specs.Prelude.{◌≡◌, ℕ, ◌+◌, ◌<◌, ◌≤◌, List, ◌∷◌, [], suc, length, replicate, IfOk};
ghost use mathlib.Core.Option.{some};
ghost use lib.ListN.{get_elem?};
ghost use Rattle.atomic_table.specs.Table.{State};
ghost use Rattle.ft_base.specs.declared.limits.TheConstants.{ITEMS};
ghost use Rattle.ring_rules.specs.Hits.{trigger};
ghost use Rattle.ring_rules.specs.Plan.{IsPlan};
ghost use Rattle.ring_table.specs.declared.view.Known.{Known as SeatKnown};
ghost use Rattle.ring_table.specs.Views.{View as SeatView, cpu_view, first_view, nothing, view, Part as SeatPart};
ghost use Rattle.ring_table.specs.Rule.{RingRule};
ghost use Rattle.ring_table.specs.Tally.{bit, drawn, fired_of, hits_of, looked, switched_to};
ghost use Rattle.dealt_seats.specs.Views.{joined};

use crate::rule::{Deals, Draws, Gathers, Looks, Rules, Switches};
use crate::view::View;
use atomic_table::{Seat, Shared, Table};
use ft_base::NoMemory;
use ring_rules::TracePlan;
use std::alloc::Global;

/// A table over the words before the first step, with the first seat. The error says that memory ran
/// out.
pub(crate) fn open(
    alloc: Global,
    words: &[u64],
    plan: &TracePlan,
) -> Result<(Table<(), View, TracePlan, Rules, Global>, Seat<(), View>), NoMemory>
    requires plan { IsPlan plan.now }
    requires words { words.now ≡ bit plan.now.tracing ∷ replicate (length plan.now.triggers) 0 }
    ensures table { IfOk result (λ r. (r.0.shared.key ≡ plan.now) × (r.0.shared.table_id.words ≡ suc (length plan.now.triggers)) × (r.0.shared.table_id.slots ≡ 0)) }
    ensures seat { IfOk result (λ r. (r.1.table_id ≡ r.0.shared.table_id) × (r.1.me ≡ (first_view plan.now 0, []))) }
{
    Table::of_words(alloc, words, plan).map_err(|_| NoMemory)
}

/// The words before the first step. The error says that memory ran out.
pub(crate) fn first_words(alloc: Global, plan: &TracePlan) -> Result<Vec<u64>, NoMemory>
    ensures { IfOk result (λ v. v.items ≡ bit plan.now.tracing ∷ replicate (length plan.now.triggers) 0) }
{
    plan.limits();
    let count = plan.trigger_count();
    let mut words = Vec::with_capacity(alloc, 1 + count as usize).map_err(|_| NoMemory)?;
    words.push_reserved(bit_of(plan.tracing()));
    for i in 0..count {
        let _number = i;
        words.push_reserved(0);
    }
    Ok(words)
}

/// Draws a ticket of a trigger: how many were drawn before, by this CPU and all others.
pub(crate) fn draw(
    shared: &Shared<(), View, TracePlan, Rules>,
    seat: &mut Seat<(), View>,
    i: u32,
) -> u64
    requires table { seat.old.table_id ≡ shared.now.table_id }
    requires words { shared.now.table_id.words ≡ suc (length shared.now.key.triggers) }
    requires trigger { i < length shared.now.key.triggers }
    requires view { (c : ℕ) × (k : SeatKnown) × (seat.old.me ≡ (cpu_view shared.now.key c k, [])) × (hits_of k i < ITEMS) }
    ensures same { (seat.new.table_id ≡ seat.old.table_id) × (seat.new.id ≡ seat.old.id) }
    ensures drawn { (c : ℕ) (k : SeatKnown) → seat.old.me ≡ (cpu_view shared.now.key c k, []) → seat.new.me ≡ (cpu_view shared.now.key c (drawn shared.now.key i result k), []) }
    ensures own { (c : ℕ) (k : SeatKnown) → seat.old.me ≡ (cpu_view shared.now.key c k, []) → hits_of k i ≤ result }
{
    shared.fetch_add::<Draws>(seat, 1 + i as usize, 1)
}

/// The word of a switch.
pub(crate) fn bit_of(on: bool) -> u64
    ensures { result ≡ bit on }
{
    if on { 1 } else { 0 }
}

/// Switches tracing as a trigger does of which a hit of this CPU has fired.
pub(crate) fn switch(
    shared: &Shared<(), View, TracePlan, Rules>,
    seat: &mut Seat<(), View>,
    i: u32,
    on: bool,
)
    requires table { seat.old.table_id ≡ shared.now.table_id }
    requires words { shared.now.table_id.words ≡ suc (length shared.now.key.triggers) }
    requires trigger { (i < length shared.now.key.triggers) × ((trigger shared.now.key i).on ≡ on) }
    requires view { (c : ℕ) × (k : SeatKnown) × (seat.old.me ≡ (cpu_view shared.now.key c k, [])) × (0 < fired_of k i) }
    ensures same { (seat.new.table_id ≡ seat.old.table_id) × (seat.new.id ≡ seat.old.id) }
    ensures switched { (c : ℕ) (k : SeatKnown) → seat.old.me ≡ (cpu_view shared.now.key c k, []) → seat.new.me ≡ (cpu_view shared.now.key c (switched_to on k), []) }
{
    shared.store::<Switches>(seat, 0, bit_of(on));
}

/// Looks whether tracing is on.
pub(crate) fn look(shared: &Shared<(), View, TracePlan, Rules>, seat: &mut Seat<(), View>) -> bool
    requires table { seat.old.table_id ≡ shared.now.table_id }
    requires words { shared.now.table_id.words ≡ suc (length shared.now.key.triggers) }
    requires view { (c : ℕ) × (k : SeatKnown) × (seat.old.me ≡ (cpu_view shared.now.key c k, [])) }
    ensures same { (seat.new.table_id ≡ seat.old.table_id) × (seat.new.id ≡ seat.old.id) }
    ensures looked { (c : ℕ) (k : SeatKnown) → seat.old.me ≡ (cpu_view shared.now.key c k, []) → seat.new.me ≡ (cpu_view shared.now.key c (looked result k), []) }
{
    shared.load::<Looks>(seat, 0) == 1
}

/// The next CPU's seat, split off from the first one.
pub(crate) fn deal(
    shared: &Shared<(), View, TracePlan, Rules>,
    host: &mut Seat<(), View>,
) -> Seat<(), View>
    requires table { host.old.table_id ≡ shared.now.table_id }
    requires words { shared.now.table_id.words ≡ suc (length shared.now.key.triggers) }
    requires view { (split : ℕ) × (host.old.me ≡ (first_view shared.now.key split, [])) × (split < shared.now.key.cpus) }
    ensures same { (host.new.table_id ≡ host.old.table_id) × (result.table_id ≡ host.old.table_id) }
    ensures dealt { (split : ℕ) → host.old.me ≡ (first_view shared.now.key split, []) → (host.new.me ≡ (first_view shared.now.key (split + 1), [])) × (result.me ≡ (cpu_view shared.now.key split (nothing shared.now.key), [])) }
{
    shared.split_seat::<Deals>(host)
}

/// Joins a CPU's seat to the first one.
pub(crate) fn join(
    shared: &Shared<(), View, TracePlan, Rules>,
    host: &mut Seat<(), View>,
    seat: Seat<(), View>,
)
    requires table { (host.old.table_id ≡ shared.now.table_id) × (seat.table_id ≡ shared.now.table_id) }
    requires words { shared.now.table_id.words ≡ suc (length shared.now.key.triggers) }
    requires host { (split : ℕ) × (x : SeatPart) × (xs : List SeatPart) × (host.old.me ≡ (view shared.now.key split (x ∷ xs), [])) }
    requires seat { (c : ℕ) × (k : SeatKnown) × (seat.me ≡ (cpu_view shared.now.key c k, [])) }
    ensures same { host.new.table_id ≡ host.old.table_id }
    ensures joined { host.new.me ≡ (joined host.old.me.0 seat.me.0, host.old.me.1) }
{
    shared.join_seat::<Gathers>(host, seat);
}

/// Closes the table. Its rule held to the end, with what the seat knows.
pub(crate) fn settle(table: Table<(), View, TracePlan, Rules, Global>, seat: Seat<(), View>)
    requires table { seat.table_id ≡ table.shared.table_id }
    requires slots { table.shared.table_id.slots ≡ 0 }
    ensures { (t : State (Unit {0}) SeatView) × RingRule table.shared.key t × (get_elem? t.views seat.id ≡ some seat.me.0) }
{
    let closed = table.close_with(seat);
    closed.free();
}

/// Closes a table that has no seat.
pub(crate) fn discard(table: Table<(), View, TracePlan, Rules, Global>)
    requires { table.shared.table_id.slots ≡ 0 }
{
    let closed = table.close();
    closed.free();
}
