//! The CPUs' seats, when they are made and when they join again.

ghost use Rattle.std.specs.Prelude.{◌≡◌, ℕ, ◌+◌, ◌≤◌, ◌∷◌, [], suc, length, slice_index, IfOk};
ghost use Rattle.ft_base.specs.declared.limits.TheConstants.{ITEMS};
ghost use Rattle.ring_table.specs.declared.view.Known.{Known as SeatKnown};
ghost use Rattle.ring_table.specs.Seats.{AreAt, AreCounted, AreFresh, parts_of, shares_of};
ghost use Rattle.ring_table.specs.Views.{cpu_view, first_view, view};
ghost use Rattle.dealt_seats.specs.Views.{cpu, part};

use crate::collected::Collected;
use crate::rule::Rules;
use crate::seats::RingSeat;
use crate::table::{deal, join};
use crate::view::View;
use atomic_table::{Seat, Shared};
use ft_base::{CpuNo, NoMemory};
use ring_rules::TracePlan;
use std::alloc::Global;

/// A seat for each CPU, each with its room. The error says that memory ran out.
pub(crate) fn deal_all(
    alloc: Global,
    shared: &Shared<(), View, TracePlan, Rules>,
    mut host: Seat<(), View>,
    plan: &TracePlan,
    rooms: &[u32],
) -> Result<Vec<RingSeat>, NoMemory>
    requires words { shared.now.table_id.words ≡ suc (length shared.now.key.triggers) }
    requires plan { shared.now.key ≡ plan.now }
    requires host { (host.table_id ≡ shared.now.table_id) × (host.me ≡ (first_view shared.now.key 0, [])) }
    requires rooms { length rooms.now ≡ plan.now.cpus }
    requires few { (c : ℕ) → slice_index rooms.now c ≤ ITEMS }
    ensures seats { IfOk result (λ seats. AreFresh shared.now.table_id plan.now rooms.now seats.items plan.now.cpus) }
{
    let count = plan.cpus();
    let mut seats = Vec::with_capacity(alloc, count as usize).map_err(|_| NoMemory)?;
    for c in 0..count {
        let seat = deal(shared, &mut host);
        seats.push_reserved(RingSeat::new(alloc, plan, seat, CpuNo(c), rooms[c as usize])?);
    }
    Ok(seats)
}

/// Joins CPUs' seats to the seat of another CPU, and adds what they have made to what is collected.
/// There is room for it and that of one more seat.
pub(crate) fn join_all(
    shared: &Shared<(), View, TracePlan, Rules>,
    mut host: Seat<(), View>,
    seats: Vec<RingSeat>,
    mut collected: Collected,
) -> (Seat<(), View>, Collected)
    requires words { shared.now.table_id.words ≡ suc (length shared.now.key.triggers) }
    requires host { (host.table_id ≡ shared.now.table_id) × ((c : ℕ) × (k : SeatKnown) × (host.me ≡ (cpu_view shared.now.key c k, []))) }
    requires seats { AreAt shared.now.table_id shared.now.key seats.items }
    requires empty { collected ≡ shares_of [] (length seats.items + 1) }
    ensures table { result.0.table_id ≡ shared.now.table_id }
    ensures parts { (c : ℕ) × (k : SeatKnown) × (host.me ≡ (cpu_view shared.now.key c k, [])) × (result.0.me.0 ≡ view shared.now.key 0 (part (cpu c) k ∷ parts_of seats.items)) }
    ensures collected { result.1 ≡ shares_of seats.items (length seats.items + 1) }
    ensures counted { AreCounted shared.now.key seats.items }
{
    for joining in seats {
        let RingSeat {
            seat,
            number: _,
            ring,
            fired,
            next: _,
            room: _,
            left: _,
        } = joining;
        join(shared, &mut host, seat);
        collected.push(ring, fired);
    }
    (host, collected)
}
