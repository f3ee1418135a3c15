//! The seats of the CPUs.

ghost use Rattle.std.specs.Prelude.{◌≡◌, ℕ, ◌+◌, ◌<◌, ◌≤◌, ◌∷◌, ◌++◌, [], IfOk, length, get_or, set, true};
ghost use Rattle.ft_base.specs.declared.limits.TheConstants.{ITEMS};
ghost use Rattle.ring_rules.specs.Gathered.{lists_of, no_lists};
ghost use Rattle.ring_rules.specs.Hits.{has, quota, trigger};
ghost use Rattle.ring_rules.specs.Legal.{fired_at};
ghost use Rattle.ring_table.specs.Seats.{fresh, passed, spaces_of};
ghost use Rattle.ring_table.specs.Tally.{hits_of};
ghost use Rattle.ring_table.specs.Views.{cpu_view, nothing};

use crate::view::View;
use atomic_table::Seat;
use ft_base::{CpuNo, NoMemory};
use ring_rules::{CpuRing, TracePlan};
use std::alloc::Global;
use std::marker::Model;

/// A CPU's seat: its ring, and the places at which triggers fired for it. It is offered the items of
/// its CPU in order, as many as there is room for.
#[derive(Drop)]
pub struct RingSeat {
    pub(crate) seat: Seat<(), View>,
    pub(crate) number: CpuNo,
    pub(crate) ring: CpuRing,
    /// By trigger.
    pub(crate) fired: Vec<Vec<u32>>,
    /// The lowest place that may come next.
    pub(crate) next: u64,
    /// How many items may be offered in all.
    pub(crate) room: u32,
    /// How many more may be.
    pub(crate) left: u32,
}

impl Model for RingSeat {
    ghost use Rattle.ring_rules.specs.Gathered.{lists_of};
    ghost use Rattle.ring_table.specs.Seats.{SeatPlace, SeatSits};
    ghost use Rattle.ring_table.specs.Views.{known_of};

    ghost Value = { SeatPlace };

    ghost view = { λ s. record { table_id = s.seat.table_id; id = s.seat.id; plan = s.seat.me.0.job; number = s.number.0; known = known_of s.seat.me.0; ring = s.ring.ring; fired = lists_of s.fired.items; next = s.next; room = s.room; left = s.left } };

    ghost invariant = { λ s. SeatSits s.seat.me (known_of s.seat.me.0) s.number.0 s.ring s.fired.items s.next s.room s.left };
}

impl RingSeat {
    /// The seat of a CPU before its first item, with room for so many. The error says that memory ran
    /// out.
    pub(crate) fn new(
        alloc: Global,
        plan: &TracePlan,
        seat: Seat<(), View>,
        number: CpuNo,
        room: u32,
    ) -> Result<RingSeat, NoMemory>
        requires seat { seat.me ≡ (cpu_view plan.now number.0 (nothing plan.now), []) }
        requires room { room ≤ ITEMS }
        ensures new { IfOk result (λ s. s ≡ fresh seat.table_id seat.id plan.now number.0 room) }
    {
        let ring = CpuRing::new(alloc, plan.ring())?;
        let fired = empty_lists(alloc, plan, room)?;
        Ok(RingSeat {
            seat,
            number,
            ring,
            fired,
            next: 0,
            room,
            left: room,
        })
    }

    /// The lowest place that its next item may have.
    pub fn next(&self) -> u64
        ensures { result ≡ self.now.next }
    {
        self.next
    }

    /// How many more items it may be offered.
    pub fn left(&self) -> u32
        ensures { result ≡ self.now.left }
    {
        self.left
    }

    /// Changes nothing. A caller learns what each seat keeps.
    pub(crate) fn facts(&self)
        ensures lengths { (length self.now.known.hits ≡ length self.now.plan.triggers) × (length self.now.fired ≡ length self.now.plan.triggers) }
        ensures below { (i p : ℕ) → has (fired_at self.now.fired i) p ≡ true → p < self.now.next }
        ensures within { (i : ℕ) → hits_of self.now.known i + self.now.left ≤ self.now.room }
        ensures written { self.now.ring.written + self.now.left ≤ self.now.room }
    {
        let _left = self.left;
    }

    /// An item comes.
    pub(crate) fn pass(&mut self, place: u32)
        requires place { self.old.next ≤ place }
        requires room { 0 < self.old.left }
        ensures { self.new ≡ passed self.old place }
    {
        self.next = u64::from(place) + 1;
        self.left -= 1;
    }
}

/// An empty list for each trigger, with room for each place at which it can fire if so many items come.
/// The error says that memory ran out.
fn empty_lists(alloc: Global, plan: &TracePlan, room: u32) -> Result<Vec<Vec<u32>>, NoMemory>
    ensures lists { IfOk result (λ v. lists_of v.items ≡ no_lists (length plan.now.triggers)) }
    ensures spaces { IfOk result (λ v. (i : ℕ) → i < length plan.now.triggers → quota (trigger plan.now i).limit room ≤ get_or (spaces_of v.items) i 0) }
{
    let count = plan.trigger_count();
    let mut lists = Vec::with_capacity(alloc, count as usize).map_err(|_| NoMemory)?;
    for i in 0..count {
        let most = plan.most_fires(i, room);
        let list = Vec::with_capacity(alloc, most as usize).map_err(|_| NoMemory)?;
        lists.push_reserved(list);
    }
    Ok(lists)
}

/// Notes a place at which a trigger fired.
pub(crate) fn note(fired: &mut Vec<Vec<u32>>, i: u32, place: u32)
    requires list { i < length fired.old.items }
    requires room { length (fired_at (lists_of fired.old.items) i) < get_or (spaces_of fired.old.items) i 0 }
    ensures lists { lists_of fired.new.items ≡ set (lists_of fired.old.items) i (fired_at (lists_of fired.old.items) i ++ place ∷ []) }
    ensures spaces { spaces_of fired.new.items ≡ spaces_of fired.old.items }
{
    fired[i as usize].push_reserved(place);
}
