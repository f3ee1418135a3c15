//! The table of a trace, and what a seat makes of an item.

ghost use Rattle.std.specs.Prelude.{◌≡◌, ℕ, ◌+◌, ◌<◌, ◌≤◌, Bool, false, List, [], ◌∷◌, ◌++◌, length, slice_index, IfErr, IfOk};
ghost use Rattle.ft_base.specs.declared.item.Item.{Item as PlainItem};
ghost use Rattle.ft_base.specs.declared.item.Stamped.{Stamped as PlainStamped};
ghost use Rattle.ft_base.specs.declared.limits.TheConstants.{ITEMS};
ghost use Rattle.ring_rules.specs.Hits.{has};
ghost use Rattle.ring_rules.specs.RingInvariant.{IsOf};
ghost use Rattle.ring_rules.specs.Legal.{RingsLegal, fired_at};
ghost use Rattle.ring_table.specs.Seats.{AreNew, AreSeats, HaveItems, HitFor, Hits, IsNext, SeatHas, SitsAt, looked_with};
ghost use Rattle.ring_table.specs.Tally.{hits_of};

use crate::collected::Collected;
use crate::gather::{deal_all, join_all};
use crate::rule::Rules;
use crate::seats::{RingSeat, note};
use crate::table::{discard, draw, first_words, look, open, settle, switch};
use crate::view::View;
use atomic_table::Table;
use ft_base::{NoMemory, Stamped};
use ring_rules::{Rings, TracePlan};
use std::alloc::Global;
use std::marker::Model;

/// The words of a trace, which threads share. Contracts see which table it is, and the plan.
#[derive(Drop)]
pub struct RingTable {
    table: Table<(), View, TracePlan, Rules, Global>,
    plan: TracePlan,
}

impl Model for RingTable {
    ghost use Rattle.ring_table.specs.Seats.{Board, IsTable};

    ghost Value = { Board };

    ghost view = { λ t. record { table_id = t.table.shared.table_id; plan = t.plan } };

    ghost invariant = { λ t. IsTable (record { table_id = t.table.shared.table_id; plan = t.plan }) t.table.shared.key };
}

/// A table before its first step, with a seat for each CPU.
#[derive(Drop)]
pub struct RingStart {
    /// The table.
    pub table: RingTable,
    /// The CPUs' seats by number.
    pub seats: Vec<RingSeat>,
}

/// Memory ran out. All comes back as it was.
#[derive(Drop)]
pub struct RingFault {
    /// The table.
    pub table: RingTable,
    /// Its seats.
    pub seats: Vec<RingSeat>,
}

impl RingTable {
    /// The table of a plan, with a seat for each CPU, which may be offered as many items as its room
    /// says. The error says that memory ran out.
    pub fn start(alloc: Global, plan: TracePlan, rooms: &[u32]) -> Result<RingStart, NoMemory>
        requires rooms { length rooms.now ≡ plan.cpus }
        requires few { (c : ℕ) → slice_index rooms.now c ≤ ITEMS }
        ensures plan { IfOk result (λ s. s.table.plan ≡ plan) }
        ensures seats { IfOk result (λ s. AreNew s.table rooms.now s.seats.items) }
    {
        plan.limits();
        let words = first_words(alloc, &plan)?;
        let (table, host) = open(alloc, words.as_slice(), &plan)?;
        let seats = deal_all(alloc, &table.shared, host, &plan, rooms)?;
        Ok(RingStart {
            table: RingTable { table, plan },
            seats,
        })
    }

    /// What a seat makes of the next item of its CPU. It takes no memory and does not wait.
    pub fn offer(&self, seat: &mut RingSeat, item: &Stamped)
        requires table { SitsAt self.now seat.old }
        requires place { seat.old.next ≤ item.now.place }
        requires room { 0 < seat.old.left }
        ensures same { IsNext item.now seat.old seat.new }
        ensures has { (items : List PlainStamped) → SeatHas self.now.plan items seat.old → SeatHas self.now.plan (items ++ item.now ∷ []) seat.new }
    {
        seat.facts();
        seat.pass(item.place);
        self.hit_all(seat, item);
        if self.plan.is_traced(&item.item) {
            self.trace(seat, item.place);
        }
    }

    /// What the seats have made: rings that are legal for each history whose items on each CPU are those
    /// that were offered to its seat. All memory is taken before any seat joins, and the fault says that
    /// it ran out.
    pub fn close(self, alloc: Global, seats: Vec<RingSeat>) -> Result<Rings, RingFault>
        requires { AreSeats self seats.items }
        ensures legal { IfOk result (λ r. (history : List PlainItem) → IsOf self.plan history → HaveItems self.plan history seats.items → RingsLegal self.plan history r) }
        ensures fault { IfErr result (λ e. (e.table ≡ self) × (e.seats.items ≡ seats.items)) }
    {
        let Ok(collected) = Collected::with_room(alloc, seats.len()) else {
            return Err(RingFault { table: self, seats });
        };
        let RingTable { table, plan } = self;
        let mut rest = seats;
        let Some(last) = rest.pop() else {
            discard(table);
            return Ok(collected.finish(plan.trigger_count()));
        };
        let RingSeat {
            seat: host,
            number: _,
            ring,
            fired,
            next: _,
            room: _,
            left: _,
        } = last;
        let (host, mut collected) = join_all(&table.shared, host, rest, collected);
        collected.push(ring, fired);
        settle(table, host);
        Ok(collected.finish(plan.trigger_count()))
    }

    /// All triggers at an item, in the order of lines.
    fn hit_all(&self, seat: &mut RingSeat, item: &Stamped)
        requires table { SitsAt self.now seat.old }
        requires place { item.now.place < seat.old.next }
        requires fresh { (i : ℕ) → has (fired_at seat.old.fired i) item.now.place ≡ false }
        requires room { (i : ℕ) → hits_of seat.old.known i + seat.old.left < seat.old.room }
        ensures { HitFor item.now seat.old seat.new (length self.now.plan.triggers) }
    {
        seat.facts();
        for i in 0..self.plan.trigger_count() {
            self.hit(seat, i, item);
        }
    }

    /// A trigger at an item.
    fn hit(&self, seat: &mut RingSeat, i: u32, item: &Stamped)
        requires table { SitsAt self.now seat.old }
        requires trigger { i < length self.now.plan.triggers }
        requires room { hits_of seat.old.known i + seat.old.left < seat.old.room }
        requires place { item.now.place < seat.old.next }
        ensures { Hits i item.now seat.old seat.new }
    {
        if self.plan.is_hit(i, &item.item) {
            // The ticket first: no other CPU gets this number.
            let ticket = draw(&self.table.shared, &mut seat.seat, i);
            if self.plan.fires(i, ticket) {
                note(&mut seat.fired, i, item.place);
                // Only then the switch: who finds it stored, finds a fired hit for it.
                switch(
                    &self.table.shared,
                    &mut seat.seat,
                    i,
                    self.plan.switches_on(i),
                );
            }
        }
    }

    /// An entry callback, which is written while tracing is on.
    fn trace(&self, seat: &mut RingSeat, place: u32)
        requires table { SitsAt self.now seat.old }
        requires room { seat.old.ring.written + seat.old.left < seat.old.room }
        ensures { (on : Bool) × (seat.new ≡ looked_with seat.old place on) }
    {
        if look(&self.table.shared, &mut seat.seat) {
            seat.ring.write(place);
        }
    }
}
