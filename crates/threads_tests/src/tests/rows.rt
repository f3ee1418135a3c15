//! Two rows of a script with a ring of two entries and one trigger: three calls of `a` and one of `b`,
//! after the user was registered. By [`trace_rings::fold_by`], and by the seat of the only CPU.

ghost use Rattle.std.specs.Prelude.{◌≡◌};
ghost use Rattle.ring_table.specs.Seats.{SitsAt};

use super::{call_of, is_fired, is_ring, item_of_call, off_at, plan_with};
use ft_base::{Answer, FuncNo, Item, NoMemory, Stamped};
use ft_hist::History;
use ring_rules::{Rings, TracePlan};
use ring_table::{RingSeat, RingStart, RingTable};
use std::alloc::Global;
use std::test::Fail;
use trace_rings::fold_by;

/// How many items there are.
const COUNT: u32 = 26;

/// The item at a place of the history.
fn item_at(place: u32) -> Item {
    if place == 0 {
        return Item::Begin { k: 1 };
    }
    if place == 1 {
        return Item::Return {
            k: 1,
            answer: Answer::Accepted,
        };
    }
    let n = (place - 2) / 6;
    let func = FuncNo(if n < 3 { 0 } else { 1 });
    item_of_call(call_of(0, n % 4 + 1), func, (place - 2) % 6)
}

/// The function of the trigger `traceoff:1`, and what comes of it.
struct Row {
    func: FuncNo,
    written: u32,
    held: &'static [u32],
    fired: &'static [u32],
}

static ROWS: [Row; 2] = [
    // The call of `b` fires, before its entry callback: three entries were written, two are held.
    Row {
        func: FuncNo(1),
        written: 3,
        held: &[9, 15],
        fired: &[20],
    },
    // The first call of `a` fires, and nothing is written.
    Row {
        func: FuncNo(0),
        written: 0,
        held: &[],
        fired: &[2],
    },
];

/// Whether the rings are those of a row.
fn are_of(row: &Row, rings: &Rings) -> bool {
    is_ring(rings, 0, row.written, row.held) && is_fired(rings, 0, row.fired)
}

/// The history.
fn history(alloc: Global) -> Result<History, NoMemory> {
    let mut history = History::with_room(alloc, COUNT)?;
    for place in 0..COUNT {
        history.push(item_at(place));
    }
    Ok(history)
}

#[test]
fn by_place(rt: HostRuntime) -> Result<(), Fail> {
    let alloc = rt.alloc();
    let history = history(alloc)?;
    for row in ROWS.iter() {
        let plan = plan_with(alloc, 1, 2, off_at(alloc, row.func, Some(1))?)?;
        let rings = fold_by(alloc, &plan, &history)?;
        assert!(rt; are_of(row, &rings));
    }
    Ok(())
}

/// Offers a seat the items of the history, as long as there is room.
fn offer_all(table: &RingTable, seat: &mut RingSeat)
    requires { SitsAt table.now seat.old }
    ensures { SitsAt table.now seat.new × (seat.new.number ≡ seat.old.number) }
{
    for place in 0..COUNT {
        let item = Stamped {
            place,
            item: item_at(place),
        };
        if item.item.call().is_some() && seat.left() > 0 && seat.next() <= u64::from(place) {
            table.offer(seat, &item);
        }
    }
}

/// The rings that the seat of the only CPU makes. There is room for each of its items.
fn by_seat(alloc: Global, plan: TracePlan) -> Result<Rings, NoMemory>
    requires { plan.cpus ≡ 1 }
{
    let RingStart { table, mut seats } = RingTable::start(alloc, plan, &[COUNT])?;
    let Some(mut seat) = seats.pop() else {
        return Err(NoMemory);
    };
    offer_all(&table, &mut seat);
    seats.push_reserved(seat);
    table.close(alloc, seats).map_err(|_| NoMemory)
}

#[test]
fn by_one_seat(rt: HostRuntime) -> Result<(), Fail> {
    let alloc = rt.alloc();
    for row in ROWS.iter() {
        let plan = plan_with(alloc, 1, 2, off_at(alloc, row.func, Some(1))?)?;
        let rings = by_seat(alloc, plan)?;
        assert!(rt; are_of(row, &rings));
    }
    Ok(())
}
