//! Two seats that are offered items by two threads.

ghost use Rattle.std.specs.Prelude.{◌≡◌};
ghost use Rattle.ring_table.specs.Seats.{SitsAt};

use super::{call_of, item_of_call, off_at, plan_with};
use ft_base::{CpuNo, FuncNo, NoMemory, Stamped};
use ring_rules::{Rings, TracePlan};
use ring_table::{RingSeat, RingStart, RingTable};
use std::alloc::Global;
use std::test::Fail;
use std::thread::{Threads, join_mut};

/// How many items each CPU has: those of two calls of the function.
const ITEMS_OF_CPU: u32 = 12;

/// Offers a seat the items of its CPU, as long as there is room: those of CPU 0 stand at even places,
/// those of CPU 1 at odd ones.
fn offer_calls(table: &RingTable, seat: &mut RingSeat, cpu: u32)
    requires { SitsAt table.now seat.old }
    ensures { SitsAt table.now seat.new × (seat.new.number ≡ seat.old.number) }
{
    for i in 0..ITEMS_OF_CPU {
        let place = 2 * i + cpu % 2;
        let item = Stamped {
            place,
            item: item_of_call(call_of(cpu, i / 6 + 1), FuncNo(0), i % 6),
        };
        if seat.left() > 0 && seat.next() <= u64::from(place) {
            table.offer(seat, &item);
        }
    }
}

/// Both at the same time.
fn offer_both(rt: &impl Threads, table: &RingTable, first: &mut RingSeat, second: &mut RingSeat)
    requires first { SitsAt table.now first.old }
    requires second { SitsAt table.now second.old }
    ensures first { SitsAt table.now first.new × (first.new.number ≡ first.old.number) }
    ensures second { SitsAt table.now second.new × (second.new.number ≡ second.old.number) }
{
    join_mut(
        rt,
        &mut || offer_calls(table, first, 0),
        &mut || offer_calls(table, second, 1),
    );
}

/// The rings that the seats of two CPUs make in two threads.
fn by_threads(rt: &impl Threads, alloc: Global, plan: TracePlan) -> Result<Rings, NoMemory>
    requires { plan.cpus ≡ 2 }
{
    let RingStart { table, mut seats } = RingTable::start(alloc, plan, &[ITEMS_OF_CPU; 2])?;
    let Some(mut second) = seats.pop() else {
        return Err(NoMemory);
    };
    let Some(mut first) = seats.pop() else {
        return Err(NoMemory);
    };
    offer_both(rt, &table, &mut first, &mut second);
    seats.push_reserved(first);
    seats.push_reserved(second);
    table.close(alloc, seats).map_err(|_| NoMemory)
}

/// Whether the trigger fired once, at the first item of a CPU, whose ring has no entry: its own switch is
/// off from then on, and the other CPU has none that switches on.
fn is_switched_off(rings: &Rings) -> bool {
    if rings.cpus() != 2 || rings.triggers() != 1 || rings.fired(0) != 1 {
        return false;
    }
    let place = rings.fired_at(0, 0);
    place < 2 && rings.written(CpuNo(place)) == 0
}

#[test]
fn two_threads_fire_once(rt: HostRuntime) -> Result<(), Fail> {
    let alloc = rt.alloc();
    let plan = plan_with(alloc, 2, 4, off_at(alloc, FuncNo(0), Some(1))?)?;
    let rings = by_threads(&rt, alloc, plan)?;
    assert!(rt; is_switched_off(&rings));
    Ok(())
}
