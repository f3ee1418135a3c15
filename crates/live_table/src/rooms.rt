//! The room for the history of all seats.

ghost use Rattle.std.specs.Prelude.{◌≡◌, ◌+◌, ◌<◌, ◌≤◌, ◌^◌, [], length, vec_capacity, IfOk};
ghost use Rattle.ft_hist.specs.Placing.{total};
ghost use Rattle.live_table.specs.Seats.{lists_at};

use crate::seats::{ControlSeat, CpuSeat};
use ft_base::{NoMemory, Stamped};
use ft_hist::History;
use std::alloc::Global;

/// An empty history with room for all that the seats' actors have marked, and room for a list of each.
/// The error says that memory ran out.
pub(crate) fn rooms_for(
    alloc: Global,
    control: &ControlSeat,
    cpus: &[CpuSeat],
) -> Result<(History, Vec<Vec<Stamped>>), NoMemory>
    ensures empty { IfOk result (λ r. (r.0.items ≡ []) × (r.1.items ≡ [])) }
    ensures items { IfOk result (λ r. total (lists_at control.now cpus.now) < 2 ^ 32 → total (lists_at control.now cpus.now) ≤ r.0.spare) }
    ensures lists { IfOk result (λ r. 1 + length cpus.now ≤ vec_capacity r.1) }
{
    let history = History::with_room(alloc, marked(control, cpus))?;
    let lists = Vec::with_capacity(alloc, 1 + cpus.len()).map_err(|_| NoMemory)?;
    Ok((history, lists))
}

/// How many items the seats' actors have marked. These are no more than the job can make, but one seat
/// alone doesn't know that: so the sum stops at the largest number.
fn marked(control: &ControlSeat, cpus: &[CpuSeat]) -> u32
    ensures { total (lists_at control.now cpus.now) < 2 ^ 32 → result ≡ total (lists_at control.now cpus.now) }
{
    let mut all = control.items().len();
    for cpu in cpus {
        all = all.saturating_add(cpu.items().len());
    }
    all.min(u32::MAX as usize) as u32
}
