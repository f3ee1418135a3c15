//! The commands of each lane.

ghost use Rattle.std.specs.Prelude.{◌≡◌, ◌+◌, ◌<◌, ◌≤◌, length, sum, IfOk};
ghost use Rattle.std.specs.List.{AllByRecursion as Each};
ghost use Rattle.ft_base.specs.declared.limits.TheConstants.{COMMANDS, LANES, UNTILS};
ghost use Rattle.word_machine_laws.specs.Orders.{lane_of};
ghost use Rattle.live_lanes.specs.LaneItems.{AreCounts, count_in, rank};

use std::alloc::{AllocError, Global};

/// How many lanes there are: one more than the highest that has a command.
fn lane_count(lanes: &[u32]) -> u32
    requires { Each (λ lane. lane < LANES) lanes.now }
    ensures within { Each (λ lane. lane < result) lanes.now }
    ensures few { result ≤ LANES }
{
    let mut count = 0;
    for k in 0..lanes.len() {
        if lanes[k] < count {
            continue;
        }
        count = lanes[k] + 1;
    }
    count
}

/// How many commands a lane has.
fn count(lanes: &[u32], lane: u32) -> u32
    requires { length lanes.now ≤ COMMANDS + UNTILS }
    ensures { result ≡ count_in lane lanes.now }
{
    let mut own = 0;
    for k in 0..lanes.len() {
        if lanes[k] != lane {
            continue;
        }
        own += 1;
    }
    own
}

/// How many commands each lane has. The error says that memory ran out.
pub(crate) fn counts_of(alloc: Global, lanes: &[u32]) -> Result<Vec<u32>, AllocError>
    requires lanes { Each (λ lane. lane < LANES) lanes.now }
    requires few { length lanes.now ≤ COMMANDS + UNTILS }
    ensures counts { IfOk result (λ v. AreCounts lanes.now v.items) }
    ensures few { IfOk result (λ v. length v.items ≤ LANES) }
    ensures sum { IfOk result (λ v. sum v.items ≤ length lanes.now) }
{
    let all = lane_count(lanes);
    let mut counts = Vec::with_capacity(alloc, all as usize)?;
    for lane in 0..all {
        counts.push_reserved(count(lanes, lane));
    }
    Ok(counts)
}

/// The number of the command that is this item of the lane.
pub(crate) fn command_of(lanes: &[u32], lane: u32, item: u32) -> u32
    requires few { length lanes.now ≤ COMMANDS + UNTILS }
    requires left { item < count_in lane lanes.now }
    ensures within { result < length lanes.now }
    ensures lane { lane_of lanes.now result ≡ lane }
    ensures item { rank lanes.now result ≡ item }
{
    let mut left = item;
    for k in 0..lanes.len() {
        if lanes[k] != lane {
            continue;
        }
        if left == 0 {
            return k as u32;
        }
        left -= 1;
    }
    unreachable!()
}
