//! The order in which the log of a script with lanes tells that the commands went.

ghost use Rattle.std.specs.Prelude.{◌≡◌, ◌<◌, ◌^◌, ◌==◌, length, position, IfOk, IfSome, IfNone, Some, None};
ghost use Rattle.std.specs.List.{range_with_len};
ghost use Rattle.word_machine_laws.specs.Orders.{lane_of};
ghost use Rattle.judge_app.specs.Lanes.{first_of, led_by, told_order};

use ft_base::NoMemory;
use ft_job::Job;
use log_reader::read_lanes;
use std::alloc::Global;

/// The job of which a log is read and judged: with lanes the one whose commands are in the order that the log
/// tells.
pub fn led_by(alloc: Global, job: Job, log: &[u8]) -> Result<Job, NoMemory>
    requires { length log.now < 2 ^ 32 }
    ensures { IfOk result (λ led. led ≡ led_by log.now job) }
{
    if job.lanes().is_empty() {
        return Ok(job);
    }
    let named = read_lanes(alloc, log)?;
    let order = order_told(alloc, job.lanes(), named.as_slice())?;
    match job.in_order(alloc, order.as_slice()) {
        Ok(led) => Ok(led),
        Err(_) => Err(NoMemory),
    }
}

/// The numbers of the commands of these lanes, in the order that names of lanes tell: each takes the first command
/// of its lane that is left, and is passed over if there is none. The commands that are left come last.
fn order_told(alloc: Global, lanes: &[u32], named: &[u32]) -> Result<Vec<u32>, NoMemory>
    requires { length lanes.now < 2 ^ 32 }
    ensures { IfOk result (λ order. order.items ≡ told_order lanes.now named.now) }
{
    let mut left = numbers(alloc, lanes.len() as u32)?;
    let mut order = Vec::new(alloc);
    for lane in named {
        if let Some(line) = take_first(lanes, *lane, &mut left) {
            if order.push(line).is_err() {
                return Err(NoMemory);
            }
        }
    }
    if order.extend_from_slice(left.as_slice()).is_err() {
        return Err(NoMemory);
    }
    Ok(order)
}

/// The numbers below this one.
fn numbers(alloc: Global, count: u32) -> Result<Vec<u32>, NoMemory>
    ensures { IfOk result (λ numbers. numbers.items ≡ range_with_len 0 count) }
{
    (0..count).collect(alloc).map_err(|_| NoMemory)
}

/// Takes the first command of a lane out of those that are left.
fn take_first(lanes: &[u32], lane: u32, left: &mut Vec<u32>) -> Option<u32>
    ensures some { IfSome result (λ k. first_of lanes.now lane left.old.items ≡ Some (k, left.new.items)) }
    ensures none { IfNone result ((first_of lanes.now lane left.old.items ≡ None) × (left.new.items ≡ left.old.items)) }
{
    let at = first_place(lanes, lane, left.as_slice())?;
    Some(left.remove(at))
}

/// The place of the first command of a lane among these.
fn first_place(lanes: &[u32], lane: u32, left: &[u32]) -> Option<usize>
    ensures place { result ≡ position (λ k. lane_of lanes.now k == lane) left.now }
    ensures within { IfSome result (λ i. i < length left.now) }
{
    left.iter().position(|line| lane_of(lanes, *line) == lane)
}

/// The lane of a command. Lane 0 if there is no such command.
fn lane_of(lanes: &[u32], line: u32) -> u32
    ensures { result ≡ lane_of lanes.now line }
{
    match lanes.get(line as usize) {
        Some(lane) => *lane,
        None => 0,
    }
}
