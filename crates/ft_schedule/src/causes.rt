//! What refuses the items of a schedule: too many steps, or a CPU that doesn't exist.

ghost use Rattle.std.specs.Prelude.{◌≡◌, ◌≤◌, ◌*◌, ◌^◌, false};
ghost use Rattle.ft_schedule.specs.Causes.{has_bad_count, steps_of, steps_with, is_past_limit, is_unknown, has_unknown};

use crate::item::SchedItem;
use ft_base::Who;
use ft_base::limits::STEPS;

/// The steps of an item.
fn steps_of(item: &SchedItem, cpus: u32) -> u64
    requires { has_bad_count item.now ≡ false }
    ensures value { result ≡ steps_of cpus item.now }
    ensures small { result ≤ 4294967295 * 2 ^ 32 }
{
    match item.who {
        Who::Control | Who::Cpu(_) => item.count,
        Who::All => item.count * (1 + cpus as u64),
    }
}

/// These steps and those of the items, among this many CPUs: each count of `all` is a step of
/// control and one of each CPU, and each other count is one step. `None` if a count is 0 or above
/// 4,294,967,295, or there are more than [`STEPS`] steps. So the items of several lines are counted
/// one line after the other.
pub fn steps_with(steps: u32, items: &[SchedItem], cpus: u32) -> Option<u32>
    requires { steps ≤ STEPS }
    ensures { result ≡ steps_with cpus steps items.now }
{
    let mut total = steps as u64;
    for item in items {
        if item.count == 0 || item.count > u32::MAX as u64 {
            return None;
        }
        total += steps_of(item, cpus);
        if total > STEPS as u64 {
            return None;
        }
    }
    Some(total as u32)
}

/// Whether a count is 0 or above 4,294,967,295, or the items have more than [`STEPS`] steps together
/// with these.
pub fn is_past_limit(steps: u32, items: &[SchedItem], cpus: u32) -> bool
    requires { steps ≤ STEPS }
    ensures { result ≡ is_past_limit cpus steps items.now }
{
    steps_with(steps, items, cpus).is_none()
}

/// Whether an item names a CPU that doesn't exist, among this many.
fn is_unknown(item: &SchedItem, cpus: u32) -> bool
    ensures { result ≡ is_unknown cpus item.now }
{
    match item.who {
        Who::Control | Who::All => false,
        Who::Cpu(cpu) => cpu.0 >= cpus,
    }
}

/// Whether one of the items names a CPU that doesn't exist, among this many.
pub fn has_unknown(items: &[SchedItem], cpus: u32) -> bool
    ensures { result ≡ has_unknown cpus items.now }
{
    items.iter().any(|item| is_unknown(item, cpus))
}
