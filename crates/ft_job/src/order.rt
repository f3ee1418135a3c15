//! Lines of control and their lanes in another order.

ghost use Rattle.std.specs.Prelude.{◌≡◌, IfOk};
ghost use Rattle.word_machine_laws.specs.Orders.{picked};

use crate::parts::JobParts;
use ft_base::NoMemory;
use ft_desk::Ctl;
use std::alloc::Global;

/// Copies of the lines of these numbers and of their lanes, in the order of the numbers. The error says
/// that memory ran out.
pub(crate) fn copies(
    alloc: Global,
    parts: &JobParts,
    order: &[u32],
) -> Result<(Vec<Ctl>, Vec<u32>), NoMemory>
    ensures lines { IfOk result (λ made. made.0.items ≡ picked parts.now.ctls.items order.now) }
    ensures lanes { IfOk result (λ made. made.1.items ≡ picked parts.now.lanes.items order.now) }
{
    let ctls = picked_lines(alloc, parts.ctls.as_slice(), order)?;
    let lanes = picked_numbers(alloc, parts.lanes.as_slice(), order)?;
    Ok((ctls, lanes))
}

/// Copies of the lines of these numbers.
fn picked_lines(alloc: Global, lines: &[Ctl], order: &[u32]) -> Result<Vec<Ctl>, NoMemory>
    ensures { IfOk result (λ made. made.items ≡ picked lines.now order.now) }
{
    let mut made = Vec::with_capacity(alloc, order.len()).map_err(|_| NoMemory)?;
    for line in order {
        if let Some(ctl) = lines.get(*line as usize) {
            made.push_reserved(ctl.copy()?);
        }
    }
    Ok(made)
}

/// The numbers that stand at these places.
fn picked_numbers(alloc: Global, numbers: &[u32], order: &[u32]) -> Result<Vec<u32>, NoMemory>
    ensures { IfOk result (λ made. made.items ≡ picked numbers.now order.now) }
{
    let mut made = Vec::with_capacity(alloc, order.len()).map_err(|_| NoMemory)?;
    for place in order {
        if let Some(number) = numbers.get(*place as usize) {
            made.push_reserved(*number);
        }
    }
    Ok(made)
}
