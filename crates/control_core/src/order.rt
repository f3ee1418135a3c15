//! Which lines are led, and in which order.

ghost use Rattle.std.specs.Prelude.{◌≡◌, ◌<◌, length, option_map, slice_get, IfOk, IfSome};
ghost use Rattle.std.specs.List.{range_with_len};
ghost use Rattle.word_machine_laws.specs.Orders.{AreLed, picked};

use ft_base::NoMemory;
use ft_desk::Ctl;
use std::alloc::Global;

/// The line that is led at this place of an order. None after the last.
pub(crate) fn present<'a>(lines: &'a [Ctl], order: &[u32], place: u32) -> Option<&'a Ctl>
    requires { AreLed (length lines.now) order.now }
    ensures line { option_map (λ l. l.now) result ≡ slice_get (picked lines.entry.now order.now) place }
    ensures within { IfSome result (λ _. place < length order.now) }
{
    let number = *order.get(place as usize)?;
    Some(&lines[number as usize])
}

/// The numbers of so many lines, as they stand. The error says that memory ran out.
pub(crate) fn numbers(alloc: Global, lines: u32) -> Result<Vec<u32>, NoMemory>
    ensures { IfOk result (λ v. v.items ≡ range_with_len 0 lines) }
{
    (0..lines).collect(alloc).map_err(|_| NoMemory)
}
