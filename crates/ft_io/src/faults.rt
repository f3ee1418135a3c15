//! Counts of faults.

ghost use Rattle.std.specs.Prelude.{◌≡◌, ◌≤◌};
ghost use Rattle.ft_io.specs.Causes.{one_more};

/// Counts one more fault. The count stays at `u64::MAX` once it is there.
pub(crate) fn count_fault(faults: &mut u64)
    ensures one_more { faults.new ≡ one_more faults.old }
    ensures later { faults.old ≤ faults.new }
{
    *faults = faults.saturating_add(1);
}
