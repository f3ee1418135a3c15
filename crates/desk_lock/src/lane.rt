//! The lanes, as they are kept under the lock.

ghost use Rattle.std.specs.Prelude.{◌≡◌, ◌≤◌, [], sum, IfOk};
ghost use Rattle.ft_base.specs.declared.limits.TheConstants.{COMMANDS};
ghost use Rattle.desk_lock.specs.LockInvariant.{lanes_from};

use std::alloc::{AllocError, Global};

/// How many items a lane has, and which comes next.
#[derive(Clone, Copy)]
pub(crate) struct Lane {
    pub(crate) count: u32,
    pub(crate) next: u32,
}

/// How many items all lanes have.
pub(crate) fn total(counts: &[u32]) -> u32
    requires { sum counts.now ≤ COMMANDS }
    ensures { result ≡ sum counts.now }
{
    let mut all = 0;
    for count in counts {
        all += *count;
    }
    all
}

/// The lanes before the first item. The error says that memory ran out.
pub(crate) fn first_lanes(alloc: Global, counts: &[u32]) -> Result<Vec<Lane>, AllocError>
    ensures { IfOk result (λ v. v.items ≡ lanes_from 0 counts.now []) }
{
    let mut lanes = Vec::with_capacity(alloc, counts.len())?;
    for count in counts {
        lanes.push_reserved(Lane {
            count: *count,
            next: 0,
        });
    }
    Ok(lanes)
}
