//! How many items each CPU may offer to its ring.

ghost use Rattle.std.specs.Prelude.{◌≡◌, IfOk};
ghost use Rattle.live_threads.specs.Rooms.{rooms_of};

use ft_base::NoMemory;
use ft_base::limits::Limits;
use ft_job::Job;
use ft_machine::calls_of;
use std::alloc::Global;
use user_specs::call_bound;

/// For each CPU how many items the calls of its tasks can make. The error says that memory ran out.
pub(crate) fn ring_rooms(alloc: Global, job: &Job) -> Result<Vec<u32>, NoMemory>
    ensures { IfOk result (λ v. v.items ≡ rooms_of job.now) }
{
    // The job is within its limits, and so are the rooms.
    job.users();
    let bound = call_bound(job.specs(), u32::from(Limits::of(job.version()).levels));
    let plans = job.cpus();
    let mut rooms = Vec::with_capacity(alloc, plans.len()).map_err(|_| NoMemory)?;
    for plan in plans {
        rooms.push_reserved(bound * calls_of(plan));
    }
    Ok(rooms)
}
