//! The words, control and the CPUs of a job before the first step, and a history with room for its items.

ghost use Rattle.std.specs.Prelude.{◌≡◌, ◌≤◌, ◌+◌, ◌*◌, [], length, IfOk};
ghost use Rattle.control_core.specs.Seated.{IsOpening, LeadsAll};
ghost use Rattle.history_laws.specs.Bound.{all_calls};
ghost use Rattle.user_specs.specs.Bound.{call_bound_in};
ghost use Rattle.word_machine.specs.Limits.{IsLimited};
ghost use Rattle.word_machine.specs.Machine.{start};
ghost use Rattle.ft_machine.specs.Starts.{AreFirst};
ghost use Rattle.ft_machine.specs.Worlds.{IsFor, world_of};
ghost use Rattle.ft_machine.specs.MachineStates.{limits_for, most_items};

use crate::cpus::{CpuRoom, TaskLimits};
use crate::world::{World, most_items as most_of};
use ft_base::NoMemory;
use ft_hist::History;
use ft_job::Job;
use std::alloc::Global;
use word_map::WordMap;

/// An empty history with room for all items that the job can make. The error says that memory ran out.
pub(crate) fn new_history(alloc: Global, job: &Job) -> Result<History, NoMemory>
    ensures empty { IfOk result (λ h. h.items ≡ []) }
    ensures room { IfOk result (λ h. most_items job.now ≤ h.spare) }
{
    History::with_room(alloc, most_items(job))
}

/// For how many items there has to be room: the job makes no more.
fn most_items(job: &Job) -> u32
    ensures least { most_items job.now ≤ result }
    ensures most { result ≤ 2 * length job.now.ctls + call_bound_in job.now * all_calls job.now.tasks }
{
    // Called for its contract alone: the job is within the limits of scripts.
    let _shape = job.shape();
    most_of(job.ctls(), job.cpus(), job.specs(), task_limits(job))
}

/// The world of a job before the first step, whose CPUs have this room. The error says that memory ran
/// out. Those who let the actors step at the same time take it apart ([`World::into_parts`]), and take
/// the room for a history when they know how many items there are.
pub fn new_world(alloc: Global, job: &Job, rooms: CpuRoom) -> Result<World, NoMemory>
    ensures limited { IfOk result (λ _. IsLimited job.now) }
    ensures of { IfOk result (λ w. IsFor job.now [] w) }
    ensures opening { IfOk result (λ w. world_of job.now [] w ≡ start job.now) }
    ensures control { IfOk result (λ w. IsOpening w.control × LeadsAll w.control) }
    ensures cpus { IfOk result (λ w. AreFirst rooms job.now w.cpus) }
{
    let (desk, ctls) = job.opening(alloc)?;
    let map = WordMap::new(job.shape());
    World::new(
        alloc,
        desk,
        ctls,
        job.cpus(),
        job.specs(),
        task_limits(job),
        rooms,
        map,
    )
}

/// What each task of a job has room for.
fn task_limits(job: &Job) -> TaskLimits
    ensures { result ≡ limits_for job.now }
{
    TaskLimits {
        frames: job.frames(),
        version: job.version(),
    }
}
