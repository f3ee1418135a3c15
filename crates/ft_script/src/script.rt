//! A script: all its lines, whether it can end, and its job.

ghost use Rattle.std.specs.Prelude.{◌≡◌, ◌≤◌, ◌⊎◌, ℕ, map, length, OnOk, IfOk, IfErr, Some, None};
ghost use Rattle.user_specs.specs.Plain.{cpu_of};
ghost use Rattle.ft_job.specs.Parts.{cpus_from};
ghost use Rattle.script_waits.specs.Tasks.{lined_task, tracks_of};
ghost use Rattle.script_waits.specs.Greedy.{IsLeast, IsDeadlock};
ghost use Rattle.script_text.specs.Lines.{lines_of};
ghost use Rattle.ft_script.specs.Above.{none_above};
ghost use Rattle.ft_script.specs.declared.faults.Cause.TheVariants.{Deadlock, Unloaded};
ghost use Rattle.ft_script.specs.Script.{refusal_below, refusal_of, declared_in, control_of, no_memory, job_of, tasks_of, job_tasks_of, LeavesWaiting, LeavesUnloaded, MayFindUnloaded, IsJobOf, IsFaultOf};
ghost use Rattle.ft_script.specs.Hidden.{HidesModules};
ghost use Rattle.ft_script.specs.Holds.{CanRun};
ghost use Rattle.ft_script.specs.ReaderInvariant.{above_of, ReaderInvariant, IsOpen};

use crate::faults::{Cause, ScriptFault};
use crate::reader::Reader;
use ft_base::limits::INPUT_BYTES;
use ft_job::Job;
use script_text::first_line;
use script_waits::LinedTask;
use std::alloc::{AllocError, Global};
use user_specs::CpuPlan;

/// Reads all lines into a reader that has read none.
fn read_lines(alloc: Global, text: &[u8], reader: &mut Reader) -> Result<(), ScriptFault>
    requires few { length text.now ≤ INPUT_BYTES }
    requires none { above_of reader.old ≡ none_above }
    requires kept { ReaderInvariant reader.old }
    ensures clear { OnOk result (refusal_below none_above (lines_of text.now) ≡ None) }
    ensures declared { OnOk result (above_of reader.new ≡ declared_in text.now) }
    ensures runs { OnOk result (CanRun (above_of reader.new)) }
    ensures kept { OnOk result (ReaderInvariant reader.new) }
    ensures refused { IfErr result (λ fault. (fault ≡ no_memory) ⊎ (refusal_below none_above (lines_of text.now) ≡ Some fault)) }
{
    let mut rest = text;
    while !rest.is_empty() {
        let (line, ended, below) = first_line(rest);
        reader.read(alloc, line, ended, below)?;
        rest = below;
    }
    Ok(())
}

/// Refuses the lowest line that would be left waiting, if there is one.
fn check_end(alloc: Global, reader: &Reader) -> Result<(), ScriptFault>
    ensures ends { OnOk result (IsDeadlock (tracks_of (above_of reader.now).tasks) (control_of (above_of reader.now)) None) }
    ensures refused { IfErr result (λ fault. (fault ≡ no_memory)
        ⊎ ((fault.cause ≡ Deadlock) × IsDeadlock (tracks_of (above_of reader.now).tasks) (control_of (above_of reader.now)) (Some fault.line))) }
{
    match reader.deadlock(alloc)? {
        None => Ok(()),
        Some(line) => Err(ScriptFault {
            line,
            cause: Cause::Deadlock,
        }),
    }
}

/// Reads a text whose lines have no cause, and which can end, into a reader that has read none. Control
/// is open then.
fn read_text(alloc: Global, text: &[u8], reader: &mut Reader) -> Result<(), ScriptFault>
    requires few { length text.now ≤ INPUT_BYTES }
    requires none { above_of reader.old ≡ none_above }
    requires kept { ReaderInvariant reader.old }
    ensures accepted { OnOk result (refusal_of text.now ≡ None) }
    ensures ends { OnOk result (LeavesWaiting text.now None) }
    ensures declared { OnOk result (above_of reader.new ≡ declared_in text.now) }
    ensures runs { OnOk result (CanRun (above_of reader.new)) }
    ensures open { OnOk result (IsOpen reader.new) }
    ensures refused { IfErr result (IsFaultOf text.now) }
{
    if text.is_empty() {
        return Err(ScriptFault {
            line: 1,
            cause: Cause::Version,
        });
    }
    read_lines(alloc, text, reader)?;
    check_end(alloc, reader)?;
    Ok(reader.open(alloc)?)
}

/// Refuses the lowest line that may find a module unloaded, if there is one. The tasks are those of the
/// job.
fn check_modules(alloc: Global, reader: &Reader, tasks: &[LinedTask]) -> Result<(), ScriptFault>
    requires runs { CanRun (above_of reader.now) }
    requires open { IsOpen reader.now }
    requires tasks { map lined_task tasks.now ≡ job_tasks_of (above_of reader.now) }
    ensures loaded { OnOk result (IsLeast (MayFindUnloaded (above_of reader.now)) None) }
    ensures refused { IfErr result (λ fault. (fault ≡ no_memory)
        ⊎ ((fault.cause ≡ Unloaded) × IsLeast (MayFindUnloaded (above_of reader.now)) (Some fault.line))) }
{
    match reader.unloaded(alloc, tasks)? {
        None => Ok(()),
        Some(line) => Err(ScriptFault {
            line,
            cause: Cause::Unloaded,
        }),
    }
}

/// The plans of the job's CPUs, if no line may find a module unloaded.
fn plan(alloc: Global, reader: &Reader) -> Result<Vec<CpuPlan>, ScriptFault>
    requires runs { CanRun (above_of reader.now) }
    requires open { IsOpen reader.now }
    ensures plans { IfOk result (λ v. map cpu_of v.items ≡ cpus_from 0 (above_of reader.now).quanta (tasks_of (above_of reader.now))) }
    ensures loaded { IfOk result (λ _. IsLeast (MayFindUnloaded (above_of reader.now)) None) }
    ensures refused { IfErr result (λ fault. (fault ≡ no_memory)
        ⊎ ((fault.cause ≡ Unloaded) × IsLeast (MayFindUnloaded (above_of reader.now)) (Some fault.line))) }
{
    let tasks = reader.job_tasks(alloc)?;
    check_modules(alloc, reader, tasks.as_slice())?;
    Ok(reader.cpu_plans(alloc, tasks.as_slice())?)
}

/// Reads a script into a reader that has read none, and plans the job's CPUs.
fn read_plans(alloc: Global, text: &[u8], reader: &mut Reader) -> Result<Vec<CpuPlan>, ScriptFault>
    requires few { length text.now ≤ INPUT_BYTES }
    requires none { above_of reader.old ≡ none_above }
    requires kept { ReaderInvariant reader.old }
    ensures accepted { IfOk result (λ _. refusal_of text.now ≡ None) }
    ensures ends { IfOk result (λ _. LeavesWaiting text.now None) }
    ensures loaded { IfOk result (λ _. LeavesUnloaded text.now None) }
    ensures declared { IfOk result (λ _. above_of reader.new ≡ declared_in text.now) }
    ensures runs { IfOk result (λ _. CanRun (above_of reader.new)) }
    ensures open { IfOk result (λ _. IsOpen reader.new) }
    ensures plans { IfOk result (λ v. map cpu_of v.items ≡ cpus_from 0 (above_of reader.new).quanta (tasks_of (above_of reader.new))) }
    ensures refused { IfErr result (IsFaultOf text.now) }
{
    read_text(alloc, text, reader)?;
    plan(alloc, reader)
}

/// The job of all lines, whose CPUs have these plans.
fn make_job(alloc: Global, reader: Reader, cpus: Vec<CpuPlan>) -> Result<Job, AllocError>
    requires runs { CanRun (above_of reader) }
    requires open { IsOpen reader }
    requires plans { map cpu_of cpus.items ≡ cpus_from 0 (above_of reader).quanta (tasks_of (above_of reader)) }
    ensures { IfOk result (λ job. job ≡ job_of (above_of reader)) }
{
    Ok(Job::new(reader.into_parts(alloc, cpus)?))
}

/// Reads a script. Its job is the list of what its lines mean.
///
/// A refusal names the lowest line that has a cause, from 1, and the first of its causes in the
/// order of [`Cause`]. `Deadlock` comes only if no line has another cause: each task goes through
/// its acts and control through its lines as far as they can, and the lowest line that is left
/// waiting is refused. `Unloaded` comes only if there is no such line either: the module of a
/// function may be unloaded when a call of the script or a user needs it. `NoMemory`, with the line
/// 0, says that the program is out of memory. Reading takes time in proportion to the bytes. But a
/// line that is in no lane and loads or unloads a module or edits a notrace set is planned on a desk
/// besides, with all commands above it, which takes for each of them time in proportion to the
/// functions and the users.
pub fn read_script(alloc: Global, text: &[u8]) -> Result<Job, ScriptFault>
    requires { length text.now ≤ INPUT_BYTES }
    ensures job { IfOk result (IsJobOf text.now) }
    ensures hides { IfOk result (λ job. (declared_in text.now).lane_count ≡ 0 → (n : ℕ) → HidesModules (declared_in text.now) job n) }
    ensures refused { IfErr result (IsFaultOf text.now) }
{
    let mut reader = Reader::new(alloc);
    let cpus = read_plans(alloc, text, &mut reader)?;
    Ok(make_job(alloc, reader, cpus)?)
}
