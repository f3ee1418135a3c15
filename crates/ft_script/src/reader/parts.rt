//! What a reader that has read all lines gives: whether the script can end, and the parts of its job.

ghost use Rattle.std.specs.Prelude.{◌≡◌, ◌≤◌, ◌++◌, ℕ, [], map, length, unwrap_or, None, IfOk, IfSome, OnOk};
ghost use Rattle.ft_base.specs.Versions.{limits_of};
ghost use Rattle.user_specs.specs.Plain.{cpu_of, task_of as plan_seen};
ghost use Rattle.ft_job.specs.Parts.{tasks_on, cpus_from};
ghost use Rattle.script_waits.specs.declared.script.LinedAct.{LinedAct};
ghost use Rattle.script_waits.specs.Tasks.{lined_task};
ghost use Rattle.ft_desk.specs.Lines.{lines_of};
ghost use Rattle.ft_script.specs.Expansion.{commands_by, act_in_job, line_as_it_is, lines_as_they_are};
ghost use Rattle.ft_script.specs.ReaderInvariant.{control_line, lined_ctl};
ghost use Rattle.ft_script.specs.Holds.{IsAtMost};
ghost use Rattle.ft_script.specs.Script.{task_of, task_in_job, schedule_of};

use crate::declaration::ScriptCtl;
use crate::expansion::Expansion;
use crate::reader::{LinedCtl, Reader};
use ft_base::limits::{CPUS, Limits, TASKS, USUAL_FRAMES, USUAL_RING, USUAL_TURNS};
use ft_base::{TaskAct, TaskNo, Turn, Who};
use ft_job::{Ctl, JobParts, ModRow};
use ft_schedule::Schedule;
use module_table::ModLine;
use script_waits::{ControlLine, LinedAct, LinedTask, Wait, deadlock};
use std::alloc::{AllocError, Global};
use user_specs::{CpuPlan, TaskPlan};

// ## whether the script can end

/// What a line of control is for those that wait.
fn control_line(line: &LinedCtl) -> ControlLine
    ensures { result ≡ control_line line.now }
{
    let wait = match &line.ctl {
        ScriptCtl::Run(_) => Wait::Command,
        ScriptCtl::Until { task, acts } => Wait::Until {
            task: *task,
            acts: *acts,
        },
    };
    ControlLine {
        wait,
        line: line.line,
    }
}

fn control_lines(alloc: Global, lines: &[LinedCtl]) -> Result<Vec<ControlLine>, AllocError>
    ensures { IfOk result (λ v. v.items ≡ map control_line lines.now) }
{
    lines.iter().map(|line| control_line(line)).collect(alloc)
}

// ## parts of the job

/// What control does in the job, and whose turn it is.
#[derive(Drop)]
struct Course {
    ctls: Vec<Ctl>,
    modules: Vec<ModRow>,
    schedule: Schedule,
}

/// How many commands there are after the first `n` commands, loads and unloads of a script, if there are
/// so many after each of them; `n` itself if they stay as they are.
fn commands_by(ends: &[u32], n: u32) -> u32
    ensures { result ≡ commands_by ends.now n }
{
    if n == 0 {
        return 0;
    }
    match ends.get(n as usize - 1) {
        Some(commands) => *commands,
        None => n,
    }
}

/// The act in the job.
fn act_in_job(ends: &[u32], act: LinedAct) -> LinedAct
    ensures { result ≡ record act { act = act_in_job ends.now act.act } }
{
    match act.act {
        TaskAct::After(n) => LinedAct {
            act: TaskAct::After(commands_by(ends, n)),
            line: act.line,
        },
        _ => act,
    }
}

/// The acts in the job.
fn acts_in_job(alloc: Global, ends: &[u32], acts: &[LinedAct]) -> Result<Vec<LinedAct>, AllocError>
    ensures { IfOk result (λ v. v.items ≡ map {A = LinedAct} (λ a. record a { act = act_in_job ends.now a.act }) acts.now) }
{
    acts.iter().map(|act| act_in_job(ends, *act)).collect(alloc)
}

/// A task whose waits are those of the job.
fn task_in_job(alloc: Global, ends: &[u32], task: &LinedTask) -> Result<LinedTask, AllocError>
    ensures { IfOk result (λ t. lined_task t ≡ task_in_job ends.now (lined_task task.now)) }
{
    let acts = acts_in_job(alloc, ends, task.acts.as_slice())?;
    Ok(LinedTask {
        pid: task.pid,
        cpu: task.cpu,
        acts,
    })
}

/// The tasks, whose waits are those of the job.
fn tasks_in_job(
    alloc: Global,
    ends: &[u32],
    tasks: &[LinedTask],
) -> Result<Vec<LinedTask>, AllocError>
    ensures { IfOk result (λ v. map lined_task v.items ≡ map (task_in_job ends.now) (map lined_task tasks.now)) }
{
    let mut those = Vec::new(alloc);
    for task in tasks {
        those.push(task_in_job(alloc, ends, task)?)?;
    }
    Ok(those)
}

/// The acts without their lines.
fn plain_acts(alloc: Global, acts: &[LinedAct]) -> Result<Vec<TaskAct>, AllocError>
    ensures { IfOk result (λ v. v.items ≡ map (λ a. a.act) acts.now) }
{
    acts.iter().map(|act| act.act).collect(alloc)
}

/// The plans of the tasks on a CPU.
fn task_plans(alloc: Global, cpu: u32, tasks: &[LinedTask]) -> Result<Vec<TaskPlan>, AllocError>
    requires { length tasks.now ≤ TASKS }
    ensures { IfOk result (λ v. map plan_seen v.items ≡ tasks_on cpu 0 (map task_of (map lined_task tasks.now))) }
{
    let mut plans = Vec::new(alloc);
    for i in 0..tasks.len() {
        let task = &tasks[i];
        if task.cpu == cpu {
            let acts = plain_acts(alloc, task.acts.as_slice())?;
            plans.push(TaskPlan {
                task: TaskNo(i as u32),
                pid: task.pid,
                acts,
            })?;
        }
    }
    Ok(plans)
}

/// The plan of each CPU.
fn cpu_plans(alloc: Global, quanta: &[u32], tasks: &[LinedTask]) -> Result<Vec<CpuPlan>, AllocError>
    requires cpus { length quanta.now ≤ CPUS }
    requires tasks { length tasks.now ≤ TASKS }
    ensures { IfOk result (λ v. map cpu_of v.items ≡ cpus_from 0 quanta.now (map task_of (map lined_task tasks.now))) }
{
    let mut cpus = Vec::new(alloc);
    for c in 0..quanta.len() {
        let tasks = task_plans(alloc, c as u32, tasks)?;
        cpus.push(CpuPlan {
            quantum: quanta[c],
            tasks,
        })?;
    }
    Ok(cpus)
}

/// How many trampoline slots there are in a script of this version, which may say it.
pub fn slots(version: u8, said: Option<u32>) -> u8
    requires { IsAtMost (limits_of version).tramps said }
    ensures { result ≡ unwrap_or said (limits_of version).tramps }
{
    match said {
        Some(slots) => slots as u8,
        None => Limits::of(version).tramps,
    }
}

/// Adds a line of control as it is, if it is neither a load nor an unload.
fn push_as_it_is(ctls: &mut Vec<Ctl>, line: LinedCtl) -> Result<(), AllocError>
    ensures { OnOk result ((tasks : ℕ) → lines_of tasks ctls.new.items ≡ lines_of tasks ctls.old.items ++ line_as_it_is (lined_ctl tasks line).ctl) }
{
    match line.ctl {
        ScriptCtl::Run(ModLine::Plain(command)) => ctls.push(Ctl::Run(command))?,
        ScriptCtl::Run(ModLine::Load(_) | ModLine::Unload(_)) => {}
        ScriptCtl::Until { task, acts } => ctls.push(Ctl::Until { task, acts })?,
    }
    Ok(())
}

/// The lines of control as they are.
fn lines_as_they_are(alloc: Global, lines: Vec<LinedCtl>) -> Result<Vec<Ctl>, AllocError>
    ensures { IfOk result (λ v. (tasks : ℕ) → lines_of tasks v.items ≡ lines_as_they_are (map (lined_ctl tasks) lines.items)) }
{
    let mut ctls = Vec::new(alloc);
    for line in lines {
        push_as_it_is(&mut ctls, line)?;
    }
    Ok(ctls)
}

/// The lines of control in the job, and the loads and unloads: what the lines come to, or in a script
/// with lanes the lines as they are.
fn job_lines(
    alloc: Global,
    expansion: Option<Expansion>,
    lines: Vec<LinedCtl>,
) -> Result<(Vec<Ctl>, Vec<ModRow>), AllocError>
    ensures some { IfOk result (λ r. IfSome expansion (λ x. (r.0.items ≡ x.ctls.items) × (r.1.items ≡ x.rows.items))) }
    ensures none { IfOk result (λ r. expansion ≡ None → (r.1.items ≡ [])
        × ((tasks : ℕ) → lines_of tasks r.0.items ≡ lines_as_they_are (map (lined_ctl tasks) lines.items))) }
{
    match expansion {
        Some(expansion) => Ok(expansion.into_lines()),
        None => Ok((lines_as_they_are(alloc, lines)?, Vec::new(alloc))),
    }
}

/// The schedule. Without a `sched` line, control and each CPU step in turn.
fn schedule(turns: Vec<Turn>) -> Result<Schedule, AllocError>
    ensures { IfOk result (λ s. s.turns.items ≡ schedule_of turns.items) }
{
    let mut turns = turns;
    if turns.is_empty() {
        turns.push(Turn {
            who: Who::All,
            count: USUAL_TURNS,
        })?;
    }
    Ok(Schedule { turns })
}

/// The course of a job with these lines of control and these turns.
fn course_of(
    alloc: Global,
    expansion: Option<Expansion>,
    lines: Vec<LinedCtl>,
    turns: Vec<Turn>,
) -> Result<Course, AllocError>
    ensures some { IfOk result (λ r. IfSome expansion (λ x. (r.ctls.items ≡ x.ctls.items) × (r.modules.items ≡ x.rows.items))) }
    ensures none { IfOk result (λ r. expansion ≡ None → (r.modules.items ≡ [])
        × ((tasks : ℕ) → lines_of tasks r.ctls.items ≡ lines_as_they_are (map (lined_ctl tasks) lines.items))) }
    ensures schedule { IfOk result (λ r. r.schedule.turns.items ≡ schedule_of turns.items) }
{
    let (ctls, modules) = job_lines(alloc, expansion, lines)?;
    let schedule = schedule(turns)?;
    Ok(Course {
        ctls,
        modules,
        schedule,
    })
}

// ## what a reader gives

impl Reader {
    ghost use Rattle.ft_job.specs.Parts.{parts_of};
    ghost use Rattle.script_waits.specs.Tasks.{tracks_of};
    ghost use Rattle.script_waits.specs.Greedy.{IsDeadlock};
    ghost use Rattle.ft_script.specs.Expansion.{expansion_of};
    ghost use Rattle.ft_script.specs.ReaderInvariant.{above_of, AreParts, IsOpen};
    ghost use Rattle.ft_script.specs.Script.{control_of, tasks_of, job_tasks_of};

    /// The lowest line that would be left waiting, if there is one.
    pub fn deadlock(&self, alloc: Global) -> Result<Option<u32>, AllocError>
        ensures { IfOk result (IsDeadlock (tracks_of (above_of self.now).tasks) (control_of (above_of self.now))) }
    {
        let control = control_lines(alloc, self.ctls.as_slice())?;
        deadlock(alloc, self.tasks.as_slice(), control.as_slice())
    }

    /// The tasks, whose waits are those of the job.
    pub fn job_tasks(&self, alloc: Global) -> Result<Vec<LinedTask>, AllocError>
        requires open { IsOpen self.now }
        ensures { IfOk result (λ v. map lined_task v.items ≡ job_tasks_of (above_of self.now)) }
    {
        tasks_in_job(alloc, self.ends(), self.tasks.as_slice())
    }

    /// How many commands there are after each command, load and unload; nothing if the lines of control
    /// stay as they are.
    fn ends(&self) -> &[u32]
        requires open { IsOpen self.now }
        ensures { result.now ≡ (expansion_of (above_of self.now)).ends }
    {
        match &self.expansion {
            Some(expansion) => expansion.ends(),
            None => &[],
        }
    }

    /// The plans of the CPUs of the job, which has these tasks.
    pub fn cpu_plans(&self, alloc: Global, tasks: &[LinedTask]) -> Result<Vec<CpuPlan>, AllocError>
        requires cpus { length self.now.quanta.items ≤ CPUS }
        requires few { length self.now.tasks.items ≤ TASKS }
        requires tasks { map lined_task tasks.now ≡ job_tasks_of (above_of self.now) }
        ensures { IfOk result (λ v. map cpu_of v.items ≡ cpus_from 0 self.now.quanta.items (tasks_of (above_of self.now))) }
    {
        cpu_plans(alloc, self.quanta.as_slice(), tasks)
    }

    /// The parts of the job, whose CPUs have these plans.
    pub fn into_parts(self, alloc: Global, cpus: Vec<CpuPlan>) -> Result<JobParts, AllocError>
        requires tramps { IsAtMost (limits_of self.version).tramps self.tramps }
        requires open { IsOpen self }
        requires plans { map cpu_of cpus.items ≡ cpus_from 0 self.quanta.items (tasks_of (above_of self)) }
        ensures { IfOk result (λ p. AreParts (parts_of p) (above_of self)) }
    {
        let Reader {
            version,
            lines: _,
            rank: _,
            frames,
            tramps,
            functions,
            names: _,
            absent,
            ring,
            tracing,
            triggers,
            users,
            user_lines: _,
            quanta: _,
            tasks: _,
            levels: _,
            acts: _,
            calls: _,
            ctls,
            waits: _,
            expansion,
            lane_count: _,
            lanes,
            turns,
            steps: _,
        } = self;
        let Course {
            ctls,
            modules,
            schedule,
        } = course_of(alloc, expansion, ctls, turns)?;
        Ok(JobParts {
            version,
            table: functions,
            specs: users,
            frames: frames.unwrap_or(USUAL_FRAMES),
            tramps: slots(version, tramps),
            cpus,
            ctls,
            schedule,
            lanes,
            absent,
            modules,
            ring: ring.unwrap_or(USUAL_RING),
            tracing,
            triggers,
        })
    }
}
