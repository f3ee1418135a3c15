//! A job, with what its machine and its texts ask of it.

ghost use Rattle.std.specs.Prelude.{◌≡◌, ◌≤◌, ℕ, map, length, slice_get, option_map, All, IfErr, IfOk};
ghost use Rattle.std.specs.List.{AllByRecursion as Each};
ghost use Rattle.ft_base.specs.declared.limits.TheConstants.{CPUS, QUANTUM};
ghost use Rattle.ft_base.specs.Desk.{desk};
ghost use Rattle.ft_base.specs.Job.{Job as PlainJob, funcs};
ghost use Rattle.user_specs.specs.Plain.{spec_of, cpu_of};
ghost use Rattle.ft_desk.specs.Declarations.{IsOf, job_of as job_of_desk};
ghost use Rattle.ft_desk.specs.DeskView.{opened};
ghost use Rattle.ft_desk.specs.Sites.{row_at};
ghost use Rattle.ft_desk.specs.Lines.{IsLineIn, lines_of};
ghost use Rattle.word_machine_laws.specs.Led.{in_order};
ghost use Rattle.word_machine_laws.specs.Orders.{AreAllLed};
ghost use Rattle.word_map.specs.Shapes.{IsShape, shape_of};
ghost use Rattle.word_machine.specs.Limits.{IsLimited};
ghost use Rattle.filter_commands.specs.Meanings.{plain_trigger};
ghost use Rattle.ft_job.specs.Parts.{parts_of, quanta_of, cpus_from, IsWithin, job_of};
ghost use Rattle.ft_job.specs.Plans.{row_of, AreLinesPlanned, AreRingsPlanned};

use crate::find::{count, find, find_cpu};
use crate::order::copies;
use crate::parts::{JobParts, ModRow};
use filter_commands::Trigger;
use ft_base::{CpuNo, NoMemory, TaskAct, TaskNo};
use ft_desk::{Ctl, Desk};
use ft_schedule::Schedule;
use func_table::FuncTable;
use std::alloc::Global;
use std::marker::Model;
use user_specs::{CpuPlan, Spec};
use word_map::Shape;

impl Model for Job {
    ghost use Rattle.ft_base.specs.Job.{Job as PlainJob};
    ghost use Rattle.ft_job.specs.Parts.{parts_of, IsWithin, job_of};

    ghost Value = { PlainJob };

    ghost view = { λ j. job_of (parts_of j.parts) };

    ghost invariant = { λ j. IsWithin (parts_of j.parts) };
}

/// A job that the machine knows, which contracts see as plain data.
#[derive(Drop)]
pub struct Job {
    parts: JobParts,
}

impl Job {
    /// The job of these parts.
    pub fn new(parts: JobParts) -> Job
        requires { IsWithin (parts_of parts) }
        ensures { result ≡ job_of (parts_of parts) }
    {
        Job { parts }
    }

    /// The version of the language that the script is in: 1, 2 or 3.
    #[tactic(auto, unfolding(crate::specs::Parts::job_of))]
    pub fn version(&self) -> u8
        ensures { result ≡ self.now.version }
    {
        self.parts.version
    }

    /// The traceable functions.
    #[tactic(auto, unfolding(crate::specs::Parts::job_of))]
    pub fn table(&self) -> &FuncTable
        ensures { result.now.functions ≡ self.now.functions }
    {
        &self.parts.table
    }

    /// The users.
    #[tactic(auto, unfolding(crate::specs::Parts::job_of))]
    pub fn specs(&self) -> &[Spec]
        ensures { map spec_of result.now ≡ self.now.users }
    {
        self.parts.specs.as_slice()
    }

    /// How many users there are. A job is within the limits of `ft_base::limits`.
    pub fn users(&self) -> u32
        ensures count { result ≡ length self.now.users }
        ensures limited { IsLimited self.now }
    {
        self.parts.specs.len() as u32
    }

    /// How many frames each task's shadow stack has.
    #[tactic(auto, unfolding(crate::specs::Parts::job_of))]
    pub fn frames(&self) -> u32
        ensures { result ≡ self.now.frames }
    {
        self.parts.frames
    }

    /// How many trampolines there are.
    #[tactic(auto, unfolding(crate::specs::Parts::job_of))]
    pub fn tramps(&self) -> u8
        ensures { result ≡ self.now.tramps }
    {
        self.parts.tramps
    }

    /// The CPUs in order, each with its quantum and its tasks; at most `ft_base::limits::CPUS`.
    #[tactic(auto, unfolding(crate::specs::Parts::job_of))]
    pub fn cpus(&self) -> &[CpuPlan]
        ensures quanta { quanta_of (map cpu_of result.now) ≡ self.now.quanta }
        ensures tasks { map cpu_of result.now ≡ cpus_from 0 self.now.quanta self.now.tasks }
        ensures few { length result.now ≤ CPUS }
        ensures quick { Each (λ q. q ≤ QUANTUM) self.now.quanta }
    {
        self.parts.cpus.as_slice()
    }

    /// What control does, in order.
    #[tactic(auto, unfolding(crate::specs::Parts::job_of))]
    pub fn ctls(&self) -> &[Ctl]
        ensures { lines_of (length self.now.tasks) result.now ≡ self.now.ctls }
    {
        self.parts.ctls.as_slice()
    }

    /// Whose turn it is, step by step.
    #[tactic(auto, unfolding(crate::specs::Parts::job_of))]
    pub fn schedule(&self) -> &Schedule
        ensures { result.now.turns.items ≡ self.now.schedule }
    {
        &self.parts.schedule
    }

    /// The lane of each command, below `ft_base::limits::LANES`, or nothing if there are no lanes.
    #[tactic(auto, unfolding(crate::specs::Parts::job_of))]
    pub fn lanes(&self) -> &[u32]
        ensures lanes { result.now ≡ self.now.lines.lanes }
        ensures planned { AreLinesPlanned self.now }
    {
        self.parts.lanes.as_slice()
    }

    /// The modules that aren't loaded at first, by number.
    #[tactic(auto, unfolding(crate::specs::Parts::job_of))]
    pub fn absent(&self) -> &[u32]
        ensures { result.now ≡ self.now.lines.absent }
    {
        self.parts.absent.as_slice()
    }

    /// The lines that load and unload modules, in order.
    #[tactic(auto, unfolding(crate::specs::Parts::job_of))]
    pub fn modules(&self) -> &[ModRow]
        ensures { map row_of result.now ≡ self.now.lines.modules }
    {
        self.parts.modules.as_slice()
    }

    /// How many entries each CPU's trace ring holds, from 1 to `ft_base::limits::RING`.
    #[tactic(auto, unfolding(crate::specs::Parts::job_of))]
    pub fn ring(&self) -> u32
        ensures ring { result ≡ self.now.rings.ring }
        ensures planned { AreRingsPlanned self.now }
    {
        self.parts.ring
    }

    /// Whether tracing is on at first.
    #[tactic(auto, unfolding(crate::specs::Parts::job_of))]
    pub fn tracing(&self) -> bool
        ensures { result ≡ self.now.rings.tracing }
    {
        self.parts.tracing
    }

    /// What switches tracing on and off, in order.
    #[tactic(auto, unfolding(crate::specs::Parts::job_of))]
    pub fn triggers(&self) -> &[Trigger]
        ensures { map plain_trigger result.now ≡ self.now.rings.triggers }
    {
        self.parts.triggers.as_slice()
    }

    /// The pid of the task of this number. `None` exactly if there is no such task.
    pub fn pid(&self, task: TaskNo) -> Option<u32>
        ensures { result ≡ option_map (λ t. t.pid) (slice_get self.now.tasks task.0) }
    {
        match find(self.parts.cpus.as_slice(), task) {
            Some(plan) => Some(plan.pid),
            None => None,
        }
    }

    /// What the task of this number does, in order. `None` exactly if there is no such task.
    pub fn acts(&self, task: TaskNo) -> Option<&[TaskAct]>
        ensures { option_map (λ a. a.now) result ≡ option_map (λ t. t.acts) (slice_get self.now.tasks task.0) }
    {
        match find(self.parts.cpus.as_slice(), task) {
            Some(plan) => Some(plan.acts.as_slice()),
            None => None,
        }
    }

    /// The CPU of the task of this number. `None` exactly if there is no such task.
    pub fn cpu(&self, task: TaskNo) -> Option<CpuNo>
        ensures { option_map (λ c. c.0) result ≡ option_map (λ t. t.cpu) (slice_get self.now.tasks task.0) }
    {
        find_cpu(self.parts.cpus.as_slice(), task)
    }

    /// The desk after the first `k` commands of the job, or after all of them if there are fewer. The
    /// error says that memory ran out.
    pub fn desk(&self, alloc: Global, k: u32) -> Result<Desk, NoMemory>
        ensures state { IfOk result (λ d. d.state ≡ desk self.now k) }
        ensures funcs { IfOk result (λ d. d.declared.funcs ≡ funcs self.now) }
        ensures rows { IfOk result (λ d. (f : ℕ) → row_at (job_of_desk d.declared) d.state f ≡ row_at self.now (desk self.now k) f) }
    {
        let (mut desk, lines) = self.opening(alloc)?;
        plan_first(&mut desk, lines, k);
        Ok(desk)
    }

    /// The desk before the first command, and the lines of control, which can be planned on it. The
    /// error says that memory ran out.
    pub fn opening(&self, alloc: Global) -> Result<(Desk, &[Ctl]), NoMemory>
        ensures opened { IfOk result (λ p. p.0 ≡ opened p.0.declared) }
        ensures declared { IfOk result (λ p. IsOf self.now p.0.declared) }
        ensures named { IfOk result (λ p. All (IsLineIn p.0.declared) p.1.now) }
        ensures lines { IfOk result (λ p. lines_of p.0.declared.tasks p.1.now ≡ self.now.ctls) }
    {
        let desk = Desk::new(alloc, self.parts.specs.as_slice(), self.shape())?;
        Ok((desk, self.parts.ctls.as_slice()))
    }

    /// The job with its lines and their lanes in this order. The error is want of memory alone, and
    /// gives the job back unchanged.
    pub fn in_order(self, alloc: Global, order: &[u32]) -> Result<Job, Job>
        requires { AreAllLed (length self.ctls) order.now }
        ensures ok { IfOk result (λ j. j ≡ in_order self order.now) }
        ensures err { IfErr result (λ j. j ≡ self) }
    {
        match copies(alloc, &self.parts, order) {
            Ok((ctls, lanes)) => {
                let mut parts = self.parts;
                parts.ctls = ctls;
                parts.lanes = lanes;
                Ok(Job { parts })
            }
            Err(NoMemory) => Err(self),
        }
    }

    /// How many tasks there are, over all CPUs.
    pub fn tasks(&self) -> u32
        ensures { result ≡ length self.now.tasks }
    {
        count(self.parts.cpus.as_slice())
    }

    /// How many there are of each thing that has words. A job is within the limits of `ft_base::limits`.
    pub fn shape(&self) -> Shape
        ensures counts { result ≡ shape_of self.now }
        ensures within { IsShape result }
        ensures limited { IsLimited self.now }
    {
        Shape {
            funcs: self.parts.table.len(),
            users: self.parts.specs.len() as u32,
            cpus: self.parts.cpus.len() as u32,
            tasks: self.tasks(),
            tramps: self.parts.tramps,
        }
    }
}

/// Plans the first `k` commands among these lines on a desk that was just made, or all of them if
/// there are fewer.
fn plan_first(present: &mut Desk, ctls: &[Ctl], k: u32)
    requires opened { present.old ≡ opened present.old.declared }
    requires lines { All (IsLineIn present.old.declared) ctls.now }
    ensures declared { present.new.declared ≡ present.old.declared }
    ensures state { (job : PlainJob) → IsOf job present.old.declared → lines_of present.old.declared.tasks ctls.now ≡ job.ctls
        → present.new.state ≡ desk job k }
{
    for line in ctls {
        if present.commands() == k {
            return;
        }
        if let Ctl::Run(command) = line {
            present.plan(command);
        }
    }
}
