//! A CPU, as a stepper: its next operation, and what the value that the operation gives makes of it.

ghost use Rattle.std.specs.Prelude.{◌≡◌, ◌<◌, ◌≤◌, [], ◌++◌, length, All, IfOk, Option};
ghost use Rattle.std.specs.Option.{option_map};
ghost use Rattle.ft_base.specs.declared.limits.TheConstants.{ACTS, FRAMES, QUANTUM, TASKS};
ghost use Rattle.user_specs.specs.declared.plan.TaskPlan.{TaskPlan};
ghost use Rattle.word_map.specs.Ops.{placed};
ghost use Rattle.word_map.specs.Shapes.{shape_of};

use crate::marked::Marked;
use crate::parts::{Parts, Phase};
use crate::tasks::Tasks;
use ft_base::limits::Limits;
use ft_base::{CpuNo, Item, NoMemory, Stamped};
use std::alloc::Global;
use std::marker::Model;
use task_core::Setup;
use user_specs::{CpuPlan, Spec};
use word_map::{Op, WordMap};

/// A CPU with its tasks, and the items that it has marked. Contracts see its parts, of which
/// `cpu_of` makes the word machine's CPU.
#[derive(Drop)]
pub struct Cpu {
    parts: Parts,
}

impl Model for Cpu {
    ghost use Rattle.cpu_core.specs.declared.parts.Parts.{Parts};

    ghost Value = { Parts };

    ghost use Rattle.cpu_core.specs.CpuNeeds.{HasNext};

    ghost view = { λ d. d.parts };

    ghost invariant = { λ d. HasNext d.parts };
}

impl Cpu {
    ghost use Rattle.ft_base.specs.Job.{Job};
    ghost use Rattle.word_machine.specs.Cpu.{cpu_got, cpu_next, cpu_start};
    ghost use Rattle.word_machine.specs.Laws.{CpuTakes};
    ghost use Rattle.word_machine.specs.Limits.{IsLimited};
    ghost use Rattle.cpu_core.specs.Cpus.{IsFor, cpu_of};
    ghost use Rattle.cpu_core.specs.CpuSteps.{marks_in};
    ghost use Rattle.cpu_core.specs.Marks.{handed_on, no_marks};
    ghost use Rattle.task_core.specs.TaskOps.{item_in};
    ghost use Rattle.cpu_core.specs.Taken.{IsCpuOf, IsTaken};

    /// CPU `cpu` of a script before its first step, with these tasks and users. `frames` is how many
    /// frames each task's shadow stack has, and `version` the version of the language: 1, 2 or 3. It has
    /// room for `room` items that it keeps, and for all else that its steps need. The error says
    /// that memory ran out.
    pub fn new(
        alloc: Global,
        plan: &CpuPlan,
        cpu: CpuNo,
        specs: &[Spec],
        frames: u32,
        version: u8,
        room: u32,
        map: WordMap,
    ) -> Result<Cpu, NoMemory>
        requires cpu { cpu.0 < map.cpus }
        requires tasks { length plan.now.tasks.items ≤ TASKS }
        requires acts { All (λ (p : TaskPlan). length p.acts.items ≤ ACTS) plan.now.tasks.items }
        requires frames { frames ≤ FRAMES }
        ensures of { IfOk result (λ c. (job : Job) → IsLimited job → IsCpuOf job plan.now cpu.0 specs.now frames version map → plan.now.quantum ≤ QUANTUM
            → IsFor job c × (cpu_of job c ≡ cpu_start job cpu.0)) }
        ensures room { IfOk result (λ c. c.marked ≡ no_marks room) }
    {
        let levels = Limits::of(version).levels;
        let tasks = Tasks::new(alloc, plan.tasks.as_slice(), frames, levels)?;
        Ok(Cpu {
            parts: Parts {
                setup: Setup::new(alloc, specs, frames, version, map)?,
                cpu,
                ack: 0,
                quantum: plan.quantum,
                present: tasks.first(),
                tasks,
                count: 0,
                phase: Phase::Going,
                marked: Marked::new(alloc, room)?,
            },
        })
    }

    /// Its next operation; none at its end.
    #[inline(always)]
    pub fn next(&self) -> Option<Op>
        ensures { (job : Job) → IsLimited job → IsFor job self.now
            → result ≡ option_map (placed (shape_of job)) (cpu_next job (cpu_of job self.now)) }
    {
        self.parts.op()
    }

    /// Takes the value that its next operation gave, and goes on. It takes no memory.
    #[inline(always)]
    pub fn got(&mut self, value: u64)
        requires { IsTaken self.old value }
        ensures of { (job : Job) → IsLimited job → IsFor job self.old → CpuTakes job (cpu_of job self.old) value → IsFor job self.new }
        ensures cpu { (job : Job) → IsLimited job → IsFor job self.old → CpuTakes job (cpu_of job self.old) value
            → cpu_of job self.new ≡ cpu_got job (cpu_of job self.old) value }
        ensures items { (job : Job) → IsLimited job → IsFor job self.old → CpuTakes job (cpu_of job self.old) value
            → self.new.marked.items ≡ self.old.marked.items ++ marks_in (cpu_next job (cpu_of job self.old)) value }
        ensures room { self.new.marked.room ≡ self.old.marked.room }
        ensures left { self.new.marked.left ≡ self.old.marked.left }
    {
        self.parts.step(value);
    }

    /// The same of a CPU that keeps no items: if the operation was a mark, its item is the answer, and
    /// isn't kept. A machine that keeps all items in one history need not keep each of them twice.
    #[inline(always)]
    pub fn take(&mut self, value: u64) -> Option<Item>
        requires taken { IsTaken self.old value }
        requires none { self.old.marked.items ≡ [] }
        ensures of { (job : Job) → IsLimited job → IsFor job self.old → CpuTakes job (cpu_of job self.old) value → IsFor job self.new }
        ensures cpu { (job : Job) → IsLimited job → IsFor job self.old → CpuTakes job (cpu_of job self.old) value
            → cpu_of job self.new ≡ cpu_got job (cpu_of job self.old) value }
        ensures item { (job : Job) → IsFor job self.old → result ≡ item_in (cpu_next job (cpu_of job self.old)) }
        ensures marked { self.new.marked ≡ handed_on result self.old.marked }
    {
        let item = self.parts.take(value);
        self.parts.marked.hand_on(&item);
        item
    }

    /// What it has marked, in the order of the places.
    pub fn items(&self) -> &[Stamped]
        ensures { result.now ≡ self.now.marked.items }
    {
        self.parts.marked.items()
    }

    /// What it has marked, in the order of the places; the CPU is used up.
    pub fn into_items(self) -> Vec<Stamped>
        ensures { result.items ≡ self.marked.items }
    {
        let Cpu { parts } = self;
        let Parts { marked, .. } = parts;
        marked.into_items()
    }
}
