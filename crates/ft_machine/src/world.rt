//! The words, control and the CPUs, one step at a time.

ghost use Rattle.std.specs.Prelude.{List, ◌≡◌, [], ◌<◌, ◌≤◌, ◌+◌, ◌*◌, length, option_map, All, IfOk};
ghost use Rattle.ft_base.specs.declared.item.Item.{Item};
ghost use Rattle.ft_base.specs.declared.turn.Actor.TheVariants as Actor;
ghost use Rattle.ft_base.specs.Desk.{desk};
ghost use Rattle.ft_base.specs.Job.{Job, commands};
ghost use Rattle.history_laws.specs.Bound.{all_calls};
ghost use Rattle.user_specs.specs.Bound.{call_bound_in};
ghost use Rattle.word_map.specs.Contents.{mask_of};
ghost use Rattle.word_map.specs.Ops.{placed};
ghost use Rattle.word_map.specs.Shapes.{shape_of};
ghost use Rattle.ft_desk.specs.Lines.{IsLineIn};
ghost use Rattle.control_core.specs.Plans.{IsDeclaredIn};
ghost use Rattle.control_core.specs.Seated.{IsOpening, LeadsAll};
ghost use Rattle.word_machine.specs.Laws.{Runs};
ghost use Rattle.word_machine.specs.Limits.{IsLimited};
ghost use Rattle.word_machine.specs.Machine.{start, step, is_at_end, all_end};
ghost use Rattle.ft_machine.specs.Nexts.{next_op};
ghost use Rattle.ft_machine.specs.Sites.{site_of};
ghost use Rattle.ft_machine.specs.Starts.{AreFirst, AreListsOf};
ghost use Rattle.ft_machine.specs.Worlds.{Declares, IsFor, marked_on, world_of};

use crate::cpus::{CpuRoom, TaskLimits, all_rooms, has_ended, new_cpus};
use crate::table::Table;
use control_core::Control;
use cpu_core::Cpu;
use ft_base::{Actor, CpuNo, FuncNo, Item, NoMemory};
use ft_desk::{Ctl, Desk};
use pid_filter::Pids;
use std::alloc::Global;
use std::marker::Model;
use user_specs::{CpuPlan, Spec};
use word_map::{Op, WordMap};

/// The words, control and the CPUs. Contracts see them as lists, of which `world_of` makes the word
/// machine's world, after items that the caller knows: the machine keeps none, and an actor's own list is
/// empty between two steps. It is always the machine of some job, in a state that keeps the rule.
#[derive(Drop)]
pub struct World {
    map: WordMap,
    table: Table,
    control: Control,
    cpus: Vec<Cpu>,
}

/// The words, control and the CPUs apart, for those who let them step at the same time.
#[derive(Drop)]
pub struct WorldParts {
    /// The shared words, the clock first.
    pub words: Vec<u64>,
    /// Control.
    pub control: Control,
    /// The CPUs by number.
    pub cpus: Vec<Cpu>,
}

impl Model for World {
    ghost use Rattle.ft_machine.specs.Worlds.{Parts};

    ghost Value = { Parts };

    ghost use Rattle.ft_machine.specs.WorldInvariant.{parts_of, WorldInvariant};

    ghost view = { parts_of };

    ghost invariant = { WorldInvariant };
}

impl World {
    /// The machine before its first step: this desk and these lines are control's, and there is a CPU
    /// for each plan, with this room for what it marks; it needs room for one alone as long as the
    /// machine steps as one. The error says that memory ran out.
    pub fn new(
        alloc: Global,
        desk: Desk,
        ctls: &[Ctl],
        plans: &[CpuPlan],
        specs: &[Spec],
        limits: TaskLimits,
        rooms: CpuRoom,
        map: WordMap,
    ) -> Result<World, NoMemory>
        requires declared { IsDeclaredIn map desk.declared }
        requires lines { All (IsLineIn desk.declared) ctls.now }
        requires job { (job : Job) × Declares job desk ctls.now plans.now specs.now limits map }
        ensures opening { IfOk result (λ w. (job : Job) → Declares job desk ctls.now plans.now specs.now limits map → IsFor job [] w × (world_of job [] w ≡ start job)) }
        ensures control { IfOk result (λ w. IsOpening w.control × LeadsAll w.control) }
        ensures cpus { IfOk result (λ w. (job : Job) → Declares job desk ctls.now plans.now specs.now limits map → AreFirst rooms job w.cpus) }
    {
        let table = Table::new(alloc, &map, all_tasks(&map))?;
        let control = Control::new(alloc, desk, ctls, map)?;
        let cpus = new_cpus(alloc, plans, specs, limits, rooms, map)?;
        Ok(World {
            map,
            table,
            control,
            cpus,
        })
    }

    /// One step of an actor; nothing if it is at its end, or a CPU that there is not. The answer is the
    /// item that it has marked, if any. It takes no memory.
    pub fn step(&mut self, actor: Actor) -> Option<Item>
        ensures { (job : Job) (past : List Item) → IsLimited job → IsFor job past self.old → Runs job (world_of job past self.old)
            → IsFor job (marked_on result past) self.new × (world_of job (marked_on result past) self.new ≡ step job actor (world_of job past self.old)) }
    {
        match actor {
            Actor::Control => self.step_control(),
            Actor::Cpu(cpu) => {
                if (cpu.0 as usize) < self.cpus.len() {
                    self.step_cpu(cpu)
                } else {
                    None
                }
            }
        }
    }

    /// Control makes its next operation, if it has one.
    fn step_control(&mut self) -> Option<Item>
        ensures { (job : Job) (past : List Item) → IsLimited job → IsFor job past self.old → Runs job (world_of job past self.old)
            → IsFor job (marked_on result past) self.new
            × (world_of job (marked_on result past) self.new ≡ step job Actor.Control (world_of job past self.old)) }
    {
        if let Some(op) = self.control.next() {
            let value = self.table.make(op);
            return self.control.take(value);
        }
        None
    }

    /// A CPU makes its next operation, if it has one.
    fn step_cpu(&mut self, cpu: CpuNo) -> Option<Item>
        requires { cpu.0 < length self.old.cpus }
        ensures { (job : Job) (past : List Item) → IsLimited job → IsFor job past self.old → Runs job (world_of job past self.old)
            → IsFor job (marked_on result past) self.new
            × (world_of job (marked_on result past) self.new ≡ step job (Actor.Cpu cpu) (world_of job past self.old)) }
    {
        if let Some(op) = self.cpus[cpu.0 as usize].next() {
            let value = self.table.make(op);
            return self.cpus[cpu.0 as usize].take(value);
        }
        None
    }

    /// The operation that an actor's next step makes, on words by their places; none if the actor is at
    /// its end, or a CPU that there is not.
    pub fn next(&self, actor: Actor) -> Option<Op>
        ensures { (job : Job) (past : List Item) → IsLimited job → IsFor job past self.now → Runs job (world_of job past self.now)
            → result ≡ option_map (placed (shape_of job)) (next_op job actor (world_of job past self.now)) }
    {
        match actor {
            Actor::Control => self.control.next(),
            Actor::Cpu(cpu) => match self.cpus.get(cpu.0 as usize) {
                Some(own) => own.next(),
                None => None,
            },
        }
    }

    /// Whether an actor is at its end. A CPU that there is not is as one before its first step.
    pub fn at_end(&self, actor: Actor) -> bool
        ensures { (job : Job) (past : List Item) → IsLimited job → IsFor job past self.now → Runs job (world_of job past self.now)
            → result ≡ is_at_end job actor (world_of job past self.now) }
    {
        match actor {
            Actor::Control => self.control.next().is_none(),
            Actor::Cpu(cpu) => match self.cpus.get(cpu.0 as usize) {
                Some(own) => has_ended(own),
                None => false,
            },
        }
    }

    /// Whether every actor is at its end.
    pub fn all_end(&self) -> bool
        ensures { (job : Job) (past : List Item) → IsLimited job → IsFor job past self.now → Runs job (world_of job past self.now)
            → result ≡ all_end job (world_of job past self.now) }
    {
        self.control.next().is_none() && self.cpus.iter().all(|cpu| has_ended(cpu))
    }

    /// The place of each word.
    pub fn map(&self) -> WordMap
        ensures { result ≡ self.now.shape }
    {
        self.map
    }

    /// What each word holds now, by its place, the clock first (docs/PROTOCOL.md, "Who does what").
    pub fn words(&self) -> &[u64]
        ensures { result.now ≡ self.now.words }
    {
        self.table.words()
    }

    /// How many functions have call sites.
    pub fn functions(&self) -> u32
        ensures { result ≡ self.now.shape.funcs }
    {
        self.map.shape().funcs
    }

    /// The five bytes of the call site of a function, as its two words have them now (`ftrace.rst`,
    /// "dynamic ftrace").
    pub fn site(&self, f: FuncNo) -> [u8; 5]
        requires { f.0 < self.now.shape.funcs }
        ensures { (job : Job) (past : List Item) → IsFor job past self.now → result ≡ site_of (world_of job past self.now).words f.0 }
    {
        let head = self.table.word(self.map.head(f));
        let tail = self.table.word(self.map.tail(f));
        let [first, ..] = head.to_le_bytes();
        let [second, third, fourth, fifth, ..] = tail.to_le_bytes();
        [first, second, third, fourth, fifth]
    }

    /// What it is made of; the machine is used up.
    pub fn into_parts(self) -> WorldParts
        ensures words { result.words.items ≡ self.words }
        ensures control { result.control ≡ self.control }
        ensures cpus { result.cpus.items ≡ self.cpus }
    {
        let World {
            map: _,
            table,
            control,
            cpus,
        } = self;
        WorldParts {
            words: table.into_words(),
            control,
            cpus,
        }
    }
}

/// For how many items there has to be room: two for each line of control, and what the calls of all tasks
/// can make. No job makes more, and there is room for no more than that of lines that may be commands.
pub(crate) fn most_items(ctls: &[Ctl], plans: &[CpuPlan], specs: &[Spec], limits: TaskLimits) -> u32
    requires { (job : Job) × AreListsOf job ctls.now plans.now specs.now limits }
    ensures least { (job : Job) → AreListsOf job ctls.now plans.now specs.now limits
        → 2 * length (commands job) + call_bound_in job * all_calls job.tasks ≤ result }
    ensures most { (job : Job) → AreListsOf job ctls.now plans.now specs.now limits
        → result ≤ 2 * length job.ctls + call_bound_in job * all_calls job.tasks }
{
    2 * ctls.len() as u32 + all_rooms(plans, specs, limits)
}

/// The word of the traced tasks at the start: all tasks.
fn all_tasks(map: &WordMap) -> u64
    ensures { (job : Job) → length job.tasks ≡ map.now.tasks → result ≡ mask_of (desk job 0) (length job.tasks) }
{
    Pids::new(map.shape().tasks).mask()
}
