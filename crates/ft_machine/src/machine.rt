//! The machine of a job.

ghost use Rattle.ft_machine.specs.MachineStates.{IsMachine};

use crate::cpus::CpuRoom;
use crate::start::{new_history, new_world};
use crate::world::World;
use ft_base::{Actor, FuncNo, NoMemory};
use ft_hist::History;
use ft_job::Job;
use std::alloc::Global;
use word_map::{Op, WordMap};

/// The machine of a job, in one of its states. It keeps what it needs of the job. Contracts speak of
/// each job whose machine it is: that is the one with which it was started.
#[derive(Drop)]
pub struct Machine {
    world: World,
    /// What has happened so far. All the room is taken at the start, so that a step takes no memory.
    history: History,
    ghost kept: { ∥ IsMachine world history ∥₁ },
}

impl Machine {
    ghost use Rattle.std.specs.Prelude.{◌≡◌, ◌<◌, true, get_or, length, option_map, reverse, IfOk};
    ghost use Rattle.ft_base.specs.Job.{Job as PlainJob};
    ghost use Rattle.ft_hist.specs.Rules.{IsLegal, IsWhole};
    ghost use Rattle.word_map.specs.Ops.{placed};
    ghost use Rattle.word_map.specs.Places.{IsThere, len, place};
    ghost use Rattle.word_map.specs.Shapes.{shape_of};
    ghost use Rattle.word_map.specs.Words.{Word, read};
    ghost use Rattle.word_machine.specs.Machine.{all_end, is_at_end, start, step};
    ghost use Rattle.ft_machine.specs.Nexts.{next_op};
    ghost use Rattle.ft_machine.specs.Sites.{IsWhole as IsWholeSite, site_of};
    ghost use Rattle.ft_machine.specs.Machines.{IsOf, shape_in, state_of};

    /// The machine of a job before its first step, with room for all items that the job can make. Its
    /// only fault is out of memory.
    pub fn start(alloc: Global, job: &Job) -> Result<Machine, NoMemory>
        ensures of { IfOk result (λ m. IsOf job.now m) }
        ensures opening { IfOk result (λ m. state_of job.now m ≡ start job.now) }
    {
        let history = new_history(alloc, job)?;
        let world = new_world(alloc, job, CpuRoom::ForOne)?;
        Ok(Machine { world, history })
    }

    /// One step of an actor; nothing if it is at its end, or a CPU that the job doesn't have. It takes
    /// no memory.
    pub fn step(&mut self, actor: Actor)
        ensures of { (job : PlainJob) → IsOf job self.old → IsOf job self.new }
        ensures state { (job : PlainJob) → IsOf job self.old → state_of job self.new ≡ step job actor (state_of job self.old) }
    {
        if let Some(item) = self.world.step(actor) {
            self.history.push(item);
        }
    }

    /// The operation that an actor's next step makes: a load, a store or a mark, of the word at a place
    /// of [`map`](Self::map). None if the actor is at its end, or a CPU that the job doesn't have. The
    /// law `a_step_makes_the_next_operation` says that [`step`](Self::step) makes this one.
    pub fn next(&self, actor: Actor) -> Option<Op>
        ensures { (job : PlainJob) → IsOf job self.now
            → result ≡ option_map (placed (shape_of job)) (next_op job actor (state_of job self.now)) }
    {
        self.world.next(actor)
    }

    /// Whether an actor is at its end. A CPU that the job doesn't have is as one before its first step.
    pub fn at_end(&self, actor: Actor) -> bool
        ensures { (job : PlainJob) → IsOf job self.now → result ≡ is_at_end job actor (state_of job self.now) }
    {
        self.world.at_end(actor)
    }

    /// Whether every actor is at its end.
    pub fn all_end(&self) -> bool
        ensures { (job : PlainJob) → IsOf job self.now → result ≡ all_end job (state_of job self.now) }
    {
        self.world.all_end()
    }

    /// The place of each word that the actors share (docs/PROTOCOL.md, "Who does what").
    pub fn map(&self) -> WordMap
        ensures shape { result ≡ shape_in self.now }
        ensures job { (job : PlainJob) → IsOf job self.now → result ≡ shape_of job }
    {
        self.world.map()
    }

    /// What each word holds now, by its place: each is 64 bits.
    pub fn words(&self) -> &[u64]
        ensures count { (job : PlainJob) → IsOf job self.now → length result.now ≡ len (shape_of job) }
        ensures each { (job : PlainJob) → IsOf job self.now → (w : Word) → IsThere (shape_of job) w
            → get_or result.now (place (shape_of job) w) 0 ≡ read w (state_of job self.now).words }
    {
        self.world.words()
    }

    /// How many functions have call sites: those of the job.
    pub fn functions(&self) -> u32
        ensures sites { result ≡ (shape_in self.now).funcs }
        ensures all { (job : PlainJob) → IsOf job self.now → result ≡ length job.functions }
    {
        self.world.functions()
    }

    /// The five bytes of the call site of a function (`ftrace.rst`, "dynamic ftrace"). They begin with
    /// the breakpoint, or are those of the site's target after the commands that have returned, or
    /// after those that have begun.
    pub fn site(&self, f: FuncNo) -> [u8; 5]
        requires { f.0 < (shape_in self.now).funcs }
        ensures bytes { (job : PlainJob) → IsOf job self.now → result ≡ site_of (state_of job self.now).words f.0 }
        ensures whole { (job : PlainJob) → IsOf job self.now → IsWholeSite job (state_of job self.now).past f.0 result }
    {
        self.world.site(f)
    }

    /// What has happened so far.
    pub fn history(&self) -> &History
        ensures items { (job : PlainJob) → IsOf job self.now → result.now.items ≡ reverse (state_of job self.now).past }
        ensures legal { (job : PlainJob) → IsOf job self.now → IsLegal job result.now.items }
        ensures whole { (job : PlainJob) → IsOf job self.now → all_end job (state_of job self.now) ≡ true → IsWhole job result.now.items }
    {
        &self.history
    }
}
