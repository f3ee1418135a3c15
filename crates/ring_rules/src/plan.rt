//! What trace rings need to know of a job.

ghost use Rattle.std.specs.Prelude.{◌≡◌, ◌<◌, length, map};
ghost use Rattle.ft_base.specs.Items.{call_of};
ghost use Rattle.filter_commands.specs.Meanings.{plain_trigger};
ghost use Rattle.ring_rules.specs.Fold.{cpu_of_call};
ghost use Rattle.ring_rules.specs.Hits.{fires, is_hit, is_traced, quota, trigger};
ghost use Rattle.ring_rules.specs.Plan.{IsPlan};

use filter_commands::Trigger;
use ft_base::Item;
use std::marker::Model;

/// What trace rings need to know of a job: its CPUs and which tasks they have, which users are of kind
/// function, how long the rings are, whether tracing is on at first, and the triggers.
#[derive(Drop)]
pub struct TracePlan {
    cpus: u32,
    tasks: Vec<u32>,
    users: Vec<bool>,
    ring: u32,
    tracing: bool,
    triggers: Vec<Trigger>,
}

impl Model for TracePlan {
    ghost use Rattle.std.specs.Prelude.{map};
    ghost use Rattle.filter_commands.specs.Meanings.{plain_trigger};
    ghost use Rattle.ring_rules.specs.Plan.{IsPlan, TracePlan as PlainPlan};

    ghost Value = { PlainPlan };

    ghost view = { λ p. record { cpus = p.cpus; tasks = p.tasks.items; users = p.users.items; ring = p.ring; tracing = p.tracing; triggers = map plain_trigger p.triggers.items } };

    ghost invariant = { λ p. IsPlan record { cpus = p.cpus; tasks = p.tasks.items; users = p.users.items; ring = p.ring; tracing = p.tracing; triggers = map plain_trigger p.triggers.items } };
}

/// Whether an item is the call of a function in a trigger's set.
fn hits(trigger: &Trigger, item: &Item) -> bool
    ensures { result ≡ is_hit (plain_trigger trigger.now) item.now }
{
    match item {
        Item::Enter { func, .. } => func.0 < trigger.set.size() && trigger.set.contains(func.0),
        _ => false,
    }
}

/// Whether a hit fires that has so many before it, if only so many may.
fn is_within(limit: Option<u32>, before: u64) -> bool
    ensures { result ≡ fires limit before }
{
    match limit {
        None => true,
        Some(most) => before < u64::from(most),
    }
}

/// How many of so many hits fire, if only so many may.
fn most_fires(limit: Option<u32>, hits: u32) -> u32
    ensures { result ≡ quota limit hits }
{
    match limit {
        None => hits,
        Some(most) => most.min(hits),
    }
}

impl TracePlan {
    /// The plan with so many CPUs, the CPU of each task, whether each user is of kind function, how many
    /// entries a ring holds, whether tracing is on at first, and the triggers in the order of lines.
    pub fn new(
        cpus: u32,
        tasks: Vec<u32>,
        users: Vec<bool>,
        ring: u32,
        tracing: bool,
        triggers: Vec<Trigger>,
    ) -> TracePlan
        requires { IsPlan record { cpus = cpus; tasks = tasks.items; users = users.items; ring = ring; tracing = tracing; triggers = map plain_trigger triggers.items } }
        ensures { result ≡ record { cpus = cpus; tasks = tasks.items; users = users.items; ring = ring; tracing = tracing; triggers = map plain_trigger triggers.items } }
    {
        TracePlan {
            cpus,
            tasks,
            users,
            ring,
            tracing,
            triggers,
        }
    }

    /// Changes nothing. A caller learns the limits that each plan keeps.
    pub fn limits(&self)
        ensures { IsPlan self.now }
    {
        let _cpus = self.cpus;
    }

    /// How many CPUs there are.
    pub fn cpus(&self) -> u32
        ensures { result ≡ self.now.cpus }
    {
        self.cpus
    }

    /// How many entries a ring holds.
    pub fn ring(&self) -> u32
        ensures { result ≡ self.now.ring }
    {
        self.ring
    }

    /// Whether tracing is on at first.
    pub fn tracing(&self) -> bool
        ensures { result ≡ self.now.tracing }
    {
        self.tracing
    }

    /// How many triggers there are.
    pub fn trigger_count(&self) -> u32
        ensures { result ≡ length self.now.triggers }
    {
        self.triggers.len() as u32
    }

    /// Whether an item hits trigger `i`.
    pub fn is_hit(&self, i: u32, item: &Item) -> bool
        requires { i < length self.now.triggers }
        ensures { result ≡ is_hit (trigger self.now i) item.now }
    {
        hits(&self.triggers[i as usize], item)
    }

    /// Whether a hit of trigger `i` fires that has so many before it.
    pub fn fires(&self, i: u32, before: u64) -> bool
        requires { i < length self.now.triggers }
        ensures { result ≡ fires (trigger self.now i).limit before }
    {
        is_within(self.triggers[i as usize].limit, before)
    }

    /// How many of so many hits of trigger `i` fire.
    pub fn most_fires(&self, i: u32, hits: u32) -> u32
        requires { i < length self.now.triggers }
        ensures { result ≡ quota (trigger self.now i).limit hits }
    {
        most_fires(self.triggers[i as usize].limit, hits)
    }

    /// Whether trigger `i` switches tracing on, and not off.
    pub fn switches_on(&self, i: u32) -> bool
        requires { i < length self.now.triggers }
        ensures { result ≡ (trigger self.now i).on }
    {
        self.triggers[i as usize].on
    }

    /// Whether an item's place is written into a ring while tracing is on: it is an entry callback of a
    /// user of kind function.
    pub fn is_traced(&self, item: &Item) -> bool
        ensures { result ≡ is_traced self.now item.now }
    {
        match item {
            Item::Back { user, .. } => match self.users.get(user.0 as usize) {
                Some(of_function) => *of_function,
                None => true,
            },
            _ => false,
        }
    }

    /// The CPU of the call that an item is of, 0 if it is of none that the plan has.
    pub fn cpu(&self, item: &Item) -> u32
        ensures { result ≡ cpu_of_call self.now (call_of item.now) }
    {
        match item.call() {
            Some(call) => match self.tasks.get(call.task.0 as usize) {
                Some(cpu) => *cpu,
                None => 0,
            },
            None => 0,
        }
    }
}
