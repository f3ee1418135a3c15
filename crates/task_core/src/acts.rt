//! The acts of a task, and how many are finished.

ghost use Rattle.std.specs.Prelude.{◌≡◌, ◌<◌, ◌≤◌, suc, length, nat_lt, slice_get, IfOk};
ghost use Rattle.ft_base.specs.declared.limits.TheConstants.{ACTS};

use ft_base::{NoMemory, TaskAct};
use std::alloc::Global;
use std::marker::Model;

/// The acts of a task. Contracts see all of them, and how many are finished.
#[derive(Drop)]
pub(crate) struct Acts {
    acts: Vec<TaskAct>,
    /// How many acts are finished, which is also the index of the present one.
    gone: u32,
}

impl Model for Acts {
    ghost use Rattle.task_core.specs.TaskActs.{TaskActs};

    ghost Value = { TaskActs };

    ghost use Rattle.task_core.specs.ActsInvariant.{acts_of, ActsInvariant};

    ghost view = { acts_of };

    ghost invariant = { ActsInvariant };
}

impl Acts {
    /// These acts, before the first. The error says that memory ran out.
    pub(crate) fn new(alloc: Global, acts: &[TaskAct]) -> Result<Acts, NoMemory>
        requires { length acts.now ≤ ACTS }
        ensures { IfOk result (λ a. a ≡ record { all = acts.now; gone = 0 }) }
    {
        let acts = acts.to_vec(alloc).map_err(|_| NoMemory)?;
        Ok(Acts { acts, gone: 0 })
    }

    /// How many acts are finished.
    pub(crate) fn gone(&self) -> u32
        ensures { result ≡ self.now.gone }
    {
        self.gone
    }

    /// Whether an act is left.
    pub(crate) fn is_left(&self) -> bool
        ensures { result ≡ nat_lt self.now.gone (length self.now.all) }
    {
        (self.gone as usize) < self.acts.len()
    }

    /// The present act; none after the last one.
    pub(crate) fn present(&self) -> Option<TaskAct>
        ensures { result ≡ slice_get self.now.all self.now.gone }
    {
        self.acts.get(self.gone as usize).copied()
    }

    /// The present act is done.
    pub(crate) fn finish(&mut self)
        requires { self.old.gone < length self.old.all }
        ensures { self.new ≡ record self.old { gone = suc self.old.gone } }
    {
        self.gone += 1;
    }
}
