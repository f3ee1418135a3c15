//! A stack for each task.

ghost use Rattle.std.specs.Prelude.{◌≡◌, [], ◌<◌, ◌∷◌, drop, length, replicate, slice_get, slice_set, IfOk, OnOk};
ghost use Rattle.trace_views.specs.TaskStacks.{stack_at, with_top};

use ft_base::{NoMemory, TaskNo};
use std::alloc::Global;
use std::marker::Model;

/// A stack for each of a job's tasks. Contracts see the stacks by task, each with its top first.
#[derive(Drop)]
pub(crate) struct Stacks<T> {
    tasks: Vec<Vec<T>>,
}

impl<T> Model for Stacks<T> {
    ghost use Rattle.std.specs.Prelude.{List, map, reverse};

    ghost Value = { List (List T) };

    ghost view = { λ s. map (λ v. reverse v.items) s.tasks.items };
}

impl<T: Copy> Stacks<T> {
    /// Empty stacks for this many tasks.
    pub(crate) fn new(alloc: Global, tasks: u32) -> Result<Stacks<T>, NoMemory>
        ensures { IfOk result (λ stacks. stacks ≡ replicate tasks []) }
    {
        let mut stacks = Vec::with_capacity(alloc, tasks as usize).map_err(|_| NoMemory)?;
        for _ in 0..tasks {
            stacks.push_reserved(Vec::new(alloc));
        }
        Ok(Stacks { tasks: stacks })
    }

    /// Puts `x` on a task's stack.
    pub(crate) fn push(&mut self, task: TaskNo, x: T) -> Result<(), NoMemory>
        requires { task.0 < length self.old }
        ensures { OnOk result (self.new ≡ slice_set self.old task.0 (x ∷ stack_at self.old task.0)) }
    {
        self.tasks[task.0 as usize].push(x).map_err(|_| NoMemory)
    }

    /// Takes the top of a task's stack away, if there is one.
    pub(crate) fn pop(&mut self, task: TaskNo)
        requires { task.0 < length self.old }
        ensures { self.new ≡ slice_set self.old task.0 (drop 1 (stack_at self.old task.0)) }
    {
        let _ = self.tasks[task.0 as usize].pop();
    }

    /// The top of a task's stack, if there is one.
    pub(crate) fn top(&self, task: TaskNo) -> Option<T>
        requires { task.0 < length self.now }
        ensures { result ≡ slice_get (stack_at self.now task.0) 0 }
    {
        let stack = &self.tasks[task.0 as usize];
        stack.last().copied()
    }

    /// Puts `x` in place of the top of a task's stack, if there is one.
    pub(crate) fn set_top(&mut self, task: TaskNo, x: T)
        requires { task.0 < length self.old }
        ensures { self.new ≡ slice_set self.old task.0 (with_top x (stack_at self.old task.0)) }
    {
        if let Some(top) = self.tasks[task.0 as usize].last_mut() {
            *top = x;
        }
    }
}
