//! The open calls of a job's tasks, followed along its items.

ghost use Rattle.std.specs.Prelude.{◌≡◌, ◌<◌, [], ◌∷◌, Some, List, length, slice_get, IfOk};
ghost use Rattle.ft_base.specs.declared.item.Item.{Item};
ghost use Rattle.ft_base.specs.Job.{Job as PlainJob};
ghost use Rattle.ft_hist.specs.Rules.{IsLegalPast};
ghost use Rattle.trace_views.specs.OpenCalls.{IsFollowed, parent_of, runs, stacks_in};
ghost use Rattle.trace_views.specs.TaskStacks.{stack_at};

use crate::named::Named;
use ft_base::{Ctx, FuncNo, Item, NoMemory, TaskNo};
use std::alloc::Global;

/// A call that is open: its context, the called function, and the function that it runs, if its
/// Body has come.
#[derive(Clone, Copy)]
pub(crate) struct OpenCall {
    /// Its context.
    pub(crate) ctx: Ctx,
    /// The called function.
    pub(crate) func: FuncNo,
    /// The function that it runs.
    body: Option<FuncNo>,
}

impl OpenCall {
    /// What the call is in: the function that it runs, or the called one if its Body hasn't come.
    fn running(&self) -> FuncNo
        ensures { result ≡ runs self.now }
    {
        match self.body {
            Some(func) => func,
            None => self.func,
        }
    }
}

/// The open calls of each task, the latest last. It takes the items of a job one after the other, and
/// no memory for them: each task's list has room for as many calls as it can have open.
#[derive(Drop)]
pub(crate) struct OpenCalls {
    tasks: Vec<Vec<OpenCall>>,
}

impl OpenCalls {
    /// Before the first item of a job. The error says that memory ran out.
    pub(crate) fn new<N: Named>(alloc: Global, names: &N) -> Result<OpenCalls, NoMemory>
        ensures { IfOk result (λ calls. IsFollowed (N.job names.now) [] calls) }
    {
        let count = names.tasks();
        let mut tasks = Vec::with_capacity(alloc, count as usize).map_err(|_| NoMemory)?;
        for t in 0..count {
            let deepest = names.deepest(TaskNo(t)) as usize;
            let calls = Vec::with_capacity(alloc, deepest).map_err(|_| NoMemory)?;
            tasks.push_reserved(calls);
        }
        Ok(OpenCalls { tasks })
    }

    /// Takes the next item of the job. A call is opened by its Enter and closed by its Ret.
    pub(crate) fn follow(&mut self, item: &Item)
        requires { (job : PlainJob) × (past : List Item) × IsFollowed job past self.old × IsLegalPast job (item.now ∷ past) }
        ensures { (job : PlainJob) (past : List Item) → IsFollowed job past self.old → IsLegalPast job (item.now ∷ past)
            → IsFollowed job (item.now ∷ past) self.new }
    {
        match *item {
            Item::Enter {
                call,
                ctx,
                func,
                ..
            } => self.tasks[call.task.0 as usize].push_reserved(OpenCall {
                ctx,
                func,
                body: None,
            }),
            Item::Body { call, func, .. } => {
                if let Some(top) = self.tasks[call.task.0 as usize].last_mut() {
                    top.body = Some(func);
                }
            }
            Item::Ret { call, .. } => {
                let _ = self.tasks[call.task.0 as usize].pop();
            }
            _ => {}
        }
    }

    /// The latest open call of a task.
    pub(crate) fn top(&self, task: TaskNo) -> OpenCall
        requires { 0 < length (stack_at (stacks_in self.now) task.0) }
        ensures { slice_get (stack_at (stacks_in self.now) task.0) 0 ≡ Some result }
    {
        match self.tasks[task.0 as usize].last() {
            Some(call) => *call,
            None => unreachable!(),
        }
    }

    /// What a task's latest open call is called from, none if no other call is open.
    pub(crate) fn parent(&self, task: TaskNo) -> Option<FuncNo>
        requires { 0 < length (stack_at (stacks_in self.now) task.0) }
        ensures { result ≡ parent_of (stack_at (stacks_in self.now) task.0) }
    {
        let calls = &self.tasks[task.0 as usize];
        if calls.len() < 2 {
            return None;
        }
        Some(calls[calls.len() - 2].running())
    }
}
