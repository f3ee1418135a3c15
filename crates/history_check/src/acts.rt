//! The acts that a task has still to do, and its raised contexts.

ghost use Rattle.std.specs.Prelude.{◌≡◌, ◌+◌, ◌<◌, ◌^◌, [], length, OnOk, Some, None, IsTrue, ◌↔◌, if◌then◌else◌};
ghost use Rattle.ft_hist.specs.Plain.{ahead};
ghost use Rattle.ft_hist.specs.Rules.{GiveNoItems};
ghost use Rattle.ft_base.specs.Same.{context};
ghost use Rattle.history_check.specs.PlainRuns.{ahead_of, called, past_silent, returned};

use ft_base::{Ctx, FuncNo, NoMemory, TaskAct};
use std::alloc::Global;
use std::collections::VecDeque;

/// The acts to come, how many were done, and the raised contexts, the latest first.
#[derive(Drop)]
pub struct Acts<'a> {
    rest: &'a [TaskAct],
    gone: u32,
    contexts: VecDeque<Ctx>,
}

impl<'a> Acts<'a> {
    /// All acts of a task, of which none was done.
    pub(crate) fn new(alloc: Global, acts: &'a [TaskAct]) -> Acts<'a>
        ensures { ahead_of result ≡ record { acts = acts.entry.now; contexts = []; gone = 0 } }
    {
        Acts {
            rest: acts,
            gone: 0,
            contexts: VecDeque::new(alloc),
        }
    }

    /// The context in which the task is.
    pub(crate) fn context(&self) -> Ctx
        ensures { result ≡ context self.now.contexts.items }
    {
        match self.contexts.front() {
            Some(ctx) => *ctx,
            None => Ctx::Normal,
        }
    }

    /// Goes past the acts that give no items, as far as their waits are met by this many commands that
    /// have returned.
    pub(crate) fn skip(&mut self, returned: u32) -> Result<(), NoMemory>
        requires { self.old.gone + length self.old.rest.now < 2 ^ 32 }
        ensures ahead { OnOk result (ahead_of self.new ≡ ahead returned self.old.rest.now self.old.contexts.items self.old.gone) }
        ensures room { self.new.gone + length self.new.rest.now ≡ self.old.gone + length self.old.rest.now }
    {
        while let Some((act, rest)) = self.rest.split_first() {
            match act {
                TaskAct::Call(_) | TaskAct::Ret => return Ok(()),
                TaskAct::After(n) if *n > returned => return Ok(()),
                TaskAct::After(_) => {}
                TaskAct::Raise(ctx) => self.contexts.push_front(*ctx).map_err(|_| NoMemory)?,
                TaskAct::Lower => {
                    self.contexts.pop_front();
                }
            }
            self.rest = rest;
            self.gone += 1;
        }
        Ok(())
    }

    /// Takes the next act, if it is a call of this function in this context.
    pub(crate) fn take_call(&mut self, func: FuncNo, ctx: Ctx) -> bool
        requires { self.old.gone + length self.old.rest.now < 2 ^ 32 }
        ensures taken { called func.0 ctx (ahead_of self.old) ≡ (if result then Some (ahead_of self.new) else None) }
        ensures room { self.new.gone + length self.new.rest.now ≡ self.old.gone + length self.old.rest.now }
    {
        match self.rest.split_first() {
            Some((TaskAct::Call(called), rest)) if *called == func && ctx == self.context() => {
                self.rest = rest;
                self.gone += 1;
                true
            }
            _ => false,
        }
    }

    /// Takes the next act, if it is a return.
    pub(crate) fn take_return(&mut self) -> bool
        requires { self.old.gone + length self.old.rest.now < 2 ^ 32 }
        ensures taken { returned (ahead_of self.old) ≡ (if result then Some (ahead_of self.new) else None) }
        ensures room { self.new.gone + length self.new.rest.now ≡ self.old.gone + length self.old.rest.now }
    {
        match self.rest.split_first() {
            Some((TaskAct::Ret, rest)) => {
                self.rest = rest;
                self.gone += 1;
                true
            }
            _ => false,
        }
    }

    /// How many acts were done.
    pub(crate) fn gone(&self) -> u32
        ensures { result ≡ self.now.gone }
    {
        self.gone
    }

    /// How many acts were done, if those to come that give no items count up to the next that does.
    pub(crate) fn passed(&self) -> u32
        requires { self.now.gone + length self.now.rest.now < 2 ^ 32 }
        ensures { result ≡ past_silent self.now.gone self.now.rest.now }
    {
        let mut passed = self.gone;
        for act in self.rest {
            match act {
                TaskAct::Call(_) | TaskAct::Ret => return passed,
                TaskAct::Raise(_) | TaskAct::Lower | TaskAct::After(_) => passed += 1,
            }
        }
        passed
    }

    /// Whether only acts are left that give no items, and their waits are met by this many commands that
    /// have returned.
    pub(crate) fn are_over(&self, returned: u32) -> bool
        ensures { IsTrue result ↔ GiveNoItems returned self.now.rest.now }
    {
        self.rest.iter().all(|act| match act {
            TaskAct::Call(_) | TaskAct::Ret => false,
            TaskAct::After(n) => *n <= returned,
            TaskAct::Raise(_) | TaskAct::Lower => true,
        })
    }
}
