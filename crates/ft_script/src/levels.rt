//! The open calls of a task, in each context that it is in.

ghost use Rattle.std.specs.Prelude.{◌≡◌, ◌≤◌};
ghost use Rattle.ft_script.specs.Levels.{present, open_in, open_here, open_calls, with_open, without, levels_after, has_open_call, is_raised, is_unfinished};

use ft_base::limits::LEVELS;
use ft_base::{Ctx, TaskAct};

/// How many calls are open in each context. A context that isn't raised has none.
#[derive(Clone, Copy)]
pub struct Levels {
    pub normal: u32,
    pub softirq: Option<u32>,
    pub irq: Option<u32>,
    pub nmi: Option<u32>,
}

impl Levels {
    /// No call is open and no context is raised.
    pub const GROUND: Levels = Levels {
        normal: 0,
        softirq: None,
        irq: None,
        nmi: None,
    };

    /// The present context: the highest that is raised.
    pub fn present(self) -> Ctx
        ensures { result ≡ present self }
    {
        match (self.softirq, self.irq, self.nmi) {
            (_, _, Some(_)) => Ctx::Nmi,
            (_, Some(_), None) => Ctx::Irq,
            (Some(_), None, None) => Ctx::Softirq,
            (None, None, None) => Ctx::Normal,
        }
    }

    /// How many calls are open in a context.
    fn open_in(self, context: Ctx) -> u32
        ensures { result ≡ open_in self context }
    {
        match context {
            Ctx::Normal => self.normal,
            Ctx::Softirq => self.softirq.unwrap_or(0),
            Ctx::Irq => self.irq.unwrap_or(0),
            Ctx::Nmi => self.nmi.unwrap_or(0),
        }
    }

    /// How many calls are open in the present context.
    pub fn open_here(self) -> u32
        ensures { result ≡ open_here self }
    {
        self.open_in(self.present())
    }

    /// How many calls are open in all contexts.
    pub fn open_calls(self) -> u64
        ensures { result ≡ open_calls self }
    {
        u64::from(self.normal)
            + u64::from(self.softirq.unwrap_or(0))
            + u64::from(self.irq.unwrap_or(0))
            + u64::from(self.nmi.unwrap_or(0))
    }

    /// The same, but with this many calls open in the context.
    fn with_open(self, context: Ctx, calls: u32) -> Levels
        ensures { result ≡ with_open self context calls }
    {
        match context {
            Ctx::Normal => Levels {
                normal: calls,
                ..self
            },
            Ctx::Softirq => Levels {
                softirq: Some(calls),
                ..self
            },
            Ctx::Irq => Levels {
                irq: Some(calls),
                ..self
            },
            Ctx::Nmi => Levels {
                nmi: Some(calls),
                ..self
            },
        }
    }

    /// The same, but the context isn't raised.
    fn without(self, context: Ctx) -> Levels
        ensures { result ≡ without self context }
    {
        match context {
            Ctx::Normal => self,
            Ctx::Softirq => Levels {
                softirq: None,
                ..self
            },
            Ctx::Irq => Levels { irq: None, ..self },
            Ctx::Nmi => Levels { nmi: None, ..self },
        }
    }

    /// The open calls after an act. A return with no open call leaves none.
    pub fn after(self, act: TaskAct) -> Levels
        requires { open_calls self ≤ LEVELS }
        ensures { result ≡ levels_after self act }
    {
        let here = self.open_here();
        match act {
            TaskAct::Call(_) => self.with_open(self.present(), here + 1),
            TaskAct::Ret => self.with_open(self.present(), here.saturating_sub(1)),
            TaskAct::Raise(context) => self.with_open(context, 0),
            TaskAct::Lower => self.without(self.present()),
            TaskAct::After(_) => self,
        }
    }

    /// Whether a context is raised.
    pub fn is_raised(self) -> bool
        ensures { result ≡ is_raised self }
    {
        self.softirq.is_some() || self.irq.is_some() || self.nmi.is_some()
    }

    /// Whether a call is open in the task's own context.
    fn has_open_call(self) -> bool
        ensures { result ≡ has_open_call self }
    {
        self.normal != 0
    }

    /// Whether a call is open or a context is raised, so that the task can't be over.
    pub fn is_unfinished(self) -> bool
        ensures { result ≡ is_unfinished self }
    {
        self.has_open_call() || self.is_raised()
    }
}
