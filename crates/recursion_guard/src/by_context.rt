//! One mark for each context.

ghost use Rattle.std.specs.Prelude.{◌≡◌};
ghost use Rattle.ft_base.specs.Same.{context};
ghost use Rattle.recursion_guard.specs.Guards.{unmarked, mark_of, with_mark};
ghost use Rattle.recursion_guard.specs.ContextMarks.{marked};

use ft_base::Ctx;

/// A mark for each context, as the kernel keeps a bit for each.
#[derive(Drop)]
pub(crate) struct ByContext {
    normal: bool,
    softirq: bool,
    irq: bool,
    nmi: bool,
}

impl ByContext {
    /// No context is marked.
    pub(crate) fn none() -> ByContext
        ensures { result ≡ unmarked }
    {
        ByContext {
            normal: false,
            softirq: false,
            irq: false,
            nmi: false,
        }
    }

    /// Whether the context is marked.
    pub(crate) fn has(&self, ctx: Ctx) -> bool
        ensures { result ≡ mark_of self.now ctx }
    {
        match ctx {
            Ctx::Normal => self.normal,
            Ctx::Softirq => self.softirq,
            Ctx::Irq => self.irq,
            Ctx::Nmi => self.nmi,
        }
    }

    /// Marks the context, or takes its mark away.
    pub(crate) fn set(&mut self, ctx: Ctx, mark: bool)
        ensures { self.new ≡ with_mark self.old ctx mark }
    {
        match ctx {
            Ctx::Normal => self.normal = mark,
            Ctx::Softirq => self.softirq = mark,
            Ctx::Irq => self.irq = mark,
            Ctx::Nmi => self.nmi = mark,
        }
    }

    /// The highest context that is marked, or the normal one if none is.
    pub(crate) fn highest(&self) -> Ctx
        ensures { result ≡ context (marked self.now) }
    {
        if self.nmi {
            Ctx::Nmi
        } else if self.irq {
            Ctx::Irq
        } else if self.softirq {
            Ctx::Softirq
        } else {
            Ctx::Normal
        }
    }
}
