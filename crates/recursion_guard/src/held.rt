//! For each context, how many levels of its guard are held.

ghost use Rattle.std.specs.Prelude.{◌≡◌};
ghost use Rattle.recursion_guard.specs.Guards.{unheld, held_in, with_held};

use ft_base::Ctx;

/// How many levels of the guard of each context are held, as the kernel keeps a bit for each level.
#[derive(Drop)]
pub(crate) struct HeldLevels {
    normal: u8,
    softirq: u8,
    irq: u8,
    nmi: u8,
}

impl HeldLevels {
    /// No level is held.
    pub(crate) fn none() -> HeldLevels
        ensures { result ≡ unheld }
    {
        HeldLevels {
            normal: 0,
            softirq: 0,
            irq: 0,
            nmi: 0,
        }
    }

    /// How many levels of a context's guard are held.
    pub(crate) fn of(&self, ctx: Ctx) -> u8
        ensures { result ≡ held_in self.now ctx }
    {
        match ctx {
            Ctx::Normal => self.normal,
            Ctx::Softirq => self.softirq,
            Ctx::Irq => self.irq,
            Ctx::Nmi => self.nmi,
        }
    }

    /// From now on so many levels of a context's guard are held.
    pub(crate) fn set(&mut self, ctx: Ctx, levels: u8)
        ensures { self.new ≡ with_held self.old ctx levels }
    {
        match ctx {
            Ctx::Normal => self.normal = levels,
            Ctx::Softirq => self.softirq = levels,
            Ctx::Irq => self.irq = levels,
            Ctx::Nmi => self.nmi = levels,
        }
    }
}
