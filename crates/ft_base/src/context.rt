//! The contexts that a call can run in.

ghost use Rattle.std.specs.Prelude.{◌≡◌, Option, Some, None, if◌then◌else◌, nat_lt};
ghost use Rattle.ft_base.specs.Same.{rank, raised};

/// The context that a call runs in, the lowest first. A higher one interrupts a lower one.
#[derive(Clone, Copy, Debug, PartialEq, Eq, PartialOrd, Ord)]
pub enum Ctx {
    Normal,
    Softirq,
    Irq,
    Nmi,
}

impl Ctx {
    /// Its place in the order, from 0.
    fn rank(self) -> u8
        ensures { result ≡ rank self }
    {
        match self {
            Ctx::Normal => 0,
            Ctx::Softirq => 1,
            Ctx::Irq => 2,
            Ctx::Nmi => 3,
        }
    }
}

/// The context `to`, if it is above the present one. `None` exactly if it isn't: an interrupt can't
/// come in its own context or a higher one.
pub fn raise(now: Ctx, to: Ctx) -> Option<Ctx>
    ensures { result ≡ raised now to }
{
    if now.rank() < to.rank() {
        Some(to)
    } else {
        None
    }
}
