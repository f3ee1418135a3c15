//! The contexts of a task, and the guard of each.

ghost use Rattle.std.specs.Prelude.{◌≡◌, ◌<◌, ◌∷◌, ◌↔◌, false, length, IsTrue};
ghost use Rattle.std.specs.Bool.{OnTrue, OnFalse};
ghost use Rattle.ft_base.specs.Same.{rank, context};
ghost use Rattle.recursion_guard.specs.Guards.{at_start, entered, is_full, left, IsHeld};

use crate::by_context::ByContext;
use crate::held::HeldLevels;
use ft_base::Ctx;
use std::marker::Model;

/// The contexts that a task is in, and their guards. Contracts see the raised contexts, the latest
/// first, for each context how many levels of its guard are held, and how many levels a guard has.
#[derive(Drop)]
pub struct Guards {
    raised: ByContext,
    held: HeldLevels,
    levels: u8,
}

impl Model for Guards {
    ghost use Rattle.recursion_guard.specs.Guards.{GuardState};
    ghost use Rattle.recursion_guard.specs.ContextMarks.{marked};

    ghost Value = { GuardState };

    ghost view = { λ g. record { raised = marked g.raised; held = g.held; levels = g.levels } };
}

impl Guards {
    /// A task in its normal context, with no guard held. Each guard has so many levels: 1 or 2, by the
    /// version of the language.
    pub fn new(levels: u8) -> Guards
        ensures { result ≡ at_start levels }
    {
        Guards {
            raised: ByContext::none(),
            held: HeldLevels::none(),
            levels,
        }
    }

    /// The present context.
    pub fn ctx(&self) -> Ctx
        ensures { result ≡ context self.now.raised }
    {
        self.raised.highest()
    }

    /// An interrupt comes, and its context is the present one. A higher context alone can interrupt
    /// the present one: `ft_base::raise` tells which.
    pub fn raise(&mut self, to: Ctx)
        requires { rank (context self.old.raised) < rank to }
        ensures raised { self.new.raised ≡ to ∷ self.old.raised }
        ensures held { self.new.held ≡ self.old.held }
        ensures levels { self.new.levels ≡ self.old.levels }
    {
        self.raised.set(to, true);
    }

    /// The latest interrupt returns, and the present context is the one that it came in.
    pub fn lower(&mut self)
        requires { 0 < length self.old.raised }
        ensures raised { self.old.raised ≡ context self.old.raised ∷ self.new.raised }
        ensures held { self.new.held ≡ self.old.held }
        ensures levels { self.new.levels ≡ self.old.levels }
    {
        let ctx = self.ctx();
        self.raised.set(ctx, false);
    }

    /// A callback begins if a level of the guard of the present context is free, and takes that level.
    /// False exactly if all levels are held (`ftrace-uses.rst`, `ftrace_test_recursion_trylock`).
    pub fn try_enter(&mut self) -> bool
        ensures free { IsTrue result ↔ (is_full self.old ≡ false) }
        ensures entered { OnTrue result (self.new ≡ entered self.old) }
        ensures refused { OnFalse result (self.new ≡ self.old) }
    {
        let ctx = self.ctx();
        let held = self.held.of(ctx);
        if held >= self.levels {
            return false;
        }
        self.held.set(ctx, held + 1);
        true
    }

    /// A callback of the present context ends, and gives its level of the guard back
    /// (`ftrace-uses.rst`, `ftrace_test_recursion_unlock`).
    pub fn leave(&mut self)
        requires { IsHeld self.old }
        ensures { self.new ≡ left self.old }
    {
        let ctx = self.ctx();
        let held = self.held.of(ctx);
        self.held.set(ctx, held - 1);
    }
}
