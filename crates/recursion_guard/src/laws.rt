//! A law of guards, for readers of the definitions and for the layers above.

ghost use Rattle.std.specs.Prelude.{◌≡◌, suc, ◌-◌, if◌then◌else◌};
ghost use Rattle.ft_base.specs.Same.{same_ctx, context};
ghost use Rattle.ft_base.specs.declared.context.Ctx.{Ctx};
ghost use Rattle.recursion_guard.specs.Guards.{GuardState, entered, held_in, left};

/// Taking a level of a guard, or giving it back, changes the guard of the present context by one, and
/// no other.
pub fn guards_are_apart()
    ensures taken { (g : GuardState) (c : Ctx) → held_in (entered g).held c
        ≡ (if same_ctx (context g.raised) c then suc (held_in g.held c) else held_in g.held c) }
    ensures given { (g : GuardState) (c : Ctx) → held_in (left g).held c
        ≡ (if same_ctx (context g.raised) c then held_in g.held c - 1 else held_in g.held c) }
{}
