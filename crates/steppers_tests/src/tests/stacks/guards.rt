//! [`recursion_guard::Guards`]: a task's callbacks take and give back their guards.

ghost use Rattle.std.specs.Prelude.{◌≡◌};
ghost use Rattle.std.specs.Bool.{OnTrue};
ghost use Rattle.recursion_guard.specs.Guards.{entered};

use ft_base::Ctx;
use recursion_guard::Guards;

#[test]
fn recursion(rt: HostRuntime) {
    let mut guards = Guards::new(1);
    // A callback calls a function that its user traces too.
    assert!(rt; guards.try_enter());
    assert!(rt; !guards.try_enter(), "refused in its own context");
    guards.leave();
    // The next callback raises an interrupt that calls the function.
    assert!(rt; guards.try_enter());
    guards.raise(Ctx::Irq);
    assert!(rt; guards.try_enter(), "called back in the interrupt");
    guards.leave();
    guards.lower();
    guards.leave();
}

#[test]
fn guards_each_context_apart(rt: HostRuntime) {
    let mut guards = Guards::new(1);
    // The task in its normal context, then interrupted up to the highest one.
    assert!(rt; guards.ctx() == Ctx::Normal && guards.try_enter());
    assert!(rt; !guards.try_enter(), "entered from itself");
    guards.raise(Ctx::Softirq);
    assert!(rt; guards.ctx() == Ctx::Softirq && guards.try_enter());
    guards.raise(Ctx::Irq);
    assert!(rt; guards.ctx() == Ctx::Irq && guards.try_enter());
    guards.raise(Ctx::Nmi);
    assert!(rt; guards.ctx() == Ctx::Nmi && guards.try_enter());
    assert!(rt;
        !guards.try_enter(),
        "entered from itself in the highest context"
    );
    // Each callback ends, and its interrupt returns.
    guards.leave();
    guards.lower();
    assert!(rt; guards.ctx() == Ctx::Irq && !guards.try_enter());
    guards.leave();
    guards.lower();
    assert!(rt; guards.ctx() == Ctx::Softirq && !guards.try_enter());
    guards.leave();
    guards.lower();
    assert!(rt; guards.ctx() == Ctx::Normal && !guards.try_enter());
    guards.leave();
    assert!(rt; guards.try_enter(), "free after its callback has ended");
}

#[test]
fn interrupts_past_a_context(rt: HostRuntime) {
    let mut guards = Guards::new(1);
    guards.raise(Ctx::Irq);
    assert!(rt; guards.try_enter());
    guards.lower();
    assert!(rt; guards.ctx() == Ctx::Normal);
    assert!(rt;
        guards.try_enter(),
        "the guard of the interrupt is another one"
    );
}

/// Whether two callbacks are entered in the present context, and a third one is refused.
fn takes_both_levels(guards: &mut Guards) -> bool
    ensures raised { guards.new.raised ≡ guards.old.raised }
    ensures both { OnTrue result (guards.new ≡ entered (entered guards.old)) }
{
    guards.try_enter() && guards.try_enter() && !guards.try_enter()
}

#[test]
fn guards_have_two_levels(rt: HostRuntime) {
    let mut guards = Guards::new(2);
    assert!(rt; takes_both_levels(&mut guards));
    guards.raise(Ctx::Irq);
    assert!(rt; takes_both_levels(&mut guards), "the interrupt has its own");
    guards.leave();
    guards.lower();
    assert!(rt;
        !guards.try_enter(),
        "the interrupt gave back its own level"
    );
    guards.leave();
    assert!(rt; guards.try_enter(), "free after one has ended");
}
