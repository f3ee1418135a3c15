//! [`fprobe::probe_entry`]: calls of an fprobe in the order in which a task makes them.

ghost use Rattle.std.specs.Prelude.{◌≡◌, IfOk};
ghost use Rattle.ft_base.specs.declared.user.Kind.TheVariants.{Fprobe};

use super::{call, owed};
use fprobe::{Probe, probe_entry};
use ft_base::UserNo;
use return_stack::{Address, Stacks};
use std::alloc::{AllocError, Global};
use std::test::Fail;
use user_specs::{Kind, Spec};

/// An fprobe.
fn fprobe(alloc: Global, exit: bool, cancel: bool) -> Result<Spec, AllocError>
    ensures { IfOk result (λ spec. spec.kind ≡ Fprobe exit cancel) }
{
    let name = String::from_str(alloc, "p")?;
    Ok(Spec {
        name,
        kind: Kind::Fprobe { exit, cancel },
        regs: false,
        ipmodify: None,
        pid: false,
        act: None,
    })
}

#[test]
fn fprobe_misses(rt: HostRuntime) -> Result<(), Fail> {
    let spec = fprobe(rt.alloc(), true, false)?;
    let mut stacks = Stacks::new(rt.alloc(), 2, 1)?;
    stacks.push_call(call(1));
    let first = probe_entry(&mut stacks, &spec, UserNo(0), 1, 3);
    assert!(rt; first == Probe::Wanted);
    stacks.push_call(call(2));
    let second = probe_entry(&mut stacks, &spec, UserNo(0), 1, 7);
    assert!(rt; second == Probe::Missed && stacks.frame_user(0).is_none());
    assert!(rt; stacks.pop_return() == Some(call(1)));
    assert!(rt; stacks.frame_user(0) == owed(1, 3));
    assert!(rt; stacks.pop_return().is_none());
    Ok(())
}

#[test]
fn disabled_fprobe(rt: HostRuntime) -> Result<(), Fail> {
    let spec = fprobe(rt.alloc(), true, false)?;
    let mut stacks = Stacks::new(rt.alloc(), 1, 1)?;
    stacks.push_call(call(1));
    let first = probe_entry(&mut stacks, &spec, UserNo(0), 1, 3);
    // It is disabled now. The frame still owes the exit, and the return skips it.
    assert!(rt; first == Probe::Wanted && stacks.frame_user(0) == owed(1, 3));
    assert!(rt; stacks.pop_return().is_none());
    // The next call has no callback of it, and so no frame.
    stacks.push_call(call(2));
    assert!(rt; stacks.frame_user(0).is_none() && stacks.address(0) == Address::To(None));
    assert!(rt; stacks.pop_return().is_none());
    Ok(())
}

#[test]
fn a_cancelling_fprobe_misses_too(rt: HostRuntime) -> Result<(), Fail> {
    let exits = fprobe(rt.alloc(), true, false)?;
    let cancels = fprobe(rt.alloc(), true, true)?;
    let mut stacks = Stacks::new(rt.alloc(), 2, 1)?;
    stacks.push_call(call(1));
    let first = probe_entry(&mut stacks, &exits, UserNo(0), 1, 3);
    // In the same call it shares the frame.
    let second = probe_entry(&mut stacks, &cancels, UserNo(1), 1, 5);
    assert!(rt; first == Probe::Wanted && second == Probe::Cancelled);
    stacks.push_call(call(2));
    let third = probe_entry(&mut stacks, &cancels, UserNo(1), 1, 9);
    assert!(rt; third == Probe::Missed);
    assert!(rt; stacks.pop_return() == Some(call(1)));
    assert!(rt; stacks.frame_user(0) == owed(1, 3) && stacks.frame_user(1).is_none());
    assert!(rt; stacks.pop_return().is_none());
    Ok(())
}

#[test]
fn a_cancelled_exit_frees_its_frame(rt: HostRuntime) -> Result<(), Fail> {
    let spec = fprobe(rt.alloc(), true, true)?;
    let mut stacks = Stacks::new(rt.alloc(), 2, 1)?;
    stacks.push_call(call(1));
    let first = probe_entry(&mut stacks, &spec, UserNo(0), 1, 3);
    assert!(rt; first == Probe::Cancelled && stacks.address(0) == Address::Hook);
    stacks.drop_empty();
    stacks.push_call(call(2));
    let second = probe_entry(&mut stacks, &spec, UserNo(0), 1, 7);
    assert!(rt; second == Probe::Cancelled);
    stacks.drop_empty();
    assert!(rt; stacks.pop_return() == Some(call(1)));
    Ok(())
}

#[test]
fn without_an_exit_nothing_changes(rt: HostRuntime) -> Result<(), Fail> {
    let spec = fprobe(rt.alloc(), false, true)?;
    let mut stacks = Stacks::new(rt.alloc(), 1, 1)?;
    stacks.push_call(call(1));
    let first = probe_entry(&mut stacks, &spec, UserNo(0), 1, 3);
    assert!(rt; first == Probe::Plain && stacks.address(0) == Address::To(None));
    Ok(())
}
