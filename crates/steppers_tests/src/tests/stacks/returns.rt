//! [`return_stack::Stacks`]: calls, hooks and returns in the order in which a task makes them.

use super::{call, owed_to};
use ft_base::UserNo;
use ft_base::limits::{FRAMES, LEVELS};
use return_stack::{Address, Full, Stacks};
use std::test::Fail;

#[test]
fn returns_past_a_full_shadow_stack(rt: HostRuntime) -> Result<(), Fail> {
    let mut stacks = Stacks::new(rt.alloc(), 2, 1)?;
    stacks.push_call(call(1));
    stacks.hook()?;
    stacks.push_call(call(2));
    assert!(rt; stacks.hook() == Err(Full));
    assert!(rt; stacks.address(0) == Address::Hook);
    assert!(rt; stacks.address(1) == Address::To(Some(call(1))));
    assert!(rt; stacks.pop_return() == Some(call(1)));
    assert!(rt; stacks.pop_return().is_none());
    Ok(())
}

#[test]
fn users_share_a_frame(rt: HostRuntime) -> Result<(), Fail> {
    let mut stacks = Stacks::new(rt.alloc(), 1, 1)?;
    stacks.push_call(call(1));
    stacks.hook()?;
    stacks.add_user(UserNo(5), 1, 3);
    stacks.hook()?;
    stacks.add_user(UserNo(2), 4, 7);
    assert!(rt; stacks.frame_user(0) == owed_to(5, 1, 3));
    assert!(rt; stacks.frame_user(1) == owed_to(2, 4, 7));
    assert!(rt; stacks.frame_user(2).is_none());
    Ok(())
}

#[test]
fn a_frame_without_users_is_free_again(rt: HostRuntime) -> Result<(), Fail> {
    let mut stacks = Stacks::new(rt.alloc(), 2, 1)?;
    stacks.push_call(call(1));
    stacks.hook()?;
    stacks.drop_empty();
    assert!(rt; stacks.address(0) == Address::To(None));
    stacks.push_call(call(2));
    assert!(rt; stacks.others() == 0);
    assert!(rt; stacks.hook().is_ok());
    Ok(())
}

#[test]
fn reaches_full_size(rt: HostRuntime) -> Result<(), Fail> {
    let stacks = Stacks::new(rt.alloc(), LEVELS, FRAMES)?;
    assert!(rt; stacks.calls() == 0);
    Ok(())
}
