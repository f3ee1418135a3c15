//! `graph_users`: calls of a graph user in the order in which a task makes them.

use super::{call, owed, owed_to};
use ft_base::UserNo;
use graph_users::{enter, exit_next, may_enter};
use return_stack::Stacks;
use std::test::Fail;

/// The other call holds one frame. The limit of frames, the graph depth, and whether the user may be
/// called back.
static DEPTHS: [(u32, u32, bool); 6] = [
    (1, 0, false),
    (1, 2, false),
    (2, 0, true),
    (2, 1, false),
    (2, 2, true),
    (64, 512, true),
];

#[test]
fn depth_rule(rt: HostRuntime) -> Result<(), Fail> {
    let mut stacks = Stacks::new(rt.alloc(), 2, 2)?;
    stacks.push_call(call(1));
    enter(&mut stacks, UserNo(0), 1, 3);
    stacks.push_call(call(2));
    for (limit, depth, may) in DEPTHS {
        assert!(rt; may_enter(&stacks, limit, depth) == may, "{limit} {depth}");
    }
    Ok(())
}

#[test]
fn full_shadow_stack(rt: HostRuntime) -> Result<(), Fail> {
    let mut stacks = Stacks::new(rt.alloc(), 3, 2)?;
    stacks.push_call(call(1));
    enter(&mut stacks, UserNo(0), 1, 3);
    stacks.push_call(call(2));
    enter(&mut stacks, UserNo(0), 1, 7);
    stacks.push_call(call(3));
    assert!(rt; !may_enter(&stacks, 2, 0) && exit_next(&stacks, 0).is_none());
    assert!(rt; stacks.pop_return() == Some(call(2)));
    assert!(rt; exit_next(&stacks, 0) == owed(1, 7) && exit_next(&stacks, 1).is_none());
    assert!(rt; stacks.pop_return() == Some(call(1)));
    assert!(rt; exit_next(&stacks, 0) == owed(1, 3));
    assert!(rt; stacks.pop_return().is_none());
    Ok(())
}

#[test]
fn users_of_one_call(rt: HostRuntime) -> Result<(), Fail> {
    let mut stacks = Stacks::new(rt.alloc(), 1, 1)?;
    stacks.push_call(call(1));
    assert!(rt; may_enter(&stacks, 1, 1));
    enter(&mut stacks, UserNo(1), 1, 3);
    // The frame of the call itself keeps no user of that call out.
    assert!(rt; may_enter(&stacks, 1, 1));
    enter(&mut stacks, UserNo(0), 2, 5);
    assert!(rt; exit_next(&stacks, 0) == owed_to(1, 1, 3));
    assert!(rt; exit_next(&stacks, 1) == owed(2, 5));
    assert!(rt; exit_next(&stacks, 2).is_none());
    assert!(rt; stacks.pop_return().is_none());
    Ok(())
}

#[test]
fn registered_again(rt: HostRuntime) -> Result<(), Fail> {
    let mut stacks = Stacks::new(rt.alloc(), 1, 1)?;
    stacks.push_call(call(1));
    enter(&mut stacks, UserNo(0), 1, 3);
    // The frame owes the exit to the registration of its entry, whatever is registered by now.
    assert!(rt; exit_next(&stacks, 0) == owed(1, 3));
    assert!(rt; stacks.pop_return().is_none());
    stacks.push_call(call(2));
    enter(&mut stacks, UserNo(0), 2, 13);
    assert!(rt; exit_next(&stacks, 0) == owed(2, 13));
    Ok(())
}
