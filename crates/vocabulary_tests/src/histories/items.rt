//! [`ft_hist::History`]: a history keeps its items in order.

use super::{FIRST, history_of};
use ft_base::{Answer, Item, Reason, UserNo};
use ft_hist::History;
use std::test::Fail;

/// The end of a command.
const RETURN: Item = Item::Return {
    k: 1,
    answer: Answer::Accepted,
};

#[test]
fn keeps_items_in_order(rt: HostRuntime) -> Result<(), Fail> {
    let mut history = History::with_room(rt.alloc(), 2)?;
    assert!(rt; history.len() == 0);
    history.push(Item::Begin { k: 1 });
    history.push(RETURN);
    assert!(rt; history.len() == 2 && *history.item(1) == RETURN);
    Ok(())
}

#[test]
fn takes_room_as_it_needs_it(rt: HostRuntime) -> Result<(), Fail> {
    let mut history = History::with_room(rt.alloc(), 0)?;
    history.make_room()?;
    history.push(Item::Begin { k: 1 });
    history.make_room()?;
    history.push(RETURN);
    assert!(rt; history.len() == 2 && *history.item(0) == Item::Begin { k: 1 });
    Ok(())
}

/// The user whose items are counted.
const USER: UserNo = UserNo(0);

/// Another user.
const OTHER: UserNo = UserNo(1);

/// A callback, a miss and two refusals of the user, a callback and a miss of the other.
static ITEMS: [Item; 6] = [
    Item::Back {
        call: FIRST,
        user: USER,
    },
    Item::Miss {
        call: FIRST,
        user: USER,
    },
    Item::Refuse {
        call: FIRST,
        user: USER,
        reason: Reason::Recursion,
    },
    Item::Refuse {
        call: FIRST,
        user: USER,
        reason: Reason::Depth,
    },
    Item::Back {
        call: FIRST,
        user: OTHER,
    },
    Item::Miss {
        call: FIRST,
        user: OTHER,
    },
];

#[test]
fn counts_what_a_user_had(rt: HostRuntime) -> Result<(), Fail> {
    let history = history_of(rt.alloc(), &ITEMS)?;
    assert!(rt; history.backs(USER) == 1);
    assert!(rt; history.missed(USER) == 2);
    assert!(rt; history.missed(OTHER) == 1);
    Ok(())
}
