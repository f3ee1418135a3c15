//! [`func_profile::rows`]: the rows of a small history.

use super::{FIRST, history_of};
use ft_base::{CallNo, Ctx, FuncNo, Item, Reason, TaskNo, UserNo};
use func_profile::{ProfileRow, rows};
use std::test::Fail;

/// The call in the first one.
const INNER: CallNo = CallNo {
    task: TaskNo(0),
    n: 2,
};

/// A call of another task.
const OTHER: CallNo = CallNo {
    task: TaskNo(1),
    n: 1,
};

/// The user whose rows are asked for.
const USER: UserNo = UserNo(0);

/// Another user.
const BUSY: UserNo = UserNo(1);

/// Two calls of the user, one in the other, and what another task and another user do meanwhile.
static ITEMS: [Item; 9] = [
    Item::Enter {
        call: FIRST,
        ctx: Ctx::Normal,
        func: FuncNo(3),
        caller: None,
    },
    Item::Back {
        call: FIRST,
        user: USER,
    },
    Item::Enter {
        call: OTHER,
        ctx: Ctx::Normal,
        func: FuncNo(2),
        caller: None,
    },
    Item::Back {
        call: OTHER,
        user: BUSY,
    },
    Item::Enter {
        call: INNER,
        ctx: Ctx::Normal,
        func: FuncNo(1),
        caller: Some(FIRST),
    },
    Item::Back {
        call: INNER,
        user: USER,
    },
    Item::Refuse {
        call: INNER,
        user: BUSY,
        reason: Reason::Recursion,
    },
    Item::Exit {
        call: INNER,
        user: USER,
        entry: 5,
    },
    Item::Exit {
        call: FIRST,
        user: USER,
        entry: 1,
    },
];

/// The rows of the user.
static ROWS: [ProfileRow; 2] = [
    ProfileRow {
        func: FuncNo(1),
        hits: 1,
        time: 2,
    },
    ProfileRow {
        func: FuncNo(3),
        hits: 1,
        time: 7,
    },
];

#[test]
fn profiles_nested_calls(rt: HostRuntime) -> Result<(), Fail> {
    let history = history_of(rt.alloc(), &ITEMS)?;
    let profile = rows(rt.alloc(), &history, USER, 4)?;
    assert!(rt; profile.as_slice() == ROWS.as_slice());
    Ok(())
}
