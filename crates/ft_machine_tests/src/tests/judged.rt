//! Histories made by hand, for the rules of callbacks and of silence: one that lost a callback, one that has one
//! too many, and some of users, functions and calls that aren't there, which no log can tell.

ghost use Rattle.std.specs.Prelude.{◌≡◌, ◌<◌, ◌^◌, length, IfOk};

use super::jobs::job_of;
use ft_base::{Answer, CallNo, Ctx, FuncNo, Item, NoMemory, Ran, TaskNo, UserNo};
use ft_hist::History;
use history_check::backs_legal;
use std::alloc::Global;
use std::test::Fail;

const FIRST: UserNo = UserNo(0);

/// A number that the job doesn't have is nobody's: no such user is on, and none was visited.
const FAR: UserNo = UserNo(40);

const CALL: CallNo = CallNo {
    task: TaskNo(0),
    n: 1,
};

const BEGIN: Item = Item::Begin { k: 1 };

const RETURN: Item = Item::Return {
    k: 1,
    answer: Answer::Accepted,
};

const ENTER: Item = Item::Enter {
    call: CALL,
    ctx: Ctx::Normal,
    func: FuncNo(0),
    caller: None,
};

const BACK: Item = Item::Back {
    call: CALL,
    user: FIRST,
};

const BODY: Item = Item::Body {
    call: CALL,
    func: FuncNo(0),
    ran: Ran::Nop,
};

/// A task that calls a function which a user traces.
const TRACED: &str = "ftrace 1
func a
user tr function
cpu 0 quantum 100
task 10 cpu 0
after 1
call a
ret
ctl register tr
";

/// The same without its wait and without commands, so that nobody traces the function.
const UNTRACED: &str = "ftrace 1
func a
user tr function
cpu 0 quantum 100
task 10 cpu 0
call a
ret
";

/// A script, items, and whether they keep the rules.
type Row = (&'static str, &'static [Item], bool);

static ROWS: [Row; 6] = [
    (TRACED, &[BEGIN, RETURN, ENTER, BODY], false),
    (
        UNTRACED,
        &[
            ENTER,
            BACK,
            Item::BackEnd {
                call: CALL,
                user: FIRST,
            },
            BODY,
        ],
        false,
    ),
    (
        TRACED,
        &[
            BEGIN,
            RETURN,
            ENTER,
            Item::Back {
                call: CALL,
                user: FAR,
            },
        ],
        false,
    ),
    (
        TRACED,
        &[
            Item::BackEnd {
                call: CALL,
                user: FAR,
            },
            Item::Return {
                k: 9,
                answer: Answer::Accepted,
            },
            Item::Begin { k: 9 },
        ],
        true,
    ),
    // A function that the job doesn't have.
    (
        TRACED,
        &[
            BEGIN,
            RETURN,
            Item::Enter {
                call: CALL,
                ctx: Ctx::Normal,
                func: FuncNo(5_000),
                caller: None,
            },
            BACK,
        ],
        true,
    ),
    (UNTRACED, &[BODY], true),
];

/// A history of these items.
fn history_of(alloc: Global, items: &[Item]) -> Result<History, NoMemory>
    requires { length items.now < 2 ^ 32 }
    ensures { IfOk result (λ history. history.items ≡ items.now) }
{
    let mut history = History::with_room(alloc, items.len() as u32)?;
    for item in items {
        history.push(*item);
    }
    Ok(history)
}

/// Whether a history of these few items keeps the rules, for the job of a text.
fn keeps_rules(alloc: Global, text: &str, items: &[Item]) -> Result<bool, Fail> {
    if items.len() > 10 {
        return Err("too long".into());
    }
    let history = history_of(alloc, items)?;
    let job = job_of(alloc, text)?;
    Ok(backs_legal(alloc, &job, &history)?)
}

#[test]
fn callbacks_are_as_the_job_says(rt: HostRuntime) -> Result<(), Fail> {
    for (place, (text, items, keeps)) in ROWS.iter().enumerate() {
        assert!(rt; keeps_rules(rt.alloc(), text, items)? == *keeps, "{place}");
    }
    Ok(())
}
