//! [`control_core::Control`]: control carries out a script over words in one list, while one CPU and one
//! task tell each request at once. What it stores is compared with what was worked out by hand.

ghost use Rattle.std.specs.Prelude.{◌≡◌, length, IfOk};
ghost use Rattle.ft_desk.specs.Lines.{IsLineIn};
ghost use Rattle.control_core.specs.Seated.{IsOpening};

use super::user;
use control_core::Control;
use ft_base::{Answer, Item, Kind, Stamped, UserNo};
use ft_desk::{Command, Ctl, Desk, Shape};
use std::alloc::Global;
use std::process::Abort;
use std::test::Fail;
use word_map::{Op, WordMap};

const SHAPE: Shape = Shape {
    funcs: 1,
    users: 1,
    cpus: 1,
    tasks: 1,
    tramps: 1,
};

/// The places and values that it stores. Place 1 has the requests; 4 is the depth, 5 to 7 are the call
/// site, 10 is the trampoline, 12 the user's state, and 15 and 16 are the second copy of its sets.
static STORES: [(u32, u64); 26] = [
    // The user takes the trampoline, and its state names the second copy.
    (10, 0x1_0000_0001),
    (15, 0),
    (16, 0),
    (12, 0x1_0000_000F),
    (11, 0),
    (2, 1),
    // The site becomes a call from 0x1000 to 0x100000.
    (7, 2),
    (5, 0xCC),
    (1, 1),
    (6, 0x0F_EFFB),
    (1, 2),
    (5, 0xE8),
    (1, 3),
    // The user is off, and nobody is on the list.
    (12, 0x1_0000_000E),
    (2, 0),
    // The site becomes the nop, 0f 1f 44 00 00.
    (7, 0),
    (5, 0xCC),
    (1, 4),
    (6, 0x441F),
    (1, 5),
    (5, 0x0F),
    (1, 6),
    // The trampoline is free after the wait.
    (1, 7),
    (10, 0),
    // The depth, and its wait.
    (4, 3),
    (1, 8),
];

/// A line that the desk takes.
fn line(rt: &impl Abort, desk: &Desk, command: Command) -> Ctl
    ensures { IsLineIn desk.now.declared result }
{
    assert!(rt; desk.takes(&command));
    Ctl::Run(command)
}

/// What an operation gives: the CPU and the task tell the last request.
fn done(words: &mut Vec<u64>, op: Op) -> u64 {
    match op {
        Op::Load { .. } => words.get(1).copied().unwrap_or(0),
        Op::Store { word, value } => {
            if let Some(at) = words.get_mut(word as usize) {
                *at = value;
            }
            0
        }
        Op::Mark { .. } => match words.get_mut(0) {
            None => 0,
            Some(clock) => {
                let before = *clock;
                *clock = before.wrapping_add(0x1_0000_0001);
                before
            }
        },
    }
}

/// Control before a registration, an unregistration and a graph depth.
fn start(rt: &impl Abort, alloc: Global, map: WordMap) -> Result<Control, Fail>
    requires { map ≡ SHAPE }
    ensures opening { IfOk result (λ c. IsOpening c) }
    ensures three { IfOk result (λ c. length c.all ≡ 3) }
{
    let user = user(alloc, Kind::Function)?;
    let specs = vec![in alloc; user]?;
    let desk = Desk::new(alloc, specs.as_slice(), SHAPE)?;
    let lines = [
        line(rt, &desk, Command::Register(UserNo(0))),
        line(rt, &desk, Command::Unregister(UserNo(0))),
        line(rt, &desk, Command::MaxDepth(3)),
    ];
    Ok(Control::new(alloc, desk, &lines, map)?)
}

/// The stores that control makes until its end.
fn stores_of(
    alloc: Global,
    control: &mut Control,
    words: &mut Vec<u64>,
) -> Result<Vec<(u32, u64)>, Fail> {
    let mut stores = Vec::new(alloc);
    for _ in 0..200 {
        let Some(op) = control.next() else { break };
        if let Op::Store { word, value } = op {
            stores.push((word, value))?;
        }
        control.got(done(words, op));
    }
    Ok(stores)
}

/// The same of the graph depth and then the registration, which are led one after the other.
static LED_STORES: [(u32, u64); 15] = [
    // The depth, and its wait.
    (4, 3),
    (1, 1),
    // The user takes the trampoline, for its first registration.
    (10, 0x1_0000_0001),
    (15, 0),
    (16, 0),
    (12, 0x1_0000_000F),
    (11, 0),
    (2, 1),
    // The site becomes a call from 0x1000 to 0x100000.
    (7, 2),
    (5, 0xCC),
    (1, 2),
    (6, 0x0F_EFFB),
    (1, 3),
    (5, 0xE8),
    (1, 4),
];

/// The last item that control marks.
static LAST: Stamped = Stamped {
    place: 5,
    item: Item::Return {
        k: 3,
        answer: Answer::Accepted,
    },
};

/// Whether control has marked six items and run its three commands.
fn has_run_all(control: &Control) -> bool {
    let items = control.items();
    items.len() == 6 && items.last().copied() == Some(LAST) && control.desk().commands() == 3
}

#[test]
fn a_user_comes_and_goes(rt: HostRuntime) -> Result<(), Fail> {
    let alloc = rt.alloc();
    let map = WordMap::new(SHAPE);
    let mut control = start(&rt, alloc, map)?;
    let mut words = map.opening(alloc, 0)?;
    let stores = stores_of(alloc, &mut control, &mut words)?;
    assert!(rt; stores.as_slice() == STORES.as_slice());
    assert!(rt; has_run_all(&control));
    Ok(())
}

/// Whether control is at its end once the third line and then the first were led.
fn has_led_two(control: &Control) -> bool {
    let order = [2, 0];
    control.order() == order.as_slice() && control.next().is_none() && control.items().len() == 4
}

#[test]
fn two_lines_of_three_are_led(rt: HostRuntime) -> Result<(), Fail> {
    let alloc = rt.alloc();
    let map = WordMap::new(SHAPE);
    let mut control = start(&rt, alloc, map)?;
    control.withhold();
    assert!(rt; control.next().is_none());
    control.lead(2);
    control.lead(0);
    let mut words = map.opening(alloc, 0)?;
    let stores = stores_of(alloc, &mut control, &mut words)?;
    assert!(rt; stores.as_slice() == LED_STORES.as_slice());
    assert!(rt; has_led_two(&control));
    Ok(())
}
