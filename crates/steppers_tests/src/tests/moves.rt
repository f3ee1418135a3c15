//! `command_moves`: the list of a command under way.

use command_moves::{Move, Underway};
use std::test::Fail;
use word_map::{Op, Shape, WordMap};

#[test]
fn a_list_begins_with_its_first_move(rt: HostRuntime) -> Result<(), Fail> {
    let map = WordMap::new(Shape {
        funcs: 1,
        users: 1,
        cpus: 1,
        tasks: 1,
        tramps: 1,
    });
    let mut command = Underway::new(rt.alloc(), map, 2)?;
    command.push(Move::Store { word: 4, value: 3 });
    command.push(Move::Quiet);
    assert!(rt; command.next() == Some(Op::Store { word: 4, value: 3 }));
    command.clear();
    assert!(rt; command.next().is_none());
    Ok(())
}
