//! [`word_map`]: places of a small shape and of the greatest one, the words at the start, and words that
//! hold more than one number.

use ft_base::limits::{CPUS, FUNCS, TASKS, TRAMPS, USERS};
use ft_base::{CpuNo, FuncNo, Half, TaskNo, UserNo};
use site_bytes::Insn;
use std::test::Fail;
use word_map::{Sel, Shape, WordMap, clock, name, next, quiet, tramp};

/// A small shape, whose sets have one word each.
const SMALL: Shape = Shape {
    funcs: 2,
    users: 2,
    cpus: 1,
    tasks: 3,
    tramps: 1,
};

/// The greatest shape.
const GREATEST: Shape = Shape {
    funcs: FUNCS,
    users: USERS,
    cpus: CPUS,
    tasks: TASKS,
    tramps: TRAMPS as u8,
};

#[test]
fn words_stand_one_after_the_other(rt: HostRuntime) {
    let map = WordMap::new(SMALL);
    let places = [
        map.clock(),
        map.want(),
        map.first(),
        map.pids(),
        map.depth(),
        map.head(FuncNo(0)),
        map.head(FuncNo(1)),
        map.tail(FuncNo(0)),
        map.tail(FuncNo(1)),
        map.next_word(FuncNo(0)),
        map.next_word(FuncNo(1)),
        map.ack(CpuNo(0)),
        map.quiet(TaskNo(0)),
        map.quiet(TaskNo(1)),
        map.quiet(TaskNo(2)),
        map.tramp(0),
        map.link(UserNo(0)),
        map.link(UserNo(1)),
        map.sel(UserNo(0)),
        map.sel(UserNo(1)),
        map.bits(UserNo(0), 0, Half::Filter, 0),
        map.bits(UserNo(0), 0, Half::Notrace, 0),
        map.bits(UserNo(0), 1, Half::Filter, 0),
        map.bits(UserNo(0), 1, Half::Notrace, 0),
        map.bits(UserNo(1), 0, Half::Filter, 0),
        map.bits(UserNo(1), 0, Half::Notrace, 0),
        map.bits(UserNo(1), 1, Half::Filter, 0),
        map.bits(UserNo(1), 1, Half::Notrace, 0),
    ];
    for (i, place) in places.iter().enumerate() {
        assert!(rt; *place as usize == i, "place {i}");
    }
    assert!(rt; map.len() as usize == places.len());
}

/// The five single words, then the heads and the tails of the two sites, and the rest.
static OPENING: [u64; 28] = [
    0, 0, 0, 5, 0, 0x0F, 0x0F, 0x441F, 0x441F, 0, 0, 0, 0, 0, 0, 0, 0, 0, 0, 0, 0, 0, 0, 0, 0, 0,
    0, 0,
];

#[test]
fn opens_with_nops_and_traced_tasks(rt: HostRuntime) -> Result<(), Fail> {
    let list = WordMap::new(SMALL).opening(rt.alloc(), 0b101)?;
    assert!(rt; list.as_slice() == OPENING.as_slice());
    Ok(())
}

#[test]
fn reaches_full_size(rt: HostRuntime) -> Result<(), Fail> {
    let map = WordMap::new(GREATEST);
    // 5 single words, 3 words a function, 1 a CPU, a task and a trampoline, 2 a user, and 4 sets
    // of 64 words a user
    assert!(rt; map.len() == 5 + 3 * 4_096 + 8 + 64 + 64 + 2 * 64 + 64 * 4 * 64);
    let last = map.bits(UserNo(63), 1, Half::Notrace, 63);
    assert!(rt; last == 28_940, "the last word");
    let list = map.opening(rt.alloc(), u64::MAX)?;
    assert!(rt; list.len() == 28_941);
    assert!(rt; list.get(3).copied() == Some(u64::MAX));
    assert!(rt;
        list.get(8_196).copied() == Some(0x441F),
        "the tail of the last function"
    );
    assert!(rt; list.get(8_197).copied() == Some(0));
    Ok(())
}

/// A registration number; whether the user is registered and enabled, whether the second copy is in use,
/// and whether the filter is empty; and the word of such a state.
static STATES: [(u32, bool, bool, bool, bool, u64); 6] = [
    (0, false, false, false, false, 0),
    (0, true, false, false, false, 1),
    (0, false, true, false, false, 2),
    (0, false, false, true, false, 4),
    (0, false, false, false, true, 8),
    (u32::MAX, true, true, true, true, 0xFFFF_FFFF_0000_000F),
];

#[test]
fn states_there_and_back(rt: HostRuntime) {
    for (reg, registered, enabled, second, empty, word) in STATES {
        let state = Sel {
            reg,
            registered,
            enabled,
            copy: u8::from(second),
            empty,
        };
        assert!(rt; state.word() == word && Sel::of(word) == state, "{word}");
    }
}

/// Acts, a request, and the word of a task that has come to them.
static QUIET: [(u32, u32, u64); 5] = [
    (0, 0, 0),
    (0, quiet::ENDED, 4_294_967_295),
    (1, 0, 4_294_967_296),
    (7, 3, 30_064_771_075),
    (u32::MAX, quiet::ENDED, u64::MAX),
];

#[test]
fn acts_and_requests_there_and_back(rt: HostRuntime) {
    for (acts, request, word) in QUIET {
        assert!(rt; quiet::word(acts, request) == word, "{word}");
        assert!(rt;
            quiet::acts(word) == acts && quiet::request(word) == request,
            "{word}"
        );
    }
}

#[test]
fn the_clock_counts(rt: HostRuntime) {
    assert!(rt; clock::mark_weight(false) == 1 && clock::mark_weight(true) == 4_294_967_297);
    // 4 items of commands among 7
    let clock = 17_179_869_191;
    assert!(rt; clock::items_at(clock) == 7 && clock::returned_at(clock) == 2);
}

/// Instructions, and their numbers.
static NUMBERS: [(Insn, u64); 4] = [
    (Insn::Nop, 0),
    (Insn::List, 1),
    (Insn::Own(0), 2),
    (Insn::Own(63), 65),
];

#[test]
fn instructions_and_users_have_numbers(rt: HostRuntime) {
    for (insn, number) in NUMBERS {
        assert!(rt; next::number_of(insn) == number, "{number}");
    }
    assert!(rt; next::insn_numbered(1) == Insn::List && next::insn_numbered(65) == Insn::Own(63));
    let word = tramp::word(7, UserNo(2));
    assert!(rt; word == 30_064_771_075);
    assert!(rt; tramp::user(word) == UserNo(2) && tramp::reg(word) == 7);
    assert!(rt; name::name_of(None) == 0 && name::name_of(Some(UserNo(2))) == 3);
    assert!(rt; name::named(0) == None && name::named(3) == Some(UserNo(2)));
}
