//! `site_bytes`: the bytes of some instructions, and bytes that no instruction has.

use ft_base::FuncNo;
use ft_base::limits::FUNCS;
use site_bytes::{Insn, SiteChange, decode, encode, head_of, join, tail_of};

/// Functions, each with an instruction and its bytes.
static BYTES: [(u32, Insn, [u8; 5]); 7] = [
    (0, Insn::Nop, [0x0F, 0x1F, 0x44, 0x00, 0x00]),
    (4_095, Insn::Nop, [0x0F, 0x1F, 0x44, 0x00, 0x00]),
    (0, Insn::List, [0xE8, 0xFB, 0xEF, 0x0E, 0x00]),
    (0, Insn::Own(0), [0xE8, 0xFB, 0xEF, 0x0F, 0x00]),
    (1, Insn::Own(0), [0xE8, 0xBB, 0xEF, 0x0F, 0x00]),
    (3, Insn::Own(2), [0xE8, 0x3B, 0xF1, 0x0F, 0x00]),
    (0, Insn::Own(63), [0xE8, 0xFB, 0x2E, 0x10, 0x00]),
];

#[test]
fn has_the_bytes_of_the_table(rt: HostRuntime) {
    for (f, insn, bytes) in BYTES {
        assert!(rt; f < FUNCS);
        assert!(rt; decode(FuncNo(f), bytes) == Some(insn), "function {f}");
    }
}

#[test]
fn encodes_from_head_and_tail(rt: HostRuntime) {
    let change = SiteChange {
        func: FuncNo(3),
        insn: Insn::Own(2),
    };
    let bytes = [0xE8, 0x3B, 0xF1, 0x0F, 0x00];
    assert!(rt; encode(change.func, change.insn) == bytes);
    assert!(rt; head_of(change.insn) == 0xE8);
    assert!(rt; tail_of(change.func, change.insn) == 1_044_795);
    assert!(rt; join(0xE8, 1_044_795) == bytes);
    assert!(rt; tail_of(FuncNo(0), Insn::List) == 978_939);
    assert!(rt; tail_of(FuncNo(0), Insn::Own(63)) == 1_060_603);
}

/// Bytes that no instruction of the first function has.
static OTHERS: [[u8; 5]; 6] = [
    [0xCC, 0xFB, 0xEF, 0x0E, 0x00],
    [0xCC, 0x1F, 0x44, 0x00, 0x00],
    // one byte past the list caller, the trampoline of slot 64, and a nop with a call's tail
    [0xE8, 0xFC, 0xEF, 0x0E, 0x00],
    [0xE8, 0xFB, 0x2F, 0x10, 0x00],
    [0x0F, 0xFB, 0xEF, 0x0E, 0x00],
    [0xE8, 0x1F, 0x44, 0x00, 0x00],
];

#[test]
fn refuses_other_bytes(rt: HostRuntime) {
    for bytes in OTHERS {
        assert!(rt; decode(FuncNo(0), bytes).is_none(), "{bytes:?}");
    }
}
