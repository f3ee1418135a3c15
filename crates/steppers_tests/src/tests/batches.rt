//! [`patch_core::Batch`]: batches from their first moves to their ends. The places follow from the shape, and the bytes were
//! worked out by hand from the addresses of functions, trampolines and the list caller.

use ft_base::FuncNo;
use patch_core::{Batch, BatchNext};
use site_bytes::{Insn, SiteChange};
use word_map::{Op, Shape, WordMap};

static SHAPE: Shape = Shape {
    funcs: 4,
    users: 1,
    cpus: 1,
    tasks: 1,
    tramps: 2,
};

/// One site for each instruction, and not in the order of their functions.
static SITES: [SiteChange; 3] = [
    SiteChange {
        func: FuncNo(3),
        insn: Insn::Own(1),
    },
    SiteChange {
        func: FuncNo(1),
        insn: Insn::Nop,
    },
    SiteChange {
        func: FuncNo(0),
        insn: Insn::List,
    },
];

/// Place and value of each store, and `None` for a sync. The heads are at places 5 to 8, the tails at 9
/// to 12, and the `next` words at 13 to 16.
static MOVES: [Option<(u32, u64)>; 15] = [
    Some((16, 3)),
    Some((14, 0)),
    Some((13, 1)),
    Some((8, 0xCC)),
    Some((6, 0xCC)),
    Some((5, 0xCC)),
    None,
    Some((12, 1_044_539)),
    Some((10, 0x441F)),
    Some((9, 978_939)),
    None,
    Some((8, 0xE8)),
    Some((6, 0x0F)),
    Some((5, 0xE8)),
    None,
];

/// What a batch gives for a row.
fn next_of(row: Option<(u32, u64)>) -> BatchNext {
    match row {
        Some((word, value)) => BatchNext::Do(Op::Store { word, value }),
        None => BatchNext::Sync,
    }
}

#[test]
fn changes_three_sites(rt: HostRuntime) {
    let mut batch = Batch::new(WordMap::new(SHAPE));
    for (made, row) in MOVES.iter().enumerate() {
        let next = batch.next(&SITES);
        assert!(rt; next == next_of(*row), "after {made} moves");
        assert!(rt;
            batch.is_at_store(&SITES) == row.is_some(),
            "after {made} moves"
        );
        match row {
            Some(_) => batch.did(),
            None => batch.synced(),
        }
    }
    assert!(rt; batch.next(&SITES) == BatchNext::Done);
    assert!(rt; !batch.is_at_store(&SITES));
}

#[test]
fn changes_no_site(rt: HostRuntime) {
    let batch = Batch::new(WordMap::new(SHAPE));
    assert!(rt; batch.next(&[]) == BatchNext::Done);
    assert!(rt; !batch.is_at_store(&[]));
}
