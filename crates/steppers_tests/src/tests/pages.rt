//! `hash_pages`: the operations of a page and of reads at their places, and reads after a page.

ghost use Rattle.std.specs.Prelude.{◌≡◌, ◌<◌, length, IfOk};
ghost use Rattle.filter_hash.specs.Pair.{size_of};

use filter_hash::HashPair;
use ft_base::{FuncNo, Half, UserNo};
use hash_pages::{PageReader, PageWriter, Verdict};
use site_set::{Edit, SiteSet};
use std::alloc::{AllocError, Global};
use std::process::Abort;
use std::test::Fail;
use word_map::{Op, Shape, WordMap};

/// Two users, and functions for two words of a set. The states are at 205 and 206, the words of sets
/// from 207 on: for each user those of copy 0 and those of copy 1, and in each the filter's first.
const SHAPE: Shape = Shape {
    funcs: 65,
    users: 2,
    cpus: 1,
    tasks: 1,
    tramps: 1,
};

/// How many words the map has.
const WORDS: usize = 223;

/// A state under the registration number 7, without its bits: from the lowest on, whether the user is
/// registered, whether it is enabled, the copy in use, and whether the filter is empty.
const STATE: u64 = 7 << 32;

/// The loads of a read of the second user at the last function, and its verdict.
static READS: [(&[(u32, u64)], Verdict); 8] = [
    (&[(206, STATE | 0b0010)], Verdict::Off),
    (&[(206, STATE | 0b0001)], Verdict::Off),
    (
        &[(206, STATE | 0b0011), (216, u64::MAX - 1)],
        Verdict::Apart,
    ),
    (&[(206, STATE | 0b0011), (216, 1), (218, 1)], Verdict::Apart),
    (
        &[(206, STATE | 0b0011), (216, 1), (218, u64::MAX - 1)],
        Verdict::On { reg: 7 },
    ),
    (
        &[(206, STATE | 0b0111), (220, 1), (222, 0)],
        Verdict::On { reg: 7 },
    ),
    (&[(206, STATE | 0b1011), (218, 0)], Verdict::On { reg: 7 }),
    (&[(206, STATE | 0b1111), (222, 1)], Verdict::Apart),
];

/// Whether a read of the second user at the last function makes these loads, is open until then, and
/// has this verdict.
fn reads(loads: &[(u32, u64)], verdict: Verdict) -> bool {
    let mut reader = PageReader::new(UserNo(1), FuncNo(64), WordMap::new(SHAPE));
    for (word, value) in loads {
        let is_next = reader.next() == Some(Op::Load { word: *word });
        if !is_next || reader.verdict() != Verdict::Open {
            return false;
        }
        reader.got(*value);
    }
    reader.next().is_none() && reader.verdict() == verdict
}

#[test]
fn reads_follow_a_table(rt: HostRuntime) {
    for (row, (loads, verdict)) in READS.iter().enumerate() {
        assert!(rt; reads(loads, *verdict), "row {row}");
    }
}

/// A set of the two functions 0 and 64, or of the first alone.
fn edit(alloc: Global, has_last: bool) -> Result<Edit, AllocError>
    ensures { IfOk result (λ edit. length edit.set ≡ 65) }
{
    let mut set = SiteSet::empty(alloc, 65)?;
    set.add(0);
    if has_last {
        set.add(64);
    }
    Ok(Edit {
        append: true,
        remove: false,
        clear: false,
        set,
    })
}

/// The pair whose filter has the functions 0 and 64, and whose notrace set has the first.
fn pair(alloc: Global) -> Result<HashPair, Fail>
    ensures { IfOk result (λ pair. size_of pair ≡ 65) }
{
    let both = edit(alloc, true)?;
    let first = edit(alloc, false)?;
    let mut pair = HashPair::new(alloc, 65)?;
    pair.edit(Half::Filter, &both);
    pair.edit(Half::Notrace, &first);
    Ok(pair)
}

/// The words in which the second user's second copy has the sets of a pair.
fn page(rt: &impl Abort, pair: &HashPair) -> [u64; WORDS]
    requires { size_of pair.now ≡ 65 }
{
    let mut words = [0u64; WORDS];
    let mut writer = PageWriter::new(UserNo(1), 1, STATE | 0b0111, WordMap::new(SHAPE));
    for word in [219, 220, 221, 222, 206] {
        let Some(Op::Store { word: at, value }) = writer.next(pair) else {
            panic!(rt; "no store at {word}");
        };
        assert!(rt; at == word && (at as usize) < WORDS, "at {word}");
        words[at as usize] = value;
        writer.did();
    }
    assert!(rt; writer.next(pair).is_none());
    words
}

/// The verdict of a read of the second user at a function. `None` if it reads past the words.
fn verdict_at(words: &[u64; WORDS], f: u32) -> Option<Verdict>
    requires { f < 65 }
{
    let mut reader = PageReader::new(UserNo(1), FuncNo(f), WordMap::new(SHAPE));
    for _ in 0..3 {
        if let Some(Op::Load { word }) = reader.next() {
            reader.got(*words.get(word as usize)?);
        }
    }
    Some(reader.verdict())
}

#[test]
fn reads_find_the_sets_of_a_page(rt: HostRuntime) -> Result<(), Fail> {
    let pair = pair(rt.alloc())?;
    let words = page(&rt, &pair);
    for f in 0..65 {
        let verdict = if pair.matches(f) {
            Verdict::On { reg: 7 }
        } else {
            Verdict::Apart
        };
        assert!(rt; verdict_at(&words, f) == Some(verdict), "function {f}");
    }
    Ok(())
}
