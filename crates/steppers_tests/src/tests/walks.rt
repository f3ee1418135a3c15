//! `ops_list`: walks meet users that come and go.

ghost use Rattle.std.specs.Prelude.{◌≡◌};

use ft_base::UserNo;
use ops_list::{Linker, Walker};
use std::process::Abort;
use word_map::{Op, Shape, WordMap};

/// How many words the map of the tests has.
const WORDS: usize = 28;

/// A map with three users.
fn three_users() -> WordMap
    ensures { result.users ≡ 3 }
{
    WordMap::new(Shape {
        funcs: 1,
        users: 3,
        cpus: 1,
        tasks: 1,
        tramps: 0,
    })
}

/// Makes the next store of a change. False if there is none.
fn store(words: &mut [u64; WORDS], linker: &mut Linker) -> bool {
    let Some(Op::Store { word, value }) = linker.next() else {
        return false;
    };
    if let Some(place) = words.get_mut(word as usize) {
        *place = value;
    }
    linker.got(0);
    true
}

/// Makes the next load of a walk. The user that it is at then.
fn load(rt: &impl Abort, words: &[u64; WORDS], walker: &mut Walker) -> Option<UserNo>
    requires { walker.old.shape.users ≡ 3 }
    ensures { walker.new.shape ≡ walker.old.shape }
{
    if let Some(Op::Load { word }) = walker.next() {
        assert!(rt; (word as usize) < WORDS, "{word}");
        let value = words[word as usize];
        assert!(rt; value <= 3, "{value}");
        walker.got(value);
    }
    walker.at()
}

/// Makes a change whole.
fn change(words: &mut [u64; WORDS], mut linker: Linker) {
    store(words, &mut linker);
    store(words, &mut linker);
}

/// The users that a new walk is at after each of four loads.
fn visited(rt: &impl Abort, words: &[u64; WORDS], map: WordMap) -> [Option<UserNo>; 4]
    requires { map.users ≡ 3 }
{
    let mut walker = Walker::new(map);
    let first = load(rt, words, &mut walker);
    let second = load(rt, words, &mut walker);
    let third = load(rt, words, &mut walker);
    let fourth = load(rt, words, &mut walker);
    [first, second, third, fourth]
}

#[test]
fn users_come_and_go(rt: HostRuntime) {
    let (zero, one, two) = (UserNo(0), UserNo(1), UserNo(2));
    let map = three_users();
    assert!(rt; map.len() as usize == WORDS);
    let mut words = [0; WORDS];
    assert!(rt; visited(&rt, &words, map) == [None; 4]);
    change(&mut words, Linker::push(zero, None, map));
    change(&mut words, Linker::push(one, Some(zero), map));
    change(&mut words, Linker::push(two, Some(one), map));
    assert!(rt; visited(&rt, &words, map) == [Some(two), Some(one), Some(zero), None]);
    change(&mut words, Linker::unlink(None, Some(one), map));
    assert!(rt; visited(&rt, &words, map) == [Some(one), Some(zero), None, None]);
    change(&mut words, Linker::unlink(Some(one), None, map));
    assert!(rt; visited(&rt, &words, map) == [Some(one), None, None, None]);
}

#[test]
fn walks_go_on_through_changes(rt: HostRuntime) {
    let (zero, one, two) = (UserNo(0), UserNo(1), UserNo(2));
    let map = three_users();
    let mut words = [0; WORDS];
    change(&mut words, Linker::push(zero, None, map));
    change(&mut words, Linker::push(one, Some(zero), map));
    let mut walker = Walker::new(map);
    assert!(rt; walker.at() == None, "before the first load");
    let mut push = Linker::push(two, Some(one), map);
    assert!(rt; store(&mut words, &mut push));
    assert!(rt;
        load(&rt, &words, &mut walker) == Some(one),
        "two is linked, and not yet the first"
    );
    assert!(rt; store(&mut words, &mut push));
    assert!(rt; !store(&mut words, &mut push), "a push is two stores");
    let mut unlink = Linker::unlink(Some(two), Some(zero), map);
    assert!(rt; store(&mut words, &mut unlink));
    assert!(rt; !store(&mut words, &mut unlink), "an unlink is one store");
    assert!(rt;
        load(&rt, &words, &mut walker) == Some(zero),
        "from the user that was taken off"
    );
    assert!(rt; load(&rt, &words, &mut walker) == None);
    assert!(rt; walker.next() == None);
    assert!(rt; visited(&rt, &words, map) == [Some(two), Some(zero), None, None]);
}
