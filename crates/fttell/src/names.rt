//! How words are named: as scripts and docs/PROTOCOL.md name them.

ghost use Rattle.std.specs.Prelude.{◌<◌};

use crate::numbers::put_decimal;
use ft_base::{CpuNo, FuncNo, Half, NoMemory, TaskNo, UserNo};
use ft_io::{Pieces, Sink};
use ft_job::Job;
use std::alloc::Global;
use trace_print::Names;
use trace_views::Named;
use word_map::WordMap;

/// What the word at a place is, and so how it is named.
#[derive(Clone, Copy)]
enum Name {
    Single(&'static str),
    /// The word of the thing with this number.
    Numbered(&'static str, u32),
    OfFunction(&'static str, FuncNo),
    OfUser(&'static str, UserNo),
    /// A word of a user's sets, in one copy.
    Bits {
        user: UserNo,
        copy: u8,
        half: Half,
        number: u32,
    },
}

/// The name of a word, and how its value is read best. Numbers are decimal: requests, users in the list,
/// the depth, instructions. Bytes, bits and words of two halves are hexadecimal.
#[derive(Clone, Copy)]
pub(crate) struct WordName {
    name: Name,
    pub(crate) hexadecimal: bool,
}

/// The names of all words, by place.
#[derive(Drop)]
pub(crate) struct WordNames<'a> {
    names: Names<'a>,
    words: Vec<WordName>,
}

impl<'a> WordNames<'a> {
    /// The names of a job's words, which stand where this map says.
    pub(crate) fn new(
        alloc: Global,
        job: &'a Job,
        map: WordMap,
    ) -> Result<WordNames<'a>, NoMemory> {
        let nameless = WordName {
            name: Name::Single(""),
            hexadecimal: true,
        };
        let names = Names::new(alloc, job)?;
        let words = Vec::from_elem(alloc, nameless, map.len() as usize).map_err(|_| NoMemory)?;
        let mut names = WordNames { names, words };
        names.set_all(job, map);
        Ok(names)
    }

    /// The name of the word at a place. `None` if there is no such place.
    pub(crate) fn word(&self, place: u32) -> Option<WordName> {
        self.words.get(place as usize).copied()
    }

    /// Puts a name.
    pub(crate) fn put<K: Sink>(&self, pieces: &mut Pieces, sink: &mut K, word: WordName) {
        match word.name {
            Name::Single(what) => pieces.put(sink, what.as_bytes()),
            Name::Numbered(what, number) => {
                pieces.put(sink, what.as_bytes());
                put_decimal(pieces, sink, u64::from(number));
            }
            Name::OfFunction(what, function) => {
                pieces.put(sink, what.as_bytes());
                pieces.put(sink, self.names.function(function).as_bytes());
            }
            Name::OfUser(what, user) => {
                pieces.put(sink, what.as_bytes());
                pieces.put(sink, self.names.user(user).as_bytes());
            }
            Name::Bits {
                user,
                copy,
                half,
                number,
            } => {
                pieces.put(sink, b"bits.");
                pieces.put(sink, self.names.user(user).as_bytes());
                pieces.put(sink, copy_and_half(copy, half).as_bytes());
                put_decimal(pieces, sink, u64::from(number));
            }
        }
    }

    /// Names all words.
    fn set_all(&mut self, job: &Job, map: WordMap) {
        self.set(map.clock(), Name::Single("clock"), true);
        self.set(map.want(), Name::Single("want"), false);
        self.set(map.first(), Name::Single("first"), false);
        self.set(map.pids(), Name::Single("pids"), true);
        self.set(map.depth(), Name::Single("depth"), false);
        self.set_actors(job, map);
        self.set_sites(map);
        self.set_users(map);
    }

    /// Names the word at a place.
    fn set(&mut self, place: u32, name: Name, hexadecimal: bool) {
        if let Some(word) = self.words.get_mut(place as usize) {
            *word = WordName { name, hexadecimal };
        }
    }

    /// Names the words of CPUs, tasks and trampolines.
    fn set_actors(&mut self, job: &Job, map: WordMap) {
        for c in 0..map.shape().cpus {
            self.set(map.ack(CpuNo(c)), Name::Numbered("ack.", c), false);
        }
        for t in 0..map.shape().tasks {
            let pid = job.pid(TaskNo(t)).unwrap_or(0);
            self.set(map.quiet(TaskNo(t)), Name::Numbered("quiet.", pid), true);
        }
        for s in 0..map.shape().tramps {
            self.set(map.tramp(s), Name::Numbered("tramp.", u32::from(s)), true);
        }
    }

    /// Names the words of call sites.
    fn set_sites(&mut self, map: WordMap) {
        for number in 0..map.shape().funcs {
            let f = FuncNo(number);
            self.set(map.head(f), Name::OfFunction("head.", f), true);
            self.set(map.tail(f), Name::OfFunction("tail.", f), true);
            self.set(map.next_word(f), Name::OfFunction("next.", f), false);
        }
    }

    /// Names the words of users.
    fn set_users(&mut self, map: WordMap) {
        for number in 0..map.shape().users {
            let user = UserNo(number);
            self.set(map.link(user), Name::OfUser("link.", user), false);
            self.set(map.sel(user), Name::OfUser("sel.", user), true);
            for copy in 0..2 {
                self.set_bits(map, user, copy, Half::Filter);
                self.set_bits(map, user, copy, Half::Notrace);
            }
        }
    }

    /// Names the words of one of a user's sets, in one copy.
    fn set_bits(&mut self, map: WordMap, user: UserNo, copy: u8, half: Half)
        requires user { user.0 < map.users }
        requires copy { copy < 2 }
    {
        for number in 0..map.shape().funcs.div_ceil(64) {
            let name = Name::Bits {
                user,
                copy,
                half,
                number,
            };
            self.set(map.bits(user, copy, half, number), name, true);
        }
    }
}

/// A copy of a user's sets, and one of the sets.
fn copy_and_half(copy: u8, half: Half) -> &'static str {
    match half {
        Half::Filter if copy == 0 => ".0.filter.",
        Half::Notrace if copy == 0 => ".0.notrace.",
        Half::Filter => ".1.filter.",
        Half::Notrace => ".1.notrace.",
    }
}
