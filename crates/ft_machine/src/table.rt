//! The shared words in a list, and the operations on them.

ghost use Rattle.std.specs.Prelude.{◌≡◌, ◌<◌, ◌^◌, get_or, length, IfOk};
ghost use Rattle.word_map.specs.Places.{IsOpening};
ghost use Rattle.ft_machine.specs.Tables.{HasRoomAt, IsOn, gives, made};

use ft_base::NoMemory;
use std::alloc::Global;
use std::marker::Model;
use word_map::{Op, WordMap, clock};

/// The shared words. Contracts see them as a list, the clock first.
#[derive(Drop)]
pub(crate) struct Table {
    words: Vec<u64>,
}

impl Model for Table {
    ghost use Rattle.std.specs.Prelude.{ℕ, List};

    ghost Value = { List ℕ };

    ghost view = { λ d. d.words.items };
}

impl Table {
    /// The words at the start, when these tasks are traced: every call site is the nop, and nobody is
    /// registered. The error says that memory ran out.
    pub(crate) fn new(alloc: Global, map: &WordMap, pids: u64) -> Result<Table, NoMemory>
        ensures { IfOk result (λ t. IsOpening map.now pids t) }
    {
        let words = map.opening(alloc, pids)?;
        Ok(Table { words })
    }

    /// The list of the words; the table is used up.
    pub(crate) fn into_words(self) -> Vec<u64>
        ensures { result.items ≡ self }
    {
        let Table { words } = self;
        words
    }

    /// The words by place.
    pub(crate) fn words(&self) -> &[u64]
        ensures { result.now ≡ self.now }
    {
        self.words.as_slice()
    }

    /// What the word at a place holds.
    pub(crate) fn word(&self, place: u32) -> u64
        requires { place < length self.now }
        ensures { result ≡ get_or self.now place 0 }
    {
        self.words[place as usize]
    }

    /// Makes an operation. The answer is the value that it gives: what a loaded word holds, the clock
    /// before a mark, and 0 for a store.
    pub(crate) fn make(&mut self, op: Op) -> u64
        requires on { IsOn (length self.old) op }
        requires room { HasRoomAt self.old op }
        ensures words { self.new ≡ made op self.old }
        ensures value { result ≡ gives op self.old }
    {
        match op {
            Op::Load { word } => self.words[word as usize],
            Op::Store { word, value } => {
                self.words[word as usize] = value;
                0
            }
            Op::Mark { command } => {
                let clock = self.words[0];
                self.words[0] = clock + clock::mark_weight(command);
                clock
            }
        }
    }
}
