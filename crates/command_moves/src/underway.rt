//! A command under way, by the list of its moves.

ghost use Rattle.std.specs.Prelude.{◌≡◌, ◌<◌, ◌≤◌, ◌^◌, ◌++◌, ◌∷◌, [], suc, None, length, IfOk};
ghost use Rattle.grace_core.specs.Waits.{wait_got};
ghost use Rattle.command_moves.specs.Steps.{at_start, op_of, stepped, waited};

use ft_base::NoMemory;
use grace_core::Waiter;
use std::alloc::Global;
use std::marker::Model;
use word_map::{Op, WordMap};

/// A move of a command.
#[derive(Clone, Copy, Debug, PartialEq, Eq)]
pub enum Move {
    /// A store into the word at a place.
    Store { word: u32, value: u64 },
    /// A wait until each CPU has acknowledged a request that is stored now.
    Sync,
    /// A wait until each task was at a quiet point after a request that is stored now.
    Quiet,
}

/// A command under way: its moves, how many of them are made, and the wait of the present one, once its
/// request is stored.
#[derive(Drop)]
pub struct Underway {
    map: WordMap,
    moves: Vec<Move>,
    made: u32,
    wait: Option<Waiter>,
    /// How many requests were stored so far, by earlier commands too.
    request: u32,
}

impl Model for Underway {
    ghost use Rattle.std.specs.Prelude.{vec_capacity};
    ghost use Rattle.command_moves.specs.Steps.{IsOfShape, Underway};

    ghost Value = { Underway };

    ghost view = { λ d. record { shape = d.map; moves = d.moves.items; made = d.made; wait = d.wait; request = d.request; room = vec_capacity d.moves } };

    ghost invariant = { λ d. IsOfShape d.map d.wait };
}

impl Underway {
    /// No command, with room for so many moves. The error says that memory ran out.
    pub fn new(alloc: Global, map: WordMap, room: u32) -> Result<Underway, NoMemory>
        ensures start { IfOk result (λ c. c ≡ at_start map c.room) }
        ensures room { IfOk result (λ c. room ≤ c.room) }
    {
        let moves = Vec::with_capacity(alloc, room as usize).map_err(|_| NoMemory)?;
        Ok(Underway {
            map,
            moves,
            made: 0,
            wait: None,
            request: 0,
        })
    }

    /// A command without moves, after the one before it.
    pub fn clear(&mut self)
        ensures { self.new ≡ record self.old { moves = []; made = 0; wait = None } }
    {
        self.moves.clear();
        self.made = 0;
        self.wait = None;
    }

    /// One more move at its end. It takes no memory.
    pub fn push(&mut self, last: Move)
        requires { length self.old.moves < self.old.room }
        ensures { self.new ≡ record self.old { moves = self.old.moves ++ last ∷ [] } }
    {
        self.moves.push_reserved(last);
    }

    /// The next operation; none after the last move.
    pub fn next(&self) -> Option<Op>
        requires request { suc self.now.request < 2 ^ 32 }
        ensures { result ≡ op_of self.now }
    {
        match &self.wait {
            Some(waiter) => waiter.next(),
            None => match self.moves.get(self.made as usize) {
                Some(Move::Store { word, value }) => Some(Op::Store {
                    word: *word,
                    value: *value,
                }),
                Some(Move::Sync) => Waiter::sync(self.request + 1, self.map).next(),
                Some(Move::Quiet) => Waiter::quiet(self.request + 1, self.map).next(),
                None => None,
            },
        }
    }

    /// Takes the value that its next operation gave.
    pub fn got(&mut self, value: u64)
        requires room { suc self.old.made < 2 ^ 32 }
        requires request { suc self.old.request < 2 ^ 32 }
        ensures { self.new ≡ stepped self.old value }
    {
        match &mut self.wait {
            Some(waiter) => {
                waiter.got(value);
                if waiter.next().is_none() {
                    self.wait = None;
                    self.made += 1;
                }
            }
            None => match self.moves.get(self.made as usize) {
                Some(Move::Store { .. }) => self.made += 1,
                Some(Move::Sync) => self.ask(Waiter::sync(self.request + 1, self.map), value),
                Some(Move::Quiet) => self.ask(Waiter::quiet(self.request + 1, self.map), value),
                None => {}
            },
        }
    }

    /// The request of a wait is stored.
    fn ask(&mut self, mut waiter: Waiter, value: u64)
        requires room { suc self.old.made < 2 ^ 32 }
        requires request { suc self.old.request < 2 ^ 32 }
        requires shape { waiter.shape ≡ self.old.shape }
        requires none { self.old.wait ≡ None }
        ensures { self.new ≡ waited (record self.old { request = suc self.old.request }) (wait_got waiter value) }
    {
        self.request += 1;
        waiter.got(value);
        if waiter.next().is_none() {
            self.made += 1;
        } else {
            self.wait = Some(waiter);
        }
    }
}
