//! A hostile schedule: one actor is held up while another goes on.

ghost use Rattle.std.specs.Prelude.{◌≡◌, ◌++◌, ◌<◌, ◌≤◌, ◌+◌, vec_capacity, vec_len, IfOk};
ghost use Rattle.ft_schedule.specs.HoldTurns.{held_turns, turns_for};

use crate::schedule::Schedule;
use ft_base::{NoMemory, Turn, Who};
use std::alloc::Global;

/// How often all actors step at the end, so that jobs of a few commands and calls come to their end.
pub const LAST_ROUNDS: u32 = 2000;

/// A schedule that brings an actor to some moment and then holds it there: `first` steps `at` times,
/// then `hold` steps `count` times, then all actors step in turn, [`LAST_ROUNDS`] times. A turn of
/// count 0 is left out. The error says that memory ran out.
pub fn held(alloc: Global, first: Who, at: u32, hold: Who, count: u32) -> Result<Schedule, NoMemory>
    ensures { IfOk result (λ schedule. schedule.turns.items ≡ held_turns first at hold count) }
{
    let mut turns = Vec::with_capacity(alloc, 3).map_err(|_| NoMemory)?;
    add(&mut turns, first, at);
    add(&mut turns, hold, count);
    add(&mut turns, Who::All, LAST_ROUNDS);
    Ok(Schedule { turns })
}

/// Adds a turn, unless its count is 0.
fn add(turns: &mut Vec<Turn>, who: Who, count: u32)
    requires { vec_len turns.old < vec_capacity turns.old }
    ensures turns { turns.new.items ≡ turns.old.items ++ turns_for who count }
    ensures room { vec_capacity turns.new ≡ vec_capacity turns.old }
    ensures most { vec_len turns.new ≤ vec_len turns.old + 1 }
{
    if count > 0 {
        turns.push_reserved(Turn { who, count });
    }
}
