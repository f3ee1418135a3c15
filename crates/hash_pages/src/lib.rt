//! The two copies of a user's sets in the shared words: how control writes one, and how a CPU reads
//! one.
//!
//! A user has a filter and a notrace set (`filter_hash`), and the words have room for two *copies* of
//! them. The user's *state*, one more word, names the copy that is in use. A *page* is the writing of
//! a pair of sets: a [`PageWriter`] stores the words of the copy that is not in use, and the state
//! last. A *read* asks whether a user is on at a function: a [`PageReader`] loads the state, and then
//! words of the copy that it named. Both are *steppers*: `next` says the next operation, whoever made
//! it says so by `did` or `got`, and nothing else moves them on.
//!
//! Promised: the operations are those of the definitions, one by one. No store of a page is into the
//! copy in use, and the state is stored after all words; so a read that loads the state before that
//! store goes by the old sets alone, and one that loads it later by the new sets alone ([`laws`]). The
//! laws speak of one page: that no CPU reads a copy any more when the next page is written into it, the
//! caller sees to. No call takes memory. Only tested: nothing.
#![tactic(auto)]

pub mod laws;
mod reader;
mod writer;

pub use reader::{PageReader, ReadPhase, Verdict};
pub use writer::PageWriter;
