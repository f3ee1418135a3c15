//! The words that control and the CPUs share: what each holds, and its place in one array.
//!
//! `specs/Words` names the words, `Contents` and `Instructions` say what they hold, and `Ops` what an
//! actor can do to one: a *load*, a *store*, or a *mark*, which counts an item of the history on the
//! *clock*. A [`WordMap`] gives each word of a *shape* its place, and all words as they are at the
//! start. A word that holds more than one number is made and taken apart in a module of its own, and
//! nowhere else: [`Sel`], [`clock`], [`quiet`], [`next`], [`tramp`], [`name`], [`bits`].
//!
//! Promised: words of different names or numbers have different places, all below the map's length,
//! so a store at one place changes the word of that name and no other; a word that is made here gives
//! what it was made of when it is taken apart ([`laws`]). The list of [`WordMap::opening`] has at each
//! word's place what the word holds at the start. It alone takes memory; that it is found is only
//! tested, in `steppers_tests`.
#![tactic(auto)]

pub mod bits;
pub mod clock;
mod halves;
pub mod laws;
mod map;
pub mod name;
pub mod next;
mod op;
pub mod quiet;
mod sel;
mod shape;
pub mod tramp;

pub use map::{SET_WORDS, WordMap};
pub use op::Op;
pub use sel::Sel;
pub use shape::Shape;
