//! Histories: one list of items, whose places are the trace clock.
//!
//! An item's *past* is the items before it, the latest first; most definitions take it. A user is
//! *visited* in a call if it is called back or refused there. The *window* of a call goes from the
//! commands that had returned at its Enter to those that had begun at its Body. A task's *plain
//! run* is its acts on an ordinary stack of calls. A history is *legal* if each item may come after
//! its past, and *whole* if besides all commands have returned and each task has made its run.
//!
//! The specs have these definitions: `Past` (what a history tells at a place), `Plain` (plain
//! runs), `Rules` (which item may come), `Frames` (the users of a call's frame), `Known` (what is
//! known of an open call), `Counts` (how often a user was called back, or missed). `theorems` and
//! `behaviour` have what legality promises, in its reader's words, and `plain_forms` says that two
//! passages of the rules are one with a plainer form (the specs' `ShadowStack` and `Finished`).
//! `History` is the list as the program keeps it. `merge` makes it of lists whose items are marked
//! with their places, each place once: every item stands at its place (the specs' `Placing`).
#![tactic(auto)]

pub mod behaviour;
mod history;
mod merging;
pub mod plain_forms;
pub mod theorems;

pub use history::History;
pub use merging::merge;
