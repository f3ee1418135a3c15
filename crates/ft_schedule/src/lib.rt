//! The schedule of a script: whose turn it is, step by step. Its text is one *item* after the
//! other; an item names control, a CPU or all, and says how often. An item becomes a *turn*, and a
//! *player* gives the *actors* of the turns, one a step.
//!
//! Here is also the *generated script*: a whole script that is drawn from a number, as a load for
//! tests and measurements ([`bulk_script`]). It has no schedule of its own. And there are *hostile
//! schedules*, which hold an actor at some moment while another goes on ([`held`]).
//!
//! Proved: which texts are refused and why, the turns of a text, and the actors that a player gives;
//! the items are those of a grammar with one rule for each way to write one
//! ([`grammar_gives_the_item`]); and the text of the generated script is the one that its rule says,
//! line by line, for each number, and within the limit of scripts. Only tested, in
//! `scripts_tests`: that the items of a long text are read, and a script is generated, when there
//! is memory; and some lines of generated scripts, as a test of the constants. That a generated
//! script is accepted isn't proved: nothing here reads scripts.
#![tactic(auto)]

mod bulk;
mod causes;
mod faults;
mod hostile;
mod item;
mod laws;
mod player;
mod schedule;

pub use bulk::bulk_script;
pub use causes::{has_unknown, is_past_limit, steps_with};
pub use faults::SchedFault;
pub use ft_base::{Actor, Turn, Who};
pub use hostile::{LAST_ROUNDS, held};
pub use item::{SchedItem, read_items};
pub use laws::grammar_gives_the_item;
pub use player::Player;
pub use schedule::{Schedule, push_turns, read_sched};
