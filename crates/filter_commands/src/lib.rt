//! Filter texts: what is written to a user's filter, read as an edit of a set of functions
//! (`ftrace.rst`, "dynamic ftrace" and "Filter commands").
//!
//! A text is an optional *mark* `!`, which takes functions out, and one of three *forms*: a line
//! number, a glob over names, or `GLOB:mod:MODULE`, a glob over names and one over modules. The form
//! *selects* functions of the table. The empty text clears the set.
//!
//! And *triggers*, which switch tracing on or off when functions are called: a text `GLOB:traceon`
//! or `GLOB:traceoff`, with an optional `:N` for how often the trigger may fire.
//!
//! Promised: `read_edit` gives the edit that the definition gives the text, or the first cause to
//! refuse it, exactly, and so does `read_trigger` for a trigger; the forms are those of grammars.
//! Only tested, by rows that the program is run on: that memory is found.
#![tactic(auto)]

mod edits;
mod faults;
mod forms;
mod laws;
mod lines;
mod numbers;
mod selector;
mod trigger_text;
mod triggers;

pub use edits::read_edit;
pub use faults::{EditFault, TriggerFault};
pub use laws::{grammar_gives_the_form, grammar_gives_the_trigger};
pub use triggers::{Trigger, read_trigger};
