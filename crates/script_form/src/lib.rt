//! The *form* of a line of a script: what the line says, by its words alone. Its first word, the
//! *key*, chooses the form; what comes after it are its *arguments*. Names and numbers are as they
//! are written. Whether the line is in the right place, a number is within its limits or a name is
//! known, is left to the crates above.
//!
//! Proved: [`read_line`] gives exactly the form of each line, whose names are names; a line that is
//! skipped takes no memory; and the forms are those of a grammar with one rule for each way to write
//! a line ([`grammar_gives_the_form`]). Only tested, by rows that the program is
//! run on: that a line of many words is read when there is memory.
#![tactic(auto)]

mod acts;
mod arguments;
mod control;
mod declarations;
mod form;
mod keyed;
mod laws;
mod line;
mod options;
mod users;

pub use form::{LineForm, UserAct, UserLine};
pub use ft_base::{Ctx, Half, Kind};
pub use ft_schedule::SchedItem;
pub use laws::grammar_gives_the_form;
pub use line::read_line;
