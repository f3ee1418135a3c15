//! Globs: patterns over the names of functions and modules, as filter texts write them
//! (`ftrace.rst`, "Filter commands"; the filters take glob(7) patterns).
//!
//! A *pattern* is a list of *items*, read from its text: `*` matches any bytes, also none; `?` one
//! byte; a *class* `[..]` one byte that is in one of its ranges, and `[!..]` one byte that is in
//! none; any other byte matches itself. The pattern matches a name if the name can be cut into
//! pieces that the items match in order. Case counts, and bytes are compared as bytes. In the code
//! an item is a `Token`.
//!
//! A name is matched byte by byte, by steps on words: a pattern has a bit for each *place*, which is
//! a number of items, stars aside, that are still to be matched, and a byte costs a step for each 64
//! places, whatever the items are. What the steps need to know of the pattern is worked out once, in
//! a table of 2 kB for each 64 places.
//!
//! Promised: `Pattern::read` gives the items that the grammar gives the text, or the first cause to
//! refuse it; `Pattern::matches` passes exactly if the name can be cut in this way, and takes no
//! memory. Only tested, by rows that the program is run on: that memory is found, and that no hostile
//! pattern takes long.
#![tactic(auto)]

mod bits;
mod faults;
mod laws;
mod parse;
mod pattern;
mod places;
mod token;

pub use faults::PatternFault;
pub use laws::{grammar_gives_the_items, test_is_the_relation};
pub use pattern::Pattern;
