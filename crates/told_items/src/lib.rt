//! The items of a history as JSON, one object a line, with the names that a log leaves to its script: a
//! call's context and function, a user's kind, a task's CPU. What an exit that doesn't come was owed for
//! stands in the line of the `ret`, and of calls that are open in the last line. docs/TOOLS.md ("The log
//! as JSON") lists the fields.
//!
//! Promised: [`Told::tell`] puts exactly the line of the item that comes after those that were told, and
//! [`Told::tell_end`] the last line, as the specs define them, of any items: they need not be legal. What
//! is kept between lines is what is open, so the memory that is taken doesn't grow with the history. A name
//! has no byte that JSON escapes ([`laws`]).
#![tactic(auto)]

mod fields;
pub mod laws;
mod told;

pub use told::Told;
