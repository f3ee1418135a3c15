//! The text of a script. A *line* ends with a line feed. A line without words, or whose first word
//! begins with `#`, is *skipped*: it may hold any bytes, and nobody reads its words. Every other
//! line has to be *plain*: each byte is a *blank*, which is a space or a tab, or one from 0x21 to
//! 0x7E. A plain line becomes a `&str`, once and here. Its *words* come between its blanks; some
//! are *names*, some are *numbers*.
//!
//! Proved: the first line of a text and what comes after it, which lines are skipped, which are
//! plain, the words of a text, and what a word says as a name or a number. Only tested, by rows
//! that the program is run on: that the words of a long line are found when there is memory. What the words
//! mean is left to the crates above.
#![tactic(auto)]

mod few;
mod lines;
mod names;
mod numbers;
mod word;

pub use few::few_words;
pub use lines::{first_line, is_skipped, plain_text};
pub use names::name;
pub use numbers::number;
pub use word::{all_read, words};
