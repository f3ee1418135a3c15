//! The words of the command: `replay [--print FORM]`, `run [--print FORM]` and `bulk [--seed N]`.
//!
//! The words are those after the program's name. One is the mode, `replay`, `run` or `bulk`. Each
//! mode has one option, which may come once, before or after the mode; its value is the next word,
//! or follows `=` in the same word. With `replay` and with `run` it is `--print`, whose value is the
//! name of a form, `log`, `function`, `graph`, `profile`, `enabled`, `modules` or `rings`; the form is
//! `log` without it.
//! With `bulk` it is `--seed`, whose value is a number of 1 to 10 digits up to 4,294,967,295; the
//! seed is 1 without it. The word `--` may come once where a new word begins, and after it only the
//! mode may come. No other words are in the language: an option's name is never cut short, and there
//! is no option for help.
//!
//! Proved: words that are read give the order that the language gives them; they are refused only
//! if the language gives them none; and it gives no words two orders. Only tested, by rows that the
//! program is run on: that memory is found for the parser.
#![tactic(auto)]

mod command;
mod order;
mod reading;
mod seed;
mod spelling;

pub use order::{Form, Order, WordsFault};
pub use reading::{read_words, words_give_one_order};
