//! A command of control as a list of moves: the stores and waits between its Begin and its Return, all of
//! which are known at the Begin.
//!
//! `specs/Program` has the list of each kind of command, `specs/Left` what is left of it wherever the word
//! machine's control stands, and [`Underway`] carries a list out.
//!
//! Promised: carrying out the list of a command is what the word machine's control does in it, at each of
//! its positions. Only [`Underway::new`] takes memory; that it is found is only tested.
#![tactic(auto)]

mod found;
mod underway;

pub use found::{moves_left_go_on, moves_make_a_command};
pub use underway::{Move, Underway};
