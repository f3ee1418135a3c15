//! Laws of legal histories: how long one can be, so that a machine can take the room for all items at
//! its start ([`bound`](each_history_is_bounded)), and what a task's items are, as a grammar without
//! phases ([`grammar`](every_run_is_plain)). They are definitions and laws; there is no code. They stand
//! apart from `ft_hist`, which every crate above it has to read.
#![tactic(auto)]

mod bound;
mod grammar;

pub use bound::{each_call_is_bounded, each_history_is_bounded, each_stack_is_bounded};
pub use grammar::{
    every_legal_history_keeps_the_grammar, every_plain_run_is_a_beginning_of_a_run,
    every_run_is_plain, stamps_never_fall,
};
