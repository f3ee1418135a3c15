//! Tests of control by itself: what it stores, worked out by hand. They have a crate of their own, since a
//! crate is proved once more with the tests inside it. CPUs and whole machines are made and stepped by each
//! replay of a row, and by ft_machine_tests.
#![tactic(auto)]

#[cfg(test)]
mod tests;
