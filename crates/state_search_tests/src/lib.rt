//! Tests of `state_search` by its public calls, over a small race. They have a crate of their own, since a crate is proved once more with
//! the tests inside it.
#![tactic(auto)]

#[cfg(test)]
mod numbers;
