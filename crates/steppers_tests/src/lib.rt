//! Tests of the words that are shared and of call sites, of the steppers that read and write them, and
//! of what a task keeps of its calls: a module for each crate. They have a crate of their own, since a crate is proved once more with the
//! tests inside it.
#![tactic(auto)]

#[cfg(test)]
mod tests;
