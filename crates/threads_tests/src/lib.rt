//! Tests of what threads share, by public calls: the rings of `ring_rules`, `ring_table` and
//! `trace_rings`, and the lock of `desk_lock`. They stand in a crate above these, since they take memory
//! and threads.
#![tactic(auto)]

#[cfg(test)]
mod tests;
