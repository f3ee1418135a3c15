//! Tests of `live_table`, `live_threads` and `live_lanes` by their public calls, from a script to the
//! gathered history, in a crate above them since they take memory and threads.
#![tactic(auto)]

#[cfg(test)]
mod tests;
