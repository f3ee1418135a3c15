//! Tests of `ft_machine` by its public calls, in a crate above it so that the machine isn't proved a
//! second time with them. The histories that they expect were worked out by hand.
#![tactic(auto)]

#[cfg(test)]
mod tests;
