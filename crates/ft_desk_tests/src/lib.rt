//! Tests of `ft_desk` by its public calls, in a crate above it so that the desk isn't proved a second
//! time with them. The answers and the stored values that they expect were worked out by hand.
#![tactic(auto)]

#[cfg(test)]
mod tests;
