//! A module for each crate that is tested.

mod batches;
mod moves;
mod pages;
mod places;
mod sites;
mod stacks;
mod waits;
mod walks;
