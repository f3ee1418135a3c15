//! Sets of numbers below a size, and the edit of such a set. A set is the functions that a filter
//! selects, by number; contracts see it as *marks*, a list that says of each number below the size
//! whether it is a *member*. It is kept in words of 64 bits, and sets are joined, subtracted, emptied,
//! filled and counted a word at a time.
//!
//! Promised: each call is its operation on the marks, as an equation; a walk from member to member
//! goes by `SiteSet::next_member`, or by `SiteSet::next_of_two` over two sets, whose answers are the
//! lowest member from a number on, or none exactly if there is none. `SiteSet::empty` and
//! `SiteSet::copy` alone take memory; that it is found is only tested, by rows that the program is run on.
#![tactic(auto)]

mod edits;
mod members;
mod sets;
mod words;

pub use edits::Edit;
pub use sets::SiteSet;
