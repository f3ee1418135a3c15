//! A user's two sets of functions, how an edit changes them, and which functions they match.
//!
//! A user has a *filter* and a *notrace* set (`ftrace.rst`, `set_ftrace_filter` and
//! `set_ftrace_notrace`); each is a *half* of its `HashPair`. An empty filter means all functions. A
//! function is *matched* if the filter is empty or holds it, and the notrace set doesn't hold it.
//!
//! Promised: an edit makes of one half what the definition of the desk says, and leaves the other;
//! a function is matched exactly if that definition says so. `laws` says what the definition of an
//! edit makes of each function. Only tested, by rows that the program is run on: that memory is found.
//!
//! Its one caller is `ft_desk`, which has none itself.
#![tactic(auto)]

pub mod laws;
mod pair;

pub use ft_base::Half;
pub use pair::HashPair;
