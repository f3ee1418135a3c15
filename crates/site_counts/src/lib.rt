//! How many users are sited at each function.
//!
//! A user is *sited* at the functions that it matches while it is registered, and their call sites are
//! patched for it. The *row* of a function counts these users, those of them that have the `regs` flag,
//! and those that replace functions, which have `ipmodify` (`ftrace.rst`, The File System:
//! `enabled_functions` shows the count, `R` and `I`). A user is added at all functions of a set at once,
//! or at one, and dropped likewise.
//!
//! Promised: a user that is added or dropped changes the row of each of its functions, by one in the
//! count and in the count of each flag that it has, and no other row. So each row is its own sum over
//! the users that have been added and not dropped, which is a law in `laws`. Only [`Counts::new`] takes
//! memory. Only tested, by rows that the program is run on: that memory is found.
//!
//! The calls go from member to member of a set, and pass over its empty words.
//!
//! Its one caller is `ft_desk`, which has none itself; it goes from function to function on its own, so
//! that it looks at each once, and adds and drops a user at one function at a time.
#![tactic(auto)]

mod counts;
pub mod laws;
mod members;
mod rows;

pub use counts::Counts;
pub use rows::Row;
