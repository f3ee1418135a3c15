//! The table of traceable functions. A function has a *name* and a *number*: numbers count from 0 in
//! the order in which functions are added. A function may lie in a *module*, which has a name too.
//!
//! Promised: names differ, so names and numbers are one to one; `find` and `name` go from one to the
//! other; `add` says exactly when it refuses. Names are text of the form that `ft_base::is_name`
//! tests, which the caller has tested. That memory is found is only tested, by
//! rows that the program is run on.
#![tactic(auto)]

mod faults;
mod table;

pub use faults::TableFault;
pub use table::FuncTable;
