//! Why a function was not added.

use thiserror::Error;

/// Why a function was not added. The table is as before.
#[derive(Clone, Copy, Debug, PartialEq, Eq, Drop, Error)]
pub enum TableFault {
    /// A function of the table has the name.
    #[error("a function of this name is there already")]
    Duplicate,
    /// The table has as many functions as its limit allows.
    #[error("the table is full")]
    Full,
    /// Memory ran out.
    #[error("out of memory")]
    NoMemory,
}
