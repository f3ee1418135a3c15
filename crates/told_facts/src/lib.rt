//! The facts of a script as JSON, one object a line, for programs to read: what its lines say, what they
//! declare, and of each command its text, its answer and the call sites that it changes. So who goes by
//! them reads no script, and works out no desk. docs/TOOLS.md ("The facts of a script") lists the fields.
//!
//! Promised: [`Facts::put_controls`] puts exactly the lines of a job's commands and waits, as the specs
//! define them by the job's desk, and takes no memory. Only tested: that the text of each command is that
//! of its line in the script (the lines themselves are those of the specs), and what
//! [`Facts::put_declared`] puts.
#![tactic(auto)]

mod commands;
mod declared;
mod facts;
mod fields;
mod lines;

pub use facts::Facts;
