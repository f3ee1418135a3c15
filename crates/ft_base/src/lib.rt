//! The vocabulary of the tracer. A *function* can be traced; a *user* of the tracer (a `struct
//! ftrace_ops` of the kernel) is called back at the calls that its two sets of functions match;
//! *control* carries out commands that register users and change their sets; a *task* makes calls
//! on its *CPU*. Here are the numbers that name them, contexts, the items of a history, answers of
//! commands, what a script may declare, and the limits.
//!
//! The specs have the job as plain data, the desk (the state of all users) after a number of
//! commands, the answer of each command, who is on, and what each call site should be. They are
//! the rules that everything above is proved against.
#![tactic(auto)]

mod address;
mod context;
mod item;
pub mod limits;
mod memory;
mod name;
mod number;
mod task;
mod turn;
mod user;

pub use address::{FIRST_FUNCTION, FUNCTION_STEP, function_address};
pub use context::{Ctx, raise};
pub use item::{Answer, Item, ItemKind, Ran, Reason, Stamped};
pub use memory::NoMemory;
pub use name::{begins_name, goes_in_name, is_name};
pub use number::{CallNo, CpuNo, FuncNo, TaskNo, UserNo};
pub use task::TaskAct;
pub use turn::{Actor, Turn, Who};
pub use user::{Act, Half, Kind};
