//! The top call: the command's *words* and a script's bytes come in, and a text and a *status* go
//! out.
//!
//! The words give an *order*. Its script is read to its end, or generated; its job is carried out, by
//! a replay of its schedule or by running threads, and what the order prints of the history is
//! written; or the line is written that says where the script is refused, and why. That text or line
//! is the *reply* to the script. The text of a history is written in pieces, so that it is never whole
//! in memory, and of the items of a replay no more is kept than the text needs. All memory is had before the first byte is written. The program makes that call with its
//! arguments as the words.
//!
//! Proved, for every source, sink and gate:
//!
//! - Each status says what was read and written, and comes only for its reason. If nothing outside goes
//!   wrong, a script is answered with status 0 and any other text with status 3, unless memory is out.
//! - With status 0 the text is what the order prints of a history of the script's job, that of its
//!   replay or one of running threads. That history is legal, no call of it reaches a module that isn't
//!   loaded, and it is whole if the text ends with `end`, as it does with threads.
//! - If the script has lanes, threads lead its commands in some order that is a merge of the lanes, and
//!   the history and the text are those of the job in that order.
//! - The rings of the form `rings` are legal for the history: those that running threads have kept, and
//!   for a replay and for a script with lanes those of the history gone through by place. So a trigger
//!   with a limit has fired as often as it was hit, but no more often than the limit.
//! - A log that was written tells its history, and the order of its lanes ([`laws`]).
//! - A history of running threads is one that the word machine makes by the turns of some schedule.
//!
//! With running threads this holds if the call returns: it may wait, and no proof says that it ends.
//! Only tested, in `ft_app_tests`: that it does in some runs, that the history and the rings are those
//! of the threads, in the order in which the lanes took their turns, that memory is found if there is
//! some, and that generated scripts are accepted.
#![tactic(auto)]

mod answer;
mod carried_out;
pub mod laws;
mod plain;
mod printed;
mod program;
mod reply;
mod run;
mod top;

pub use ft_io::Status;
pub use ft_words::{Form, Order, WordsFault, read_words};
pub use plain::ft_plain;
pub use program::run_program;
pub use top::ft_main;
