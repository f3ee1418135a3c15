//! Where the program's bytes come from and go to, and what its threads pass at each step.
//!
//! A *source* gives bytes and a *sink* takes them. Each keeps a count of its *faults*, by which a
//! caller sees that a failure had a cause. A *gate* is passed by a running thread before each step.
//! Sources and sinks are over memory, for tests, or over a reader and a writer of the standard
//! library, as over standard input and output.
//!
//! Proved, for every source and sink: `read_all` gives exactly the bytes up to the source's end, or
//! says why not; `write_all` appends exactly the bytes, or a beginning of them, and so does `Pieces`,
//! which gathers them into large writes; no count of faults falls, and a failure comes only if it
//! rose. The ends in memory are known byte for byte.
//!
//! How a call over a source and a sink ended is a [`Status`], which all programs share.
//!
//! Only tested, in `vocabulary_tests`: that the adapters over a reader and a writer ask for many
//! bytes at a time, flush after each write, and try nothing a second time. What a standard stream
//! gives or shows is not said.
#![tactic(auto)]

mod calls;
mod faults;
mod gate;
mod memory_sink;
mod memory_source;
mod pieces;
mod sink;
mod source;
mod standard;
mod status;

pub use gate::{Gate, OpenGate};
pub use memory_sink::MemSink;
pub use memory_source::MemSource;
pub use pieces::Pieces;
pub use sink::{Sink, WriteFail, write_all};
pub use source::{Failed, ReadFail, Source, read_all};
pub use standard::{StdSink, StdSource};
pub use status::Status;
