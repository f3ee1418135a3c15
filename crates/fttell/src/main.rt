//! The program `fttell`: a script comes in on standard input, and what came of it goes out on standard
//! output, for programs to read. The word says what is told:
//!
//! - `facts`: what the script says and declares, and its commands with their answers and the sites that
//!   they change, as JSON, one object a line (`told_facts`);
//! - `items`: the items of the replay, or those of the log that stands below a line `log`, as JSON, one
//!   object a line (`told_items`);
//! - `steps`: the step trace of the replay, one line a step: whose turn it was, whether the step loads,
//!   stores or marks, which word, what the word held before and after, and for a mark the item
//!   (docs/TOOLS.md, "Step traces"). The last line is that of the log.
//!
//! Proved: it is safe, and it ends. With `items`, what is written in full for an input is what the specs
//! define (`IsToldOf`): the items of the replay, or of the log, or why the input is refused. With `steps`,
//! the operation of each step is the one that `Machine::next` gives, the values are those of
//! `Machine::words`, the turns those of the script's schedule, and the items are cut from the text of the
//! replay's log; that a step's line says so is only tested.
#![tactic(auto)]

mod facts;
mod input;
mod items;
mod names;
mod numbers;
mod order;
mod telling;
mod trace;

use crate::facts::tell_facts;
use crate::items::tell_items;
use crate::order::{Order, read_order};
use crate::trace::trace_script;
use ft_io::{Sink, Source, Status, StdSink, StdSource};
use std::env;
use std::process::ExitCode;
use std::rt::Env;

/// The whole of the program but its streams. With words that aren't in the language nothing is read.
fn run_program<R: Env + AllocGlobal, S: Source, K: Sink>(
    rt: &R,
    source: &mut S,
    sink: K,
) -> (Status, K) {
    match read_order(rt) {
        Ok(Order::Facts) => tell_facts(rt.alloc(), source, sink),
        Ok(Order::Items) => tell_items(rt.alloc(), source, sink),
        Ok(Order::Steps) => trace_script(rt.alloc(), source, sink),
        Err(status) => (status, sink),
    }
}

fn main(rt: HostRuntime) -> ExitCode {
    let mut source = StdSource::new(rt.stdin());
    let sink = StdSink::new(rt.stdout());
    let (status, _sink) = run_program(&rt, &mut source, sink);
    ExitCode::from(status.code())
}
