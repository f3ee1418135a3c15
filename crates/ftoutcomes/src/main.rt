//! The program `ftoutcomes`: a script comes in on standard input, is replayed very many times by schedules
//! of the program's own, and each outcome that was found goes out on standard output, with how often it
//! came and a short schedule that shows it (docs/OUTCOMES.md). The script's own schedule isn't used.
//!
//! The words are `random SEED TRIES` or `search SWITCHES TRIES`. The same words and script give the same
//! output. Each outcome has two lines, `TIMES OUTCOME` and the `sched` line that shows it. The last line
//! counts the outcomes and the replays, and says of a search whether it came to its end.
//!
//! Proved: it is safe, and it ends. Only tested: that each schedule shows its outcome, and that the search
//! finds what a plain one finds.
#![tactic(auto)]

mod chance;
mod found;
mod known;
mod names;
mod order;
mod outcome;
mod patience;
mod print;
mod race;
mod random;
mod search;
mod shorter;
mod sums;
mod turns;
mod walk;

use crate::found::Found;
use crate::order::{Order, read_order};
use crate::print::print_found;
use crate::race::Race;
use crate::random::try_random;
use crate::search::try_all;
use crate::shorter::shorten;
use ft_base::limits::INPUT_BYTES;
use ft_io::{Pieces, ReadFail, Sink, Source, Status, StdSink, StdSource, read_all, write_all};
use ft_job::Job;
use ft_script::{Cause, ScriptFault, read_script};
use std::alloc::{AllocError, Global};
use std::env;
use std::io::ErrorKind;
use std::process::ExitCode;
use std::rt::Env;

/// Writes the line that says where a script is refused, and why. Running out of memory while it was read
/// is no refusal.
fn refuse<K: Sink>(alloc: Global, fault: ScriptFault, sink: &mut K) -> Status {
    if fault.cause == Cause::NoMemory {
        return Status::NoMemory;
    }
    let Ok(line) = format!(in alloc; "{fault}\n") else {
        return Status::NoMemory;
    };
    match write_all(sink, line.as_bytes()) {
        Ok(()) => Status::Refused,
        Err(_) => Status::WriteFault,
    }
}

/// Notes what the order finds.
fn find_into(race: &Race<'_>, order: Order, found: &mut Found) -> Result<(), AllocError> {
    match order {
        Order::Random { seed, tries } => try_random(race, seed, tries, found)?,
        Order::Search { switches, tries } => try_all(race, switches, tries, found)?,
    }
    shorten(race, found)
}

/// What the order finds.
fn find(race: &Race<'_>, order: Order) -> Result<Found, AllocError> {
    let mut found = Found::new(race.alloc);
    find_into(race, order, &mut found)?;
    Ok(found)
}

/// Writes what was found.
fn write_found<K: Sink>(
    alloc: Global,
    found: &Found,
    cpus: u32,
    order: Order,
    sink: &mut K,
) -> Status {
    let Ok(mut pieces) = Pieces::new(alloc) else {
        return Status::NoMemory;
    };
    print_found(&mut pieces, sink, cpus, found, order);
    match pieces.finish(sink) {
        Ok(()) => Status::Done,
        Err(_) => Status::WriteFault,
    }
}

/// Writes what the order finds of a job. All memory is had before the first byte is written.
fn find_outcomes<K: Sink>(alloc: Global, order: Order, job: &Job, sink: &mut K) -> Status {
    let Ok(race) = Race::new(alloc, job) else {
        return Status::NoMemory;
    };
    match find(&race, order) {
        Ok(found) => write_found(alloc, &found, race.cpus, order, sink),
        Err(AllocError) => Status::NoMemory,
    }
}

/// Reads a script from the source, and writes the outcomes that the order finds, or the line of its
/// refusal, to the sink.
fn answer<S: Source, K: Sink>(alloc: Global, order: Order, source: &mut S, sink: &mut K) -> Status {
    let script = match read_all(alloc, source, INPUT_BYTES) {
        Ok(script) => script,
        Err(ReadFail::Fault) => return Status::ReadFault,
        Err(ReadFail::TooLong) => return Status::TooLong,
        Err(ReadFail::NoMemory) => return Status::NoMemory,
    };
    match read_script(alloc, &script) {
        Ok(job) => find_outcomes(alloc, order, &job, sink),
        Err(fault) => refuse(alloc, fault, sink),
    }
}

/// What the words of the command order, or the status with which it ends without reading anything.
fn ordered<R: Env + AllocGlobal>(rt: &R) -> Result<Order, Status> {
    let args = match env::args(rt) {
        Ok(args) => args,
        Err(error) if error.kind() == ErrorKind::OutOfMemory => return Err(Status::NoMemory),
        // An argument that isn't UTF-8 is no word of the language.
        Err(_) => return Err(Status::Language),
    };
    let Ok(words) = args.skip(1).collect::<Vec<String>>(rt.alloc()) else {
        return Err(Status::NoMemory);
    };
    read_order(words.as_slice()).ok_or(Status::Language)
}

/// The whole of the program but its streams.
fn run_program<R: Env + AllocGlobal, S: Source, K: Sink>(
    rt: &R,
    source: &mut S,
    sink: &mut K,
) -> Status {
    match ordered(rt) {
        Ok(order) => answer(rt.alloc(), order, source, sink),
        Err(status) => status,
    }
}

fn main(rt: HostRuntime) -> ExitCode {
    let mut source = StdSource::new(rt.stdin());
    let mut sink = StdSink::new(rt.stdout());
    let status = run_program(&rt, &mut source, &mut sink);
    ExitCode::from(status.code())
}
