//! The step trace of a replay.

use crate::input::{read_input, refuse};
use crate::names::WordNames;
use crate::numbers::{put_decimal, put_hexadecimal};
use ft_base::limits::INPUT_BYTES;
use ft_base::{Actor, NoMemory};
use ft_io::{Pieces, Sink, Source, Status};
use ft_job::Job;
use ft_machine::{Machine, replay};
use ft_schedule::Player;
use ft_script::read_script;
use script_text::first_line;
use std::alloc::Global;
use trace_print::{Form, print};
use word_map::{Op, WordMap};

// After how many turns it is asked again whether every actor is at its end, as a replay does.
const TURNS_TO_ASK: u64 = 64;

/// The log of a job's replay, as text.
fn log_of(alloc: Global, job: &Job) -> Result<Vec<u8>, NoMemory> {
    let outcome = replay(alloc, job)?;
    print(alloc, job, &outcome.history, outcome.ended, Form::Log)
}

/// Reads a script, and writes the step trace of its replay, or the line of its refusal. All memory is had
/// before the first byte is written.
pub(crate) fn trace_script<S: Source, K: Sink>(
    alloc: Global,
    source: &mut S,
    sink: K,
) -> (Status, K) {
    let script = match read_input(alloc, source, INPUT_BYTES) {
        Ok(script) => script,
        Err(status) => return (status, sink),
    };
    match read_script(alloc, &script) {
        Ok(job) => write_trace(alloc, &job, sink),
        Err(fault) => refuse(alloc, fault, sink),
    }
}

/// Writes the step trace of a job's replay.
fn write_trace<K: Sink>(alloc: Global, job: &Job, mut sink: K) -> (Status, K) {
    let Ok(mut pieces) = Pieces::new(alloc) else {
        return (Status::NoMemory, sink);
    };
    if put_trace(&mut pieces, &mut sink, alloc, job).is_err() {
        return (Status::NoMemory, sink);
    }
    match pieces.finish(&mut sink) {
        Ok(()) => (Status::Done, sink),
        Err(_) => (Status::WriteFault, sink),
    }
}

/// Puts the step trace of a job's replay. The error says that memory ran out; nothing is put then.
fn put_trace<K: Sink>(
    pieces: &mut Pieces,
    sink: &mut K,
    alloc: Global,
    job: &Job,
) -> Result<(), NoMemory> {
    let log = log_of(alloc, job)?;
    let map = WordMap::new(job.shape());
    let names = WordNames::new(alloc, job, map)?;
    let mut machine = Machine::start(alloc, job)?;
    put_steps(pieces, sink, job, &names, &mut machine, &log);
    Ok(())
}

/// Puts a line for each step of the schedule that makes an operation, up to a moment when every actor is
/// at its end, and then the last line of the log. A turn of an actor that is at its end has no line.
fn put_steps<K: Sink>(
    pieces: &mut Pieces,
    sink: &mut K,
    job: &Job,
    names: &WordNames<'_>,
    machine: &mut Machine,
    log: &[u8],
) {
    let mut player = Player::new(job.schedule(), machine.map().shape().cpus);
    let mut log = log;
    let mut turn: u64 = 0;
    while let Some(actor) = player.next_actor() {
        if pieces.has_failed() {
            return;
        }
        if let Some(op) = machine.next(actor) {
            put_decimal(pieces, sink, turn);
            log = put_step(pieces, sink, names, machine, actor, op, log);
        }
        turn = turn.wrapping_add(1);
        if turn % TURNS_TO_ASK == 0 && machine.all_end() {
            break;
        }
    }
    pieces.put(sink, log);
}

/// Lets an actor make its next operation, which is this one, and puts what its line says after the turn.
/// Gives the lines of the log that are still to come.
fn put_step<'a, K: Sink>(
    pieces: &mut Pieces,
    sink: &mut K,
    names: &WordNames<'_>,
    machine: &mut Machine,
    actor: Actor,
    op: Op,
    log: &'a [u8],
) -> &'a [u8] {
    let (verb, place, marks) = match op {
        Op::Load { word } => (" load ", word, false),
        Op::Store { word, .. } => (" store ", word, false),
        Op::Mark { .. } => (" mark ", machine.map().clock(), true),
    };
    let before = value_at(machine, place);
    machine.step(actor);
    let after = value_at(machine, place);
    put_actor(pieces, sink, actor);
    pieces.put(sink, verb.as_bytes());
    if let Some(word) = names.word(place) {
        names.put(pieces, sink, word);
        put_value(pieces, sink, word.hexadecimal, before);
        put_value(pieces, sink, word.hexadecimal, after);
    }
    let rest = if marks {
        put_item(pieces, sink, log)
    } else {
        log
    };
    pieces.put(sink, b"\n");
    rest
}

/// Puts a space and an actor: `k` for control, and a CPU's number.
fn put_actor<K: Sink>(pieces: &mut Pieces, sink: &mut K, actor: Actor) {
    match actor {
        Actor::Control => pieces.put(sink, b" k"),
        Actor::Cpu(cpu) => {
            pieces.put(sink, b" ");
            put_decimal(pieces, sink, u64::from(cpu.0));
        }
    }
}

/// Puts a space and a value.
fn put_value<K: Sink>(pieces: &mut Pieces, sink: &mut K, hexadecimal: bool, value: u64) {
    if hexadecimal {
        pieces.put(sink, b" 0x");
        put_hexadecimal(pieces, sink, value);
    } else {
        pieces.put(sink, b" ");
        put_decimal(pieces, sink, value);
    }
}

/// What the word at a place holds.
fn value_at(machine: &Machine, place: u32) -> u64 {
    machine.words().get(place as usize).copied().unwrap_or(0)
}

/// Puts the first line of a log without its place. Gives the lines after it.
fn put_item<'a, K: Sink>(pieces: &mut Pieces, sink: &mut K, log: &'a [u8]) -> &'a [u8] {
    if log.is_empty() {
        return log;
    }
    let (line, _, below) = first_line(log);
    if let Some(blank) = line.iter().position(|byte| *byte == b' ') {
        pieces.put(sink, &line[blank..]);
    }
    below
}
