//! A program that runs a script by threads as `ftcore run --print rings` does, and besides prints at
//! which places each trigger fired. It prints the log, a line `rings`, the text of the rings, and then
//! for each trigger a line `# trigger I at P P ..`. By these `tools/ft check rings` judges whether the
//! rings are legal for the history.
//!
//! Proved: the history is a whole one of the script's job, and the rings are legal for it, as
//! [`live_threads::run_rings`] promises; the script, the history and the rings are what the calls ask
//! for. Only tested, by its stored output: what it prints.
#![tactic(auto)]

ghost use Rattle.std.specs.Prelude.{◌<◌, length};
ghost use Rattle.ft_hist.specs.Rules.{IsWhole};
ghost use Rattle.ring_rules.specs.Legal.{RingsLegal};
ghost use Rattle.ring_rules.specs.Plan.{plan_of};

use ft_base::NoMemory;
use ft_base::limits::INPUT_BYTES;
use ft_io::{OpenGate, Pieces, Sink, Source, StdSink, StdSource, read_all};
use ft_job::Job;
use ft_script::read_script;
use itoa::Buffer;
use live_threads::{RingRun, run_rings};
use ring_rules::Rings;
use std::alloc::Global;
use std::process::ExitCode;
use std::sync::Wait;
use std::thread::Threads;
use trace_print::{print_rings, write_log};

/// Not all was printed: the script couldn't be read or is refused, memory ran out, or the output failed.
#[derive(Drop)]
struct Stopped;

/// The text of the rings of a run.
fn rings_text(alloc: Global, job: &Job, run: &RingRun) -> Result<Vec<u8>, NoMemory>
    requires whole { IsWhole job.now run.now.history.items }
    requires legal { RingsLegal (plan_of job.now) run.now.history.items run.now.rings }
{
    print_rings(alloc, job, &run.history, true, &run.rings)
}

/// Puts a number, in decimal.
fn put_number<K: Sink>(pieces: &mut Pieces, sink: &mut K, n: u32) {
    let mut buffer = Buffer::new();
    pieces.put(sink, buffer.format(n).as_bytes());
}

/// Puts the places at which a trigger fired, in one line.
fn put_fired<K: Sink>(pieces: &mut Pieces, sink: &mut K, rings: &Rings, trigger: u32)
    requires { trigger < length rings.now.fired }
{
    pieces.put(sink, b"# trigger ");
    put_number(pieces, sink, trigger);
    pieces.put(sink, b" at");
    for i in 0..rings.fired(trigger) {
        pieces.put(sink, b" ");
        put_number(pieces, sink, rings.fired_at(trigger, i));
    }
    pieces.put(sink, b"\n");
}

/// Writes the text of rings, and the places at which each trigger fired.
fn write_rings<K: Sink>(
    alloc: Global,
    text: &[u8],
    rings: &Rings,
    sink: &mut K,
) -> Result<(), Stopped> {
    let Ok(mut pieces) = Pieces::new(alloc) else {
        return Err(Stopped);
    };
    pieces.put(sink, b"rings\n");
    pieces.put(sink, text);
    for trigger in 0..rings.triggers() {
        put_fired(&mut pieces, sink, rings, trigger);
    }
    match pieces.finish(sink) {
        Ok(()) => Ok(()),
        Err(_) => Err(Stopped),
    }
}

/// Writes the log of a run of this job, its rings, and the places at which each trigger fired.
fn write_run<K: Sink>(alloc: Global, job: &Job, run: &RingRun, sink: &mut K) -> Result<(), Stopped>
    requires whole { IsWhole job.now run.now.history.items }
    requires legal { RingsLegal (plan_of job.now) run.now.history.items run.now.rings }
{
    let Ok(text) = rings_text(alloc, job, run) else {
        return Err(Stopped);
    };
    match write_log(alloc, job, &run.history, true, sink) {
        Ok(()) => write_rings(alloc, text.as_slice(), &run.rings, sink),
        Err(_) => Err(Stopped),
    }
}

/// Runs a job by threads, and writes all to the sink.
fn run_job<R: AllocGlobal + Threads + Wait + Sync, K: Sink>(
    rt: &R,
    job: &Job,
    sink: &mut K,
) -> Result<(), Stopped> {
    let Ok(run) = run_rings(rt, rt.alloc(), job, &OpenGate) else {
        return Err(Stopped);
    };
    write_run(rt.alloc(), job, &run, sink)
}

/// The job of the script that the source gives.
fn read_job<S: Source>(alloc: Global, source: &mut S) -> Result<Job, Stopped> {
    let Ok(script) = read_all(alloc, source, INPUT_BYTES) else {
        return Err(Stopped);
    };
    match read_script(alloc, script.as_slice()) {
        Ok(job) => Ok(job),
        Err(_) => Err(Stopped),
    }
}

/// Runs the script that the source gives, and writes all to the sink.
fn run_script<R: AllocGlobal + Threads + Wait + Sync, S: Source, K: Sink>(
    rt: &R,
    source: &mut S,
    sink: &mut K,
) -> Result<(), Stopped> {
    match read_job(rt.alloc(), source) {
        Ok(job) => run_job(rt, &job, sink),
        Err(Stopped) => Err(Stopped),
    }
}

fn main(rt: HostRuntime) -> ExitCode {
    let mut source = StdSource::new(rt.stdin());
    let mut sink = StdSink::new(rt.stdout());
    match run_script(&rt, &mut source, &mut sink) {
        Ok(()) => ExitCode::SUCCESS,
        Err(_) => ExitCode::FAILURE,
    }
}
