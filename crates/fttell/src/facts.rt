//! The facts of a script, as JSON.

ghost use Rattle.std.specs.Prelude.{◌+◌, ◌≤◌, ◌<◌, ◌^◌, length};
ghost use Rattle.ft_base.specs.declared.limits.TheConstants.{INPUT_BYTES};

use crate::input::{read_input, refuse};
use ft_base::NoMemory;
use ft_base::limits::INPUT_BYTES;
use ft_io::{Pieces, Sink, Source, Status};
use ft_job::Job;
use ft_script::read_script;
use judge_app::{JUDGED_BYTES, Parts, cut_input, led_by};
use std::alloc::Global;
use told_facts::Facts;

/// Reads a script, or a script and a log, and writes the script's facts, or the line of its refusal. Of the
/// log is read in which order the commands of lanes went.
pub(crate) fn tell_facts<S: Source, K: Sink>(
    alloc: Global,
    source: &mut S,
    sink: K,
) -> (Status, K) {
    let input = match read_input(alloc, source, JUDGED_BYTES) {
        Ok(input) => input,
        Err(status) => return (status, sink),
    };
    match cut_input(&input) {
        Ok(parts) => tell_parts(alloc, &parts, sink),
        Err(_) => tell_script(alloc, &input, &[], sink),
    }
}

/// Writes the facts of a script with a log.
fn tell_parts<K: Sink>(alloc: Global, parts: &Parts<'_>, sink: K) -> (Status, K)
    requires fits { parts.now.first + length parts.now.log.now + 2 < 2 ^ 32 }
{
    tell_script(alloc, parts.script, parts.log, sink)
}

/// Writes the facts of a script whose commands a log may have led.
fn tell_script<K: Sink>(alloc: Global, script: &[u8], log: &[u8], sink: K) -> (Status, K)
    requires { length log.now < 2 ^ 32 }
{
    if script.len() > INPUT_BYTES as usize {
        return (Status::TooLong, sink);
    }
    let job = match read_script(alloc, script) {
        Ok(job) => job,
        Err(fault) => return refuse(alloc, fault, sink),
    };
    match led_by(alloc, job, log) {
        Ok(led) => tell_job(alloc, script, &led, sink),
        Err(NoMemory) => (Status::NoMemory, sink),
    }
}

/// Writes the facts of a script and of its job. All memory is had before the first byte is written.
fn tell_job<K: Sink>(alloc: Global, script: &[u8], job: &Job, mut sink: K) -> (Status, K)
    requires { length script.now ≤ INPUT_BYTES }
{
    let Ok(mut facts) = Facts::new(alloc, script, job) else {
        return (Status::NoMemory, sink);
    };
    let Ok(mut pieces) = Pieces::new(alloc) else {
        return (Status::NoMemory, sink);
    };
    facts.put_declared(&mut pieces, &mut sink);
    facts.put_controls(&mut pieces, &mut sink);
    match pieces.finish(&mut sink) {
        Ok(()) => (Status::Done, sink),
        Err(_) => (Status::WriteFault, sink),
    }
}
