//! The items of a script's replay, or of a script's log, as JSON.

ghost use Rattle.std.specs.Prelude.{◌≡◌, ◌+◌, ◌≤◌, ◌<◌, ◌^◌, ℕ, List, length};
ghost use Rattle.std.specs.Io.KnownBytes.{Appends, Consumes, IsAtEnd};
ghost use Rattle.ft_base.specs.declared.limits.TheConstants.{INPUT_BYTES};
ghost use Rattle.ft_base.specs.Job.{Job as PlainJob};
ghost use Rattle.ft_io.specs.declared.status.Status.TheVariants.{Done};
ghost use Rattle.fttell.specs.ToldText.{IsAnswered, IsToldOf, replay_text};
ghost use Rattle.judge_app.specs.Cut.{IsCut, IsUncut};
ghost use Rattle.judge_app.specs.Lanes.{led_by};
ghost use Rattle.ft_script.specs.Script.{IsJobOf};
ghost use Rattle.told_items.specs.ItemText.{told_text};
ghost use Rattle.trace_lines.specs.LogItems.{IsNamedApart};
ghost use Rattle.trace_views.specs.LogText.{log_text};

use crate::input::{read_input, refuse};
use crate::telling::Telling;
use ft_base::NoMemory;
use ft_base::limits::INPUT_BYTES;
use ft_io::{Sink, Source, Status};
use ft_job::Job;
use ft_machine::{Taker, replay_into};
use ft_script::{Cause, ScriptFault, read_script};
use judge_app::{JUDGED_BYTES, Parts, cut_input, led_by};
use log_reader::{Log, ReadFail};
use std::alloc::Global;
use trace_print::read_log;

/// Reads a script, or a script and a log, and writes its items, or the line of its refusal.
pub(crate) fn tell_items<S: Source, K: Sink>(alloc: Global, source: &mut S, sink: K) -> (Status, K)
    ensures { IsAnswered result.0 → (input : List ℕ) × (text : List ℕ) × Consumes (S.remaining source.old) (S.remaining source.new) input
        × IsAtEnd (S.remaining source.new) × IsToldOf input result.0 text × Appends (K.holds sink) (K.holds result.1) text }
{
    let input = match read_input(alloc, source, JUDGED_BYTES) {
        Ok(input) => input,
        Err(status) => return (status, sink),
    };
    match cut_input(&input) {
        Ok(parts) => tell_parts(alloc, &parts, sink),
        Err(_) => tell_replay(alloc, &input, sink),
    }
}

/// Writes the items of a script's replay.
fn tell_replay<K: Sink>(alloc: Global, script: &[u8], sink: K) -> (Status, K)
    ensures { (next : ℕ) → IsUncut script.now next → IsAnswered result.0
        → (text : List ℕ) × IsToldOf script.now result.0 text × Appends (K.holds sink) (K.holds result.1) text }
{
    if script.len() > INPUT_BYTES as usize {
        return (Status::TooLong, sink);
    }
    match read_script(alloc, script) {
        Ok(job) => replay_job(alloc, &job, sink),
        Err(fault) => refuse(alloc, fault, sink),
    }
}

/// Writes the items of a job's replay.
fn replay_job<K: Sink>(alloc: Global, job: &Job, sink: K) -> (Status, K)
    ensures { IsAnswered result.0 → (result.0 ≡ Done) × Appends (K.holds sink) (K.holds result.1) (replay_text job.now) }
{
    let mut telling = match Telling::new(alloc, job, sink) {
        Ok(telling) => telling,
        Err(sink) => return (Status::NoMemory, sink),
    };
    match replay_into(alloc, job, &mut telling) {
        Ok(ended) => telling.end(ended),
        Err(_) => telling.leave(),
    }
}

/// Writes the items of a log, if the script above it isn't too long.
fn tell_parts<K: Sink>(alloc: Global, parts: &Parts<'_>, sink: K) -> (Status, K)
    requires fits { parts.now.first + length parts.now.log.now + 2 < 2 ^ 32 }
    ensures { (input : List ℕ) → IsCut input parts.now.script.now parts.now.log.now parts.now.first → IsAnswered result.0
        → (text : List ℕ) × IsToldOf input result.0 text × Appends (K.holds sink) (K.holds result.1) text }
{
    if parts.script.len() > INPUT_BYTES as usize {
        return (Status::TooLong, sink);
    }
    let job = match read_script(alloc, parts.script) {
        Ok(job) => job,
        Err(fault) => return refuse(alloc, fault, sink),
    };
    match led_by(alloc, job, parts.log) {
        Ok(led) => tell_log(alloc, &led, parts, sink),
        Err(NoMemory) => (Status::NoMemory, sink),
    }
}

/// Writes the items of a log of a job whose commands go in the order that the log tells.
fn tell_log<K: Sink>(alloc: Global, job: &Job, parts: &Parts<'_>, sink: K) -> (Status, K)
    requires named { IsNamedApart job.now }
    requires fits { parts.now.first + length parts.now.log.now + 2 < 2 ^ 32 }
    ensures { (input : List ℕ) (own : PlainJob) → IsCut input parts.now.script.now parts.now.log.now parts.now.first → IsJobOf parts.now.script.now own
        → job.now ≡ led_by parts.now.log.now own → IsAnswered result.0
        → (text : List ℕ) × IsToldOf input result.0 text × Appends (K.holds sink) (K.holds result.1) text }
{
    match read_log(alloc, job, parts.log) {
        Ok(log) => tell_read(alloc, job, &log, sink),
        Err(ReadFail::Line(n)) => {
            let fault = ScriptFault {
                line: parts.first + n - 1,
                cause: Cause::Syntax,
            };
            refuse(alloc, fault, sink)
        }
        Err(ReadFail::NoMemory) => (Status::NoMemory, sink),
    }
}

/// Writes the items that were read of a log. They are fewer than its bytes, so 32 bits count them.
fn tell_read<K: Sink>(alloc: Global, job: &Job, log: &Log, sink: K) -> (Status, K)
    ensures { IsAnswered result.0
        → (result.0 ≡ Done) × Appends (K.holds sink) (K.holds result.1) (told_text job.now log.now.items.items log.now.ended) }
{
    if log.items.len() >= u32::MAX as usize {
        return (Status::TooLong, sink);
    }
    let mut telling = match Telling::new(alloc, job, sink) {
        Ok(telling) => telling,
        Err(sink) => return (Status::NoMemory, sink),
    };
    for item in log.items.as_slice() {
        if telling.make_room().is_err() {
            return telling.leave();
        }
        telling.put(item);
    }
    telling.end(log.ended)
}
