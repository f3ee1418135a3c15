//! What is written for an input: the verdict on its log, or where it is refused.

ghost use Rattle.std.specs.Prelude.{◌≡◌, ◌≢◌, ℕ, ◌+◌, ◌<◌, ◌≤◌, ◌^◌, List, length, IfOk, Ok, Err};
ghost use Rattle.ft_base.specs.declared.limits.TheConstants.{INPUT_BYTES};
ghost use Rattle.ft_base.specs.Job.{Job as PlainJob};
ghost use Rattle.ft_script.specs.Script.{IsJobOf, no_memory};
ghost use Rattle.trace_lines.specs.LogItems.{IsNamedApart};
ghost use Rattle.ft_io.specs.declared.status.Status.TheVariants.{Broken, Done, Refused};
ghost use Rattle.judge_app.specs.Cut.{IsCut};
ghost use Rattle.judge_app.specs.Lanes.{led_by};
ghost use Rattle.judge_app.specs.Reply.{IsLong, IsReplyTo, IsWithin, line_text, refusal_text, rule_word, status_of, syntax_at, verdict_text};

use crate::cut::{Parts, cut_input};
use crate::lanes::led_by;
use ft_base::NoMemory;
use ft_base::limits::INPUT_BYTES;
use ft_io::Status;
use ft_job::Job;
use ft_script::{Cause, ScriptFault, read_script};
use history_check::{Rule, Verdict, judge};
use log_reader::ReadFail;
use std::alloc::Global;
use trace_print::read_log;

/// What is written, and the status once it is written in full.
#[derive(Drop)]
pub struct Reply {
    pub status: Status,
    pub text: Vec<u8>,
}

/// Why there is no reply.
#[derive(Clone, Copy, Drop)]
pub enum ReplyFail {
    /// The script has more bytes than a script may have.
    TooLong,
    /// Out of memory.
    NoMemory,
}

/// The reply to an input.
pub fn answer(alloc: Global, input: &[u8]) -> Result<Reply, ReplyFail>
    requires { length input.now + 2 < 2 ^ 32 }
    ensures is { IfOk result (λ r. IsReplyTo input.now r.status r.text.items) }
    ensures fits { IfOk result (λ r. ¬ IsLong input.now) }
    ensures long { result ≡ Err ReplyFail.TooLong → IsLong input.now }
{
    match cut_input(input) {
        Ok(parts) => reply_below(alloc, &parts),
        Err(next) => or_memory(refused(alloc, syntax_at(next))),
    }
}

/// The reply to a script, if that isn't too long, and a log.
fn reply_below(alloc: Global, parts: &Parts<'_>) -> Result<Reply, ReplyFail>
    requires { parts.now.first + length parts.now.log.now + 2 < 2 ^ 32 }
    ensures is { (input : List ℕ) → IsCut input parts.now.script.now parts.now.log.now parts.now.first
        → IfOk result (λ r. IsReplyTo input r.status r.text.items) }
    ensures fits { IfOk result (λ r. length parts.now.script.now ≤ INPUT_BYTES) }
    ensures long { result ≡ Err ReplyFail.TooLong → INPUT_BYTES < length parts.now.script.now }
{
    if parts.script.len() > INPUT_BYTES as usize {
        return Err(ReplyFail::TooLong);
    }
    or_memory(reply_to(alloc, parts))
}

/// The same reply, or out of memory.
fn or_memory(reply: Result<Reply, NoMemory>) -> Result<Reply, ReplyFail>
    ensures is { IfOk result (λ r. reply ≡ Ok r) }
    ensures fault { result ≢ Err ReplyFail.TooLong }
{
    match reply {
        Ok(reply) => Ok(reply),
        Err(NoMemory) => Err(ReplyFail::NoMemory),
    }
}

/// The reply to a script and a log.
fn reply_to(alloc: Global, parts: &Parts<'_>) -> Result<Reply, NoMemory>
    requires short { length parts.now.script.now ≤ INPUT_BYTES }
    requires fits { parts.now.first + length parts.now.log.now + 2 < 2 ^ 32 }
    ensures { (input : List ℕ) → IsCut input parts.now.script.now parts.now.log.now parts.now.first
        → IfOk result (λ r. IsReplyTo input r.status r.text.items) }
{
    match read_script(alloc, parts.script) {
        Ok(job) => reply_led(alloc, job, parts),
        Err(fault) => refused(alloc, fault),
    }
}

/// The reply to a log of a script's job, which tells in which order the commands of its lanes went.
fn reply_led(alloc: Global, job: Job, parts: &Parts<'_>) -> Result<Reply, NoMemory>
    requires named { IsNamedApart job }
    requires fits { parts.now.first + length parts.now.log.now + 2 < 2 ^ 32 }
    ensures { (input : List ℕ) → IsCut input parts.now.script.now parts.now.log.now parts.now.first → IsJobOf parts.now.script.now job
        → IfOk result (λ r. IsReplyTo input r.status r.text.items) }
{
    let led = led_by(alloc, job, parts.log)?;
    reply_for(alloc, &led, parts)
}

/// The reply to a log of a job whose commands go in the order that the log tells.
fn reply_for(alloc: Global, job: &Job, parts: &Parts<'_>) -> Result<Reply, NoMemory>
    requires named { IsNamedApart job.now }
    requires fits { parts.now.first + length parts.now.log.now + 2 < 2 ^ 32 }
    ensures { (input : List ℕ) (own : PlainJob) → IsCut input parts.now.script.now parts.now.log.now parts.now.first → IsJobOf parts.now.script.now own
        → job.now ≡ led_by parts.now.log.now own → IfOk result (λ r. IsReplyTo input r.status r.text.items) }
{
    match read_log(alloc, job, parts.log) {
        Ok(log) => {
            let verdict = judge(alloc, job, log.items.as_slice())?;
            judged(
                alloc,
                parts.first,
                log.items.len() as u32,
                log.ended,
                verdict,
            )
        }
        Err(ReadFail::Line(n)) => refused(alloc, syntax_at(parts.first + n - 1)),
        Err(ReadFail::NoMemory) => Err(NoMemory),
    }
}

/// A verdict on a log of so many items whose first line has this number, and whose last line says whether
/// every actor is at its end.
fn judged(
    alloc: Global,
    first: u32,
    count: u32,
    ended: bool,
    verdict: Verdict,
) -> Result<Reply, NoMemory>
    requires fits { first + count < 2 ^ 32 }
    requires within { IsWithin count verdict }
    ensures { IfOk result (λ r. (r.status ≡ status_of ended verdict) × (r.text.items ≡ verdict_text first count ended verdict)) }
{
    match verdict {
        Verdict::Whole => legal(alloc, "whole\n"),
        Verdict::Legal if ended => broken(alloc, first + count, "end"),
        Verdict::Legal => legal(alloc, "legal\n"),
        Verdict::Broken { place, rule } => broken(alloc, first + place, word(rule)),
    }
}

/// A log that is legal.
fn legal(alloc: Global, text: &str) -> Result<Reply, NoMemory>
    ensures { IfOk result (λ r. (r.status ≡ Done) × (r.text.items ≡ text.now)) }
{
    match String::from_str(alloc, text) {
        Ok(text) => Ok(Reply {
            status: Status::Done,
            text: text.into_bytes(),
        }),
        Err(_) => Err(NoMemory),
    }
}

/// A log that is broken at a line.
fn broken(alloc: Global, line: u32, word: &str) -> Result<Reply, NoMemory>
    ensures { IfOk result (λ r. (r.status ≡ Broken) × (r.text.items ≡ line_text line word.now)) }
{
    match format!(in alloc; "line {line}: {word}\n") {
        Ok(text) => Ok(Reply {
            status: Status::Broken,
            text: text.into_bytes(),
        }),
        Err(_) => Err(NoMemory),
    }
}

/// The line that says where an input is refused, and why. Running out of memory while the script was read
/// is no refusal.
fn refused(alloc: Global, fault: ScriptFault) -> Result<Reply, NoMemory>
    ensures { IfOk result (λ r. (r.status ≡ Refused) × (r.text.items ≡ refusal_text fault) × (fault ≢ no_memory)) }
{
    if fault.cause == Cause::NoMemory {
        return Err(NoMemory);
    }
    match format!(in alloc; "{fault}\n") {
        Ok(text) => Ok(Reply {
            status: Status::Refused,
            text: text.into_bytes(),
        }),
        Err(_) => Err(NoMemory),
    }
}

/// A line that has none of the forms.
fn syntax_at(line: u32) -> ScriptFault
    ensures { result ≡ syntax_at line }
{
    ScriptFault {
        line,
        cause: Cause::Syntax,
    }
}

/// The word for a part of legality.
fn word(rule: Rule) -> &'static str
    ensures { result.now ≡ rule_word rule }
{
    match rule {
        Rule::PlainRun => "plain run",
        Rule::Callbacks => "callbacks",
        Rule::Silence => "silence",
        Rule::Refusals => "refusals",
        Rule::Exits => "exits",
        Rule::Fetches => "fetches",
        Rule::Commands => "commands",
    }
}
