//! A text in memory and in a sink, and the log of items that are no history of a job. What is written of what a
//! replay keeps, and to a sink that is full, is asked of the program.

ghost use Rattle.ft_hist.specs.Rules.{IsLegal};

use ft_base::limits::INPUT_BYTES;
use ft_base::{Answer, Item, NoMemory};
use ft_hist::History;
use ft_io::MemSink;
use ft_job::Job;
use ft_machine::{Outcome, replay};
use ft_script::read_script;
use std::alloc::Global;
use std::test::Fail;
use trace_print::{Form, TextFail, print, print_rings, write_log, write_rings, write_text};
use trace_rings::fold_rings;

/// Room for each text here.
const ROOM: usize = 4_096;

/// A user of each kind, a call within a call, and a module.
const EACH_KIND: &str = "ftrace 1
func a
func b m
user t function
user g graph
user p profile
user e fprobe exit
cpu 0 quantum 100
task 10 cpu 0
after 4
call a
call b
ret
ret
ctl register t
ctl register g
ctl register p
ctl register e
ctl load m
";

static FORMS: [Form; 7] = [
    Form::Log,
    Form::Function,
    Form::Graph,
    Form::Profile,
    Form::Enabled,
    Form::Modules,
    Form::Rings,
];

/// The job of a text; none if it is refused. The texts here are short enough.
fn read(alloc: Global, text: &str) -> Option<Job> {
    if text.len() > INPUT_BYTES as usize {
        return None;
    }
    read_script(alloc, text.as_bytes()).ok()
}

/// A sink that takes seven bytes at a time, and this many in all.
fn sink_of(alloc: Global, room: usize) -> Result<MemSink, Fail> {
    Ok(MemSink::new(alloc, 7, room, Vec::new(alloc))?)
}

/// The job of a text that isn't refused.
fn job_of(alloc: Global, text: &str) -> Result<Job, Fail> {
    match read(alloc, text) {
        Some(job) => Ok(job),
        None => Err("refused")?,
    }
}

/// The job of a user of each kind.
fn each_kind(alloc: Global) -> Result<Job, Fail> {
    job_of(alloc, EACH_KIND)
}

/// Writes a form of a replay into a sink.
fn write(
    alloc: Global,
    job: &Job,
    outcome: &Outcome,
    form: Form,
    sink: &mut MemSink,
) -> Result<(), TextFail>
    requires { IsLegal job.now outcome.now.history.items }
{
    write_text(alloc, job, &outcome.history, outcome.ended, form, sink)
}

/// Whether a sink with room for it gets this text of a form.
fn is_written(
    alloc: Global,
    job: &Job,
    outcome: &Outcome,
    form: Form,
    text: &[u8],
) -> Result<bool, Fail>
    requires { IsLegal job.now outcome.now.history.items }
{
    let mut sink = sink_of(alloc, ROOM)?;
    Ok(write(alloc, job, outcome, form, &mut sink) == Ok(()) && sink.bytes() == text)
}

/// Whether a text has its last line, and more.
fn has_end(text: &[u8]) -> bool {
    text.len() > 4 && text.ends_with(b"\nend\n")
}

/// Whether a form prints more than its last line, and a sink gets what it prints.
fn is_printed(alloc: Global, job: &Job, outcome: &Outcome, form: Form) -> Result<bool, Fail>
    requires { IsLegal job.now outcome.now.history.items }
{
    let text = print(alloc, job, &outcome.history, outcome.ended, form)?;
    if has_end(text.as_slice()) {
        is_written(alloc, job, outcome, form, text.as_slice())
    } else {
        Ok(false)
    }
}

#[test]
fn a_sink_gets_what_is_printed(rt: HostRuntime) -> Result<(), Fail> {
    let alloc = rt.alloc();
    let job = each_kind(alloc)?;
    let outcome = replay(alloc, &job)?;
    for form in &FORMS {
        assert!(rt; is_printed(alloc, &job, &outcome, *form)?);
    }
    Ok(())
}

/// Whether rings are printed in their own text, and a sink gets it.
fn are_printed(alloc: Global, job: &Job, outcome: &Outcome) -> Result<bool, Fail>
    requires { IsLegal job.now outcome.now.history.items }
{
    let Outcome { history, ended } = outcome;
    let rings = fold_rings(alloc, job, history)?;
    let text = print_rings(alloc, job, history, *ended, &rings)?;
    let mut sink = sink_of(alloc, ROOM)?;
    let written = write_rings(alloc, job, history, *ended, &rings, &mut sink);
    Ok(written == Ok(()) && sink.bytes() == text.as_slice() && has_end(text.as_slice()))
}

#[test]
fn rings_are_printed(rt: HostRuntime) -> Result<(), Fail> {
    let alloc = rt.alloc();
    let job = each_kind(alloc)?;
    let outcome = replay(alloc, &job)?;
    assert!(rt; are_printed(alloc, &job, &outcome)?);
    Ok(())
}

/// A return without its begin.
fn no_history(alloc: Global) -> Result<History, NoMemory> {
    let mut history = History::with_room(alloc, 1)?;
    history.push(Item::Return {
        k: 7,
        answer: Answer::Already,
    });
    Ok(history)
}

/// Whether the log of these items, of a run that was stopped, is this text.
fn is_log(alloc: Global, history: &History, text: &[u8]) -> Result<bool, Fail> {
    let job = each_kind(alloc)?;
    let mut sink = sink_of(alloc, ROOM)?;
    let written = write_log(alloc, &job, history, false, &mut sink);
    Ok(written == Ok(()) && sink.bytes() == text)
}

#[test]
fn a_log_is_of_any_items(rt: HostRuntime) -> Result<(), Fail> {
    let alloc = rt.alloc();
    let history = no_history(alloc)?;
    assert!(rt; is_log(alloc, &history, b"0 return 7 already\nstopped\n")?);
    Ok(())
}
