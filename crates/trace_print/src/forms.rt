//! The text of a history in each form.

ghost use Rattle.std.specs.Prelude.{◌≡◌, ◌≢◌, ◌≤◌, ◌++◌, ℕ, length, Bool, List, Option, Err, map, IfOk, OnOk};
ghost use Rattle.ft_base.specs.declared.item.Item.{Item};
ghost use Rattle.std.specs.Io.KnownBytes.{Appends};
ghost use Rattle.ft_base.specs.Desk.{desk};
ghost use Rattle.ft_base.specs.Job.{funcs};
ghost use Rattle.ft_hist.specs.Rules.{IsLegal};
ghost use Rattle.ft_io.specs.Causes.{Rose, AppendsFront};
ghost use Rattle.ft_io.specs.Pieces.{IsUnderWay};
ghost use Rattle.trace_views.specs.LogText.{log_lines, log_text};
ghost use Rattle.trace_print.specs.Kept.{IsEnoughFor, IsKeptOf};
ghost use Rattle.trace_print.specs.Texts.{body_of, fold_text, text_of};
ghost use Rattle.trace_views.specs.EnabledText.{enabled_line_text, enabled_lines};
ghost use Rattle.ft_job.specs.Plans.{row_of};
ghost use Rattle.trace_views.specs.ModulesText.{row_of_line};
ghost use Rattle.trace_views.specs.RingLines.{HasEntries};
ghost use Rattle.trace_views.specs.RingsText.{rings_text};
ghost use Rattle.trace_views.specs.Words.{last_line, lines_text};

use crate::kept::Kept;
use crate::names::Names;
use ft_base::NoMemory;
use ft_hist::History;
use ft_io::{Pieces, Sink};
use ft_job::{Job, ModRow};
use ft_words::Form;
use ring_rules::Rings;
use std::alloc::Global;
use thiserror::Error;
use trace_lines::{GrownText, Line, last_line, put_lines, put_log};
use trace_rings::fold_rings;
use trace_views::{
    EnabledLine, FunctionLine, GraphLine, ModuleLine, ProfileLine, RingsLine, enabled_lines,
    function_lines, graph_lines, profile_lines, returned, rings_lines,
};

/// Why a text was not written whole.
#[derive(Clone, Copy, Debug, PartialEq, Eq, Drop, Error)]
pub enum TextFail {
    /// Out of memory; nothing was written.
    #[error("out of memory")]
    NoMemory,
    /// The sink failed: its count of faults rose, and a beginning of the text was appended.
    #[error("the sink failed")]
    Sink,
}

/// The lines of a text but the last one, worked out: to put them takes no memory. Those of the log
/// are the items themselves.
#[derive(Drop)]
enum Lines {
    Log,
    Function(Vec<FunctionLine>),
    Graph(Vec<GraphLine>),
    Profile(Vec<ProfileLine>),
    Enabled(Vec<EnabledLine>),
    Modules(Vec<ModuleLine>),
    Rings(Vec<RingsLine>),
}

/// Works out the lines of the form enabled, after so many commands have returned.
fn lines_of_desk(alloc: Global, names: &Names, returned: u32) -> Result<Vec<EnabledLine>, NoMemory>
    ensures { IfOk result (λ lines. lines_text (enabled_line_text names.now) lines.items
        ≡ enabled_lines names.now (desk names.now returned) 0 (funcs names.now)) }
{
    let desk = names.job().desk(alloc, returned)?;
    enabled_lines(alloc, names, &desk)
}

/// A line of the form modules.
fn module_line(row: &ModRow) -> ModuleLine
    ensures { row_of_line result ≡ row_of row.now }
{
    ModuleLine {
        load: row.load,
        module: row.module,
        answer: row.answer,
        first: row.first,
        last: row.last,
    }
}

/// Works out the lines of the form modules.
fn lines_of_modules(alloc: Global, names: &Names) -> Result<Vec<ModuleLine>, NoMemory>
    ensures { IfOk result (λ lines. map row_of_line lines.items ≡ names.now.lines.modules) }
{
    let rows = names.job().modules();
    rows.iter()
        .map(|row| module_line(row))
        .collect(alloc)
        .map_err(|_| NoMemory)
}

/// Works out the lines of the form rings, of these rings.
fn lines_of_rings(
    alloc: Global,
    names: &Names,
    history: &History,
    rings: &Rings,
) -> Result<Lines, NoMemory>
    requires legal { IsLegal names.now history.now.items }
    requires cpus { length rings.now.cpus ≡ length names.now.quanta }
    requires entries { HasEntries history.now.items rings.now }
    ensures { IfOk result (λ lines. (ended : Bool) → body_of names.now history.now.items lines ++ last_line ended
        ≡ rings_text names.now history.now.items rings.now ended) }
{
    // Called for its contract alone: a job has at most as many CPUs as the limit says.
    let _cpus = names.job().cpus();
    Ok(Lines::Rings(rings_lines(alloc, names, history, rings)?))
}

/// Works out the lines of the form rings, of the rings of a history that is gone through by place.
fn lines_of_fold(alloc: Global, names: &Names, history: &History) -> Result<Lines, NoMemory>
    requires { IsLegal names.now history.now.items }
    ensures { IfOk result (λ lines. (ended : Bool) → body_of names.now history.now.items lines ++ last_line ended
        ≡ fold_text names.now history.now.items ended) }
{
    let rings = fold_rings(alloc, names.job(), history)?;
    lines_of_rings(alloc, names, history, &rings)
}

/// Works out the lines of a form.
fn lines_of(alloc: Global, names: &Names, history: &History, form: Form) -> Result<Lines, NoMemory>
    requires { IsLegal names.now history.now.items }
    ensures { IfOk result (λ lines. (ended : Bool) → body_of names.now history.now.items lines ++ last_line ended
        ≡ text_of form names.now history.now.items ended) }
{
    match form {
        Form::Log => Ok(Lines::Log),
        Form::Function => Ok(Lines::Function(function_lines(alloc, names, history)?)),
        Form::Graph => Ok(Lines::Graph(graph_lines(alloc, names, history)?)),
        Form::Profile => Ok(Lines::Profile(profile_lines(alloc, names, history)?)),
        Form::Enabled => Ok(Lines::Enabled(lines_of_desk(alloc, names, returned(history))?)),
        Form::Modules => Ok(Lines::Modules(lines_of_modules(alloc, names)?)),
        Form::Rings => lines_of_fold(alloc, names, history),
    }
}

/// Writes lines and the last line.
fn send<K: Sink>(
    alloc: Global,
    names: &Names,
    history: &History,
    lines: &Lines,
    ended: bool,
    sink: &mut K,
) -> Result<(), TextFail>
    ensures all { OnOk result (Appends (K.holds sink.old) (K.holds sink.new)
        (body_of names.now history.now.items lines.now ++ last_line ended)) }
    ensures front { result ≡ Err TextFail.Sink → AppendsFront (K.holds sink.old) (K.holds sink.new)
        (body_of names.now history.now.items lines.now ++ last_line ended) }
    ensures fault { result ≡ Err TextFail.Sink → Rose (K.faults sink.old) (K.faults sink.new) }
    ensures memory { result ≡ Err TextFail.NoMemory → sink.new ≡ sink.old }
    ensures faults { K.faults sink.old ≤ K.faults sink.new }
{
    match lines {
        Lines::Log => send_log(alloc, names, history, ended, sink),
        Lines::Function(lines) => send_lines(alloc, names, lines.as_slice(), ended, sink),
        Lines::Graph(lines) => send_lines(alloc, names, lines.as_slice(), ended, sink),
        Lines::Profile(lines) => send_lines(alloc, names, lines.as_slice(), ended, sink),
        Lines::Enabled(lines) => send_lines(alloc, names, lines.as_slice(), ended, sink),
        Lines::Modules(lines) => send_lines(alloc, names, lines.as_slice(), ended, sink),
        Lines::Rings(lines) => send_lines(alloc, names, lines.as_slice(), ended, sink),
    }
}

/// Writes a line for each item, and the last line. The memory for the pieces is the last that is taken.
fn send_log<K: Sink>(
    alloc: Global,
    names: &Names,
    history: &History,
    ended: bool,
    sink: &mut K,
) -> Result<(), TextFail>
    ensures all { OnOk result (Appends (K.holds sink.old) (K.holds sink.new) (log_lines names.now 0 history.now.items ++ last_line ended)) }
    ensures front { result ≡ Err TextFail.Sink → AppendsFront (K.holds sink.old) (K.holds sink.new) (log_lines names.now 0 history.now.items ++ last_line ended) }
    ensures fault { result ≡ Err TextFail.Sink → Rose (K.faults sink.old) (K.faults sink.new) }
    ensures memory { result ≡ Err TextFail.NoMemory → sink.new ≡ sink.old }
    ensures faults { K.faults sink.old ≤ K.faults sink.new }
{
    let Ok(mut pieces) = Pieces::new(alloc) else {
        return Err(TextFail::NoMemory);
    };
    put_log(&mut pieces, sink, names, history);
    finish(pieces, sink, ended)
}

/// Writes lines that are worked out, and the last line, in the same way.
fn send_lines<L: Line, K: Sink>(
    alloc: Global,
    names: &Names,
    lines: &[L],
    ended: bool,
    sink: &mut K,
) -> Result<(), TextFail>
    ensures all { OnOk result (Appends (K.holds sink.old) (K.holds sink.new) (lines_text (L.text names.now) lines.now ++ last_line ended)) }
    ensures front { result ≡ Err TextFail.Sink → AppendsFront (K.holds sink.old) (K.holds sink.new) (lines_text (L.text names.now) lines.now ++ last_line ended) }
    ensures fault { result ≡ Err TextFail.Sink → Rose (K.faults sink.old) (K.faults sink.new) }
    ensures memory { result ≡ Err TextFail.NoMemory → sink.new ≡ sink.old }
    ensures faults { K.faults sink.old ≤ K.faults sink.new }
{
    let Ok(mut pieces) = Pieces::new(alloc) else {
        return Err(TextFail::NoMemory);
    };
    put_lines(&mut pieces, sink, names, lines);
    finish(pieces, sink, ended)
}

/// Puts the last line after the text that is under way, and writes what is still held.
fn finish<K: Sink>(mut pieces: Pieces, sink: &mut K, ended: bool) -> Result<(), TextFail>
    ensures all { (text : List ℕ) (begin : Option (List ℕ)) (before : ℕ) → IsUnderWay K.holds K.faults text begin before sink.old pieces
        → OnOk result (Appends begin (K.holds sink.new) (text ++ last_line ended)) }
    ensures front { (text : List ℕ) (begin : Option (List ℕ)) (before : ℕ) → IsUnderWay K.holds K.faults text begin before sink.old pieces
        → result ≡ Err TextFail.Sink → AppendsFront begin (K.holds sink.new) (text ++ last_line ended) }
    ensures fault { (text : List ℕ) (begin : Option (List ℕ)) (before : ℕ) → IsUnderWay K.holds K.faults text begin before sink.old pieces
        → result ≡ Err TextFail.Sink → Rose before (K.faults sink.new) }
    ensures later { (text : List ℕ) (begin : Option (List ℕ)) (before : ℕ) → IsUnderWay K.holds K.faults text begin before sink.old pieces
        → before ≤ K.faults sink.new }
    ensures memory { result ≢ Err TextFail.NoMemory }
{
    pieces.put(sink, last_line(ended).as_bytes());
    match pieces.finish(sink) {
        Ok(()) => Ok(()),
        Err(_) => Err(TextFail::Sink),
    }
}

/// Writes the text of a history of the job in a form to the sink, in pieces. All memory is taken
/// before the first byte is written. The last line is `end` if every actor is at its end, else
/// `stopped`. The form rings has the rings of the history gone through by place, from the first item to
/// the last. It takes time linear in the history and in the text, once for each graph or profile
/// user and fprobe; for each entry of a ring the logarithm of the history comes to it.
pub fn write_text<K: Sink>(
    alloc: Global,
    job: &Job,
    history: &History,
    ended: bool,
    form: Form,
    sink: &mut K,
) -> Result<(), TextFail>
    requires { IsLegal job.now history.now.items }
    ensures all { OnOk result (Appends (K.holds sink.old) (K.holds sink.new)
        (text_of form job.now history.now.items ended)) }
    ensures front { result ≡ Err TextFail.Sink → AppendsFront (K.holds sink.old) (K.holds sink.new)
        (text_of form job.now history.now.items ended) }
    ensures fault { result ≡ Err TextFail.Sink → Rose (K.faults sink.old) (K.faults sink.new) }
    ensures memory { result ≡ Err TextFail.NoMemory → sink.new ≡ sink.old }
    ensures faults { K.faults sink.old ≤ K.faults sink.new }
{
    let Ok(names) = Names::new(alloc, job) else {
        return Err(TextFail::NoMemory);
    };
    send_text(alloc, &names, history, ended, form, sink)
}

/// The same, with the names of the job.
fn send_text<K: Sink>(
    alloc: Global,
    names: &Names,
    history: &History,
    ended: bool,
    form: Form,
    sink: &mut K,
) -> Result<(), TextFail>
    requires { IsLegal names.now history.now.items }
    ensures all { OnOk result (Appends (K.holds sink.old) (K.holds sink.new) (text_of form names.now history.now.items ended)) }
    ensures front { result ≡ Err TextFail.Sink → AppendsFront (K.holds sink.old) (K.holds sink.new) (text_of form names.now history.now.items ended) }
    ensures fault { result ≡ Err TextFail.Sink → Rose (K.faults sink.old) (K.faults sink.new) }
    ensures memory { result ≡ Err TextFail.NoMemory → sink.new ≡ sink.old }
    ensures faults { K.faults sink.old ≤ K.faults sink.new }
{
    let Ok(lines) = lines_of(alloc, names, history, form) else {
        return Err(TextFail::NoMemory);
    };
    send(alloc, names, history, &lines, ended, sink)
}

/// The text of a history, of what was kept of it, as [`write_text`] writes it.
pub fn write_kept<K: Sink>(
    alloc: Global,
    job: &Job,
    kept: &Kept,
    ended: bool,
    form: Form,
    sink: &mut K,
) -> Result<(), TextFail>
    requires enough { IsEnoughFor form kept.now }
    requires legal { (items : List Item) × IsKeptOf job.now items kept.now × IsLegal job.now items }
    ensures all { (items : List Item) → IsKeptOf job.now items kept.now → OnOk result (Appends (K.holds sink.old) (K.holds sink.new)
        (text_of form job.now items ended)) }
    ensures front { (items : List Item) → IsKeptOf job.now items kept.now → result ≡ Err TextFail.Sink → AppendsFront (K.holds sink.old) (K.holds sink.new)
        (text_of form job.now items ended) }
    ensures fault { result ≡ Err TextFail.Sink → Rose (K.faults sink.old) (K.faults sink.new) }
    ensures memory { result ≡ Err TextFail.NoMemory → sink.new ≡ sink.old }
    ensures faults { K.faults sink.old ≤ K.faults sink.new }
{
    let Ok(names) = Names::new(alloc, job) else {
        return Err(TextFail::NoMemory);
    };
    match kept {
        Kept::History(history) => send_text(alloc, &names, history, ended, form, sink),
        Kept::Function(view) => send_lines(alloc, &names, view.lines(), ended, sink),
        Kept::Profile(view) => {
            let Ok(lines) = view.lines(alloc, &names) else {
                return Err(TextFail::NoMemory);
            };
            send_lines(alloc, &names, lines.as_slice(), ended, sink)
        }
        Kept::Returned(returned) => {
            let Ok(lines) = lines_of_desk(alloc, &names, *returned) else {
                return Err(TextFail::NoMemory);
            };
            send_lines(alloc, &names, lines.as_slice(), ended, sink)
        }
        Kept::Nothing => {
            let Ok(lines) = lines_of_modules(alloc, &names) else {
                return Err(TextFail::NoMemory);
            };
            send_lines(alloc, &names, lines.as_slice(), ended, sink)
        }
        Kept::Rings(view) => {
            let Ok(lines) = view.lines(alloc) else {
                return Err(TextFail::NoMemory);
            };
            send_lines(alloc, &names, lines.as_slice(), ended, sink)
        }
        Kept::Graph(history) => send_text(alloc, &names, history, ended, form, sink),
        Kept::NoGraph => {
            let lines: Vec<GraphLine> = Vec::new(alloc);
            send_lines(alloc, &names, lines.as_slice(), ended, sink)
        }
        Kept::Totals(_) => unreachable!(),
    }
}

/// Writes the text of a history of the job, form log, as [`write_text`] does. The history need not
/// be legal.
pub fn write_log<K: Sink>(
    alloc: Global,
    job: &Job,
    history: &History,
    ended: bool,
    sink: &mut K,
) -> Result<(), TextFail>
    ensures all { OnOk result (Appends (K.holds sink.old) (K.holds sink.new)
        (log_text job.now history.now.items ended)) }
    ensures front { result ≡ Err TextFail.Sink → AppendsFront (K.holds sink.old) (K.holds sink.new)
        (log_text job.now history.now.items ended) }
    ensures fault { result ≡ Err TextFail.Sink → Rose (K.faults sink.old) (K.faults sink.new) }
    ensures memory { result ≡ Err TextFail.NoMemory → sink.new ≡ sink.old }
    ensures faults { K.faults sink.old ≤ K.faults sink.new }
{
    let Ok(names) = Names::new(alloc, job) else {
        return Err(TextFail::NoMemory);
    };
    send_log(alloc, &names, history, ended, sink)
}

/// Writes the text of rings of the job, form rings, as [`write_text`] does: of those that threads have
/// kept, and not those of the history gone through by place. There has to be one for each CPU, and each
/// entry has to be the place of an entry callback in the history.
pub fn write_rings<K: Sink>(
    alloc: Global,
    job: &Job,
    history: &History,
    ended: bool,
    rings: &Rings,
    sink: &mut K,
) -> Result<(), TextFail>
    requires legal { IsLegal job.now history.now.items }
    requires cpus { length rings.now.cpus ≡ length job.now.quanta }
    requires entries { HasEntries history.now.items rings.now }
    ensures all { OnOk result (Appends (K.holds sink.old) (K.holds sink.new)
        (rings_text job.now history.now.items rings.now ended)) }
    ensures front { result ≡ Err TextFail.Sink → AppendsFront (K.holds sink.old) (K.holds sink.new)
        (rings_text job.now history.now.items rings.now ended) }
    ensures fault { result ≡ Err TextFail.Sink → Rose (K.faults sink.old) (K.faults sink.new) }
    ensures memory { result ≡ Err TextFail.NoMemory → sink.new ≡ sink.old }
    ensures faults { K.faults sink.old ≤ K.faults sink.new }
{
    let Ok(names) = Names::new(alloc, job) else {
        return Err(TextFail::NoMemory);
    };
    let Ok(lines) = lines_of_rings(alloc, &names, history, rings) else {
        return Err(TextFail::NoMemory);
    };
    send(alloc, &names, history, &lines, ended, sink)
}

/// The text of a history of the job in a form, as [`write_text`] writes it. The error says that
/// memory ran out.
pub fn print(
    alloc: Global,
    job: &Job,
    history: &History,
    ended: bool,
    form: Form,
) -> Result<Vec<u8>, NoMemory>
    requires { IsLegal job.now history.now.items }
    ensures { IfOk result (λ text. text.items ≡ text_of form job.now history.now.items ended) }
{
    let mut text = GrownText::new(alloc);
    match write_text(alloc, job, history, ended, form, &mut text) {
        Ok(()) => Ok(text.into_bytes()),
        Err(_) => Err(NoMemory),
    }
}

/// The text of rings of the job, as [`write_rings`] writes it. The error says that memory ran out.
pub fn print_rings(
    alloc: Global,
    job: &Job,
    history: &History,
    ended: bool,
    rings: &Rings,
) -> Result<Vec<u8>, NoMemory>
    requires legal { IsLegal job.now history.now.items }
    requires cpus { length rings.now.cpus ≡ length job.now.quanta }
    requires entries { HasEntries history.now.items rings.now }
    ensures { IfOk result (λ text. text.items ≡ rings_text job.now history.now.items rings.now ended) }
{
    let mut text = GrownText::new(alloc);
    match write_rings(alloc, job, history, ended, rings, &mut text) {
        Ok(()) => Ok(text.into_bytes()),
        Err(_) => Err(NoMemory),
    }
}
