//! The lines of a history, view enabled: the functions whose call sites are patched.

ghost use Rattle.std.specs.Prelude.{◌≡◌, ◌++◌, ℕ, ◌+◌, ◌<◌, ◌^◌, reverse, IfOk, OnOk};
ghost use Rattle.ft_base.specs.Job.{funcs, Job as PlainJob};
ghost use Rattle.ft_desk.specs.Declarations.{job_of};
ghost use Rattle.ft_desk.specs.Sites.{row_at};
ghost use Rattle.ft_hist.specs.Past.{done};
ghost use Rattle.trace_views.specs.Words.{lines_text};
ghost use Rattle.trace_views.specs.Returned.{done_with};
ghost use Rattle.trace_views.specs.EnabledText.{enabled_line_text, enabled_lines, enabled_part};

use crate::named::Named;
use ft_base::{FuncNo, Item, NoMemory, Ran};
use ft_desk::Desk;
use ft_hist::History;
use site_counts::Row;
use std::alloc::{AllocError, Global};

/// A line: a function that some users trace, its row of counts, and what a call of it runs.
#[derive(Clone, Copy)]
pub struct EnabledLine {
    /// The function.
    pub function: FuncNo,
    /// How many users trace it, how many of these get the registers, and how many replace it.
    pub row: Row,
    /// What a call of it runs.
    pub ran: Ran,
}

/// How many commands have returned after an item, if so many had before it.
pub fn returned_with(returned: u32, item: &Item) -> u32
    requires { returned + 1 < 2 ^ 32 }
    ensures { result ≡ done_with item.now returned }
{
    match item {
        Item::Return { .. } => returned + 1,
        _ => returned,
    }
}

/// How many commands have returned.
pub fn returned(history: &History) -> u32
    ensures { result ≡ done (reverse history.now.items) }
{
    let mut returned: u32 = 0;
    for place in 0..history.len() {
        returned = returned_with(returned, history.item(place));
    }
    returned
}

/// Adds a line, if some users trace its function.
fn push_part(lines: &mut Vec<EnabledLine>, line: EnabledLine) -> Result<(), AllocError>
    ensures { OnOk result ((job : PlainJob) → lines_text (enabled_line_text job) lines.new.items
        ≡ lines_text (enabled_line_text job) lines.old.items
        ++ enabled_part job line.function.0 line.row line.ran) }
{
    if line.row.count > 0 {
        lines.push(line)?;
    }
    Ok(())
}

/// Adds the lines of the functions on a desk of the job.
fn push_lines<N: Named>(
    lines: &mut Vec<EnabledLine>,
    names: &N,
    desk: &Desk,
) -> Result<(), AllocError>
    requires funcs { desk.now.declared.funcs ≡ funcs (N.job names.now) }
    requires rows { (f : ℕ) → row_at (job_of desk.now.declared) desk.now.state f ≡ row_at (N.job names.now) desk.now.state f }
    ensures { OnOk result (lines_text (enabled_line_text (N.job names.now)) lines.new.items
        ≡ lines_text (enabled_line_text (N.job names.now)) lines.old.items
        ++ enabled_lines (N.job names.now) desk.now.state 0 (funcs (N.job names.now))) }
{
    for f in 0..names.functions() {
        let function = FuncNo(f);
        let line = EnabledLine {
            function,
            row: desk.row(function),
            ran: desk.ran(function),
        };
        push_part(lines, line)?;
    }
    Ok(())
}

/// The lines of a desk of the job, by the function's number. The error says that memory ran out.
pub fn enabled_lines<N: Named>(
    alloc: Global,
    names: &N,
    desk: &Desk,
) -> Result<Vec<EnabledLine>, NoMemory>
    requires funcs { desk.now.declared.funcs ≡ funcs (N.job names.now) }
    requires rows { (f : ℕ) → row_at (job_of desk.now.declared) desk.now.state f ≡ row_at (N.job names.now) desk.now.state f }
    ensures { IfOk result (λ lines. lines_text (enabled_line_text (N.job names.now)) lines.items
        ≡ enabled_lines (N.job names.now) desk.now.state 0 (funcs (N.job names.now))) }
{
    let mut lines = Vec::new(alloc);
    match push_lines(&mut lines, names, desk) {
        Ok(()) => Ok(lines),
        Err(_) => Err(NoMemory),
    }
}
