//! A log, read whole.

ghost use Rattle.std.specs.Prelude.{◌≡◌, ◌≢◌, ℕ, ◌+◌, ◌<◌, ◌^◌, Bool, length, IfOk, IfSome, IfNone, Err};
ghost use Rattle.std.specs.List.{AllByRecursion as Each};
ghost use Rattle.trace_lines.specs.LogItems.{IsNamedApart};
ghost use Rattle.trace_views.specs.LogText.{log_text};
ghost use Rattle.trace_views.specs.Words.{last_line};
ghost use Rattle.log_reader.specs.Refused.{IsNumbered, IsRefusedAt};

use crate::line::first_item;
use crate::numbers::Numbers;
use crate::written::Written;
use ft_base::{Item, NoMemory};
use std::alloc::Global;
use thiserror::Error;
use trace_lines::last_line;
use trace_views::Named;

/// What was read of a log.
#[derive(Drop)]
pub struct Log {
    /// Its items, in order.
    pub items: Vec<Item>,
    /// Whether every actor is at its end.
    pub ended: bool,
}

/// Why a text is no log of the job.
#[derive(Clone, Copy, Debug, PartialEq, Eq, Drop, Error)]
pub enum ReadFail {
    /// The first line, from 1, that no item of the job has at its place, and that isn't the last.
    #[error("line {0} is no line of the job's log")]
    Line(u32),
    /// Out of memory.
    #[error("out of memory")]
    NoMemory,
}

/// Whether a text is the last line of a log, and what it says.
fn read_last(text: &[u8]) -> Option<bool>
    ensures some { IfSome result (λ ended. text.now ≡ last_line ended) }
    ensures none { IfNone result ((ended : Bool) → text.now ≢ last_line ended) }
{
    if text == last_line(true).as_bytes() {
        Some(true)
    } else if text == last_line(false).as_bytes() {
        Some(false)
    } else {
        None
    }
}

/// Reads the text of a log of a job back: the items and the end that it was written from. A line is
/// taken only if it is written exactly so, and a text is refused at the first line that can't be taken.
pub fn read_log<N: Named>(alloc: Global, names: &N, text: &[u8]) -> Result<Log, ReadFail>
    requires { length text.now + 2 < 2 ^ 32 }
    ensures text { IfOk result (λ log.
        log_text (N.job names.now) log.items.items log.ended ≡ text.now) }
    ensures numbered { IfOk result (λ log. Each (IsNumbered (N.job names.now)) log.items.items) }
    ensures refused { (n : ℕ) → result ≡ Err (ReadFail.Line n) → IsNamedApart (N.job names.now)
        → IsRefusedAt (N.job names.now) text.now n }
{
    let Ok(numbers) = Numbers::new(alloc, names) else {
        return Err(ReadFail::NoMemory);
    };
    let Ok(mut written) = Written::new(alloc) else {
        return Err(ReadFail::NoMemory);
    };
    let mut items = Vec::new(alloc);
    let mut rest = text;
    loop {
        if let Some(ended) = read_last(rest) {
            return Ok(Log { items, ended });
        }
        let place = items.len() as u32;
        match first_item(names, &numbers, &mut written, place, rest) {
            Ok(Some((item, after))) => {
                if items.push(item).is_err() {
                    return Err(ReadFail::NoMemory);
                }
                rest = after;
            }
            Ok(None) => return Err(ReadFail::Line(place + 1)),
            Err(NoMemory) => return Err(ReadFail::NoMemory),
        }
    }
}
