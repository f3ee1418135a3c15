//! The log of a job, read back.

ghost use Rattle.std.specs.Prelude.{◌≡◌, ℕ, ◌+◌, ◌<◌, ◌^◌, length, IfOk, Err};
ghost use Rattle.std.specs.List.{AllByRecursion as Each};
ghost use Rattle.log_reader.specs.Refused.{IsNumbered, IsRefusedAt};
ghost use Rattle.trace_lines.specs.LogItems.{IsNamedApart};
ghost use Rattle.trace_views.specs.LogText.{log_text};

use crate::names::Names;
use ft_job::Job;
use log_reader::{Log, ReadFail};
use std::alloc::Global;

/// Reads the text of a log of a job back, which [`crate::write_log`] writes: the items and the end that it
/// was written from. Each other text is refused with its first line that no item of the job has at its
/// place.
pub fn read_log(alloc: Global, job: &Job, text: &[u8]) -> Result<Log, ReadFail>
    requires { length text.now + 2 < 2 ^ 32 }
    ensures text { IfOk result (λ log. log_text job.now log.items.items log.ended ≡ text.now) }
    ensures numbered { IfOk result (λ log. Each (IsNumbered job.now) log.items.items) }
    ensures refused { (n : ℕ) → result ≡ Err (ReadFail.Line n) → IsNamedApart job.now → IsRefusedAt job.now text.now n }
{
    let Ok(names) = Names::new(alloc, job) else {
        return Err(ReadFail::NoMemory);
    };
    log_reader::read_log(alloc, &names, text)
}
