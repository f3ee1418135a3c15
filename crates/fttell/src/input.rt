//! What comes in, and the line that says why it is refused.

ghost use Rattle.std.specs.Prelude.{◌≡◌, ◌≢◌, ◌≤◌, IfErr, IfOk, length};
ghost use Rattle.std.specs.Io.KnownBytes.{Appends, Consumes, IsAtEnd};
ghost use Rattle.ft_io.specs.declared.status.Status.TheVariants.{Refused};
ghost use Rattle.ft_script.specs.Script.{no_memory};
ghost use Rattle.fttell.specs.ToldText.{IsAnswered};
ghost use Rattle.judge_app.specs.Reply.{refusal_text};

use ft_io::{ReadFail, Sink, Source, Status, read_all, write_all};
use ft_script::{Cause, ScriptFault};
use std::alloc::Global;

/// Reads an input of at most so many bytes, or says with which status the program ends.
pub(crate) fn read_input<S: Source>(
    alloc: Global,
    source: &mut S,
    most: u32,
) -> Result<Vec<u8>, Status>
    ensures read { IfOk result (λ input. Consumes (S.remaining source.old) (S.remaining source.new) input.items
        × IsAtEnd (S.remaining source.new) × (length input.items ≤ most)) }
    ensures fault { IfErr result (λ status. IsAnswered status → ⊥) }
{
    match read_all(alloc, source, most) {
        Ok(input) => Ok(input),
        Err(ReadFail::Fault) => Err(Status::ReadFault),
        Err(ReadFail::TooLong) => Err(Status::TooLong),
        Err(ReadFail::NoMemory) => Err(Status::NoMemory),
    }
}

/// Writes the line that says where an input is refused, and why. Running out of memory while it was read
/// is no refusal.
pub(crate) fn refuse<K: Sink>(alloc: Global, fault: ScriptFault, mut sink: K) -> (Status, K)
    ensures { IsAnswered result.0 → (result.0 ≡ Refused) × (fault ≢ no_memory) × Appends (K.holds sink) (K.holds result.1) (refusal_text fault) }
{
    if fault.cause == Cause::NoMemory {
        return (Status::NoMemory, sink);
    }
    let Ok(line) = format!(in alloc; "{fault}\n") else {
        return (Status::NoMemory, sink);
    };
    match write_all(&mut sink, line.as_bytes()) {
        Ok(()) => (Status::Refused, sink),
        Err(_) => (Status::WriteFault, sink),
    }
}
