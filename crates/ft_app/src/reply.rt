//! What is written for a script: what an order prints of a history of its job as it was carried out,
//! or the line of its refusal.

ghost use Rattle.std.specs.Prelude.{◌≡◌, ◌≢◌, ◌≤◌, length, IfOk, OnOk, Err};
ghost use Rattle.std.specs.Io.KnownBytes.{Appends};
ghost use Rattle.std.specs.Fn.{FnOnceReturns};
ghost use Rattle.ft_io.specs.Causes.{Rose, AppendsFront};
ghost use Rattle.ft_script.specs.Script.{no_memory};
ghost use Rattle.ft_app.specs.Reply.{Serves, refusal_text};
ghost use Rattle.ft_app.specs.Main.{IsReplied, IsBegun};

use crate::carried_out::CarriedOut;
use crate::printed::write_printed;
use ft_base::NoMemory;
use ft_base::limits::INPUT_BYTES;
use ft_io::{Sink, Status, write_all};
use ft_job::Job;
use ft_script::{Cause, ScriptFault, read_script};
use ft_words::Order;
use std::alloc::Global;

/// Why a reply wasn't written in full. All memory has to be had before the first byte is written: what
/// the sink has taken can't be taken back, and [`Status::NoMemory`] promises that nothing was written.
/// So a reply that was begun ends whole, or with a failure of the sink.
#[derive(Clone, Copy, Drop)]
pub(crate) enum ReplyFail {
    /// Out of memory. Nothing was written.
    NoMemory,
    /// The sink failed. A beginning of the reply was written.
    Sink,
}

/// Writes the reply of an order to a script; `carry_out` carries the script's job out. It gives the
/// status that says which reply was written.
pub(crate) fn write_reply<C: FnOnce(Job) -> Result<CarriedOut, NoMemory> + Drop, K: Sink>(
    alloc: Global,
    order: Order,
    carry_out: C,
    script: &[u8],
    sink: &mut K,
) -> Result<Status, ReplyFail>
    requires short { length script.now ≤ INPUT_BYTES }
    requires callable { C.IsAlwaysCallable carry_out }
    requires serves { Serves order (λ job made. FnOnceReturns C.FnOnce carry_out (job, tt) made) }
    ensures all { IfOk result
        (λ status. IsReplied order script.now status (K.holds sink.old) (K.holds sink.new)) }
    ensures front { result ≡ Err ReplyFail.Sink
        → IsBegun order script.now (K.holds sink.old) (K.holds sink.new) }
    ensures fault { result ≡ Err ReplyFail.Sink → Rose (K.faults sink.old) (K.faults sink.new) }
    ensures memory { result ≡ Err ReplyFail.NoMemory → sink.new ≡ sink.old }
{
    match read_script(alloc, script) {
        Ok(job) => {
            let Ok(carried_out) = carry_out(job) else {
                return Err(ReplyFail::NoMemory);
            };
            write_printed(alloc, order, &carried_out, sink)?;
            Ok(Status::Done)
        }
        Err(fault) => {
            write_refusal(alloc, fault, sink)?;
            Ok(Status::Refused)
        }
    }
}

/// Writes the line that says where a script is refused, and why.
fn write_refusal<K: Sink>(alloc: Global, fault: ScriptFault, sink: &mut K) -> Result<(), ReplyFail>
    ensures refused { result ≢ Err ReplyFail.NoMemory → fault ≢ no_memory }
    ensures all { OnOk result (Appends (K.holds sink.old) (K.holds sink.new) (refusal_text fault)) }
    ensures front { result ≡ Err ReplyFail.Sink
        → AppendsFront (K.holds sink.old) (K.holds sink.new) (refusal_text fault) }
    ensures fault { result ≡ Err ReplyFail.Sink → Rose (K.faults sink.old) (K.faults sink.new) }
    ensures memory { result ≡ Err ReplyFail.NoMemory → sink.new ≡ sink.old }
{
    let line = refusal_line(alloc, fault).map_err(|_| ReplyFail::NoMemory)?;
    write_all(sink, line.as_slice()).map_err(|_| ReplyFail::Sink)
}

/// The line that says where a script is refused, and why. Running out of memory while it was read
/// is no refusal.
fn refusal_line(alloc: Global, fault: ScriptFault) -> Result<Vec<u8>, NoMemory>
    ensures refused { OnOk result (fault ≢ no_memory) }
    ensures line { IfOk result (λ line. line.items ≡ refusal_text fault) }
{
    if fault.cause == Cause::NoMemory {
        return Err(NoMemory);
    }
    match format!(in alloc; "{fault}\n") {
        Ok(line) => Ok(line.into_bytes()),
        Err(_) => Err(NoMemory),
    }
}
