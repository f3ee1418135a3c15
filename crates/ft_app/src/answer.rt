//! An order carried out over any source and sink, whatever carries its job out.

ghost use Rattle.std.specs.Prelude.{◌≡◌, ◌≢◌, ◌≤◌, ℕ, length, IfOk, IfErr};
ghost use Rattle.std.specs.Fn.{FnOnceReturns};
ghost use Rattle.ft_io.specs.Causes.{Rose, GaveMore, GaveAtMost};
ghost use Rattle.ft_io.specs.Status.{code_of};
ghost use Rattle.ft_words.specs.declared.order.Order.TheVariants.{Bulk};
ghost use Rattle.ft_app.specs.Reply.{Serves};
ghost use Rattle.ft_app.specs.Ends.{Ends, Only};
ghost use Rattle.ft_app.specs.Main.{Gets};

use crate::carried_out::CarriedOut;
use crate::reply::{ReplyFail, write_reply};
use ft_base::NoMemory;
use ft_base::limits::INPUT_BYTES;
use ft_io::{ReadFail, Sink, Source, Status, read_all};
use ft_job::Job;
use ft_schedule::bulk_script;
use ft_words::Order;
use std::alloc::Global;

/// Carries an order out; `carry_out` does so with the script's job. It gives the
/// status.
pub(crate) fn answer<C: FnOnce(Job) -> Result<CarriedOut, NoMemory> + Drop, S: Source, K: Sink>(
    alloc: Global,
    order: &Order,
    carry_out: C,
    source: &mut S,
    sink: &mut K,
) -> Status
    requires callable { C.IsAlwaysCallable carry_out }
    requires serves { Serves order.now (λ job made. FnOnceReturns C.FnOnce carry_out (job, tt) made) }
    ensures { Ends S.remaining S.faults K.holds K.faults (Only order.now)
        (code_of result) source.old source.new sink.old sink.new }
{
    let script = match script_for(alloc, order, source) {
        Ok(script) => script,
        Err(ReadFail::Fault) => return Status::ReadFault,
        Err(ReadFail::TooLong) => return Status::TooLong,
        Err(ReadFail::NoMemory) => return Status::NoMemory,
    };
    match write_reply(alloc, *order, carry_out, &script, sink) {
        Ok(status) => status,
        Err(ReplyFail::NoMemory) => Status::NoMemory,
        Err(ReplyFail::Sink) => Status::WriteFault,
    }
}

/// The script of an order: all that the source gives, or the generated one.
fn script_for<S: Source>(alloc: Global, order: &Order, source: &mut S) -> Result<Vec<u8>, ReadFail>
    ensures gets { IfOk result
        (λ v. Gets order.now (S.remaining source.old) (S.remaining source.new) v.items) }
    ensures short { IfOk result (λ v. length v.items ≤ INPUT_BYTES) }
    ensures generated { (n : ℕ) → order.now ≡ Bulk n → source.new ≡ source.old }
    ensures fault { result ≡ Err ReadFail.Fault → Rose (S.faults source.old) (S.faults source.new) }
    ensures too_long { result ≡ Err ReadFail.TooLong
        → GaveMore INPUT_BYTES (S.remaining source.old) (S.remaining source.new) }
    ensures within { IfErr result (λ fail. fail ≢ ReadFail.TooLong
        → GaveAtMost INPUT_BYTES (S.remaining source.old) (S.remaining source.new)) }
    ensures never_long { (n : ℕ) → order.now ≡ Bulk n → result ≢ Err ReadFail.TooLong }
{
    match order {
        Order::Replay(_) | Order::Run(_) => read_all(alloc, source, INPUT_BYTES),
        Order::Bulk(n) => match bulk_script(alloc, *n) {
            Ok(script) => Ok(script),
            Err(NoMemory) => Err(ReadFail::NoMemory),
        },
    }
}
