//! An order carried out over any source and sink, without running threads.

ghost use Rattle.std.specs.Prelude.{◌≢◌};
ghost use Rattle.ft_io.specs.Status.{code_of};
ghost use Rattle.ft_app.specs.Ends.{Ends, Only};
ghost use Rattle.ft_app.specs.Main.{IsPlain};

use crate::answer::answer;
use crate::carried_out::replayed;
use ft_io::{Sink, Source, Status};
use ft_words::Order;
use std::alloc::Global;

/// Carries an order out that isn't `Run`. `Replay` reads a script from the source, replays it and
/// writes its history to the sink, in the order's form. `Bulk` generates the script, reads nothing,
/// and writes a summary of the history. A script that is refused has the line written that says where
/// and why.
///
/// It gives the number of its [`Status`], which is never [`Status::Language`]. The steps come in
/// this order: read, script, memory for the replay, write. `NoMemory` may come in place of any step
/// before the write.
pub fn ft_plain<S: Source, K: Sink>(
    alloc: Global,
    order: &Order,
    source: &mut S,
    sink: &mut K,
) -> u8
    requires { IsPlain order.now }
    ensures ends { Ends S.remaining S.faults K.holds K.faults (Only order.now)
        result source.old source.new sink.old sink.new }
    ensures spoken { result ≢ code_of Status.Language }
{
    answer(
        alloc,
        order,
        |job| replayed(alloc, *order, job),
        source,
        sink,
    )
    .code()
}
