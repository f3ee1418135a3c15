//! The top call over any source and sink.

ghost use Rattle.std.specs.Prelude.{map};
ghost use Rattle.ft_words.specs.Language.{Gives};
ghost use Rattle.ft_app.specs.Ends.{Ends};

use crate::answer::answer;
use crate::plain::ft_plain;
use crate::run::run;
use ft_io::{Gate, Sink, Source, Status};
use ft_words::{Order, WordsFault, read_words};
use std::alloc::Global;
use std::sync::Wait;
use std::thread::Threads;

/// Reads the order that the words give, and carries it out. The words are the command's, without the
/// program's name. `Replay` and `Bulk` are carried out by [`ft_plain`]. `Run` reads a script from the
/// source, carries it out with running threads, and writes their history to the sink, in the order's
/// form. Each thread passes the gate before each of its steps. Each lane of a script is a thread, and
/// the commands go in the order in which their lock lets them through. For the form rings the threads
/// of the CPUs keep rings while they run, unless the script has lanes.
///
/// It gives the number of its [`Status`], and writes nothing elsewhere. The steps come in this
/// order: words, read, script, memory for the replay or the threads, write. `NoMemory` may come in
/// place of any step before the write. With `Run` it may wait without an end; what is promised holds
/// if it returns.
pub fn ft_main<R: Threads + Wait + Sync, S: Source, K: Sink, G: Gate>(
    rt: &R,
    alloc: Global,
    words: &[&str],
    source: &mut S,
    sink: &mut K,
    gate: &G,
) -> u8
    // With each status, what was read and written under the order that the words give, if they give one:
    // `Says` in specs/Ends has a line for each, and `Ends` what holds of all.
    ensures { Ends S.remaining S.faults K.holds K.faults (Gives (map (λ word. word.now) words.now))
        result source.old source.new sink.old sink.new }
{
    match read_words(alloc, words) {
        Ok(order) => match order {
            Order::Run(form) => {
                let carry_out = |job| run(rt, alloc, job, form, gate);
                answer(alloc, &order, carry_out, source, sink).code()
            }
            _ => ft_plain(alloc, &order, source, sink),
        },
        Err(WordsFault::Language) => Status::Language.code(),
        Err(WordsFault::NoMemory) => Status::NoMemory.code(),
    }
}
