//! What an order prints of a history, written to a sink.

ghost use Rattle.std.specs.Prelude.{◌≡◌, List, OnOk, Ok, Err};
ghost use Rattle.std.specs.Io.KnownBytes.{Appends};
ghost use Rattle.ft_base.specs.declared.item.Item.{Item};
ghost use Rattle.ft_hist.specs.Rules.{IsLegal};
ghost use Rattle.ft_io.specs.Causes.{Rose, AppendsFront};
ghost use Rattle.trace_print.specs.Kept.{IsKeptOf, content_of};
ghost use Rattle.ft_app.specs.Reply.{IsKeptFor, content_to_keep, printed};

use crate::carried_out::CarriedOut;
use crate::reply::ReplyFail;
use ft_io::{Sink, write_all};
use ft_words::Order;
use std::alloc::Global;
use trace_print::{Kept, TextFail, summary_kept, write_kept, write_rings};

/// Writes what an order prints of a history of the job: a text in the order's form, of the rings that
/// threads have kept if there are some, or the summary. All memory is had before the first byte is
/// written.
pub(crate) fn write_printed<K: Sink>(
    alloc: Global,
    order: Order,
    carried_out: &CarriedOut,
    sink: &mut K,
) -> Result<(), ReplyFail>
    requires content { content_of carried_out.now.kept ≡ content_to_keep order }
    requires items { (items : List Item) × IsKeptOf carried_out.now.job items carried_out.now.kept × IsLegal carried_out.now.job items
        × IsKeptFor order carried_out.now.job items carried_out.now.rings }
    ensures all { (items : List Item) → IsKeptOf carried_out.now.job items carried_out.now.kept → OnOk result (Appends (K.holds sink.old) (K.holds sink.new)
        (printed order carried_out.now.job items carried_out.now.rings carried_out.now.ended)) }
    ensures front { (items : List Item) → IsKeptOf carried_out.now.job items carried_out.now.kept → result ≡ Err ReplyFail.Sink
        → AppendsFront (K.holds sink.old) (K.holds sink.new)
        (printed order carried_out.now.job items carried_out.now.rings carried_out.now.ended) }
    ensures fault { result ≡ Err ReplyFail.Sink → Rose (K.faults sink.old) (K.faults sink.new) }
    ensures memory { result ≡ Err ReplyFail.NoMemory → sink.new ≡ sink.old }
{
    let CarriedOut {
        job,
        kept,
        ended,
        rings,
    } = carried_out;
    match order {
        Order::Replay(form) => replied(write_kept(alloc, job, kept, *ended, form, sink)),
        Order::Run(form) => match rings {
            Some(rings) => match kept {
                Kept::History(history) => {
                    replied(write_rings(alloc, job, history, *ended, rings, sink))
                }
                _ => unreachable!(),
            },
            None => replied(write_kept(alloc, job, kept, *ended, form, sink)),
        },
        Order::Bulk(n) => {
            let text = summary_kept(alloc, n, kept, *ended).map_err(|_| ReplyFail::NoMemory)?;
            write_all(sink, text.as_slice()).map_err(|_| ReplyFail::Sink)
        }
    }
}

/// What the writing of a text came to, as that of a reply.
fn replied(written: Result<(), TextFail>) -> Result<(), ReplyFail>
    ensures all { OnOk result (written ≡ Ok tt) }
    ensures fault { result ≡ Err ReplyFail.Sink → written ≡ Err TextFail.Sink }
    ensures memory { result ≡ Err ReplyFail.NoMemory → written ≡ Err TextFail.NoMemory }
{
    match written {
        Ok(()) => Ok(()),
        Err(TextFail::NoMemory) => Err(ReplyFail::NoMemory),
        Err(TextFail::Sink) => Err(ReplyFail::Sink),
    }
}
