//! How a line of the view rings is put.

ghost use Rattle.ft_io.specs.Pieces.{Puts};
ghost use Rattle.trace_views.specs.RingLines.{rings_line_text};
ghost use Rattle.trace_views.specs.RingsText.{cpu_line, trigger_line};

use crate::columns::put_number;
use crate::lines::Line;
use ft_io::{Pieces, Sink};
use trace_views::{Named, RingsLine};

impl Line for RingsLine {
    ghost text = { rings_line_text };

    fn put<K: Sink, N: Named>(&self, pieces: &mut Pieces, sink: &mut K, names: &N) {
        match self {
            RingsLine::Cpu { cpu, held, written } => put_cpu(pieces, sink, *cpu, *held, *written),
            RingsLine::Entry(line) => line.put(pieces, sink, names),
            RingsLine::Trigger { trigger, fired } => put_trigger(pieces, sink, *trigger, *fired),
        }
    }
}

/// Puts the head of a CPU.
fn put_cpu<K: Sink>(pieces: &mut Pieces, sink: &mut K, cpu: u32, held: u32, written: u32)
    ensures { Puts K.holds K.faults (cpu_line cpu held written)
        sink.old pieces.old sink.new pieces.new }
{
    pieces.put(sink, b"# cpu ");
    put_number(pieces, sink, cpu);
    pieces.put(sink, b" entries ");
    put_number(pieces, sink, held);
    pieces.put(sink, b"/");
    put_number(pieces, sink, written);
    pieces.put(sink, b"\n");
}

/// Puts how often a trigger fired.
fn put_trigger<K: Sink>(pieces: &mut Pieces, sink: &mut K, trigger: u32, fired: u32)
    ensures { Puts K.holds K.faults (trigger_line trigger fired)
        sink.old pieces.old sink.new pieces.new }
{
    pieces.put(sink, b"# trigger ");
    put_number(pieces, sink, trigger);
    pieces.put(sink, b" fired ");
    put_number(pieces, sink, fired);
    pieces.put(sink, b"\n");
}
