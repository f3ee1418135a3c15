//! How a line of the view function is put.

ghost use Rattle.std.specs.Prelude.{◌≡◌};
ghost use Rattle.ft_io.specs.Pieces.{Puts};
ghost use Rattle.trace_views.specs.FunctionText.{context_letter};
ghost use Rattle.trace_views.specs.OpenCalls.{parent_name, line_front, line_call, function_line_text};

use crate::columns::{put_right, put_three_digits};
use crate::lines::Line;
use ft_base::{Ctx, FuncNo};
use ft_io::{Pieces, Sink};
use trace_views::{FunctionLine, Named, TaskName};

impl Line for FunctionLine {
    ghost text = { function_line_text };

    fn put<K: Sink, N: Named>(&self, pieces: &mut Pieces, sink: &mut K, names: &N) {
        put_front(pieces, sink, names, self);
        put_call(pieces, sink, names, self);
    }
}

/// Puts the pid, the CPU, the context and the place.
fn put_front<K: Sink, N: Named>(pieces: &mut Pieces, sink: &mut K, names: &N, line: &FunctionLine)
    ensures { Puts K.holds K.faults (line_front (N.job names.now) line.now)
        sink.old pieces.old sink.new pieces.new }
{
    let TaskName { pid, cpu } = names.task(line.task);
    put_right(pieces, sink, 7, pid);
    pieces.put(sink, b" [");
    put_three_digits(pieces, sink, cpu);
    pieces.put(sink, b"] ");
    pieces.put(sink, context_letter(line.ctx).as_bytes());
    pieces.put(sink, b" ");
    put_right(pieces, sink, 8, line.place);
    pieces.put(sink, b": ");
}

/// Puts the functions and the user.
fn put_call<K: Sink, N: Named>(pieces: &mut Pieces, sink: &mut K, names: &N, line: &FunctionLine)
    ensures { Puts K.holds K.faults (line_call (N.job names.now) line.now)
        sink.old pieces.old sink.new pieces.new }
{
    pieces.put(sink, names.function(line.func).as_bytes());
    pieces.put(sink, b" <-");
    pieces.put(sink, parent_name(names, line.parent).as_bytes());
    pieces.put(sink, b" (");
    pieces.put(sink, names.user(line.user).as_bytes());
    pieces.put(sink, b")\n");
}

/// A context, in the column of the flags of an interrupt.
fn context_letter(ctx: Ctx) -> &'static str
    ensures { result.now ≡ context_letter ctx }
{
    match ctx {
        Ctx::Normal => ".",
        Ctx::Softirq => "s",
        Ctx::Irq => "h",
        Ctx::Nmi => "z",
    }
}

/// What the call of a line is called from: a function, or `root` if no other call is open.
fn parent_name<'a, N: Named>(names: &'a N, parent: Option<FuncNo>) -> &'a str
    ensures { result.now ≡ parent_name (N.job names.now) parent }
{
    match parent {
        Some(func) => names.function(func),
        None => "root",
    }
}
