//! How a line of the view graph is put.

ghost use Rattle.ft_io.specs.Pieces.{Puts};
ghost use Rattle.trace_views.specs.Words.{function_word};
ghost use Rattle.trace_views.specs.GraphText.{time_column};
ghost use Rattle.trace_views.specs.GraphLines.{graph_front, entry_text, exit_text, graph_line_text};

use crate::columns::{put_indent, put_right};
use crate::lines::{Line, put_user};
use ft_base::TaskNo;
use ft_io::{Pieces, Sink};
use trace_views::{GraphLine, Named, Shown, TaskName};

/// Puts the column of a time, which is empty at an entry.
fn put_time<K: Sink>(pieces: &mut Pieces, sink: &mut K, time: Option<u32>)
    ensures { Puts K.holds K.faults (time_column time) sink.old pieces.old sink.new pieces.new }
{
    match time {
        Some(time) => put_right(pieces, sink, 8, time),
        None => pieces.put(sink, b"        "),
    }
}

/// Puts a line of a task up to its text: the CPU, the pid, the time and two spaces for each level.
fn put_front<K: Sink, N: Named>(
    pieces: &mut Pieces,
    sink: &mut K,
    names: &N,
    task: TaskNo,
    time: Option<u32>,
    level: u32,
)
    ensures { Puts K.holds K.faults (graph_front (N.job names.now) task.0 time level)
        sink.old pieces.old sink.new pieces.new }
{
    let TaskName { pid, cpu } = names.task(task);
    put_right(pieces, sink, 2, cpu);
    pieces.put(sink, b") ");
    put_right(pieces, sink, 7, pid);
    pieces.put(sink, b" | ");
    put_time(pieces, sink, time);
    pieces.put(sink, b" | ");
    put_indent(pieces, sink, level);
}

/// Puts the line of an entry callback; a leaf has a time.
fn put_entry<K: Sink, N: Named>(
    pieces: &mut Pieces,
    sink: &mut K,
    names: &N,
    shown: Shown,
    time: Option<u32>,
)
    ensures { Puts K.holds K.faults
        (entry_text (N.job names.now) shown.task.0 shown.level (function_word (N.job names.now) shown.func.0) time)
        sink.old pieces.old sink.new pieces.new }
{
    put_front(pieces, sink, names, shown.task, time, shown.level);
    pieces.put(sink, names.function(shown.func).as_bytes());
    match time {
        None => pieces.put(sink, b"() {\n"),
        Some(_) => pieces.put(sink, b"();\n"),
    }
}

/// Puts the line of an exit callback.
fn put_exit<K: Sink, N: Named>(
    pieces: &mut Pieces,
    sink: &mut K,
    names: &N,
    shown: Shown,
    time: u32,
)
    ensures { Puts K.holds K.faults
        (exit_text (N.job names.now) shown.task.0 shown.level (function_word (N.job names.now) shown.func.0) time)
        sink.old pieces.old sink.new pieces.new }
{
    put_front(pieces, sink, names, shown.task, Some(time), shown.level);
    pieces.put(sink, b"} /* ");
    pieces.put(sink, names.function(shown.func).as_bytes());
    pieces.put(sink, b" */\n");
}

impl Line for GraphLine {
    ghost text = { graph_line_text };

    fn put<K: Sink, N: Named>(&self, pieces: &mut Pieces, sink: &mut K, names: &N) {
        match *self {
            GraphLine::User(user) => put_user(pieces, sink, names, user),
            GraphLine::Entry { shown, time } => put_entry(pieces, sink, names, shown, time),
            GraphLine::Exit { shown, time } => put_exit(pieces, sink, names, shown, time),
        }
    }
}
