//! How a line of the view enabled is put.

ghost use Rattle.std.specs.Prelude.{◌≡◌, codes};
ghost use Rattle.ft_io.specs.Pieces.{Puts};
ghost use Rattle.trace_views.specs.LogText.{ran_words, joined};
ghost use Rattle.trace_views.specs.EnabledText.{enabled_line_text, flag_column};

use crate::columns::put_number;
use crate::lines::Line;
use crate::log::ran_parts;
use ft_base::Ran;
use ft_io::{Pieces, Sink};
use site_counts::Row;
use trace_views::{EnabledLine, Named};

impl Line for EnabledLine {
    ghost text = { enabled_line_text };

    fn put<K: Sink, N: Named>(&self, pieces: &mut Pieces, sink: &mut K, names: &N) {
        pieces.put(sink, names.function(self.function).as_bytes());
        pieces.put(sink, b" (");
        put_number(pieces, sink, self.row.count);
        pieces.put(sink, b")");
        pieces.put(sink, regs_column(self.row).as_bytes());
        pieces.put(sink, ipmodify_column(self.row).as_bytes());
        pieces.put(sink, b" ");
        put_ran(pieces, sink, names, self.ran);
        pieces.put(sink, b"\n");
    }
}

/// The column that says whether a user gets the registers.
fn regs_column(row: Row) -> &'static str
    ensures { result.now ≡ flag_column (codes "R") row.regs }
{
    if row.regs > 0 { " R" } else { "  " }
}

/// The column that says whether a user replaces the function.
fn ipmodify_column(row: Row) -> &'static str
    ensures { result.now ≡ flag_column (codes "I") row.ipmodify }
{
    if row.ipmodify > 0 { " I" } else { "  " }
}

/// Puts what was fetched at a call site.
fn put_ran<K: Sink, N: Named>(pieces: &mut Pieces, sink: &mut K, names: &N, ran: Ran)
    ensures { Puts K.holds K.faults (joined (ran_words (N.job names.now) ran))
        sink.old pieces.old sink.new pieces.new }
{
    let (word, user) = ran_parts(names, ran);
    pieces.put(sink, word.as_bytes());
    pieces.put(sink, user.as_bytes());
}
