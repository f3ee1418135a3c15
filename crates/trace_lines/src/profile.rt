//! How a line of the view profile is put.

ghost use Rattle.ft_io.specs.Pieces.{Puts};
ghost use Rattle.trace_views.specs.Words.{user_word};
ghost use Rattle.trace_views.specs.ProfileText.{profile_line_text, counts_line, row_line};

use crate::columns::{put_number, put_u64};
use crate::lines::{Line, put_user};
use ft_base::UserNo;
use ft_io::{Pieces, Sink};
use func_profile::ProfileRow;
use trace_views::{Named, ProfileLine};

impl Line for ProfileLine {
    ghost text = { profile_line_text };

    fn put<K: Sink, N: Named>(&self, pieces: &mut Pieces, sink: &mut K, names: &N) {
        match *self {
            ProfileLine::User(user) => put_user(pieces, sink, names, user),
            ProfileLine::Row(row) => put_row(pieces, sink, names, row),
            ProfileLine::Fprobe { user, hits, missed } => {
                put_fprobe(pieces, sink, names, user, hits, missed);
            }
        }
    }
}

/// Puts the line of a row.
fn put_row<K: Sink, N: Named>(pieces: &mut Pieces, sink: &mut K, names: &N, row: ProfileRow)
    ensures { Puts K.holds K.faults (row_line (N.job names.now) row)
        sink.old pieces.old sink.new pieces.new }
{
    pieces.put(sink, names.function(row.func).as_bytes());
    pieces.put(sink, b" ");
    put_number(pieces, sink, row.hits);
    pieces.put(sink, b" ");
    put_u64(pieces, sink, row.time);
    pieces.put(sink, b"\n");
}

/// Puts the line of an fprobe.
fn put_fprobe<K: Sink, N: Named>(
    pieces: &mut Pieces,
    sink: &mut K,
    names: &N,
    user: UserNo,
    hits: u32,
    missed: u32,
)
    ensures { Puts K.holds K.faults (counts_line (user_word (N.job names.now) user.0) hits missed)
        sink.old pieces.old sink.new pieces.new }
{
    pieces.put(sink, b"# fprobe ");
    pieces.put(sink, names.user(user).as_bytes());
    pieces.put(sink, b" hits ");
    put_number(pieces, sink, hits);
    pieces.put(sink, b" missed ");
    put_number(pieces, sink, missed);
    pieces.put(sink, b"\n");
}
