//! The lines of a view. A view is worked out line by line, as numbers, and then put: what takes
//! memory comes before the first byte that is written.

ghost use Rattle.ft_io.specs.Pieces.{Puts};
ghost use Rattle.trace_views.specs.Words.{lines_text, user_line, user_word};

use ft_base::UserNo;
use ft_io::{Pieces, Sink};
use trace_views::Named;

/// A line of a view, as numbers.
pub trait Line {
    ghost use Rattle.std.specs.Prelude.{ℕ, List};
    ghost use Rattle.ft_base.specs.Job.{Job};

    /// Its text, with the names of a job.
    ghost text: { Job → Self → List ℕ };

    /// Puts its text. It takes no memory.
    fn put<K: Sink, N: Named>(&self, pieces: &mut Pieces, sink: &mut K, names: &N)
        ensures { Puts K.holds K.faults (text (N.job names.now) self.now)
            sink.old pieces.old sink.new pieces.new };
}

/// Puts the line with the name of a user, whose lines follow.
pub(crate) fn put_user<K: Sink, N: Named>(
    pieces: &mut Pieces,
    sink: &mut K,
    names: &N,
    user: UserNo,
)
    ensures { Puts K.holds K.faults (user_line (user_word (N.job names.now) user.0))
        sink.old pieces.old sink.new pieces.new }
{
    pieces.put(sink, b"# user ");
    pieces.put(sink, names.user(user).as_bytes());
    pieces.put(sink, b"\n");
}

/// Puts the lines of a view, up to the first after the sink has failed.
pub fn put_lines<L: Line, K: Sink, N: Named>(
    pieces: &mut Pieces,
    sink: &mut K,
    names: &N,
    lines: &[L],
)
    ensures { Puts K.holds K.faults (lines_text (L.text (N.job names.now)) lines.now)
        sink.old pieces.old sink.new pieces.new }
{
    for line in lines {
        if pieces.has_failed() {
            return;
        }
        line.put(pieces, sink, names);
    }
}
