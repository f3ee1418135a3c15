//! How a line of the view modules is put.

ghost use Rattle.std.specs.Prelude.{◌≡◌};
ghost use Rattle.trace_views.specs.ModulesText.{load_word, module_line_text};

use crate::columns::put_number;
use crate::lines::Line;
use crate::log::put_answer;
use ft_io::{Pieces, Sink};
use trace_views::{ModuleLine, Named};

impl Line for ModuleLine {
    ghost text = { module_line_text };

    fn put<K: Sink, N: Named>(&self, pieces: &mut Pieces, sink: &mut K, names: &N) {
        pieces.put(sink, load_name(self.load).as_bytes());
        pieces.put(sink, b" ");
        pieces.put(sink, names.module(self.module).as_bytes());
        pieces.put(sink, b" ");
        put_answer(pieces, sink, names, self.answer);
        pieces.put(sink, b" ");
        put_number(pieces, sink, self.first);
        pieces.put(sink, b" ");
        put_number(pieces, sink, self.last);
        pieces.put(sink, b"\n");
    }
}

/// The word for what a line does to its module.
fn load_name(load: bool) -> &'static str
    ensures { result.now ≡ load_word load }
{
    if load { "load" } else { "unload" }
}
