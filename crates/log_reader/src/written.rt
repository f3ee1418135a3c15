//! The line of an item, as it is written.

ghost use Rattle.std.specs.Prelude.{◌≡◌, IfOk, OnOk};
ghost use Rattle.ft_io.specs.Pieces.{nothing};
ghost use Rattle.trace_views.specs.LogText.{log_line};

use ft_base::{Item, NoMemory};
use ft_io::Pieces;
use std::alloc::Global;
use trace_lines::{CallTexts, GrownText, put_line};
use trace_views::Named;

/// One line, to be compared with a text. The room for it is taken once, for all lines.
#[derive(Drop)]
pub(crate) struct Written {
    text: GrownText,
    pieces: Pieces,
    calls: CallTexts,
}

impl Written {
    /// No line yet.
    pub(crate) fn new(alloc: Global) -> Result<Written, NoMemory>
        ensures { IfOk result (λ w. w.pieces ≡ nothing) }
    {
        match Pieces::new(alloc) {
            Ok(pieces) => Ok(Written {
                text: GrownText::new(alloc),
                pieces,
                calls: CallTexts::new(),
            }),
            Err(_) => Err(NoMemory),
        }
    }

    /// Writes the line of an item at its place, in the place of the line before.
    pub(crate) fn write<N: Named>(
        &mut self,
        names: &N,
        place: u32,
        item: &Item,
    ) -> Result<(), NoMemory>
        requires { self.old.pieces ≡ nothing }
        ensures line { OnOk result (self.new.text.bytes.items ≡ log_line (N.job names.now) place item.now) }
        ensures ready { OnOk result (self.new.pieces ≡ nothing) }
    {
        self.text.bytes.clear();
        put_line(
            &mut self.pieces,
            &mut self.text,
            &mut self.calls,
            names,
            place,
            item,
        );
        self.pieces.flush(&mut self.text);
        if self.pieces.has_failed() {
            Err(NoMemory)
        } else {
            Ok(())
        }
    }

    /// The bytes of the line.
    pub(crate) fn line(&self) -> &[u8]
        ensures { result.now ≡ self.now.text.bytes.items }
    {
        self.text.bytes.as_slice()
    }
}
