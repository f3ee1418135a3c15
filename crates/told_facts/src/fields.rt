//! How fields are put.

ghost use Rattle.std.specs.Prelude.{◌≡◌, ◌++◌, true, codes, map};
ghost use Rattle.std.specs.Fmt.{decimal};
ghost use Rattle.ft_io.specs.Pieces.{Puts};
ghost use Rattle.told_items.specs.ItemText.{comma};
ghost use Rattle.told_facts.specs.Commands.{answer_text};
ghost use Rattle.told_facts.specs.Values.{escaped, escaped_byte, or_null, space, words_after};

use ft_base::Answer;
use ft_io::{Pieces, Sink};
use trace_lines::put_number;
use trace_print::Names;
use trace_views::Named;

/// Puts what stands before a number, and the number.
#[inline(always)]
pub(crate) fn put_named<K: Sink>(pieces: &mut Pieces, sink: &mut K, front: &[u8], n: u32)
    ensures { Puts K.holds K.faults (front.now ++ decimal n) sink.old pieces.old sink.new pieces.new }
{
    pieces.put(sink, front);
    put_number(pieces, sink, n);
}

/// Puts what stands before a text without a byte that JSON escapes, up to its quote, and the text.
#[inline(always)]
pub(crate) fn put_text<K: Sink>(pieces: &mut Pieces, sink: &mut K, front: &[u8], text: &str)
    ensures { Puts K.holds K.faults (front.now ++ (text.now ++ codes "\"")) sink.old pieces.old sink.new pieces.new }
{
    pieces.put(sink, front);
    pieces.put(sink, text.as_bytes());
    pieces.put(sink, b"\"");
}

/// Puts what stands before such a text, and the text or null.
pub(crate) fn put_option<K: Sink>(
    pieces: &mut Pieces,
    sink: &mut K,
    front: &[u8],
    text: Option<&str>,
) {
    pieces.put(sink, front);
    match text {
        Some(text) => put_text(pieces, sink, b"\"", text),
        None => pieces.put(sink, b"null"),
    }
}

/// Puts what stands before a truth, and the truth.
pub(crate) fn put_truth<K: Sink>(pieces: &mut Pieces, sink: &mut K, front: &[u8], is_so: bool) {
    pieces.put(sink, front);
    let word = if is_so { "true" } else { "false" };
    pieces.put(sink, word.as_bytes());
}

/// Puts what stands before a number, and the number or null.
pub(crate) fn put_number_or_null<K: Sink>(
    pieces: &mut Pieces,
    sink: &mut K,
    front: &[u8],
    n: Option<u32>,
)
    ensures { Puts K.holds K.faults (front.now ++ or_null decimal n) sink.old pieces.old sink.new pieces.new }
{
    pieces.put(sink, front);
    match n {
        Some(n) => put_number(pieces, sink, n),
        None => pieces.put(sink, b"null"),
    }
}

/// What stands before an element of a list.
pub(crate) fn comma(is_first: bool) -> &'static str
    ensures { result.now ≡ comma is_first }
{
    if is_first { "" } else { ", " }
}

/// Puts words with a space between them, as they stand in a text: a quote or a backslash has a backslash
/// before it.
pub(crate) fn put_words<K: Sink>(pieces: &mut Pieces, sink: &mut K, words: &[&str])
    ensures { Puts K.holds K.faults (words_after true (map (λ w. w.now) words.now)) sink.old pieces.old sink.new pieces.new }
{
    let mut is_first = true;
    for word in words {
        pieces.put(sink, space(is_first).as_bytes());
        put_escaped(pieces, sink, word.as_bytes());
        is_first = false;
    }
}

/// What stands before a word.
fn space(is_first: bool) -> &'static str
    ensures { result.now ≡ space is_first }
{
    if is_first { "" } else { " " }
}

/// Puts bytes as they stand in a text.
fn put_escaped<K: Sink>(pieces: &mut Pieces, sink: &mut K, bytes: &[u8])
    ensures { Puts K.holds K.faults (escaped bytes.now) sink.old pieces.old sink.new pieces.new }
{
    for byte in bytes {
        put_byte(pieces, sink, *byte);
    }
}

/// Puts a byte as it stands in a text.
fn put_byte<K: Sink>(pieces: &mut Pieces, sink: &mut K, byte: u8)
    ensures { Puts K.holds K.faults (escaped_byte byte) sink.old pieces.old sink.new pieces.new }
{
    if byte == b'"' || byte == b'\\' {
        pieces.put(sink, &[b'\\', byte]);
    } else {
        pieces.put(sink, &[byte]);
    }
}

/// Puts an answer, as the log has it.
pub(crate) fn put_answer<K: Sink>(
    pieces: &mut Pieces,
    sink: &mut K,
    names: &Names<'_>,
    answer: Answer,
)
    ensures { Puts K.holds K.faults (answer_text names.now answer) sink.old pieces.old sink.new pieces.new }
{
    match answer {
        Answer::Accepted => pieces.put(sink, b"ok"),
        Answer::Already => pieces.put(sink, b"already"),
        Answer::NotThere => pieces.put(sink, b"not-there"),
        Answer::Invalid => pieces.put(sink, b"invalid"),
        Answer::NoMatch => pieces.put(sink, b"no-match"),
        Answer::Busy { func, holder } => {
            pieces.put(sink, b"busy ");
            pieces.put(sink, names.function(func).as_bytes());
            pieces.put(sink, b" ");
            pieces.put(sink, names.user(holder).as_bytes());
        }
    }
}
