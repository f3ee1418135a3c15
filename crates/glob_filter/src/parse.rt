//! From a text to its items.

ghost use Rattle.std.specs.Prelude.{◌≡◌, ◌≤◌, length, map, drop, IfOk};
ghost use Rattle.glob_filter.specs.Items.{ranges_of, class_end, class_at, first_item, items_of};
ghost use Rattle.glob_filter.specs.TokenItems.{bounds_of, item_of, token_items};

use crate::token::{ByteRange, Token};
use std::alloc::{AllocError, Global};

/// The ranges of a class's content: `a-b` is a range, and any other byte is itself.
fn read_ranges(alloc: Global, content: &[u8]) -> Result<Vec<ByteRange>, AllocError>
    ensures { IfOk result (λ v. map bounds_of v.items ≡ ranges_of content.now) }
{
    let mut ranges = Vec::new(alloc);
    let mut rest = content;
    while let [first, others @ ..] = rest {
        if let [b'-', last, after @ ..] = others {
            ranges.push(ByteRange {
                first: *first,
                last: *last,
            })?;
            rest = after;
        } else {
            ranges.push(ByteRange {
                first: *first,
                last: *first,
            })?;
            rest = others;
        }
    }
    Ok(ranges)
}

/// How many bytes are between the first byte of a class's content and the `]` that ends the class.
/// The first byte itself ends no class, so that `[]]` is the class of `]`.
fn find_class_end(content: &[u8]) -> Option<usize>
    ensures { result ≡ class_end content.now }
{
    match content.split_first() {
        None => None,
        Some((_, others)) => others.iter().position(|byte| *byte == b']'),
    }
}

/// What a `[` before this text begins, a class or the byte `[`, and what is left of the text.
fn read_class(alloc: Global, text: &[u8]) -> Result<(Token, &[u8]), AllocError>
    ensures item { IfOk result (λ r. item_of r.0 ≡ (class_at text.entry.now).0) }
    ensures rest { IfOk result (λ r. r.1.now ≡ drop (class_at text.entry.now).1 text.entry.now) }
{
    let (negated, content) = match text.split_first() {
        Some((b'!', content)) => (true, content),
        _ => (false, text),
    };
    match find_class_end(content) {
        None => Ok((Token::Byte(b'['), text)),
        Some(end) => {
            let ranges = read_ranges(alloc, &content[..end + 1])?;
            Ok((Token::Class { negated, ranges }, &content[end + 2..]))
        }
    }
}

/// The item that the byte begins before this text, and what is left of the text.
fn read_token(alloc: Global, first: u8, text: &[u8]) -> Result<(Token, &[u8]), AllocError>
    ensures item { IfOk result (λ r. item_of r.0 ≡ (first_item first text.entry.now).0) }
    ensures rest { IfOk result (λ r. r.1.now ≡ drop (first_item first text.entry.now).1 text.entry.now) }
{
    match first {
        b'*' => Ok((Token::Star, text)),
        b'?' => Ok((Token::Any, text)),
        b'[' => read_class(alloc, text),
        _ => Ok((Token::Byte(first), text)),
    }
}

/// The items of a text.
pub fn read_tokens(alloc: Global, text: &[u8]) -> Result<Vec<Token>, AllocError>
    ensures items { IfOk result (λ v. token_items v.items ≡ items_of text.now) }
    ensures most { IfOk result (λ v. length v.items ≤ length text.now) }
{
    let mut tokens = Vec::new(alloc);
    let mut rest = text;
    while let Some((first, others)) = rest.split_first() {
        let (token, after) = read_token(alloc, *first, others)?;
        tokens.push(token)?;
        rest = after;
    }
    Ok(tokens)
}
