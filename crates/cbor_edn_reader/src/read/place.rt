//! Finds where in an EDN text the item begins that has a byte of what the text denotes. It reads
//! item after item, and goes into the one that has the byte.
ghost use Rattle.std.specs.Prelude.{◌≤◌, length, IfOk};

use super::read_item;
use cbor_bytes::head::read_head;
use cbor_edn_grammar::close::Close;
use cbor_edn_grammar::error::Stop;
use cbor_edn_grammar::opening::Opening;
use cbor_edn_grammar::word::begins_number;
use cbor_edn_tokens::close::take_length;
use cbor_edn_tokens::cursor::Cursor;
use cbor_edn_tokens::opening::opening_at;
use std::alloc::{AllocError, Global};

/// Passes what is between two items of a list: blanks, and a comma or a colon.
fn skip_separator(text: &mut Cursor<'_>) {
    text.skip_blank();
    if text.take_byte(b',') || text.take_byte(b':') {
        text.skip_blank();
    }
}

/// How many bytes the head of an item has.
fn head_len(item: &[u8]) -> usize {
    match read_head(item) {
        Ok((_, rest)) => item.len().saturating_sub(rest.len()),
        Err(_) => 0,
    }
}

/// The text from the members on of a list whose opening is before it.
fn members<'a>(list: &'a [u8], close: Close) -> Cursor<'a> {
    let mut text = Cursor::new(list);
    let _ = take_length(&mut text, close);
    text
}

/// The text from the first item on that is in the item at the front, if that may have others.
fn content_of(item: &[u8]) -> Option<Cursor<'_>> {
    match item {
        [b'[', rest @ ..] => return Some(members(rest, Close::Bracket)),
        [b'{', rest @ ..] => return Some(members(rest, Close::Brace)),
        [b'(', rest @ ..] => return Some(members(rest, Close::Parenthesis)),
        _ => {}
    }
    if let Some((Opening::Angles, rest)) = opening_at(item) {
        return Some(Cursor::new(rest));
    }
    let (_, mut after) = Cursor::new(item).split_word();
    if begins_number(item) && after.take_byte(b'(') {
        Some(after)
    } else {
        None
    }
}

/// Where in an EDN text the innermost item begins whose encoding has the byte of this number, of
/// the bytes that [`edn_to_bytes`] returns; the text's length if there is no such byte.
///
/// [`edn_to_bytes`]: super::edn_to_bytes
pub fn place_of_byte(alloc: Global, text: &str, byte: usize) -> Result<usize, AllocError>
    ensures { IfOk result (λ place. place ≤ length text.now) }
{
    let mut place = text.len();
    let mut rest = Cursor::new(text.as_bytes());
    let mut left = byte;
    for _ in 0..u64::MAX {
        skip_separator(&mut rest);
        let item = rest.rest();
        let mut bytes = Vec::new(alloc);
        match read_item(&mut bytes, &mut rest, 1) {
            Ok(_) => {}
            Err(Stop::Memory) => return Err(AllocError),
            Err(Stop::At(_)) => break,
        }
        if bytes.len() <= left {
            left -= bytes.len();
            continue;
        }
        place = text.len().saturating_sub(item.len());
        let head = head_len(&bytes);
        match content_of(item) {
            Some(content) if head <= left => {
                rest = content;
                left -= head;
            }
            _ => break,
        }
    }
    Ok(place.min(text.len()))
}
