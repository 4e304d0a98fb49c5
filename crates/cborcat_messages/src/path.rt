//! The path to a part of an item, as `-p` takes it, also through byte strings that hold items.

use cbor_bytes::{Extent, extent};
use cbor_grammar::argument::Argument;
use cbor_grammar::head::ItemHead;
use cbor_grammar::strings::StringKind;
use cbor_places::{Around, Path, Piece, item_with};
use cbor_trace::head_at;
use std::alloc::{AllocError, Global};

/// Appends steps to a path.
pub fn push_steps(path: &mut String, steps: &str) -> Result<(), AllocError> {
    if !path.is_empty() && !steps.is_empty() {
        path.push('/')?;
    }
    path.push_str(steps)
}

/// The path to the part that begins at a byte of an item.
pub fn path_to(alloc: Global, item: Piece, start: usize) -> Result<String, AllocError> {
    let mut path = String::new(alloc);
    let byte = item.number(start);
    let mut piece = item;
    for _ in 0..=u8::MAX {
        let around = Around::new(alloc, piece, byte.saturating_sub(piece.begins))?;
        if !around.path.is_empty() {
            push_steps(&mut path, around.path.as_str())?;
        }
        let Some(content) = content_with(piece, around.spot.start, byte) else {
            break;
        };
        let (_, inner) = item_with(content, byte);
        let mut step = Path::new(alloc, 0);
        step.push_inside(match extent(content.bytes) {
            Extent::Item(len) if len == content.bytes.len() => None,
            _ => Some(inner.begins.saturating_sub(content.begins)),
        })?;
        push_steps(&mut path, step.as_str())?;
        piece = inner;
    }
    Ok(path)
}

/// The content of the byte string that begins at a place of a piece, if it has this byte of the
/// data.
fn content_with(piece: Piece<'_>, start: usize, byte: usize) -> Option<Piece<'_>> {
    let (head, place) = head_at(piece.bytes, start)?;
    let ItemHead::String(StringKind::Bytes, Argument::Number(len, _)) = head else {
        return None;
    };
    let end = place.checked_add(usize::try_from(len).ok()?)?;
    let content = Piece {
        begins: piece.number(place),
        bytes: piece.bytes.get(place..end)?,
    };
    if byte < content.begins || byte >= piece.number(end) {
        return None;
    }
    Some(content)
}
