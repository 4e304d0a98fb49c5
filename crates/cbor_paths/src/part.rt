//! Follows one step of a path from an item: to a member of an array, the value of a key, each
//! member, a part by the name that is shown, or the item in a byte string.

use crate::key::{index_of, is_key, text_of};
use crate::members::{At, Below, Members};
use crate::picture::Picture;
use crate::skip::bytes_from;
use crate::step::Step;
use cbor_bytes::{Extent, extent};
use cbor_grammar::layout::Content;
use cbor_inside::{ByteString, content_after};
use std::alloc::AllocError;

/// The tag of a byte string that is items, one after the other.
const SEQUENCE: u64 = 63;

/// The content of a byte string of definite length.
fn content(bytes: &[u8], below: Below) -> Option<&[u8]> {
    content_after(below.head, bytes_from(bytes, below.inner))
}

/// The item that a byte string encodes, or the first of them below tag 63.
fn inside(bytes: &[u8], below: Below) -> Option<At> {
    let content = content(bytes, below)?;
    match extent(content) {
        Extent::Item(len) if len == content.len() || below.tag == Some(SEQUENCE) => {
            Some(below.item_in(below.inner))
        }
        _ => None,
    }
}

/// The item that begins at a byte of a byte string.
fn inside_at(bytes: &[u8], below: Below, byte: usize) -> Option<At> {
    let content = content(bytes, below)?;
    match extent(content.get(byte..)?) {
        Extent::Item(_) => Some(below.item_in(below.inner.saturating_add(byte))),
        _ => None,
    }
}

/// The item in a byte string that is shown as the items in it; of several the first.
fn shown_inside(bytes: &[u8], below: Below, picture: Picture) -> Option<At> {
    let string = ByteString {
        start: below.start,
        level: below.level,
        tag: below.tag,
    };
    match picture.content(string, content(bytes, below)?) {
        Content::Bytes => None,
        _ => inside(bytes, below),
    }
}

/// The item itself, or the item in it, as long as it is a byte string that is shown so: the first
/// that is none.
pub(crate) fn shown_below(bytes: &[u8], at: At, picture: Picture) -> Option<Below> {
    let mut below = Below::new(bytes, at)?;
    for _ in 0..bytes.len() {
        match shown_inside(bytes, below, picture) {
            Some(inner) => below = Below::new(bytes, inner)?,
            None => break,
        }
    }
    Some(below)
}

/// The member of an array at the index that a key is, or the value of that key in a map.
fn keyed(bytes: &[u8], members: Members, key: &[u8]) -> Option<At> {
    let mut members = members;
    if members.is_map() {
        for _ in 0..u64::MAX {
            let at = members.next(bytes)?;
            if is_key(key, bytes.get(at.named..at.start).unwrap_or(b"")) {
                return Some(at);
            }
        }
        return None;
    }
    for _ in 0..index_of(key)? {
        let _ = members.next(bytes)?;
    }
    members.next(bytes)
}

/// The member that has this name in the picture.
fn named(bytes: &[u8], members: Members, name: &str, picture: Picture) -> Option<At> {
    let mut members = members;
    for _ in 0..u64::MAX {
        let at = members.next(bytes)?;
        if picture.name_at(at.named) == name {
            return Some(at);
        }
    }
    None
}

/// The item in a byte string that has this name in the picture, whatever bytes are around it: in
/// one that holds no item by its own name, as authenticator data.
fn named_inside(bytes: &[u8], below: Below, name: &str, picture: Picture) -> Option<At> {
    if picture.is_encoded(below.start) {
        return None;
    }
    let len = content(bytes, below)?.len();
    for note in picture.notes {
        let byte = note.start.saturating_sub(below.inner);
        if note.start >= below.inner && byte < len && note.before == name {
            return inside_at(bytes, below, byte);
        }
    }
    None
}

/// Where a key leads: to an index or a key, or else to a name that is shown.
fn member(bytes: &[u8], around: At, key: &[u8], picture: Picture) -> Option<At> {
    let below = shown_below(bytes, around, picture)?;
    let Some(members) = Members::new(below) else {
        return named_inside(bytes, below, text_of(key)?, picture);
    };
    if let Some(at) = keyed(bytes, members, key) {
        return Some(at);
    }
    if picture.notes.is_empty() {
        return None;
    }
    named(bytes, members, text_of(key)?, picture)
}

/// Appends each member of the item at a place.
fn push_members(
    places: &mut Vec<At>,
    bytes: &[u8],
    around: At,
    picture: Picture,
) -> Result<(), AllocError> {
    let Some(below) = shown_below(bytes, around, picture) else {
        return Ok(());
    };
    let Some(mut members) = Members::new(below) else {
        return Ok(());
    };
    let tag = around.tag_around(bytes);
    for _ in 0..bytes.len() {
        let Some(at) = members.next(bytes) else {
            break;
        };
        places.push(At { tag, ..at })?;
    }
    Ok(())
}

/// Appends where a step leads from the item at a place.
pub(crate) fn push_next(
    places: &mut Vec<At>,
    bytes: &[u8],
    around: At,
    way: (&Step, Picture),
) -> Result<(), AllocError> {
    let (step, picture) = way;
    let below = Below::new(bytes, around);
    let next = match (step, below) {
        (Step::Each, _) => return push_members(places, bytes, around, picture),
        (Step::Key(key), _) => member(bytes, around, key, picture),
        (Step::Inside, Some(below)) => inside(bytes, below),
        (Step::InsideAt(byte), Some(below)) => inside_at(bytes, below, *byte),
        (_, None) => None,
    };
    if let Some(at) = next {
        places.push(At {
            tag: around.tag_around(bytes),
            ..at
        })?;
    }
    Ok(())
}
