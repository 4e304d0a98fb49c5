//! `way_to`: the path to the item that begins at a byte, as `cborcat -p` takes it without names.
//! `@` goes into a byte string.

use cbor_bytes::{Extent, extent};
use cbor_edn_writer::{EdnStyle, push_bytes_to_edn};
use cbor_grammar::Error;
use cbor_grammar::argument::Argument;
use cbor_grammar::head::ItemHead;
use cbor_grammar::strings::StringKind;
use cbor_trace::{Open, Spot, head_at, part_at};
use std::alloc::{AllocError, Global};
use std::fmt::Write;

/// Appends the slash before a step, if it is not the first.
fn push_slash(path: &mut String) -> Result<(), AllocError> {
    if !path.is_empty() {
        path.push('/')?;
    }
    Ok(())
}

/// Whether a step that is this text is read as a text without quotes.
fn is_word(text: &[u8]) -> bool {
    for byte in text {
        if !byte.is_ascii_alphanumeric() && *byte != b'_' {
            return false;
        }
    }
    let reserved = matches!(
        text,
        b"" | b"true" | b"false" | b"null" | b"undefined" | b"Infinity" | b"NaN"
    );
    match text.first() {
        Some(first) => first.is_ascii_alphabetic() && !reserved,
        None => false,
    }
}

/// Appends the step of a key.
fn push_key(path: &mut String, key: &[u8]) -> Result<(), Error> {
    push_slash(path)?;
    if let Some((ItemHead::String(StringKind::Text, Argument::Number(..)), begins)) = head_at(
        key, 0,
    )
        && let Some(text) = key.get(begins..)
        && is_word(text)
        && let Ok(text) = str::from_utf8(text)
    {
        path.push_str(text)?;
        return Ok(());
    }
    push_bytes_to_edn(*path.allocator(), key, EdnStyle::LINE, path)
}

/// The content of a byte string of definite length, and where it begins.
fn content(bytes: &[u8], start: usize) -> Option<(&[u8], usize)> {
    let (ItemHead::String(StringKind::Bytes, Argument::Number(len, _)), inner) = head_at(
        bytes, start,
    )?
    else {
        return None;
    };
    let Ok(len) = usize::try_from(len) else {
        return None;
    };
    Some((bytes.get(inner..inner.saturating_add(len))?, inner))
}

/// Where the item begins that a byte belongs to, of items one after the other.
fn item_with(bytes: &[u8], at: usize) -> usize {
    let mut begins = 0usize;
    for _ in 0..bytes.len() {
        let Extent::Item(len) = extent(bytes.get(begins..).unwrap_or(b"")) else {
            break;
        };
        if at < begins.saturating_add(len) {
            break;
        }
        begins = begins.saturating_add(len);
    }
    begins
}

/// Appends the steps to the innermost item that the byte `at` belongs to, without going into byte
/// strings, and returns where that item begins.
fn push_steps(path: &mut String, bytes: &[u8], at: usize) -> Result<usize, Error> {
    let mut spot = Spot::outermost();
    for _ in 0..=u8::MAX {
        let Some(part) = part_at(bytes, spot, at) else {
            break;
        };
        match part.open {
            Open::Array { index, .. } => {
                push_slash(path)?;
                write!(path, "{index}")?;
            }
            Open::Value { key, .. } => {
                push_key(path, bytes.get(key..part.start).unwrap_or(b""))?;
            }
            Open::Key { .. } | Open::Tag { .. } => {}
        }
        spot = spot.of_part(part);
    }
    Ok(spot.start)
}

/// The path to the item whose head begins at a place, which is no key of a map.
pub(crate) fn way_to(alloc: Global, bytes: &[u8], place: usize) -> Result<String, Error> {
    let mut path = String::new(alloc);
    let mut rest = bytes;
    let mut at = place;
    for _ in 0..bytes.len() {
        let start = push_steps(&mut path, rest, at)?;
        let Some((inside, inner)) = content(rest, start) else {
            break;
        };
        if at < inner {
            break;
        }
        let begins = item_with(inside, at - inner);
        push_slash(&mut path)?;
        path.push('@')?;
        if begins > 0 {
            write!(path, "{begins}")?;
        }
        rest = inside.get(begins..).unwrap_or(b"");
        at = at.saturating_sub(inner).saturating_sub(begins);
    }
    Ok(path)
}
