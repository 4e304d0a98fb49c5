//! Compares a key in a path with a key of a map, and reads a step of a path as the index of an
//! array or as a name.

use cbor_bytes::head::read_head;
use cbor_bytes::strings::split_at;
use cbor_grammar::argument::Argument;
use cbor_grammar::head::ItemHead;
use cbor_grammar::strings::StringKind;
use cbor_trace::heads;

/// Whether a step with this key leads to that key of a map. Numbers and strings of definite length
/// are compared without widths. Other keys are the same if all their bytes are, but for a simple
/// value below 24 in two bytes. Both are one item.
pub fn is_key(wanted: &[u8], key: &[u8]) -> bool {
    if wanted == key {
        return true;
    }
    let (Ok((first, content)), Ok((second, same))) = (read_head(wanted), read_head(key)) else {
        return false;
    };
    match (first, second) {
        (ItemHead::Integer(value, _), ItemHead::Integer(other, _)) => value == other,
        (ItemHead::Negative(value, _), ItemHead::Negative(other, _)) => value == other,
        (
            ItemHead::String(StringKind::Bytes, Argument::Number(..)),
            ItemHead::String(StringKind::Bytes, Argument::Number(..)),
        )
        | (
            ItemHead::String(StringKind::Text, Argument::Number(..)),
            ItemHead::String(StringKind::Text, Argument::Number(..)),
        ) => content == same,
        _ => wanted.len() < key.len() && is_spelled_longer(wanted, key),
    }
}

/// Whether a key has the bytes of the wanted one, but for simple values below 24 in a non-minimal
/// encoding.
fn is_spelled_longer(wanted: &[u8], key: &[u8]) -> bool {
    let (mut at, mut place) = (0usize, 0usize);
    for _ in 0..key.len() {
        if place >= key.len() {
            break;
        }
        let len = heads::step(key, place);
        let head = key.get(place..place.saturating_add(len)).unwrap_or(b"");
        let short = [0xe0 | head.last().copied().unwrap_or(0)];
        let spelled = match head {
            [0xf8, 0..24] => short.as_slice(),
            _ => head,
        };
        let end = at.saturating_add(spelled.len());
        if wanted.get(at..end) != Some(spelled) {
            return false;
        }
        at = end;
        place = place.saturating_add(len);
    }
    at == wanted.len()
}

/// The index that a key is, if it is one.
pub(crate) fn index_of(key: &[u8]) -> Option<u64> {
    match read_head(key) {
        Ok((ItemHead::Integer(index, _), _)) => Some(index),
        _ => None,
    }
}

/// The text that a key is, if it is one of definite length.
pub(crate) fn text_of(key: &[u8]) -> Option<&str> {
    let Ok((ItemHead::String(StringKind::Text, Argument::Number(len, _)), rest)) = read_head(key)
    else {
        return None;
    };
    let Ok((content, _)) = split_at(rest, len) else {
        return None;
    };
    match str::from_utf8(content) {
        Ok(text) => Some(text),
        Err(_) => None,
    }
}
