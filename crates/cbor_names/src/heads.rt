//! Skips heads and strings fast, with a table of first bytes. Also tests whether a tag is next.

ghost use Rattle.std.specs.Prelude.{◌<◌, length, IfSome};

use cbor_bytes::head::read_head;
use cbor_bytes::strings::split_at;
use cbor_grammar::argument::Argument;
use cbor_grammar::head::ItemHead;

/// How many bytes the head with this first byte takes, with the content of a string of less than 24
/// bytes; 0 of a longer string, and where there is no head.
const STEPS: [u8; 256] = [
    1, 1, 1, 1, 1, 1, 1, 1, 1, 1, 1, 1, 1, 1, 1, 1, 1, 1, 1, 1, 1, 1, 1, 1, 2, 3, 5, 9, 0, 0, 0, 0,
    1, 1, 1, 1, 1, 1, 1, 1, 1, 1, 1, 1, 1, 1, 1, 1, 1, 1, 1, 1, 1, 1, 1, 1, 2, 3, 5, 9, 0, 0, 0, 0,
    1, 2, 3, 4, 5, 6, 7, 8, 9, 10, 11, 12, 13, 14, 15, 16, 17, 18, 19, 20, 21, 22, 23, 24, 0, 0, 0,
    0, 0, 0, 0, 1, 1, 2, 3, 4, 5, 6, 7, 8, 9, 10, 11, 12, 13, 14, 15, 16, 17, 18, 19, 20, 21, 22,
    23, 24, 0, 0, 0, 0, 0, 0, 0, 1, 1, 1, 1, 1, 1, 1, 1, 1, 1, 1, 1, 1, 1, 1, 1, 1, 1, 1, 1, 1, 1,
    1, 1, 1, 2, 3, 5, 9, 0, 0, 0, 1, 1, 1, 1, 1, 1, 1, 1, 1, 1, 1, 1, 1, 1, 1, 1, 1, 1, 1, 1, 1, 1,
    1, 1, 1, 2, 3, 5, 9, 0, 0, 0, 1, 1, 1, 1, 1, 1, 1, 1, 1, 1, 1, 1, 1, 1, 1, 1, 1, 1, 1, 1, 1, 1,
    1, 1, 1, 2, 3, 5, 9, 0, 0, 0, 0, 1, 1, 1, 1, 1, 1, 1, 1, 1, 1, 1, 1, 1, 1, 1, 1, 1, 1, 1, 1, 1,
    1, 1, 1, 2, 3, 5, 9, 0, 0, 0, 1,
];

/// The bytes after the head or the break at the front, and after the content of a string.
#[inline(always)]
pub(crate) fn after_head(bytes: &[u8]) -> Option<&[u8]>
    ensures { IfSome result (λ rest. length rest.now < length bytes.now) }
{
    let first = bytes.first()?;
    let step = usize::from(STEPS[usize::from(*first)]);
    if step > 0 {
        return bytes.get(step..);
    }
    match bytes {
        [0x58 | 0x78, len, content @ ..] => content.get(usize::from(*len)..),
        _ => after_long(bytes),
    }
}

/// The same of a string whose length stands in several bytes behind its first byte.
#[inline(never)]
fn after_long(bytes: &[u8]) -> Option<&[u8]>
    ensures { IfSome result (λ rest. length rest.now < length bytes.now) }
{
    let Ok((ItemHead::String(_, Argument::Number(len, _)), content)) = read_head(bytes) else {
        return None;
    };
    match split_at(content, len) {
        Ok((_, rest)) => Some(rest),
        Err(_) => None,
    }
}

/// Whether a tag is at the front.
#[inline(always)]
pub(crate) fn begins_tag(bytes: &[u8]) -> bool {
    match bytes.first() {
        Some(first) => *first & 0xe0 == 0xc0,
        None => false,
    }
}

/// The bytes after the item at the front, if that is a number, a simple value or a string of
/// definite length.
#[inline(always)]
pub(crate) fn after_leaf(bytes: &[u8]) -> Option<&[u8]>
    ensures { IfSome result (λ rest. length rest.now < length bytes.now) }
{
    match bytes.first() {
        Some(0x5f | 0x7f | 0x80..=0xdf | 0xff) => None,
        _ => after_head(bytes),
    }
}
