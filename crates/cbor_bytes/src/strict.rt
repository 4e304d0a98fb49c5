//! Tests whether the bytes of an item have no simple value below 24 in a non-minimal encoding (such
//! as `f8 00`). It goes from head to head, without a stack of the open containers.
ghost use Rattle.std.specs.Prelude.{◌≡◌, ◌≢◌, ◌↔◌, ◌<◌, ◌≤◌, ◌⊎◌, ◌/◌, ℕ, List, ◌∷◌, length, drop};
ghost use Rattle.std.specs.Prelude.{IsTrue, IfSome};
ghost use Rattle.cbor_grammar.specs.mirror.StrictHeads.{LongSimple, NoLongSimple, StrictHeads};
ghost use Rattle.cbor_grammar.specs.mirror.StrictHeads.{after_content, IsNumberLen};
ghost use Rattle.cbor_grammar.specs.mirror.StrictHeads.{BeginsString, IsBodyLen};

use crate::head::read_head;
use cbor_grammar::argument::{Argument, after_break};
use cbor_grammar::head::ItemHead;
use memchr::memchr;

/// Whether the bytes begin with a simple value below 24 in a non-minimal encoding, such as `f8 00`.
fn is_long_simple(bytes: &[u8]) -> bool
    ensures { IsTrue result ↔ LongSimple bytes.now }
{
    match bytes {
        [first, value, ..] => *first == 0xf8 && *value < 24,
        _ => false,
    }
}

/// Whether the two bytes of such a value are anywhere, at a head or not. In most inputs they are
/// not, and then no head is read a second time: `bytes_to_bytes` of integers takes half as long.
fn holds_long_simple(bytes: &[u8]) -> bool
    ensures { IsTrue result ⊎ NoLongSimple bytes.now }
{
    let mut rest = bytes;
    'places: while let Some(at) = memchr(0xf8, rest) {
        let (_, found) = rest.split_at(at);
        if is_long_simple(found) {
            return true;
        }
        let (_, after) = found.split_at(1);
        rest = after;
    }
    false
}

/// How many bytes of content follow a head: those of a string of definite length, otherwise 0.
fn content_len(head: ItemHead) -> u64
    ensures { (b : List ℕ) → after_content head b ≡ drop result b }
{
    match head {
        ItemHead::String(_, Argument::Number(count, _)) => count,
        _ => 0,
    }
}

/// How many bytes of a number follow a first byte with these five bits of info, or `None` if no
/// number does.
fn number_len(info: u8) -> Option<usize>
    ensures { IfSome result (λ k. IsNumberLen info k) }
{
    match info {
        0..=23 => Some(0),
        24 => Some(1),
        25 => Some(2),
        26 => Some(4),
        27 => Some(8),
        _ => None,
    }
}

/// Whether a string begins with this byte.
fn begins_string(first: u8) -> bool
    ensures { IsTrue result ↔ BeginsString first }
{
    first / 32 == 2 || first / 32 == 3
}

/// How many bytes come between a first byte and the next head, if the first byte alone decides
/// that: the bytes of a number, which is not read, or of a short string. `None` after `f8`, whose
/// simple value has to be checked.
fn body_len(first: u8) -> Option<usize>
    ensures { IfSome result (λ k. IsBodyLen first k) }
{
    let info = first % 32;
    if first == 0xf8 {
        return None;
    }
    if !begins_string(first) {
        return number_len(info);
    }
    if info < 24 {
        return Some(usize::from(info));
    }
    None
}

/// The bytes after a head and its content, if the first byte alone decides how many these are. With
/// [`after_other`] alone, a map with integer keys takes a quarter longer.
fn after_body(first: u8, bytes: &[u8]) -> Option<&[u8]>
    ensures strict { IfSome result (λ after. StrictHeads after.now
        → StrictHeads (first ∷ bytes.now)) }
    ensures shorter { IfSome result (λ after. length after.now ≤ length bytes.now) }
{
    let count = body_len(first)?;
    if count > bytes.len() {
        return None;
    }
    let (_, after) = bytes.split_at(count);
    Some(after)
}

/// The bytes after the head at the front, and after the content of a string of definite length.
fn after_read_head(bytes: &[u8]) -> Option<&[u8]>
    ensures strict { ¬ (LongSimple bytes.now)
        → IfSome result (λ after. StrictHeads after.now → StrictHeads bytes.now) }
    ensures shorter { IfSome result (λ after. length after.now < length bytes.now) }
{
    let Ok((head, rest)) = read_head(bytes) else {
        return None;
    };
    let count = content_len(head);
    if count > rest.len() as u64 {
        return None;
    }
    let (_, after) = rest.split_at(count as usize);
    Some(after)
}

/// The bytes after the break or the head at the front, unless that is a simple value in a
/// non-minimal encoding.
fn after_other(bytes: &[u8]) -> Option<&[u8]>
    ensures strict { IfSome result (λ after. StrictHeads after.now → StrictHeads bytes.now) }
    ensures shorter { IfSome result (λ after. length after.now < length bytes.now) }
{
    if let Some(after) = after_break(bytes) {
        return Some(after);
    }
    if is_long_simple(bytes) {
        return None;
    }
    after_read_head(bytes)
}

/// The same, by the shorter way if it applies.
fn after_strict(bytes: &[u8]) -> Option<&[u8]>
    ensures strict { IfSome result (λ after. StrictHeads after.now → StrictHeads bytes.now) }
    ensures shorter { IfSome result (λ after. length after.now < length bytes.now) }
{
    let [first, rest @ ..] = bytes else {
        return None;
    };
    match after_body(*first, rest) {
        Some(after) => Some(after),
        None => after_other(bytes),
    }
}

/// Whether the bytes are heads with the content of strings, and none is a simple value in a
/// non-minimal encoding.
fn has_strict_heads(bytes: &[u8]) -> bool
    ensures { IsTrue result → StrictHeads bytes.now }
{
    let mut rest = bytes;
    'heads: while !rest.is_empty() {
        match after_strict(rest) {
            Some(after) => rest = after,
            None => return false,
        }
    }
    true
}

/// Whether the bytes that encode an item have no simple value in a non-minimal encoding.
pub fn is_strict(bytes: &[u8]) -> bool
    ensures { IsTrue result → NoLongSimple bytes.now ⊎ StrictHeads bytes.now }
{
    !holds_long_simple(bytes) || has_strict_heads(bytes)
}
