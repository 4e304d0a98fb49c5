//! Finds the first simple value below 32 in two bytes, which RFC 8949 forbids (section 3.3) and RFC
//! 7049 allows.
ghost use Rattle.std.specs.Prelude.{◌↔◌, ◌+◌, ◌<◌, ◌≤◌, length, drop, IsTrue};
ghost use Rattle.std.specs.Prelude.{IfSome, IfNone};
ghost use Rattle.cbor_grammar.specs.Item.{Item};
ghost use Rattle.cbor_grammar.specs.Facts.{IsItem};
ghost use Rattle.cbor_inspect.specs.Rfc8949.{Is8949, IsTwoByteSimple, NoPair};

use cbor_rules::{Rules, violation};
use memchr::memchr;

/// Whether a byte below 32 follows `f8` at this place.
fn is_pair(bytes: &[u8], at: usize) -> bool
    requires { at + 1 < length bytes.now }
    ensures { IsTrue result ↔ IsTwoByteSimple bytes.now at }
{
    bytes[at] == 0xf8 && bytes[at + 1] < 32
}

/// The next place of the byte `f8` from here on, or else the end. Most inputs have few of them, and
/// are passed many bytes at once.
fn next_f8(bytes: &[u8], at: usize) -> usize
    requires { at ≤ length bytes.now }
    ensures none { NoPair (drop result bytes.now) → NoPair (drop at bytes.now) }
    ensures from { at ≤ result }
{
    let (_, rest) = bytes.split_at(at);
    match memchr(0xf8, rest) {
        Some(next) => at + next,
        None => bytes.len(),
    }
}

/// The first place at which a byte below 32 follows `f8`, at a head or not.
fn first_pair(bytes: &[u8]) -> Option<usize>
    ensures none { IfNone result (NoPair bytes.now) }
    ensures some { IfSome result (λ at. IsTwoByteSimple bytes.now at) }
{
    if bytes.is_empty() {
        return None;
    }
    let last = bytes.len() - 1;
    let mut at = next_f8(bytes, 0);
    'bytes: while at < last {
        if is_pair(bytes, at) {
            return Some(at);
        }
        at = next_f8(bytes, at + 1);
    }
    None
}

/// The place of the first simple value below 32 in two bytes, where the bytes are items one after
/// the other. It takes no memory. Most bytes are only searched for `f8` before a byte below 32.
/// Where one is found, they are read as items.
///
/// ```rust
/// use cbor_inspect::two_byte_simple;
///
/// assert_eq!(rt; two_byte_simple(b"\x82\xf8\xff\xf8\x14"), Some(3));
/// ```
pub fn two_byte_simple(bytes: &[u8]) -> Option<usize>
    // An item without such a value is one by RFC 8949.
    ensures none { (i : Item) → IsItem bytes.now i → IfNone result (Is8949 bytes.now) }

    // Others are none, and the two bytes are there. That it is the first such value is tested.
    ensures some { IfSome result (λ at. ¬ (Is8949 bytes.now) × IsTwoByteSimple bytes.now at) }
{
    let Some(pair) = first_pair(bytes) else {
        return None;
    };
    let Some(found) = violation(bytes, Rules::RFC_8949) else {
        return None;
    };
    Some(pair_at(bytes, found.place, pair))
}

/// The place `at`, if a byte below 32 follows `f8` there, and else `pair`, where one does. Of items
/// it is the first.
fn pair_at(bytes: &[u8], at: usize, pair: usize) -> usize
    requires { IsTwoByteSimple bytes.now pair }
    ensures { IsTwoByteSimple bytes.now result }
{
    if at < bytes.len() && at + 1 < bytes.len() && is_pair(bytes, at) {
        at
    } else {
        pair
    }
}

/// The place of such a value in the item that the bytes encode, unless that is an item by RFC 8949,
/// too.
pub(crate) fn fault_8949(bytes: &[u8]) -> Option<usize>
    requires { (i : Item) × IsItem bytes.now i }
    ensures none { IfNone result (Is8949 bytes.now) }
    ensures some { IfSome result (λ at. ¬ (Is8949 bytes.now) × IsTwoByteSimple bytes.now at) }
{
    two_byte_simple(bytes)
}
