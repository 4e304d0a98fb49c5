//! `say_shape` says which type an item without a tag looks like: a COSE message, a key, or the
//! claims of a token.

use crate::lines::label;
use crate::origin::Origin;
use cbor_bytes::{Extent, extent};
use cbor_grammar::argument::Argument;
use cbor_grammar::head::ItemHead;
use cbor_grammar::strings::StringKind;
use cbor_trace::head_at;

/// The parts of an array or a map that are still to be looked at.
#[derive(Clone, Copy)]
struct Parts<'a> {
    /// How many members or pairs there are.
    count: u64,
    /// The members, or keys and values in turn.
    rest: &'a [u8],
}

/// A map of more pairs than this is no key and no claims.
const MOST_PAIRS: u64 = 64;

/// A time before this second, in 2001, is none of a token.
const FIRST_SECOND: u64 = 1_000_000_000;

/// The simple value null.
const NULL: u8 = 22;

/// Says which type the item at the front of bytes looks like, if no tag says it.
pub fn say_shape(rt: &HostRuntime, origin: &Origin, bytes: &[u8]) {
    if let Some(word) = shape_of(bytes) {
        let name = label(origin.name);
        let _ = eprintln!(rt; "cborcat: {name}: this looks like {word}: --as={word}");
    }
}

/// The type that the item at the front of bytes looks like, as `--as` names it, if no tag says it.
fn shape_of(bytes: &[u8]) -> Option<&'static str> {
    let (head, begins) = head_at(bytes, 0)?;
    let rest = bytes.get(begins..).unwrap_or(b"");
    match head {
        ItemHead::Array(Argument::Number(count, _)) => Parts { count, rest }.message(),
        ItemHead::Map(Argument::Number(count, _)) if count <= MOST_PAIRS => {
            let pairs = Parts { count, rest };
            if pairs.is_key() {
                Some("COSE_Key")
            } else if pairs.is_claims() {
                Some("CWT")
            } else {
                None
            }
        }
        _ => None,
    }
}

impl<'a> Parts<'a> {
    /// Takes the part that is next.
    fn take(&mut self) -> Option<&'a [u8]> {
        let Extent::Item(len) = extent(self.rest) else {
            return None;
        };
        let (part, after) = self.rest.split_at(len.min(self.rest.len()));
        self.rest = after;
        Some(part)
    }

    /// The value of an integer key.
    fn value(self, wanted: i64) -> Option<&'a [u8]> {
        let mut pairs = self;
        for _ in 0..self.count {
            let key = pairs.take()?;
            let value = pairs.take()?;
            if integer_of(key) == Some(wanted) {
                return Some(value);
            }
        }
        None
    }

    /// The COSE message of one signature, one tag or one key that an array looks like (RFC 9052):
    /// protected headers, which are a map in a byte string, other headers, a content, and but for
    /// an encrypted one a byte string.
    fn message(self) -> Option<&'static str> {
        if self.count != 3 && self.count != 4 {
            return None;
        }
        let mut members = self;
        let protected = content_of(members.take()?)?;
        if extent(protected) != Extent::Item(protected.len()) {
            return None;
        }
        let headers = pairs_of(protected)?;
        pairs_of(members.take()?)?;
        let content = members.take()?;
        if content_of(content).is_none() && !is_null(content) {
            return None;
        }
        if self.count == 3 {
            return Some("COSE_Encrypt0");
        }
        content_of(members.take()?)?;
        if headers.value(1).is_some_and(is_mac) {
            Some("COSE_Mac0")
        } else {
            Some("COSE_Sign1")
        }
    }

    /// Whether the map looks like a key (RFC 9052, section 7): its type is a number, and it has the
    /// first parameter of its type.
    fn is_key(self) -> bool {
        match self.value(1).and_then(integer_of) {
            Some(1..=6) => self.value(-1).is_some(),
            _ => false,
        }
    }

    /// Whether the map looks like claims (RFC 8392): its keys are integers, and it has two or more
    /// of the registered ones, whose values are of their types.
    fn is_claims(self) -> bool {
        let mut claims = 0u64;
        let mut pairs = self;
        for _ in 0..self.count {
            let (Some(key), Some(value)) = (pairs.take(), pairs.take()) else {
                return false;
            };
            match integer_of(key) {
                Some(claim @ 1..=7) if is_claim(claim, value) => claims = claims.saturating_add(1),
                None | Some(1..=7) => return false,
                Some(_) => {}
            }
        }
        claims >= 2
    }
}

/// The integer that an item is.
fn integer_of(item: &[u8]) -> Option<i64> {
    match head_at(item, 0)? {
        (ItemHead::Integer(value, _), _) => i64::try_from(value).ok(),
        (ItemHead::Negative(value, _), _) => (-1i64).checked_sub(i64::try_from(value).ok()?),
        _ => None,
    }
}

/// The content of a byte string of definite length.
fn content_of(item: &[u8]) -> Option<&[u8]> {
    match head_at(item, 0)? {
        (ItemHead::String(StringKind::Bytes, Argument::Number(..)), begins) => item.get(begins..),
        _ => None,
    }
}

/// The pairs of a map of definite length.
fn pairs_of(item: &[u8]) -> Option<Parts> {
    match head_at(item, 0)? {
        (ItemHead::Map(Argument::Number(count, _)), begins) => {
            let rest = item.get(begins..)?;
            Some(Parts { count, rest })
        }
        _ => None,
    }
}

/// Whether an item is null.
fn is_null(item: &[u8]) -> bool {
    matches!(head_at(item, 0), Some((ItemHead::Simple(NULL), _)))
}

/// Whether an item is the number of an algorithm that makes tags (RFC 9053, section 3).
fn is_mac(item: &[u8]) -> bool {
    matches!(integer_of(item), Some(4..=7 | 14 | 15 | 25 | 26))
}

/// Whether an item has the type of a claim.
fn is_claim(claim: i64, item: &[u8]) -> bool {
    match (claim, head_at(item, 0)) {
        (1..=3, Some((ItemHead::String(StringKind::Text, _), _))) => true,
        (3, Some((ItemHead::Array(_), _))) => true,
        (4..=6, Some((ItemHead::Integer(seconds, _), _))) => seconds >= FIRST_SECOND,
        (4..=6, Some((ItemHead::Float(..), _))) => true,
        (7, Some((ItemHead::String(StringKind::Bytes, _), _))) => true,
        _ => false,
    }
}
