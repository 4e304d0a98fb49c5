//! Whether the content of a byte string is one item, or a sequence of items.
ghost use Rattle.std.specs.Prelude.{◌≡◌};
ghost use Rattle.cbor_inside.specs.Rule.{is_item as one_item, is_sequence as all_items};

use cbor_bytes::skip::after_front;
use cbor_grammar::level::DEEPEST;

/// Whether the bytes are one item, below a byte string at this level.
pub(crate) fn is_item(level: u8, bytes: &[u8]) -> bool
    ensures { result ≡ one_item level bytes.now }
{
    if level > DEEPEST {
        return false;
    }
    match after_front(bytes, level + 1) {
        Some(rest) => rest.is_empty(),
        None => false,
    }
}

/// Whether the bytes are a sequence of items there.
pub(crate) fn is_sequence(level: u8, bytes: &[u8]) -> bool
    ensures { result ≡ all_items level bytes.now }
{
    if level > DEEPEST {
        return false;
    }
    let mut rest = bytes;
    'items: loop {
        match after_front(rest, level + 1) {
            Some(after) => rest = after,
            None => return rest.is_empty(),
        }
    }
}
