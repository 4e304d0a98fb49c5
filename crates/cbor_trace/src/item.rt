//! Reads the head of the item at a place (`head_at`), and finds the place after an item (`end_at`).
ghost use Rattle.std.specs.Prelude.{◌≡◌, ℕ, ◌≤◌, IfSome, Some};
ghost use Rattle.cbor_grammar.specs.declared.head.ItemHead.{ItemHead};
ghost use Rattle.cbor_trace.specs.Around.{EndsAt, IsHeadAt};

use crate::part::Spot;
use cbor_bytes::head::read_head;
use cbor_bytes::skip::after_front;
use cbor_grammar::head::ItemHead;
use cbor_grammar::level::DEEPEST;

/// The head of the item or chunk that begins at `start`, and the place after the head. Returns
/// `None` if the head is truncated or invalid.
///
/// The head of a truncated string has the whole length. The bytes from the place after it are the
/// part of the content that is there.
pub fn head_at(bytes: &[u8], start: usize) -> Option<(ItemHead, usize)>
    // The result is a head if and only if it is the one at `start`.
    ensures head { IfSome result (λ h. IsHeadAt bytes.now start h.0 h.1) }
    ensures every_head { (head : ItemHead) (end : ℕ) → IsHeadAt bytes.now start head end
        → result ≡ Some (head, end) }
{
    if start > bytes.len() {
        return None;
    }
    let (_, item) = bytes.split_at(start);
    let Ok((head, rest)) = read_head(item) else {
        return None;
    };
    Some((head, bytes.len() - rest.len()))
}

/// The place after the item at this spot, or `None` if the item is truncated or malformed.
pub fn end_at(bytes: &[u8], spot: Spot) -> Option<usize>
    // The result is a place if and only if the item ends there.
    ensures end { IfSome result (λ end. EndsAt bytes.now spot end) }
    ensures every_end { (end : ℕ) → 1 ≤ spot.level → EndsAt bytes.now spot end
        → result ≡ Some end }
{
    if spot.start > bytes.len() {
        return None;
    }
    if spot.level == 0 {
        return None;
    }
    if spot.level > DEEPEST {
        return None;
    }
    let (_, item) = bytes.split_at(spot.start);
    let Some(rest) = after_front(item, spot.level) else {
        return None;
    };
    Some(bytes.len() - rest.len())
}
