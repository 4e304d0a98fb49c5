//! Finds the first thing from the left that JSON does not keep of an item: a tag, a byte string, a
//! NaN, an infinity, a simple value other than false, true and null, or a key that is not a text.
#![tactic(auto)]

ghost use Rattle.std.specs.Prelude.{◌≡◌, ◌+◌, ◌≤◌, ℕ, List, IfOk, IfErr, IfSome, IfNone, Ok};
ghost use Rattle.cbor_grammar.specs.Item.{Item};
ghost use Rattle.cbor_grammar.specs.Reading.{read_item};
ghost use Rattle.cbor_grammar.specs.WellFormed.{deepest};
ghost use Rattle.cbor_grammar.specs.mirror.AtLevel.{read_at, read_behind};
ghost use Rattle.cbor_json.specs.Kept.{IsKept, IsText, IsLoss, head_loss as loss_of, is_text_head};
ghost use Rattle.cbor_json.specs.mirror.Losing.{FitsHead, Stops, StopsAfter, StopsAtKey};

use crate::error::{Loss, LossKind};
use crate::print::numbers::encoded_float;
use cbor_bytes::head::read_head;
use cbor_bytes::skip::after_front;
use cbor_grammar::argument::Argument;
use cbor_grammar::head::ItemHead;
use cbor_grammar::level::DEEPEST;
use cbor_grammar::strings::StringKind;

/// Why reading ends.
#[derive(Clone, Copy)]
pub(crate) enum Stop {
    /// JSON does not keep what is there. `left` bytes are left from it on.
    Lost { left: usize, kind: LossKind },
    /// No item is there.
    NoItem,
}

/// What JSON does not keep of an item with this head.
fn head_loss(head: ItemHead) -> Option<LossKind>
    requires { FitsHead head }
    ensures { result ≡ loss_of head }
{
    match head {
        ItemHead::Tag(..) => Some(LossKind::Tag),
        ItemHead::String(StringKind::Bytes, _) => Some(LossKind::Bytes),
        ItemHead::Simple(20..=22) => None,
        ItemHead::Simple(_) => Some(LossKind::Simple),
        ItemHead::Float(bits, width) => {
            if encoded_float(bits, width).value().is_finite() {
                None
            } else {
                Some(LossKind::NotFinite)
            }
        }
        _ => None,
    }
}

/// Whether an item with this head is a text.
fn is_text_head(head: ItemHead) -> bool
    ensures { result ≡ is_text_head head }
{
    matches!(head, ItemHead::String(StringKind::Text, _))
}

/// The bytes after the item at the front, if JSON keeps all of it.
#[cycle(kept)]
fn kept_front(bytes: &[u8], level: u8) -> Result<&[u8], Stop>
    requires from { 1 ≤ level }
    requires to { level ≤ deepest + 1 }
    ensures kept { IfOk result (λ rest. (i : Item)
        × (read_at level bytes.now ≡ Ok (i, rest.now)) × IsKept i) }
    ensures stops { IfErr result (Stops level bytes.now) }
{
    if level > DEEPEST {
        return Err(Stop::NoItem);
    }
    let Ok((head, rest)) = read_head(bytes) else {
        return Err(Stop::NoItem);
    };
    if let Some(kind) = head_loss(head) {
        let left = bytes.len();
        return Err(Stop::Lost { left, kind });
    }
    match head {
        ItemHead::Array(count) => kept_items(count, rest, level),
        ItemHead::Map(count) => kept_pairs(count, rest, level),
        _ => after_item(bytes, level),
    }
}

/// The bytes after the item at the front.
fn after_item(bytes: &[u8], level: u8) -> Result<&[u8], Stop>
    requires from { 1 ≤ level }
    requires to { level ≤ deepest + 1 }
    ensures read { IfOk result (λ rest. (i : Item)
        × (read_at level bytes.now ≡ Ok (i, rest.now))) }
    ensures stops { IfErr result (Stops level bytes.now) }
{
    match after_front(bytes, level) {
        Some(rest) => Ok(rest),
        None => Err(Stop::NoItem),
    }
}

/// The bytes after the members of an array at this level, whose head is before the bytes.
#[cycle(kept)]
fn kept_items(count: Argument, bytes: &[u8], level: u8) -> Result<&[u8], Stop>
    requires from { 1 ≤ level }
    requires to { level ≤ deepest }
    ensures kept { IfOk result (λ rest. (i : Item)
        × (read_behind level (ItemHead.Array count) bytes.now ≡ Ok (i, rest.now)) × IsKept i) }
    ensures stops { IfErr result (StopsAfter level (ItemHead.Array count) bytes.now) }
{
    let mut rest = bytes;
    let mut held: usize = 0;
    'items: loop {
        if let Some(after) = count.after_end(held, rest) {
            return Ok(after);
        }
        rest = kept_front(rest, level + 1)?;
        held += 1;
    }
}

/// The bytes after the pairs of a map at this level, whose head is before the bytes.
#[cycle(kept)]
fn kept_pairs(count: Argument, bytes: &[u8], level: u8) -> Result<&[u8], Stop>
    requires from { 1 ≤ level }
    requires to { level ≤ deepest }
    ensures kept { IfOk result (λ rest. (i : Item)
        × (read_behind level (ItemHead.Map count) bytes.now ≡ Ok (i, rest.now)) × IsKept i) }
    ensures stops { IfErr result (StopsAfter level (ItemHead.Map count) bytes.now) }
{
    let mut rest = bytes;
    let mut held: usize = 0;
    'pairs: loop {
        if let Some(after) = count.after_end(held, rest) {
            return Ok(after);
        }
        let value = after_key(rest, level + 1)?;
        rest = kept_front(value, level + 1)?;
        held += 1;
    }
}

/// The bytes after the key at the front, if it is a text.
fn after_key(bytes: &[u8], level: u8) -> Result<&[u8], Stop>
    requires from { 1 ≤ level }
    requires to { level ≤ deepest + 1 }
    ensures key { IfOk result (λ rest. (k : Item)
        × (read_at level bytes.now ≡ Ok (k, rest.now)) × IsText k) }
    ensures stops { IfErr result (StopsAtKey level bytes.now) }
{
    let Ok((head, _)) = read_head(bytes) else {
        return Err(Stop::NoItem);
    };
    let Some(rest) = after_front(bytes, level) else {
        return Err(Stop::NoItem);
    };
    if is_text_head(head) {
        Ok(rest)
    } else {
        let (left, kind) = (bytes.len(), LossKind::Key);
        Err(Stop::Lost { left, kind })
    }
}

/// The first thing that JSON does not keep of the item at the front.
pub(crate) fn first_loss(bytes: &[u8]) -> Option<Loss>
    ensures loss { IfSome result (IsLoss bytes.now) }
    ensures lost { IfSome result (λ _. (i : Item) (rest : List ℕ)
        → read_item deepest bytes.now ≡ Ok (i, rest) → ¬ (IsKept i)) }
    ensures kept { IfNone result ((i : Item) (rest : List ℕ)
        → read_item deepest bytes.now ≡ Ok (i, rest) → IsKept i) }
{
    match kept_front(bytes, 1) {
        Ok(_) => None,
        Err(stop) => match stop {
            Stop::NoItem => None,
            Stop::Lost { left, kind } => Some(Loss {
                place: bytes.len().saturating_sub(left),
                kind,
            }),
        },
    }
}
