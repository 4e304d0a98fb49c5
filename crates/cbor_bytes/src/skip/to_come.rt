//! `ToCome`, for `extent` and `Scanner`: how many parts of an open container are still to come.
//! `Kind`: the same without the number.
ghost use Rattle.std.specs.Prelude.{◌≡◌, Some, option_map};
ghost use Rattle.cbor_grammar.specs.Item.{no_items};
ghost use Rattle.cbor_grammar.specs.Reading.{items_in, put, after_members, after_end, one_less};
ghost use Rattle.cbor_grammar.specs.Reading.{opened};
ghost use Rattle.cbor_bytes.specs.mirror.Skipping.{argument_of, any_width, frame_of, emptied};
ghost use Rattle.cbor_bytes.specs.mirror.Skipping.{some_item};
ghost use Rattle.cbor_bytes.specs.mirror.OpenStack.{to_come_of};

use cbor_grammar::argument::{Argument, after_break};
use cbor_grammar::head::ItemHead;

/// How many parts are still to come; `None` for all parts up to a break.
type Count = Option<u64>;

/// What is still to come in an open container.
#[derive(Clone, Copy)]
pub(super) enum ToCome {
    /// The members of an array, or the item of a tag.
    Items(Count),
    /// The pairs of a map.
    Pairs(Count),
    /// The value of a key that is already read, and then pairs.
    Value(Count),
}

/// The kind of what is still to come, without a number. A stack of kinds and a stack of numbers
/// take less room than one of [`ToCome`].
#[derive(Clone, Copy)]
pub(super) enum Kind {
    Items,
    Pairs,
    Value,
    ItemsToBreak,
    PairsToBreak,
    ValueToBreak,
}

/// The number of parts of a container of this length.
fn parts_of(len: Argument) -> Count
    ensures { argument_of result ≡ any_width len }
{
    match len {
        Argument::Number(count, _) => Some(count),
        Argument::Indefinite => None,
    }
}

/// The bytes after a container's parts, if no part is still to come.
fn after_parts(count: Count, bytes: &[u8]) -> Option<&[u8]>
    ensures { option_map (λ x. x.now) result ≡ after_members (argument_of count) bytes.now }
{
    match count {
        Some(0) => Some(bytes),
        Some(_) => None,
        None => after_break(bytes),
    }
}

/// One part fewer.
fn one_less(count: Count) -> Count
    ensures { argument_of result ≡ one_less (argument_of count) }
{
    match count {
        Some(parts) => Some(parts.saturating_sub(1)),
        None => None,
    }
}

impl ToCome {
    /// One item.
    pub(super) fn one() -> ToCome
        ensures { frame_of result ≡ items_in no_items (argument_of (Some 1)) }
    {
        ToCome::Items(Some(1))
    }

    /// What is still to come, of this kind and number. Up to a break the number means nothing.
    pub(super) fn of(kind: Kind, count: u64) -> ToCome
        ensures { result ≡ to_come_of kind count }
    {
        match kind {
            Kind::Items => ToCome::Items(Some(count)),
            Kind::Pairs => ToCome::Pairs(Some(count)),
            Kind::Value => ToCome::Value(Some(count)),
            Kind::ItemsToBreak => ToCome::Items(None),
            Kind::PairsToBreak => ToCome::Pairs(None),
            Kind::ValueToBreak => ToCome::Value(None),
        }
    }

    /// The kind, and the number or 0.
    pub(super) fn split(self) -> (Kind, u64)
        ensures { to_come_of result.0 result.1 ≡ self }
    {
        match self {
            ToCome::Items(Some(count)) => (Kind::Items, count),
            ToCome::Pairs(Some(count)) => (Kind::Pairs, count),
            ToCome::Value(Some(count)) => (Kind::Value, count),
            ToCome::Items(None) => (Kind::ItemsToBreak, 0),
            ToCome::Pairs(None) => (Kind::PairsToBreak, 0),
            ToCome::Value(None) => (Kind::ValueToBreak, 0),
        }
    }

    /// All parts of the container that a head opens, or `None` if it opens none.
    pub(super) fn new(head: ItemHead) -> Option<ToCome>
        ensures { option_map frame_of result ≡ option_map emptied (opened head) }
    {
        match head {
            ItemHead::Array(len) => Some(ToCome::Items(parts_of(len))),
            ItemHead::Map(len) => Some(ToCome::Pairs(parts_of(len))),
            ItemHead::Tag(..) => Some(ToCome::one()),
            _ => None,
        }
    }

    /// The bytes after the container, if it ends here.
    pub(super) fn after_end(self, bytes: &[u8]) -> Option<&[u8]>
        ensures { option_map (λ x. x.now) result ≡ after_end (frame_of self) bytes.now }
    {
        match self {
            ToCome::Items(count) | ToCome::Pairs(count) => after_parts(count, bytes),
            ToCome::Value(_) => None,
        }
    }

    /// What is still to come after one more part: a member, a key or a value.
    pub(super) fn after_part(self) -> ToCome
        ensures { frame_of result ≡ emptied (put (frame_of self) some_item) }
    {
        match self {
            ToCome::Items(count) => ToCome::Items(one_less(count)),
            ToCome::Pairs(count) => ToCome::Value(one_less(count)),
            ToCome::Value(count) => ToCome::Pairs(count),
        }
    }
}
