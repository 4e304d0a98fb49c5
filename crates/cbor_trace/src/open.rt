//! `Open`: a container that is open before one of its parts: which part it is, and how many the
//! container has.
ghost use Rattle.std.specs.Prelude.{◌≡◌, ◌↔◌, ◌<◌, ◌^◌, IsTrue};
ghost use Rattle.cbor_trace.specs.Around.{parts_before, GoesOn};
ghost use Rattle.cbor_trace.specs.mirror.Steps.{opened_by, next_of};

use cbor_grammar::IntegerWidth;
use cbor_grammar::argument::{Argument, after_break};
use cbor_grammar::head::ItemHead;

/// A container that is open before one of its parts. The parts of a map are its keys and values in
/// turn.
#[derive(Clone, Copy)]
pub enum Open {
    /// An array with this count, before the member at this index.
    Array {
        count: Argument,
        index: usize,
    },
    /// A map with this count, before the key of the pair at this index.
    Key {
        count: Argument,
        index: usize,
    },
    /// A map with this count, before the value of the pair at this index. Its key begins at the
    /// place `key`, and ends where the value begins.
    Value {
        count: Argument,
        index: usize,
        key: usize,
    },
    /// A tag with this number, before its item.
    Tag {
        number: u64,
        width: IntegerWidth,
    },
}

impl Open {
    /// What a head opens, before its first part; `None` if it opens no container.
    pub(crate) fn new(head: ItemHead) -> Option<Open>
        ensures { result ≡ opened_by head }
    {
        match head {
            ItemHead::Array(count) => Some(Open::Array { count, index: 0 }),
            ItemHead::Map(count) => Some(Open::Key { count, index: 0 }),
            ItemHead::Tag(number, width) => Some(Open::Tag { number, width }),
            _ => None,
        }
    }

    /// Whether the container has a further part at these bytes.
    pub(crate) fn goes_on(self, rest: &[u8]) -> bool
        ensures { IsTrue result ↔ GoesOn self rest.now }
    {
        match self {
            Open::Array { count, index } | Open::Key { count, index } => match count {
                Argument::Number(count, _) => (index as u64) < count,
                Argument::Indefinite => after_break(rest).is_none(),
            },
            Open::Value { count, index, .. } => match count {
                Argument::Number(count, _) => (index as u64) < count,
                Argument::Indefinite => true,
            },
            Open::Tag { .. } => true,
        }
    }

    /// The container after a part that begins at `start`; `None` after the item of a tag, which has
    /// no further part.
    pub(crate) fn after_part(self, start: usize) -> Option<Open>
        requires { parts_before self < 2 ^ 63 }
        ensures { result ≡ next_of self start }
    {
        match self {
            Open::Array { count, index } => Some(Open::Array {
                count,
                index: index + 1,
            }),
            Open::Key { count, index } => Some(Open::Value {
                count,
                index,
                key: start,
            }),
            Open::Value { count, index, .. } => Some(Open::Key {
                count,
                index: index + 1,
            }),
            Open::Tag { .. } => None,
        }
    }
}
