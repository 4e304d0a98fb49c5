//! Reads the heads that tokens stand for: `leaf_at` that of an item without others in it,
//! `opened_at` that of an item that others are in.

use crate::mark::Mark;
use crate::open::{Next, Open};
use cbor_bytes::{Extent, extent};
use cbor_grammar::argument::Argument;
use cbor_grammar::head::ItemHead;
use cbor_grammar::strings::StringKind;
use cbor_trace::head_at;

/// Where an item without others in it has its head and its content.
#[derive(Clone, Copy)]
pub(crate) struct Leaf {
    pub(crate) kind: Mark,
    pub(crate) head_end: usize,
    pub(crate) end: usize,
}

/// The kind of a string.
fn kind_of(kind: StringKind) -> Mark {
    match kind {
        StringKind::Bytes => Mark::ByteString,
        StringKind::Text => Mark::String,
    }
}

/// The head and the content at a place of an item without others in it.
pub(crate) fn leaf_at(bytes: &[u8], start: usize) -> Leaf {
    let whole = |kind: Mark, end: usize| Leaf {
        kind,
        head_end: end,
        end,
    };
    let Some((head, place)) = head_at(bytes, start) else {
        return whole(Mark::Wrong, start);
    };
    match head {
        ItemHead::String(kind, Argument::Number(len, _)) => Leaf {
            kind: kind_of(kind),
            head_end: place,
            end: after(bytes, place, len),
        },
        // A string of no chunks, with its break.
        ItemHead::String(kind, Argument::Indefinite) => whole(
            kind_of(kind),
            after(bytes, place, 1),
        ),
        ItemHead::Simple(_) => whole(Mark::Simple, place),
        ItemHead::Array(_) | ItemHead::Map(_) => whole(Mark::Container, place),
        ItemHead::Tag(..) => whole(Mark::TagNumber, place),
        ItemHead::Integer(..) | ItemHead::Negative(..) | ItemHead::Float(..) => {
            whole(Mark::Number, place)
        }
    }
}

/// The place `len` bytes after another, or the end.
fn after(bytes: &[u8], place: usize, len: u64) -> usize {
    let len = usize::try_from(len).unwrap_or(usize::MAX);
    place.saturating_add(len).min(bytes.len())
}

/// The item at a place that others are in, and where its head ends.
pub(crate) fn opened_at(bytes: &[u8], start: usize) -> (Open, usize) {
    let (head, place) = match head_at(bytes, start) {
        Some((head, place)) => (Some(head), place),
        None => (None, start),
    };
    let (kind, next, count) = match head {
        Some(ItemHead::Array(count)) => (Mark::Container, Next::Member(0), Some(count)),
        Some(ItemHead::Map(count)) => (Mark::Container, Next::Key, Some(count)),
        Some(ItemHead::String(kind, len)) => (kind_of(kind), inside(bytes, place, len), None),
        _ => (Mark::TagNumber, Next::Plain, None),
    };
    let has_break = match head {
        Some(ItemHead::String(_, len)) => len.number().is_none(),
        _ => count.is_some_and(|count| count.number().is_none()),
    };
    let open = Open {
        start,
        kind,
        closer: head.map_or(")", closer_of),
        has_break,
        count: count.map(|count| count_of(bytes, place, count, next)),
        next,
    };
    (open, place)
}

/// What closes an item with this head in the text.
fn closer_of(head: ItemHead) -> &'static str {
    match head {
        ItemHead::Array(_) => "]",
        ItemHead::Map(_) => "}",
        ItemHead::String(_, Argument::Number(..)) => ">>",
        _ => ")",
    }
}

/// What is in a string with this content: chunks, or items.
fn inside(bytes: &[u8], place: usize, len: Argument) -> Next {
    let Argument::Number(len, _) = len else {
        return Next::Plain;
    };
    let content = bytes.get(place..after(bytes, place, len)).unwrap_or(b"");
    if extent(content) == Extent::Item(content.len()) {
        Next::Inside
    } else {
        Next::OneInside { content: place }
    }
}

/// How many members or pairs a container has. The first begins at a place.
fn count_of(bytes: &[u8], place: usize, count: Argument, next: Next) -> u64 {
    if let Some(number) = count.number() {
        return number;
    }
    let mut rest = bytes.get(place..).unwrap_or(b"");
    let mut items = 0u64;
    for _ in 0..bytes.len() {
        let Extent::Item(len) = extent(rest) else {
            break;
        };
        items = items.saturating_add(1);
        rest = rest.get(len..).unwrap_or(b"");
    }
    match next {
        Next::Key => items / 2,
        _ => items,
    }
}
