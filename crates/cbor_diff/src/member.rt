//! `Member`: a member of an array, the value of a key of a map, or an item of a sequence, with its
//! place. `Match`: which member of the old ones is compared with which of the new ones.

use cbor_bytes::{Extent, extent};
use cbor_paths::Members;
use cbor_trace::Span;
use std::alloc::{AllocError, Global};

/// A member of an array, the value of a key of a map, or an item of a sequence.
#[derive(Clone, Copy, PartialEq, Eq, Debug)]
pub struct Member {
    /// How many come before it.
    pub index: usize,
    /// Where its key begins; where it begins itself if it has none.
    pub named: usize,
    pub span: Span,
}

/// Members that are compared with each other, or a member that one side alone has.
#[derive(Clone, Copy, PartialEq, Eq, Debug)]
pub enum Match {
    /// A member of both.
    Both(Member, Member),
    /// A member that the old one alone has.
    Old(Member),
    /// A member that the new one alone has.
    New(Member),
}

impl Member {
    /// All of these bytes, as the only member.
    pub(crate) fn whole(bytes: &[u8]) -> Member {
        Member::new(
            0,
            0,
            Span {
                start: 0,
                end: bytes.len(),
            },
        )
    }

    /// The item that begins at a place, as the only member.
    pub(crate) fn at(bytes: &[u8], start: usize) -> Member {
        Member::new(0, start, span_at(bytes, start))
    }

    fn new(index: usize, named: usize, span: Span) -> Member {
        Member { index, named, span }
    }

    /// Its key in a map.
    pub(crate) fn key(self, bytes: &[u8]) -> &[u8] {
        bytes.get(self.named..self.span.start).unwrap_or(b"")
    }
}

/// The span of the item that begins at a place: up to the end of the bytes if none does.
fn span_at(bytes: &[u8], start: usize) -> Span {
    let len = match extent(bytes.get(start..).unwrap_or(b"")) {
        Extent::Item(len) => len,
        _ => bytes.len().saturating_sub(start),
    };
    Span {
        start,
        end: start.saturating_add(len),
    }
}

/// The items of a sequence.
pub(crate) fn items_of(alloc: Global, bytes: &[u8]) -> Result<Vec<Member>, AllocError> {
    let mut items = Vec::new(alloc);
    let mut at = 0;
    for index in 0..bytes.len() {
        let span = span_at(bytes, at);
        if span.len() == 0 {
            break;
        }
        items.push(Member::new(index, at, span))?;
        at = span.end;
    }
    Ok(items)
}

/// The members of an array, or the values of a map.
pub(crate) fn members_of(
    alloc: Global,
    bytes: &[u8],
    members: Members,
) -> Result<Vec<Member>, AllocError> {
    let mut rest = members;
    let mut list = Vec::new(alloc);
    for index in 0..bytes.len() {
        let Some(at) = rest.next(bytes) else {
            break;
        };
        list.push(Member::new(index, at.named, span_at(bytes, at.start)))?;
    }
    Ok(list)
}
