//! `Members`: goes over the members of an array, or the values of a map, in the bytes. `At`: where
//! an item begins, its key and what it is in. `Below`: an item without its tags.

use crate::skip::bytes_from;
use cbor_bytes::skip::after_front;
use cbor_grammar::argument::Argument;
use cbor_grammar::head::ItemHead;
use cbor_trace::{Spot, head_at};

/// Where an item begins, and where its name is: at its key, if it is a value of a map.
#[derive(Clone, Copy)]
pub struct At {
    pub named: usize,
    pub start: usize,
    /// Its level; the outermost is 1.
    pub(crate) level: u8,
    /// Where the array, the map or the byte string begins that it is right in; where it begins if
    /// it is in none.
    pub(crate) holder: usize,
    /// Where the outermost of the tags around it begins that a path passed.
    pub(crate) tag: Option<usize>,
}

impl At {
    /// Returns that of the outermost item, which begins there.
    pub fn new(start: usize) -> At {
        At::of_spot(Spot { start, level: 1 })
    }

    /// That of an item without a key and without tags around it.
    pub(crate) fn of_spot(spot: Spot) -> At {
        At {
            named: spot.start,
            start: spot.start,
            level: spot.level,
            holder: spot.start,
            tag: None,
        }
    }

    /// Where the outermost of the tags around the items in this one begins.
    pub(crate) fn tag_around(self, bytes: &[u8]) -> Option<usize> {
        match (self.tag, head_at(bytes, self.start)) {
            (None, Some((ItemHead::Tag(..), _))) => Some(self.start),
            (tag, _) => tag,
        }
    }
}

/// An item below its tags.
#[derive(Clone, Copy)]
pub(crate) struct Below {
    pub head: ItemHead,
    /// Where its head begins.
    pub start: usize,
    /// Where its head ends.
    pub inner: usize,
    /// The innermost of its tags, if it has one.
    pub tag: Option<u64>,
    /// Its level; the outermost is 1.
    pub level: u8,
}

impl Below {
    /// The item below the tags of that at a place.
    pub(crate) fn new(bytes: &[u8], at: At) -> Option<Below> {
        let (mut start, mut level, mut tag) = (at.start, at.level, None);
        for _ in 0..=u8::MAX {
            let (head, inner) = head_at(bytes, start)?;
            let ItemHead::Tag(number, _) = head else {
                return Some(Below {
                    head,
                    start,
                    inner,
                    tag,
                    level,
                });
            };
            tag = Some(number);
            start = inner;
            level = level.saturating_add(1);
        }
        None
    }

    /// An item right in this one, which begins there.
    pub(crate) fn item_in(self, start: usize) -> At {
        let level = self.level.saturating_add(1);
        At {
            holder: self.start,
            ..At::of_spot(Spot { start, level })
        }
    }
}

/// Where the item ends that begins at a place.
fn end_of(bytes: &[u8], start: usize) -> Option<usize> {
    let rest = after_front(bytes_from(bytes, start), 1)?;
    Some(bytes.len().saturating_sub(rest.len()))
}

/// The members of an array, or the values of a map, one after the other.
#[derive(Clone, Copy)]
pub struct Members {
    /// What they are in.
    below: Below,
    count: Argument,
    is_map: bool,
    /// How many were passed.
    index: u64,
    /// Where the last one begins, which is not passed yet.
    last: Option<usize>,
}

impl Members {
    /// Those of an item below its tags, if it has some.
    pub(crate) fn new(below: Below) -> Option<Members> {
        let (count, is_map) = match below.head {
            ItemHead::Array(count) => (count, false),
            ItemHead::Map(count) => (count, true),
            _ => return None,
        };
        Some(Members {
            below,
            count,
            is_map,
            index: 0,
            last: None,
        })
    }

    /// Returns those of the item that begins at a place, below its tags, if it has some.
    pub fn of(bytes: &[u8], start: usize) -> Option<Members> {
        Members::new(Below::new(bytes, At::new(start))?)
    }

    /// Returns whether these are those of a map.
    pub fn is_map(self) -> bool {
        self.is_map
    }

    /// Returns the next one. It passes those before it alone.
    pub fn next(&mut self, bytes: &[u8]) -> Option<At> {
        let named = match self.last {
            Some(last) => end_of(bytes, last)?,
            None => self.below.inner,
        };
        let is_end = match self.count {
            Argument::Number(count, _) => self.index >= count,
            Argument::Indefinite => bytes.get(named) == Some(&0xff),
        };
        if is_end {
            return None;
        }
        let start = if self.is_map {
            end_of(bytes, named)?
        } else {
            named
        };
        self.index = self.index.saturating_add(1);
        self.last = Some(start);
        Some(At {
            named,
            ..self.below.item_in(start)
        })
    }
}
