//! `Items`: reads items from bytes, also those in byte strings, into vectors for the matcher. It
//! joins the chunks of strings, and sorts the pairs of maps by their keys.

use cbor_bytes::head::read_head;
use cbor_bytes::strings::{read_chunk_length, split_at};
use cbor_bytes::{Extent, extent};
use cbor_cddl::{Span, Stop};
use cbor_floats::EncodedFloat;
use cbor_grammar::argument::{Argument, after_break};
use cbor_grammar::head::ItemHead;
use cbor_grammar::strings::StringKind;
use cbor_grammar::width::FloatWidth;
use std::alloc::{AllocError, Global};

/// What an item is.
#[derive(Clone, Copy)]
pub enum Kind {
    Integer(i128),
    Float(f64),
    Simple(u8),
    /// A text with this content.
    Text(Span),
    /// A byte string with this content.
    Bytes(Span),
    Array,
    /// The parts are the keys and values in turn, in the order of the keys.
    Map,
    Tag(u64),
}

/// An item.
#[derive(Clone, Copy)]
pub struct Item {
    pub kind: Kind,
    /// Where it is. A span past the data is in the joined chunks of strings.
    pub span: Span,
    /// Where its parts are in `Items::parts`.
    pub first: usize,
    /// How many parts it has.
    pub count: usize,
    /// Where it is in the data: its first byte, or that of the string in chunks around it.
    pub place: usize,
    /// How many bytes are before its content: those of its head, but none of a string in chunks.
    pub head: usize,
    /// The byte string that it is in.
    pub holder: Option<usize>,
}

/// A container whose parts are being read.
#[derive(Clone, Copy)]
struct Open {
    item: usize,
    /// How many parts are to come, or `None` up to a break.
    left: Option<u64>,
    /// How many parts of other containers wait.
    waiting: usize,
}

/// An item, and all parts of it.
#[derive(Drop)]
pub struct Items<'a> {
    data: &'a [u8],
    /// The contents of strings in chunks.
    joined: Vec<u8>,
    items: Vec<Item>,
    pub(crate) parts: Vec<usize>,
    open: Vec<Open>,
    waiting: Vec<usize>,
    /// The first key in the item that was read last that its map has had before.
    pub(crate) second_key: Option<usize>,
}

/// The number of a float, by its bits.
fn float_of(bits: u64, width: FloatWidth) -> f64 {
    match width {
        FloatWidth::Sixteen => EncodedFloat::Half(u16::try_from(bits).unwrap_or(0)).value(),
        FloatWidth::ThirtyTwo => EncodedFloat::Single(u32::try_from(bits).unwrap_or(0)).value(),
        FloatWidth::SixtyFour | FloatWidth::Unknown => EncodedFloat::Double(bits).value(),
    }
}

/// How many bytes are before the content of an item at a place, which has this behind its head.
fn head_len(kind: Kind, at: usize, body: usize) -> usize {
    match kind {
        Kind::Text(content) | Kind::Bytes(content) if content.start != body => 0,
        _ => body.saturating_sub(at),
    }
}

/// No item.
const NOTHING: Item = Item {
    kind: Kind::Simple(0),
    span: Span { start: 0, end: 0 },
    first: 0,
    count: 0,
    place: 0,
    head: 0,
    holder: None,
};

impl<'a> Items<'a> {
    /// No items yet.
    pub(crate) fn new(alloc: Global, data: &'a [u8]) -> Items<'a> {
        Items {
            data,
            joined: Vec::new(alloc),
            items: Vec::new(alloc),
            parts: Vec::new(alloc),
            open: Vec::new(alloc),
            waiting: Vec::new(alloc),
            second_key: None,
        }
    }

    /// How many items there are.
    pub fn count(&self) -> usize {
        self.items.len()
    }

    /// The content of the byte string that holds an item, or all of the data.
    pub fn content_around(&self, item: Item) -> Span {
        if let Some(holder) = item.holder
            && let Kind::Bytes(content) = self.item(holder).kind
        {
            return content;
        }
        Span {
            start: 0,
            end: self.data.len(),
        }
    }

    /// Where the content of the string around an item is in the data: where that string is if its
    /// chunks were joined.
    pub fn place_of(&self, content: Span, item: Item) -> usize {
        self.place_inside(content, item.holder)
            .unwrap_or(content.start)
    }

    /// How many parts there are.
    pub(crate) fn len(&self) -> usize {
        self.parts.len()
    }

    /// The item at an index.
    pub fn item(&self, index: usize) -> Item {
        match self.items.get(index) {
            Some(item) => *item,
            None => NOTHING,
        }
    }

    /// The part of an item at a place, if there is one.
    pub(crate) fn part(&self, item: Item, place: usize) -> Option<usize> {
        if place >= item.count {
            return None;
        }
        self.parts.get(item.first.saturating_add(place)).copied()
    }

    /// The bytes of a span.
    pub fn bytes(&self, span: Span) -> &[u8] {
        let len = self.data.len();
        let found = if span.start >= len {
            let start = span.start.saturating_sub(len);
            self.joined.get(start..span.end.saturating_sub(len))
        } else {
            self.data.get(span.start..span.end)
        };
        match found {
            Some(bytes) => bytes,
            None => b"",
        }
    }

    /// Appends the bytes of a span to the joined chunks.
    fn join(&mut self, span: Span) -> Result<(), AllocError> {
        for place in span.start..span.end {
            let next = place.saturating_add(1);
            let byte = match self.bytes(Span {
                start: place,
                end: next,
            }) {
                [byte] => *byte,
                _ => 0,
            };
            self.joined.push(byte)?;
        }
        Ok(())
    }

    /// The content of a string in chunks, joined, and where the string ends. The chunks begin at
    /// the front of the span.
    fn chunks(&mut self, kind: StringKind, span: Span) -> Result<(Span, usize), Stop> {
        let start = self.joined.len();
        let mut at = span.start;
        for _ in span.start..span.end {
            let rest = self.bytes(Span {
                start: at,
                end: span.end,
            });
            let Ok((length, after)) = read_chunk_length(kind.major(), rest) else {
                return Err(Stop::NoItem);
            };
            let body = span.end.saturating_sub(after.len());
            let Some((length, _)) = length else {
                let len = self.data.len();
                let start = start.saturating_add(len);
                let end = self.joined.len().saturating_add(len);
                return Ok((Span { start, end }, body));
            };
            let Ok((_, next)) = split_at(after, length) else {
                return Err(Stop::NoItem);
            };
            at = span.end.saturating_sub(next.len());
            self.join(Span {
                start: body,
                end: at,
            })?;
        }
        Err(Stop::NoItem)
    }

    /// What a head says of its item, and where the item ends if it has no parts. From `body` on
    /// are the bytes behind the head.
    fn leaf(&mut self, head: ItemHead, body: Span) -> Result<(Kind, usize), Stop> {
        let kind = match head {
            ItemHead::Integer(number, _) => Kind::Integer(i128::from(number)),
            ItemHead::Negative(number, _) => Kind::Integer(-1 - i128::from(number)),
            ItemHead::Float(bits, width) => Kind::Float(float_of(bits, width)),
            ItemHead::Simple(number) => Kind::Simple(number),
            ItemHead::Array(_) => Kind::Array,
            ItemHead::Map(_) => Kind::Map,
            ItemHead::Tag(number, _) => Kind::Tag(number),
            ItemHead::String(kind, length) => return self.string(kind, length, body),
        };
        Ok((kind, body.start))
    }

    /// A string, and where it ends.
    fn string(
        &mut self,
        kind: StringKind,
        length: Argument,
        body: Span,
    ) -> Result<(Kind, usize), Stop> {
        let (content, end) = match length {
            Argument::Number(length, _) => {
                let length = usize::try_from(length).unwrap_or(usize::MAX);
                let end = body.start.saturating_add(length);
                if end > body.end {
                    return Err(Stop::NoItem);
                }
                let start = body.start;
                (Span { start, end }, end)
            }
            Argument::Indefinite => self.chunks(kind, body)?,
        };
        match kind {
            StringKind::Text => Ok((Kind::Text(content), end)),
            StringKind::Bytes => Ok((Kind::Bytes(content), end)),
        }
    }

    /// Adds an item, which waits for the container that it is in.
    fn add(&mut self, item: Item) -> Result<usize, AllocError> {
        let index = self.items.len();
        self.items.push(item)?;
        self.waiting.push(index)?;
        Ok(index)
    }

    /// Opens a container if the head has one.
    fn open(&mut self, head: ItemHead, item: usize) -> Result<(), AllocError> {
        let left = match head {
            ItemHead::Array(count) => count.number(),
            ItemHead::Map(count) => match count.number() {
                Some(count) => Some(count.saturating_mul(2)),
                None => None,
            },
            ItemHead::Tag(..) => Some(1),
            _ => return Ok(()),
        };
        let waiting = self.waiting.len();
        self.open.push(Open {
            item,
            left,
            waiting,
        })?;
        Ok(())
    }

    /// Closes a container, whose parts are the last that wait.
    fn close(&mut self, open: Open, end: usize) -> Result<(), AllocError> {
        let first = self.parts.len();
        for place in open.waiting..self.waiting.len() {
            let part = match self.waiting.get(place) {
                Some(part) => *part,
                None => 0,
            };
            self.parts.push(part)?;
        }
        self.waiting.truncate(open.waiting);
        let count = self.parts.len().saturating_sub(first);
        if let Kind::Map = self.item(open.item).kind {
            self.sort(first, count)?;
        }
        if let Some(item) = self.items.get_mut(open.item) {
            item.first = first;
            item.count = count;
            item.span.end = end;
        }
        Ok(())
    }

    /// The innermost container and where it ends, if it ends here. Otherwise one more of its parts
    /// follows.
    fn ends(&mut self, at: usize, span: Span) -> Option<(Open, usize)> {
        let open = self.open.last().copied()?;
        let end = match open.left {
            Some(0) => Some(at),
            Some(_) => None,
            None => {
                let rest = self.bytes(Span {
                    start: at,
                    end: span.end,
                });
                after_break(rest).map(|_| at.saturating_add(1))
            }
        };
        if let Some(end) = end {
            self.open.pop();
            return Some((open, end));
        }
        if let Some(last) = self.open.last_mut() {
            last.left = open.left.map(|left| left.saturating_sub(1));
        }
        None
    }

    /// Closes the containers that end at a place, and returns where the last one ends.
    fn close_all(&mut self, at: usize, span: Span) -> Result<usize, AllocError> {
        let mut at = at;
        for _ in 0..=self.open.len() {
            let Some((open, end)) = self.ends(at, span) else {
                break;
            };
            self.close(open, end)?;
            at = end;
        }
        Ok(at)
    }

    /// Reads the item at the front of a span, whose bytes begin with one, and are in a byte string
    /// if one holds them. Returns the item and its end.
    fn read_front(&mut self, span: Span, holder: Option<usize>) -> Result<(usize, usize), Stop> {
        let place = self.place_inside(span, holder);
        let mut at = span.start;
        let root = self.items.len();
        for _ in span.start..span.end {
            let rest = self.bytes(Span {
                start: at,
                end: span.end,
            });
            let Ok((head, rest)) = read_head(rest) else {
                return Err(Stop::NoItem);
            };
            let start = span.end.saturating_sub(rest.len());
            let end = span.end;
            let (kind, after) = self.leaf(head, Span { start, end })?;
            let item = self.add(Item {
                kind,
                span: Span {
                    start: at,
                    end: after,
                },
                first: 0,
                count: 0,
                place: place.unwrap_or(at),
                head: head_len(kind, at, start),
                holder,
            })?;
            self.open(head, item)?;
            at = self.close_all(after, span)?;
            if self.open.is_empty() {
                self.waiting.truncate(0);
                return Ok((root, at));
            }
        }
        Err(Stop::NoItem)
    }

    /// How many bytes of a span the item at its front has; `None` if no item is there.
    fn front_len(&self, span: Span) -> Option<usize> {
        match extent(self.bytes(span)) {
            Extent::Item(len) => Some(len),
            _ => None,
        }
    }

    /// Reads the item that the bytes of a span are; `None` if they are none.
    pub(crate) fn read(
        &mut self,
        span: Span,
        holder: Option<usize>,
    ) -> Result<Option<usize>, Stop> {
        self.second_key = None;
        if self.front_len(span) != Some(span.end.saturating_sub(span.start)) {
            return Ok(None);
        }
        let (item, _) = self.read_front(span, holder)?;
        Ok(Some(item))
    }

    /// Reads the items that the content of a byte string is, as the members of an array that is at
    /// the place of the string; `None` if it is no items.
    pub(crate) fn read_sequence(
        &mut self,
        span: Span,
        holder: usize,
        alloc: Global,
    ) -> Result<Option<usize>, Stop> {
        self.second_key = None;
        let mut members = Vec::new(alloc);
        let mut at = span.start;
        for _ in span.start..span.end {
            if at >= span.end {
                break;
            }
            let rest = Span {
                start: at,
                end: span.end,
            };
            if self.front_len(rest).is_none() {
                return Ok(None);
            }
            let (item, end) = self.read_front(rest, Some(holder))?;
            members.push(item)?;
            at = end;
        }
        let first = self.parts.len();
        for member in &members {
            self.parts.push(*member)?;
        }
        let index = self.items.len();
        let string = self.item(holder);
        self.items.push(Item {
            kind: Kind::Array,
            span: string.span,
            first,
            count: members.len(),
            place: string.place,
            head: string.head,
            holder: string.holder,
        })?;
        Ok(Some(index))
    }

    /// The place that is said of the items in the content of a string: that of the string if its
    /// chunks were joined.
    fn place_inside(&self, content: Span, holder: Option<usize>) -> Option<usize> {
        let item = self.item(holder?);
        if content.start >= self.data.len() || item.place != item.span.start {
            Some(item.place)
        } else {
            None
        }
    }

    /// How many bytes of an array, with its head, are before the part at a place; all of them if
    /// there is none.
    pub(crate) fn len_before(&self, item: Item, place: usize) -> usize {
        let Some(first) = self.part(item, 0) else {
            return item.head;
        };
        let end = match self.part(item, place) {
            Some(part) => self.item(part).span.start,
            None => match self.part(item, item.count.saturating_sub(1)) {
                Some(last) => self.item(last).span.end,
                None => 0,
            },
        };
        let len = end.saturating_sub(self.item(first).span.start);
        item.head.saturating_add(len)
    }
}
