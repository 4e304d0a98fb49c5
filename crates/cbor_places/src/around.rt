//! `Around`: the path, the open containers and the innermost item at a byte of the data, or at the
//! end of a truncated item. It writes these in words, for messages. `item_with` finds which of
//! several items contains a byte.

use crate::nouns::{count_of, noun_of_open, push_there};
use crate::path::Path;
use crate::piece::{Piece, Places};
use cbor_bytes::{Extent, extent};
use cbor_grammar::argument::Argument;
use cbor_grammar::layout::Content;
use cbor_inside::{ByteString, Inside, content_after};
use cbor_trace::{Open, Part, Spot, head_at, part_at};
use std::alloc::{AllocError, Global};
use std::fmt::Write;

/// A key of more bytes of notation than this is named by its place in a message.
pub(crate) const LONGEST: usize = 40;

/// An item, and where it is.
#[derive(Clone, Copy)]
pub(crate) struct Named {
    /// Where it begins in the data.
    pub(crate) start: usize,
    /// The length of the path to it; in a key, of that to the outermost map with such a key.
    pub(crate) path_len: usize,
    /// Whether it is in a key.
    pub(crate) in_key: bool,
}

/// A container that is open.
#[derive(Clone, Copy)]
pub(crate) struct Container {
    pub(crate) open: Open,
    pub(crate) item: Named,
}

/// What is around a byte.
#[derive(Drop)]
pub struct Around<'a> {
    /// The bytes that are looked at, which begin with the item, or with one in a byte string of it.
    pub(crate) piece: Piece<'a>,
    /// The path to the innermost item; in a key, to the outermost map with such a key.
    pub path: Path,
    /// The innermost item.
    pub spot: Spot,
    /// Whether that is in a key.
    pub in_key: bool,
    /// The innermost container that is open.
    pub(crate) last: Option<Container>,
    /// Whether an array or a map of indefinite length is open.
    pub(crate) in_indefinite: bool,
    /// The innermost array or map that the path leads into.
    around: Option<Container>,
}

/// How many items are before the one that has this byte of the data, and the bytes from that one
/// on.
pub fn item_with(piece: Piece, byte: usize) -> (usize, Piece) {
    let mut item = piece;
    let mut before = 0usize;
    for _ in 0..u64::MAX {
        let Extent::Item(len) = extent(item.bytes) else {
            break;
        };
        let end = item.number(len);
        if byte < end || len == 0 {
            break;
        }
        item = Piece {
            begins: end,
            bytes: item.bytes.get(len..).unwrap_or(b""),
        };
        before = before.saturating_add(1);
    }
    (before, item)
}

impl<'a> Around<'a> {
    /// What is around the end of bytes that are cut or have a fault: the item that is cut, or that
    /// has the fault. Where [`extent`] counts fewer bytes that have the fault, give it these.
    pub fn of_end(alloc: Global, piece: Piece<'a>) -> Result<Around<'a>, AllocError> {
        Around::new(alloc, piece, piece.bytes.len())
    }

    /// What is around the byte at a place of the bytes, which begin with the item.
    pub fn new(alloc: Global, piece: Piece<'a>, at: usize) -> Result<Around<'a>, AllocError> {
        let mut around = Around {
            piece,
            path: Path::new(alloc, LONGEST),
            spot: Spot::outermost(),
            in_key: false,
            last: None,
            in_indefinite: false,
            around: None,
        };
        around.go_to(at)?;
        Ok(around)
    }

    /// Goes on to the innermost item that has the byte at a place of the piece.
    fn go_to(&mut self, at: usize) -> Result<(), AllocError> {
        for _ in 0..=u8::MAX {
            let Some(part) = part_at(self.piece.bytes, self.spot, at) else {
                break;
            };
            self.enter(part)?;
        }
        Ok(())
    }

    /// Goes on into byte strings that are open, to the innermost item that has this byte of the
    /// data.
    pub(crate) fn go_inside(&mut self, byte: usize, opened: Inside) -> Result<(), AllocError> {
        for _ in 0..=u8::MAX {
            let Some((step, piece)) = self.held_at(byte, opened) else {
                break;
            };
            self.path.push_inside(step)?;
            self.piece = piece;
            self.last = None;
            self.spot = Spot {
                start: 0,
                level: self.spot.level.saturating_add(1),
            };
            self.go_to(byte.saturating_sub(piece.begins))?;
        }
        Ok(())
    }

    /// If the innermost item is a byte string that is open, and has this byte of the data in its
    /// content: the byte of the content that the step has, and the bytes from the item there on.
    fn held_at(&self, byte: usize, opened: Inside) -> Option<(Option<usize>, Piece<'a>)> {
        let (head, inner) = head_at(self.piece.bytes, self.spot.start)?;
        let bytes = content_after(head, self.piece.bytes.get(inner..)?)?;
        let begins = self.piece.number(inner);
        let items = Piece { begins, bytes };
        if self.in_key || byte < begins || items.number(bytes.len()) <= byte {
            return None;
        }
        match opened.content(self.byte_string(), bytes) {
            Content::Bytes => None,
            Content::Item => Some((None, items)),
            Content::Sequence => {
                let (_, item) = item_with(items, byte);
                Some((Some(item.begins.saturating_sub(begins)), item))
            }
        }
    }

    /// Where the innermost item is, which is a byte string.
    fn byte_string(&self) -> ByteString {
        let tag = match self.last.map(|inside| inside.open) {
            Some(Open::Tag { number, .. }) => Some(number),
            _ => None,
        };
        ByteString {
            start: self.piece.number(self.spot.start),
            level: self.spot.level,
            tag,
        }
    }

    /// The innermost item.
    pub(crate) fn named(&self) -> Named {
        Named {
            start: self.piece.number(self.spot.start),
            path_len: self.path.len(),
            in_key: self.in_key,
        }
    }

    /// Goes into a part of the innermost item.
    fn enter(&mut self, part: Part) -> Result<(), AllocError> {
        let inside = Container {
            open: part.open,
            item: self.named(),
        };
        self.last = Some(inside);
        self.in_indefinite |= matches!(count_of(part.open), Some(Argument::Indefinite));
        if !self.in_key {
            if !matches!(part.open, Open::Tag { .. }) {
                self.around = Some(inside);
            }
            self.push_step(part)?;
        }
        self.spot = Spot {
            start: part.start,
            level: self.spot.level.saturating_add(1),
        };
        Ok(())
    }

    /// Appends the step to a part.
    fn push_step(&mut self, part: Part) -> Result<(), AllocError> {
        match part.open {
            Open::Array { index, .. } => self.path.push_index(index)?,
            Open::Key { .. } => self.in_key = true,
            Open::Value { key, .. } => {
                let bytes = self.piece.between(key, part.start);
                self.path.push_key(bytes, self.piece.number(key))?;
            }
            Open::Tag { .. } => {}
        }
        Ok(())
    }

    /// Says where in the item this is: nothing at the outermost item. Of an item that is not whole
    /// it also says how much of the container is there.
    pub fn words<P: Places>(&self, places: &P, whole: bool) -> Result<String, AllocError> {
        let mut out = String::new(self.path.allocator());
        let Some(inside) = self.around else {
            return Ok(out);
        };
        if !self.path.is_empty() {
            write!(out, "at {}, ", self.path.as_str())?;
        }
        let key = if self.in_key { "a key of " } else { "" };
        write!(out, "in {key}the {}", noun_of_open(inside.open))?;
        match count_of(inside.open) {
            Some(Argument::Number(count, _)) => write!(out, " of {count} at ")?,
            _ => out.push_str(" of indefinite length at ")?,
        }
        places.push_byte(&mut out, inside.item.start)?;
        if !whole {
            out.push_str(", of which ")?;
            push_there(&mut out, inside.open)?;
        }
        Ok(out)
    }
}
