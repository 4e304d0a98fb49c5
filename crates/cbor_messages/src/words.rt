//! `Message`: a text, and the place in the items that it is about. `Words`: writes such a text,
//! with items and keys in it, and with the places of bytes. `TWO_BYTES`: the message for a simple value below 32 in
//! two bytes.

use cbor_bytes::{Extent, extent};
use cbor_edn_writer::bytes_to_edn;
use cbor_grammar::Error;
use cbor_places::{Piece, Places};
use std::alloc::{AllocError, Global};

/// What is said of a place in items.
#[derive(Drop)]
pub struct Message {
    /// How many bytes of the items come before it.
    pub place: usize,
    /// What is said, in one line. Keys and texts are in EDN.
    pub text: String,
    /// The bytes of the data that are named in the text, in its order: where in the text the name
    /// goes, and the number of the byte.
    pub bytes: Vec<(usize, usize)>,
}

impl Message {
    /// A message that names no byte.
    pub fn new(alloc: Global, place: usize, text: String) -> Message {
        Message {
            place,
            text,
            bytes: Vec::new(alloc),
        }
    }

    /// What is said, with the names of the bytes.
    pub fn words<P: Places>(&self, alloc: Global, places: &P) -> Result<String, AllocError> {
        let mut out = String::new(alloc);
        let mut from = 0usize;
        for named in &self.bytes {
            let (at, byte) = *named;
            out.push_str(self.text.as_str().get(from..at).unwrap_or(""))?;
            places.push_byte(&mut out, byte)?;
            from = at;
        }
        out.push_str(self.text.as_str().get(from..).unwrap_or(""))?;
        Ok(out)
    }
}

/// What is said of a simple value below 32 in two bytes.
pub const TWO_BYTES: &str = "a simple value below 32 in two bytes, which RFC 8949 forbids";

/// An item of more bytes of EDN than this is named by its place.
const LONGEST: usize = 40;

/// What was written of a message on items.
#[derive(Drop)]
pub(crate) struct Words<'a> {
    /// The items, which are whole.
    pub(crate) items: Piece<'a>,
    /// What was written.
    pub(crate) out: String,
    /// The bytes that are named in it.
    bytes: Vec<(usize, usize)>,
}

impl<'a> Words<'a> {
    /// No words yet.
    pub(crate) fn new(alloc: Global, items: Piece<'a>) -> Words<'a> {
        Words {
            items,
            out: String::new(alloc),
            bytes: Vec::new(alloc),
        }
    }

    /// The message on this place.
    pub(crate) fn at(self, place: usize) -> Message {
        Message {
            place,
            text: self.out,
            bytes: self.bytes,
        }
    }

    /// Writes a text.
    pub(crate) fn push(&mut self, text: &str) -> Result<(), AllocError> {
        self.out.push_str(text)
    }

    /// The bytes from a place in the items on.
    pub(crate) fn from(&self, place: usize) -> &'a [u8] {
        self.items.bytes.get(place..).unwrap_or(b"")
    }

    /// Writes where the byte at a place is.
    pub(crate) fn push_byte(&mut self, place: usize) -> Result<(), AllocError> {
        self.out.push_str("at ")?;
        self.bytes.push((self.out.len(), self.items.number(place)))?;
        Ok(())
    }

    /// The bytes of the item at a place; none if no whole item is there.
    pub(crate) fn item(&self, place: usize) -> &'a [u8] {
        let rest = self.from(place);
        match extent(rest) {
            Extent::Item(len) => rest.get(..len).unwrap_or(b""),
            _ => b"",
        }
    }

    /// The EDN of the item at a place, if it is short.
    pub(crate) fn short(&self, place: usize) -> Result<Option<String>, Error> {
        let item = self.item(place);
        if item.is_empty() {
            return Ok(None);
        }
        let text = bytes_to_edn(*self.out.allocator(), item)?;
        Ok(if text.len() <= LONGEST {
            Some(text)
        } else {
            None
        })
    }

    /// Writes the item at a place, if it is short, and returns whether it did.
    pub(crate) fn push_short(&mut self, place: usize) -> Result<bool, Error> {
        let Some(text) = self.short(place)? else {
            return Ok(false);
        };
        self.push(&text)?;
        Ok(true)
    }

    /// Writes the key at a place, if it is short, and else its place.
    pub(crate) fn push_key(&mut self, place: usize) -> Result<(), Error> {
        if !self.push_short(place)? {
            self.push_byte(place)?;
        }
        Ok(())
    }
}
