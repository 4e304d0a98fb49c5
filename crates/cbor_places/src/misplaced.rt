//! Writes why bytes are malformed: the text of the error or, for `Error::Head`, why the last head
//! is not allowed at its place.

use crate::around::{Around, LONGEST};
use crate::nouns::noun_of_open;
use crate::piece::Places;
use cbor_edn_writer::bytes_to_edn;
use cbor_grammar::Error;
use cbor_grammar::argument::Argument;
use cbor_trace::Open;
use std::alloc::AllocError;
use std::fmt::Write;

/// The byte of a break.
const BREAK: u8 = 0xff;

/// The byte that opens a text string of indefinite length.
const TEXT_IN_CHUNKS: u8 = 0x7f;

impl Around<'_> {
    /// What is wrong with bytes that have this error, whose end this is around: the text of the
    /// error, or why the head that ends them cannot be there. It has no `/`, as comments of
    /// notation have none.
    pub fn fault_words<P: Places>(&self, places: &P, error: Error) -> Result<String, AllocError> {
        let mut out = String::new(self.path.allocator());
        match self.piece.bytes.last() {
            Some(byte) if error == Error::Head => self.push_misplaced(&mut out, places, *byte)?,
            _ => out.push_str(error.text())?,
        }
        Ok(out)
    }

    /// Appends why no head can begin with this byte, which is the last.
    fn push_misplaced<P: Places>(
        &self,
        out: &mut String,
        places: &P,
        byte: u8,
    ) -> Result<(), AllocError> {
        let is_chunk = self.spot.start.saturating_add(1) < self.piece.bytes.len();
        match byte & 31 {
            28..=30 => write!(out, "{byte:02x}: lengths 28 to 30 are reserved"),
            _ if is_chunk => {
                let opened_by = self.piece.bytes.get(self.spot.start);
                let kind = if opened_by == Some(&TEXT_IN_CHUNKS) {
                    "text string"
                } else {
                    "byte string"
                };
                write!(
                    out,
                    "a chunk of a {kind} has to be a {kind} of definite length"
                )
            }
            _ if byte == BREAK => self.push_break(out, places),
            _ => write!(out, "{byte:02x}: this major type has no indefinite length"),
        }
    }

    /// Appends why nothing ends at a break, which is the last byte.
    fn push_break<P: Places>(&self, out: &mut String, places: &P) -> Result<(), AllocError> {
        match self.last.map(|inside| inside.open) {
            Some(
                Open::Value {
                    count: Argument::Indefinite,
                    key,
                    ..
                },
            ) => {
                out.push_str("a break, and the key ")?;
                self.push_key(out, places, key)?;
                out.push_str(" has no value")
            }
            Some(Open::Tag { number, .. }) if self.in_indefinite => {
                write!(out, "a break, and the tag {number} has no item")
            }
            Some(open) if self.in_indefinite => {
                let noun = noun_of_open(open);
                write!(
                    out,
                    "a break (ff), but the {noun} around it has a definite length"
                )
            }
            _ => out.push_str("a break (ff), but no indefinite-length item is open"),
        }
    }

    /// Appends the key that begins at a place, if it is short, and else its place.
    fn push_key<P: Places>(
        &self,
        out: &mut String,
        places: &P,
        key: usize,
    ) -> Result<(), AllocError> {
        let bytes = self.piece.between(key, self.spot.start);
        match bytes_to_edn(*out.allocator(), bytes) {
            Ok(edn) if edn.len() <= LONGEST && !edn.as_bytes().contains(&b'/') => out.push_str(
                &edn,
            ),
            Err(Error::Memory) => Err(AllocError),
            _ => {
                out.push_str("at ")?;
                places.push_byte(out, self.piece.number(key))
            }
        }
    }
}
