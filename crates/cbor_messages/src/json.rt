//! Writes the message for items that cannot be written as JSON: which two keys become the same, or
//! what JSON does not keep.

use crate::words::{Message, Words};
use cbor_grammar::Error;
use cbor_grammar::head::ItemHead;
use cbor_json::{Clash, JsonError, Loss, LossKind};
use cbor_places::Piece;
use cbor_trace::head_at;
use std::alloc::Global;
use std::fmt::Write;

/// What is said of whole items that are not written as JSON: the error is that of `bytes_to_json`.
/// An error of CBOR, as `Memory` is one, is returned.
pub fn not_json(alloc: Global, items: Piece, error: JsonError) -> Result<Message, Error> {
    let mut words = Words::new(alloc, items);
    match error {
        JsonError::Cbor(error) => Err(error),
        JsonError::SameKeys(clash) => {
            words.push_clash(clash)?;
            Ok(words.at(clash.second))
        }
        JsonError::NotKept(loss) => {
            words.push_loss(loss)?;
            Ok(words.at(loss.place))
        }
    }
}

impl Words<'_> {
    /// Writes that two keys become the same.
    fn push_clash(&mut self, clash: Clash) -> Result<(), Error> {
        self.push("the key ")?;
        self.push_key(clash.second)?;
        self.push(" is the same in JSON as the key ")?;
        if self.push_short(clash.first)? {
            self.push(" ")?;
        }
        Ok(self.push_byte(clash.first)?)
    }

    /// Writes what JSON does not keep.
    fn push_loss(&mut self, loss: Loss) -> Result<(), Error> {
        self.push("JSON does not keep ")?;
        match loss.kind {
            LossKind::Tag => match head_at(self.items.bytes, loss.place) {
                Some((ItemHead::Tag(tag, _), _)) => write!(self.out, "the tag {tag}")?,
                _ => self.push("a tag")?,
            },
            LossKind::Bytes => self.push("a byte string")?,
            LossKind::Key => {
                self.push("the key ")?;
                self.push_key(loss.place)?;
                self.push(", which is no text")?;
            }
            LossKind::NotFinite | LossKind::Simple => {
                let _ = self.push_short(loss.place)?;
            }
        }
        Ok(())
    }
}
