//! `Picture`: what is shown of an item besides its bytes: names, and byte strings as the item in
//! them. A step of a path may be such a name.

use cbor_grammar::layout::Content;
use cbor_inside::{ByteString, Inside};
use cbor_notes::Note;

/// What is shown of an item.
#[derive(Clone, Copy)]
pub struct Picture<'a> {
    /// Names, and which byte strings hold an item by them, in the order of their places.
    pub notes: &'a [Note<'a>],
    /// Which other byte strings are shown as the items in them; with `None` no byte string is.
    pub inside: Option<Inside<'a>>,
}

impl<'a> Picture<'a> {
    /// The bytes alone: no names, and byte strings as such.
    pub fn plain() -> Picture<'a> {
        Picture {
            notes: &[],
            inside: None,
        }
    }

    /// The note on what begins at a place.
    fn note_at(self, place: usize) -> Option<&'a Note<'a>> {
        let (mut low, mut high) = (0usize, self.notes.len());
        for _ in 0..=usize::BITS {
            let middle = low.saturating_add(high.saturating_sub(low) / 2);
            let note = self.notes.get(middle)?;
            if note.start == place {
                return Some(note);
            }
            if note.start < place {
                low = middle.saturating_add(1);
            } else {
                high = middle;
            }
        }
        None
    }

    /// Returns the name before what begins at a place; empty for none.
    pub fn name_at(self, place: usize) -> &'a str {
        match self.note_at(place) {
            Some(note) => note.before,
            None => "",
        }
    }

    /// Whether a name says of the byte string that begins at a place that it holds an item.
    pub(crate) fn is_encoded(self, place: usize) -> bool {
        match self.note_at(place) {
            Some(note) => note.encoded,
            None => false,
        }
    }

    /// What a byte string with this content is shown as.
    pub(crate) fn content(self, string: ByteString, content: &[u8]) -> Content {
        let Some(inside) = self.inside else {
            return Content::Bytes;
        };
        let inside = Inside {
            embedded: inside.embedded || self.is_encoded(string.start),
            ..inside
        };
        inside.content(string, content)
    }
}
