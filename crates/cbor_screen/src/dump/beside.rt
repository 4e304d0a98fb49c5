//! `Beside`: finds the name and the meaning that a dump shows in the comment of the next head.
//! `push_word` appends one of these to the comment.

use cbor_notes::Note;
use std::alloc::AllocError;

/// The notes of the items whose heads come next.
#[derive(Clone, Copy)]
pub(super) struct Beside<'n> {
    /// They are in the order of these items.
    notes: &'n [Note<'n>],
    /// How many bytes the outermost item has.
    len: usize,
}

impl<'n> Beside<'n> {
    /// The notes of an item of that many bytes, in the order of the bytes.
    pub(super) fn new(len: usize, notes: &'n [Note<'n>]) -> Beside<'n> {
        Beside { notes, len }
    }

    /// The name and the meaning of the item from which on this many bytes remain; each may be
    /// empty. Notes of items before it are passed.
    pub(super) fn next(&mut self, remaining: usize) -> (&'n str, &'n str) {
        let start = self.len.saturating_sub(remaining);
        for _ in 0..self.notes.len() {
            match self.notes.first() {
                Some(note) if note.start < start => {
                    self.notes = self.notes.get(1..).unwrap_or(&[]);
                }
                Some(note) if note.start == start => return (note.before, note.after),
                _ => break,
            }
        }
        ("", "")
    }
}

/// Appends a text with what stands around it, or nothing if it cannot stand in a comment: if it is
/// empty or has a line feed.
pub(super) fn push_word(
    out: &mut String,
    opening: &str,
    text: &str,
    closing: &str,
) -> Result<(), AllocError> {
    if text.is_empty() || text.contains('\n') {
        return Ok(());
    }
    out.push_str(opening)?;
    out.push_str(text)?;
    out.push_str(closing)
}
