//! `Show::partial` writes a truncated or malformed item as EDN: its whole parts with their names,
//! then what is wrong and some of the bytes that remain.

use crate::items::Show;
use cbor_grammar::Error;
use cbor_places::{PartialText, partial_edn};
use std::alloc::Global;

impl Show<'_> {
    /// Returns the EDN of the whole parts of the item at the front, which is truncated or
    /// malformed, with their names. In place of the rest stand what is `said` of it and its first
    /// bytes.
    pub fn partial(&self, alloc: Global, bytes: &[u8], said: &str) -> Result<PartialText, Error> {
        if let Some(marks) = self.marks {
            marks.begin(0);
        }
        let naming = match self.names {
            Some(naming) if self.style.has_notes() => naming,
            _ => return partial_edn(alloc, self.noted(&[]), bytes, said),
        };
        let found = naming.notes(alloc, bytes)?;
        let notes = found.list(alloc)?;
        partial_edn(alloc, self.noted(&notes), bytes, said)
    }
}
