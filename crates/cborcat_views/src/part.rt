//! `parts_in` finds the parts of an item that the path of the arguments leads to, each with its
//! names. `PartOf`: such a part.

use crate::item::NotShown;
use cbor_inspect::{Naming, parts_of};
use cbor_messages::Message;
use cbor_places::Piece;
use cbor_trace::Span;
use cborcat_arguments::{Job, show_of};
use std::alloc::{AllocError, Global};

/// A part of an item, or all of it.
#[derive(Clone, Copy)]
pub struct PartOf<'a, 'b> {
    item: Piece<'b>,
    /// Its bytes in the item.
    pub span: Span,
    /// Its names.
    pub(crate) naming: Option<Naming<'a>>,
}

impl<'b> PartOf<'_, 'b> {
    /// Its bytes in the input.
    pub(crate) fn piece(self) -> Piece<'b> {
        Piece {
            begins: self.item.number(self.span.start),
            bytes: self.span.bytes(self.item.bytes),
        }
    }

    /// What keeps it from being shown, at a byte of the part.
    pub(crate) fn refused(self, message: Message) -> NotShown {
        let place = self.span.start.saturating_add(message.place);
        NotShown::Refused(Message { place, ..message })
    }
}

/// The parts of an item that the path leads to, where paths may have these names; the item itself
/// if there is no path.
pub fn parts_in<'a, 'b>(
    alloc: Global,
    asked: (&'a Job<'a>, Option<Naming<'a>>),
    item: Piece<'b>,
) -> Result<Vec<PartOf<'a, 'b>>, AllocError> {
    let (job, tables) = asked;
    let mut parts = Vec::new(alloc);
    if job.show.steps.is_empty() {
        let span = Span {
            start: 0,
            end: item.bytes.len(),
        };
        parts.push(PartOf {
            item,
            span,
            naming: tables,
        })?;
        return Ok(parts);
    }
    let show = show_of(job, tables);
    for part in &parts_of(alloc, &show, item.bytes)? {
        parts.push(PartOf {
            item,
            span: part.span,
            naming: show.of_part(part).names,
        })?;
    }
    Ok(parts)
}
