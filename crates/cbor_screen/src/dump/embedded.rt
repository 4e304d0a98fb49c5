//! Writes a dump, with the items in byte strings below the tags of encoded CBOR (24 and 63) as
//! notes.
//!
//! Each of these items has a dump of its own, with its own bytes. There is no recursion: the walk
//! that comes to such a string waits while another walk goes over the items in it.

use crate::dump::measure::Measure;
use crate::dump::walk::Walk;
use crate::dump::write::{Columns, Writing};
use cbor_bytes::borrowed::read_borrowed;
use cbor_bytes::head::read_head;
use cbor_dump::context::DumpContext;
use cbor_grammar::argument::Argument;
use cbor_grammar::head::ItemHead;
use cbor_grammar::strings::StringKind;
use cbor_grammar::{Error, Tag};
use std::alloc::Global;
use std::mem;

/// A byte string right below a tag of encoded CBOR that has items still to be shown.
#[derive(Clone, Copy)]
pub(super) struct Embedded<'a> {
    /// Where the string is.
    context: DumpContext,
    /// The content that remains.
    content: &'a [u8],
    /// Whether the content is a sequence of items.
    sequence: bool,
}

/// The byte string of definite length that is the value of this tag, if the tag is one of encoded
/// CBOR.
pub(super) fn embedded_in<'a>(
    context: &DumpContext,
    tag: Tag,
    value: &'a [u8],
) -> Option<Embedded<'a>> {
    if tag != Tag::ENCODED_CBOR && tag != Tag::ENCODED_CBOR_SEQ {
        return None;
    }
    let Ok((ItemHead::String(StringKind::Bytes, Argument::Number(count, _)), rest)) = read_head(
        value,
    ) else {
        return None;
    };
    let Ok((content, _)) = read_borrowed(StringKind::Bytes, count, rest) else {
        return None;
    };
    Some(Embedded {
        context: *context,
        content: content.as_bytes(),
        sequence: tag == Tag::ENCODED_CBOR_SEQ,
    })
}

/// A walk that waits while an item of a byte string is shown.
#[derive(Drop)]
struct Outer<'a> {
    walk: Walk<'a>,
    /// The byte string, from that item on.
    note: Embedded<'a>,
    /// The columns of the lines around it.
    columns: Columns,
}

/// The walks over an item and the items that are shown in notes.
#[derive(Drop)]
struct Walks<'a> {
    alloc: Global,
    /// The walk over the innermost of them.
    walk: Walk<'a>,
    /// Those that wait, the outermost first.
    outer: Vec<Outer<'a>>,
}

/// Writes the lines of an item, with the items in its notes.
pub(super) fn write_all(
    alloc: Global,
    writing: &mut Writing<'_>,
    walk: Walk<'_>,
) -> Result<(), Error> {
    let outer = Vec::new(alloc);
    let mut walks = Walks { alloc, walk, outer };
    walks.walk.item(writing)?;
    for _ in 0..u64::MAX {
        match walks.walk.take_note() {
            Some(note) => walks.enter(writing, note)?,
            None if walks.outer.is_empty() => break,
            None => walks.leave(writing)?,
        }
    }
    Ok(())
}

impl<'a> Walks<'a> {
    /// Begins with the first item of a byte string, or writes that there is none.
    fn enter(&mut self, writing: &mut Writing<'_>, note: Embedded<'a>) -> Result<(), Error> {
        let Some(width) = self.width_of(writing, note)? else {
            return self.walk.go_on(writing);
        };
        let columns = writing.enter(note.context.depth, width)?;
        let inner = self.inner(note);
        let walk = mem::replace(&mut self.walk, inner);
        self.outer.push(Outer {
            walk,
            note,
            columns,
        })?;
        self.walk.item(writing)
    }

    /// Goes on after an item of a byte string.
    fn leave(&mut self, writing: &mut Writing<'_>) -> Result<(), Error> {
        let Some(outer) = self.outer.pop() else {
            return Ok(());
        };
        writing.leave(outer.columns);
        let content = self.walk.rest();
        self.walk = outer.walk;
        if outer.note.sequence {
            self.walk.wait_for(Embedded {
                content,
                ..outer.note
            });
        }
        self.walk.go_on(writing)
    }

    /// A walk over the first item of a byte string.
    fn inner(&self, note: Embedded<'a>) -> Walk<'a> {
        let level = note.context.level.saturating_add(1);
        Walk::in_note(self.alloc, note.content, level)
    }

    /// The width of the digits of the first item of a byte string, or `None` if there is no item.
    /// It writes why there is none, unless nothing remains of a sequence.
    fn width_of(
        &self,
        writing: &mut Writing<'_>,
        note: Embedded<'a>,
    ) -> Result<Option<usize>, Error> {
        if note.sequence && note.content.is_empty() {
            return Ok(None);
        }
        let mut measure = Measure::new();
        let mut walk = self.inner(note);
        let error = match walk.item(&mut measure) {
            Ok(()) if note.sequence || walk.rest().is_empty() => return Ok(Some(measure.width())),
            Ok(()) => Error::Remaining,
            Err(Error::Memory) => return Err(Error::Memory),
            Err(error) => error,
        };
        writing.failed(note.context.depth, note.sequence, error)?;
        Ok(None)
    }
}
