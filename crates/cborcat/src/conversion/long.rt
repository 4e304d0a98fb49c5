//! Looks at the string that the bytes end in, where these are many: an item is refused that the
//! length of the string makes longer than is allowed, and a check drops what came of the string.

use super::Conversion;
use cbor_bytes::head::read_head;
use cbor_bytes::utf8_fault;
use cbor_grammar::argument::Argument;
use cbor_grammar::head::ItemHead;
use cbor_grammar::strings::StringKind;
use cbor_inputs::Input;
use cbor_inspect::Stream;
use cbor_places::{Around, Piece};
use cborcat_arguments::View;
use cborcat_messages::{Hole, Origin};
use std::alloc::{AllocError, Global};

/// How many bytes of an item there are before one looks at its end. Fewer may be all that the input
/// has: then it is said that they are truncated.
pub(super) const MANY: usize = 1024 * 1024;

/// How many bytes of a string are kept at least, for messages.
const KEPT: usize = 64;

/// A string that goes on behind the bytes.
#[derive(Clone, Copy)]
struct LongString {
    kind: StringKind,
    /// The length that its head states.
    length: usize,
    /// Where it begins, and where its content begins.
    start: usize,
    content: usize,
}

impl LongString {
    /// The string of definite length that truncated bytes end in.
    fn at_end(alloc: Global, left: Piece<'_>) -> Result<Option<LongString>, AllocError> {
        let around = Around::of_end(alloc, left)?;
        let start = around.spot.start;
        let item = left.bytes.get(start..).unwrap_or(b"");
        let Ok((ItemHead::String(kind, Argument::Number(length, _)), content)) = read_head(item)
        else {
            return Ok(None);
        };
        Ok(Some(LongString {
            kind,
            length: usize::try_from(length).unwrap_or(usize::MAX),
            start,
            content: left.bytes.len().saturating_sub(content.len()),
        }))
    }

    /// How many of the first bytes of its content can be dropped: no fault is in them, and they end
    /// with a character.
    fn droppable(self, content: &[u8]) -> usize {
        if let StringKind::Bytes = self.kind {
            return content.len().saturating_sub(KEPT);
        }
        let sound = utf8_fault(content).unwrap_or(content.len());
        let mut len = sound.saturating_sub(KEPT);
        for _ in 0..3 {
            match content.get(len) {
                Some(byte) if *byte & 0xc0 == 0x80 => len = len.saturating_sub(1),
                _ => break,
            }
        }
        len
    }

    /// The bytes without this many of its content, so that it is shorter by these.
    fn without(self, alloc: Global, bytes: &[u8], len: usize) -> Result<Vec<u8>, AllocError> {
        let (before, rest) = bytes.split_at(self.content.min(bytes.len()));
        let (before, argument) = before.split_at(before.len().min(self.start.saturating_add(1)));
        let length = (self.length.saturating_sub(len) as u64).to_be_bytes();
        let length = length.as_slice();
        let from = length.len().saturating_sub(argument.len());
        let mut kept = Vec::from_slice(alloc, before)?;
        kept.extend_from_slice(length.get(from..).unwrap_or(b""))?;
        kept.extend_from_slice(rest.get(len..).unwrap_or(b""))?;
        Ok(kept)
    }

    /// The bytes without what can be dropped of its content, and how many that are; nothing if none
    /// can be.
    fn shorter(self, alloc: Global, bytes: &[u8]) -> Result<Option<(Vec<u8>, usize)>, AllocError> {
        let len = self.droppable(bytes.get(self.content..).unwrap_or(b""));
        if len == 0 {
            return Ok(None);
        }
        let kept = self.without(alloc, bytes, len)?;
        Ok(Some((kept, len)))
    }
}

impl Conversion<'_> {
    /// Looks at the end of the bytes, whose item is not whole, each time that they are twice as
    /// many. Returns whether the item is longer than is allowed.
    pub(super) fn look_at_end(&mut self) -> Result<bool, AllocError> {
        let count = self.stream.rest().len();
        let comes_so = self.origin.form == Input::Bytes && !self.changes.are_asked();
        if !comes_so || count < self.look_from {
            return Ok(false);
        }
        self.look_from = count.saturating_mul(2);
        let Some(string) = LongString::at_end(self.rt.alloc(), self.left())? else {
            return Ok(false);
        };
        let before = string.content.saturating_add(self.dropped());
        self.long = before.saturating_add(string.length) > self.job.limit;
        if !self.long && self.is_plain_check() {
            self.drop_content(string)?;
        }
        Ok(self.long)
    }

    /// Whether only the items are checked, and by no rules.
    fn is_plain_check(&self) -> bool {
        let is_check = matches!(self.job.view, View::Check);
        is_check
            && self.cddl.is_none()
            && self.job.rules.is_none()
            && self.job.show.steps.is_empty()
    }

    /// Drops what came of the content of a string, but for its last bytes.
    fn drop_content(&mut self, string: LongString) -> Result<(), AllocError> {
        let Some((kept, len)) = string.shorter(self.rt.alloc(), self.stream.rest())? else {
            return Ok(());
        };
        self.stream = Stream::new(kept);
        self.look_from = MANY;
        let end = self.begins().saturating_add(string.content);
        for hole in &mut self.holes {
            hole.end = hole.end.saturating_add(len);
            if hole.end == end {
                hole.len = hole.len.saturating_add(len);
                return Ok(());
            }
        }
        self.holes.push(Hole { end, len })?;
        Ok(())
    }

    /// How many bytes of the item at the front were dropped.
    pub(super) fn dropped(&self) -> usize {
        let mut count = 0usize;
        for hole in &self.holes {
            count = count.saturating_add(hole.len);
        }
        count
    }

    /// What messages say of the input, with the bytes that were dropped.
    pub(super) fn told(&self) -> Origin<'_> {
        let origin = *self.origin;
        Origin {
            holes: &self.holes,
            ..origin
        }
    }
}
