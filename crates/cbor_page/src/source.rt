//! `Source`: the EDN and the bytes of items. It writes the HTML of lines piece by piece: constants,
//! parts of the EDN and parts of the bytes.
//!
//! Whatever pieces the caller asks for, all of the EDN and all bytes are written, once and in
//! order: each piece begins where the last one ended, and ends within the EDN or the bytes.
ghost use Rattle.std.specs.Prelude.{◌≡◌, ◌≤◌, length, IfOk, OnOk};
ghost use Rattle.cbor_page.specs.Written.{Writes, IsWithin, IsAll};

use crate::escape::{push_escaped, push_spaced};
use crate::mark::Mark;
use std::alloc::AllocError;

/// A piece that is to be written.
#[derive(Clone, Copy)]
pub(crate) enum Event {
    /// A constant.
    Mark(Mark),
    /// The data between two places of a buffer.
    Data { from: usize, to: usize },
    /// The text up to a place.
    Text { end: usize },
    /// The bytes up to a place.
    Bytes { end: usize },
}

/// A text, and the bytes that it shows.
#[derive(Clone, Copy)]
pub(crate) struct Source<'a> {
    pub(crate) text: &'a [u8],
    pub(crate) bytes: &'a [u8],
}

/// How many bytes of a text and of its bytes are written.
#[derive(Clone, Copy)]
pub(crate) struct Done {
    pub(crate) text: usize,
    pub(crate) bytes: usize,
}

impl Done {
    /// Nothing is.
    pub(crate) const NOTHING: Done = Done { text: 0, bytes: 0 };
}

impl Source<'_> {
    /// Writes a piece.
    fn push(
        &self,
        out: &mut Vec<u8>,
        event: Event,
        data: &[u8],
        done: Done,
    ) -> Result<Done, AllocError>
        requires { IsWithin self.now done }
        ensures { IfOk result (λ after. Writes self.now done after out.old.items out.new.items) }
    {
        match event {
            Event::Mark(mark) => self.push_mark(out, mark, done),
            Event::Data { from, to } => {
                self.push_data(out, data.get(from..to).unwrap_or(b""), done)
            }
            Event::Text { end } => self.push_text(out, end, done),
            Event::Bytes { end } => self.push_bytes(out, end, done),
        }
    }

    /// Writes a constant.
    fn push_mark(&self, out: &mut Vec<u8>, mark: Mark, done: Done) -> Result<Done, AllocError>
        requires { IsWithin self.now done }
        ensures { IfOk result (λ after. Writes self.now done after out.old.items out.new.items) }
    {
        out.extend_from_slice(mark.text())?;
        Ok(done)
    }

    /// Writes data.
    fn push_data(&self, out: &mut Vec<u8>, words: &[u8], done: Done) -> Result<Done, AllocError>
        requires { IsWithin self.now done }
        ensures { IfOk result (λ after. Writes self.now done after out.old.items out.new.items) }
    {
        push_escaped(out, words)?;
        Ok(done)
    }

    /// Writes the text up to a place.
    fn push_text(&self, out: &mut Vec<u8>, end: usize, done: Done) -> Result<Done, AllocError>
        requires { IsWithin self.now done }
        ensures written { IfOk result (λ after.
            Writes self.now done after out.old.items out.new.items) }
        ensures other { IfOk result (λ after. after.bytes ≡ done.bytes) }
        ensures reached { IfOk result (λ after. length self.now.text.now ≤ end
            → after.text ≡ length self.now.text.now) }
    {
        let end = end.min(self.text.len()).max(done.text);
        push_escaped(out, &self.text[done.text..end])?;
        Ok(Done { text: end, ..done })
    }

    /// Writes the bytes up to a place.
    fn push_bytes(&self, out: &mut Vec<u8>, end: usize, done: Done) -> Result<Done, AllocError>
        requires { IsWithin self.now done }
        ensures written { IfOk result (λ after.
            Writes self.now done after out.old.items out.new.items) }
        ensures other { IfOk result (λ after. after.text ≡ done.text) }
        ensures reached { IfOk result (λ after. length self.now.bytes.now ≤ end
            → after.bytes ≡ length self.now.bytes.now) }
    {
        let end = end.min(self.bytes.len()).max(done.bytes);
        push_spaced(out, &self.bytes[done.bytes..end])?;
        Ok(Done { bytes: end, ..done })
    }

    /// Writes pieces.
    pub(crate) fn push_all(
        &self,
        out: &mut Vec<u8>,
        events: &[Event],
        data: &[u8],
        done: Done,
    ) -> Result<Done, AllocError>
        requires { IsWithin self.now done }
        ensures { IfOk result (λ after. Writes self.now done after out.old.items out.new.items) }
    {
        let mut now = done;
        'events: for event in events {
            now = self.push(out, *event, data, now)?;
        }
        Ok(now)
    }

    /// Writes the text and the bytes that are left.
    pub(crate) fn push_rest(&self, out: &mut Vec<u8>, done: Done) -> Result<Done, AllocError>
        requires { IsWithin self.now done }
        ensures written { IfOk result (λ after.
            Writes self.now done after out.old.items out.new.items) }
        ensures all { IfOk result (IsAll self.now) }
    {
        let text = self.push_text(out, self.text.len(), done)?;
        let after = self.push_bytes(out, self.bytes.len(), text)?;
        Ok(after)
    }
}
