//! `Plan`: the pieces of a line of a page in the order in which they are written, and the data that
//! they need, such as numbers and words.

use crate::mark::Mark;
use crate::source::Event;
use std::alloc::{AllocError, Global};
use std::fmt::Write;

/// Pieces that are to be written, with their data.
#[derive(Drop)]
pub(crate) struct Plan {
    pub(crate) events: Vec<Event>,
    pub(crate) data: String,
}

impl Plan {
    /// No piece.
    pub(crate) fn new(alloc: Global) -> Plan {
        Plan {
            events: Vec::new(alloc),
            data: String::new(alloc),
        }
    }

    /// Forgets all pieces.
    pub(crate) fn clear(&mut self) {
        self.events.clear();
        self.data.clear();
    }

    /// Adds a piece.
    pub(crate) fn push(&mut self, event: Event) -> Result<(), AllocError> {
        self.events.push(event)?;
        Ok(())
    }

    /// Adds the pieces of another plan.
    pub(crate) fn append(&mut self, other: &Plan) -> Result<(), AllocError> {
        let base = self.data.len();
        self.data.push_str(&other.data)?;
        for event in &other.events {
            let event = match *event {
                Event::Data { from, to } => Event::Data {
                    from: from.saturating_add(base),
                    to: to.saturating_add(base),
                },
                event => event,
            };
            self.push(event)?;
        }
        Ok(())
    }

    /// Adds a constant.
    pub(crate) fn mark(&mut self, mark: Mark) -> Result<(), AllocError> {
        self.push(Event::Mark(mark))
    }

    /// Adds constants.
    pub(crate) fn marks(&mut self, marks: &[Mark]) -> Result<(), AllocError> {
        for mark in marks {
            self.mark(*mark)?;
        }
        Ok(())
    }

    /// Adds the data that was appended to the buffer since it had this length.
    fn data_since(&mut self, from: usize) -> Result<(), AllocError> {
        let to = self.data.len();
        self.push(Event::Data { from, to })
    }

    /// Adds data.
    pub(crate) fn words(&mut self, data: &str) -> Result<(), AllocError> {
        let from = self.data.len();
        self.data.push_str(data)?;
        self.data_since(from)
    }

    /// Adds a number in decimal.
    pub(crate) fn number(&mut self, number: usize) -> Result<(), AllocError> {
        let from = self.data.len();
        write!(self.data, "{number}")?;
        self.data_since(from)
    }

    /// Adds a number in hex, maybe with four digits at least.
    pub(crate) fn hex(&mut self, number: usize, four: bool) -> Result<(), AllocError> {
        let from = self.data.len();
        if four {
            write!(self.data, "{number:04x}")?;
        } else {
            write!(self.data, "{number:x}")?;
        }
        self.data_since(from)
    }

    /// Adds a piece of text up to a place, in a span of this kind.
    pub(crate) fn note(&mut self, kind: Mark, end: usize) -> Result<(), AllocError> {
        self.marks(&[Mark::Span, kind, Mark::Tag])?;
        self.push(Event::Text { end })?;
        self.mark(Mark::SpanEnd)
    }

    /// Adds bytes up to a place, if there are any: a head, or content.
    pub(crate) fn run(
        &mut self,
        is_head: bool,
        kind: Mark,
        run: (usize, usize),
    ) -> Result<(), AllocError> {
        let (from, end) = run;
        if end <= from {
            return Ok(());
        }
        if !self.events.is_empty() {
            self.mark(Mark::Blank)?;
        }
        let (opening, closing) = if is_head {
            (Mark::Head, Mark::HeadEnd)
        } else {
            (Mark::Content, Mark::ContentEnd)
        };
        self.marks(&[opening, kind, Mark::Tag])?;
        self.push(Event::Bytes { end })?;
        self.mark(closing)
    }
}
