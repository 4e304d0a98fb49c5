//! `Walk`: goes over the EDN of items and over their bytes, side by side, and finds the pieces of
//! each line of a page. Each token is matched with the next head, unless it is a note. What wrote
//! the EDN says where its tokens are.
//!
//! Wrong tokens cannot hide data: `source.rt` writes all of the EDN and all bytes, whatever pieces
//! the walk finds.

use crate::heads::{leaf_at, opened_at};
use crate::mark::Mark;
use crate::open::{Open, Step};
use crate::plan::Plan;
use crate::shown::PathStart;
use crate::source::Event;
use cbor_bytes::{Extent, extent};
use cbor_marks::{Kind, Token};
use cbor_places::Path;
use memchr::memchr;
use std::alloc::{AllocError, Global};
use std::fmt::Write;

/// Items and their EDN.
#[derive(Clone, Copy)]
pub(crate) struct Items<'a> {
    /// The EDN: the text of each item, or of the part of it that is there, in lines.
    pub(crate) text: &'a [u8],
    /// The tokens of the EDN, in order.
    pub(crate) tokens: &'a [Token],
    /// The bytes of the items.
    pub(crate) bytes: &'a [u8],
    /// Where these begin in the data.
    pub(crate) begins: usize,
    /// Where they stand.
    pub(crate) paths: PathStart<'a>,
    /// Where in the bytes the last item is wrong, if it is not whole: at their end if they are
    /// truncated.
    pub(crate) fault: Option<usize>,
}

/// A walk over items.
#[derive(Drop)]
pub(crate) struct Walk<'a> {
    items: Items<'a>,
    /// The tokens that the walk has not taken.
    tokens: &'a [Token],
    /// How much of the text and of the bytes is behind the walk.
    text_at: usize,
    at: usize,
    open: Vec<Open>,
    /// How many items were open outside of each fold that is open.
    folds: Vec<usize>,
    /// The fewest items that were open in this line.
    low: usize,
    /// How many items of the data are behind the walk, or begun.
    pub(crate) number: usize,
    /// Whether the note of the fault came.
    at_fault: bool,
    /// The pieces of the two cells of this line, and those of all of it.
    runs: Plan,
    texts: Plan,
    pub(crate) line: Plan,
}

/// The blanks of one level.
const INDENT: usize = 4;

/// The deepest level that the style knows.
const DEEPEST: usize = 12;

impl<'a> Walk<'a> {
    /// A walk that begins.
    pub(crate) fn new(alloc: Global, items: &Items<'a>) -> Walk<'a> {
        Walk {
            items: *items,
            tokens: items.tokens,
            text_at: 0,
            at: 0,
            open: Vec::new(alloc),
            folds: Vec::new(alloc),
            low: 0,
            number: items.paths.number,
            at_fault: false,
            runs: Plan::new(alloc),
            texts: Plan::new(alloc),
            line: Plan::new(alloc),
        }
    }

    /// Whether no line is left.
    pub(crate) fn is_done(&self) -> bool {
        self.text_at >= self.items.text.len()
    }

    /// Finds the pieces of the next line.
    pub(crate) fn next_line(&mut self) -> Result<(), AllocError> {
        self.runs.clear();
        self.texts.clear();
        self.line.clear();
        self.low = self.open.len();
        let (begins, from) = (self.at, self.text_at);
        let rest = self.items.text.get(from..).unwrap_or(b"");
        let len = memchr(b'\n', rest).unwrap_or(rest.len());
        let line = rest.get(..len).unwrap_or(rest);
        let end = from.saturating_add(line.len());
        for _ in 0..self.tokens.len() {
            let Some(token) = self.next_token(end) else {
                break;
            };
            self.take(token, end)?;
        }
        self.texts.push(Event::Text { end })?;
        self.text_at = end.saturating_add(1);
        self.push_line(begins, indent_of(line))
    }

    /// Passes the next token, if it begins before this place of the text.
    fn next_token(&mut self, before: usize) -> Option<Token> {
        let [token, rest @ ..] = self.tokens else {
            return None;
        };
        if token.start >= before {
            return None;
        }
        self.tokens = rest;
        Some(*token)
    }

    /// Takes a token of a line that ends at a place of the text, with what is before it, and takes
    /// the notes that follow a leaf.
    fn take(&mut self, token: Token, line_end: usize) -> Result<(), AllocError> {
        self.texts.push(Event::Text { end: token.start })?;
        match token.kind {
            Kind::Note => self.texts.note(Mark::Note, token.end),
            Kind::Fault => {
                self.at_fault = true;
                self.texts.note(Mark::Wrong, token.end)
            }
            // The parenthesis after the number of a tag is in its span.
            Kind::Tag => self.take_opening(token.end.saturating_add(1)),
            Kind::Opening => self.take_opening(token.end),
            Kind::Closing => self.take_closing(token.end),
            Kind::Key | Kind::Text | Kind::Bytes | Kind::Number => {
                self.take_leaf(token.end)?;
                self.take_notes(token.end, line_end)?;
                self.texts.mark(Mark::SpanEnd)
            }
        }
    }

    /// Takes the notes of a line that follow an item, whose text ends at a place: one blank is
    /// before each.
    fn take_notes(&mut self, item_end: usize, line_end: usize) -> Result<(), AllocError> {
        let mut end = item_end;
        for _ in 0..self.tokens.len() {
            let start = end.saturating_add(1);
            match self.tokens {
                [note, ..] if note.kind == Kind::Note && note.start == start => {}
                _ => break,
            }
            let Some(note) = self.next_token(line_end) else {
                break;
            };
            end = note.end;
            self.texts.push(Event::Text { end: start })?;
            self.texts.note(Mark::Note, end)?;
        }
        Ok(())
    }

    /// Opens the span of an item of this kind, from the place of the walk to this one.
    fn open_span(&mut self, kind: Mark, end: usize) -> Result<(), AllocError> {
        let (start, begins) = (self.at, self.items.begins);
        let step = self.step(start);
        self.texts.marks(&[Mark::Span, kind])?;
        if let Step::IsKey = step {
            self.texts.mark(Mark::Key)?;
        }
        self.texts.mark(Mark::Start)?;
        self.texts.number(begins.saturating_add(start))?;
        self.texts.mark(Mark::End)?;
        self.texts.number(begins.saturating_add(end))?;
        self.push_step(step)?;
        self.texts.mark(Mark::Tag)
    }

    /// The step to the item that begins at a place.
    fn step(&mut self, start: usize) -> Step {
        if let Some(open) = self.open.last_mut() {
            return open.step(start);
        }
        let number = self.number;
        self.number = number.saturating_add(1);
        if !self.items.paths.path.is_empty() {
            Step::Given
        } else if number > 0 {
            Step::Number(number)
        } else {
            Step::Plain
        }
    }

    /// Adds the step to an item, if it has one.
    fn push_step(&mut self, step: Step) -> Result<(), AllocError> {
        let alloc = *self.open.allocator();
        let words = match step {
            Step::Given => String::from_str(alloc, self.items.paths.path)?,
            Step::Number(number) => format!(in alloc; "{number}:")?,
            Step::Index(index) => format!(in alloc; "{index}")?,
            Step::Key { from, to } => {
                let key = self.items.bytes.get(from..to).unwrap_or(b"");
                let mut path = Path::new(alloc, usize::MAX);
                path.push_key(key, self.items.begins.saturating_add(from))?;
                String::from_str(alloc, path.as_str())?
            }
            Step::Inside => String::from_str(alloc, "@")?,
            Step::At(byte) => format!(in alloc; "@{byte}")?,
            Step::IsKey | Step::Plain => return Ok(()),
        };
        self.texts.mark(Mark::Step)?;
        self.texts.words(&words)
    }

    /// Takes an item without others in it, whose text ends at a place. Its span stays open.
    fn take_leaf(&mut self, text_end: usize) -> Result<(), AllocError> {
        let start = self.at;
        if self.at_fault {
            self.take_remaining()?;
        } else {
            let leaf = leaf_at(self.items.bytes, start);
            self.open_span(leaf.kind, leaf.end)?;
            self.runs.run(true, leaf.kind, (start, leaf.head_end))?;
            self.runs.run(false, leaf.kind, (leaf.head_end, leaf.end))?;
            self.at = leaf.end;
        }
        self.texts.push(Event::Text { end: text_end })
    }

    /// Takes all bytes that remain, with the fault in them.
    fn take_remaining(&mut self) -> Result<(), AllocError> {
        let (start, end) = (self.at, self.items.bytes.len());
        let fault = match self.items.fault {
            Some(fault) => fault.clamp(start, end.max(start)),
            None => end,
        };
        let after = fault.saturating_add(1).min(end);
        self.open_span(Mark::ByteString, end)?;
        self.runs.run(false, Mark::ByteString, (start, fault))?;
        self.runs.run(true, Mark::Wrong, (fault, after))?;
        self.runs.run(false, Mark::ByteString, (after, end))?;
        self.at = end;
        Ok(())
    }

    /// Takes what opens an item, whose text ends at a place.
    fn take_opening(&mut self, text_end: usize) -> Result<(), AllocError> {
        let start = self.at;
        let rest = self.items.bytes.get(start..).unwrap_or(b"");
        let (open, head_end) = opened_at(self.items.bytes, start);
        let end = match extent(rest) {
            Extent::Item(len) => start.saturating_add(len),
            _ => self.items.bytes.len(),
        };
        self.open_span(open.kind, end)?;
        self.texts.push(Event::Text { end: text_end })?;
        self.texts.mark(Mark::SpanEnd)?;
        self.runs.run(true, open.kind, (start, head_end))?;
        self.at = head_end;
        self.open.push(open)?;
        Ok(())
    }

    /// Takes what closes the innermost item that is open, whose text ends at a place.
    fn take_closing(&mut self, text_end: usize) -> Result<(), AllocError> {
        let Some(open) = self.open.pop() else {
            return self.texts.push(Event::Text { end: text_end });
        };
        self.low = self.low.min(self.open.len());
        let at = self.at;
        if open.has_break && self.items.bytes.get(at) == Some(&0xff) {
            self.at = at.saturating_add(1);
            self.runs.run(true, open.kind, (at, self.at))?;
        }
        self.texts.marks(&[Mark::Span, open.kind, Mark::Start])?;
        self.texts
            .number(self.items.begins.saturating_add(open.start))?;
        self.texts.mark(Mark::Tag)?;
        self.texts.push(Event::Text { end: text_end })?;
        self.texts.mark(Mark::SpanEnd)
    }

    /// Adds the pieces of all of the line, whose bytes begin at a place.
    fn push_line(&mut self, begins: usize, indent: usize) -> Result<(), AllocError> {
        let ended = self.ended_folds();
        let opens = self.low < self.open.len();
        if opens {
            self.end_folds(ended)?;
            self.line.mark(Mark::Fold)?;
        }
        self.line.mark(Mark::Line)?;
        if begins < self.at {
            self.push_offset(begins)?;
        }
        self.line.mark(Mark::Bytes)?;
        self.line.append(&self.runs)?;
        self.push_cell(indent, opens)?;
        self.line.append(&self.texts)?;
        self.line.mark(Mark::SpanEnd)?;
        self.line.push(Event::Text { end: self.text_at })?;
        self.line.mark(Mark::SpanEnd)?;
        if opens {
            self.line.mark(Mark::FoldLine)?;
            self.folds.push(self.low)?;
            return Ok(());
        }
        self.end_folds(ended)
    }

    /// Adds the anchor of the offset of the line.
    fn push_offset(&mut self, begins: usize) -> Result<(), AllocError> {
        let offset = self.items.begins.saturating_add(begins);
        self.line.mark(Mark::Offset)?;
        self.line.hex(offset, false)?;
        self.line.mark(Mark::Link)?;
        self.line.hex(offset, false)?;
        self.line.mark(Mark::Tag)?;
        self.line.hex(offset, true)?;
        self.line.mark(Mark::Anchor)
    }

    /// Opens the cell of the text, with its indentation, and the words for a fold.
    fn push_cell(&mut self, indent: usize, opens: bool) -> Result<(), AllocError> {
        self.line.mark(Mark::Text)?;
        if indent > 0 {
            self.line.mark(Mark::Depth)?;
            self.line.number(indent)?;
        }
        if opens {
            let words = self.shut_words()?;
            self.line.mark(Mark::Shut)?;
            self.line.words(&words)?;
        }
        self.line.mark(Mark::Tag)
    }

    /// What is shown behind a line in place of what is folded: how many members there are, and what
    /// closes the items that the line opens.
    fn shut_words(&self) -> Result<String, AllocError> {
        let mut words = String::from_str(*self.open.allocator(), " \u{2026} ")?;
        if let Some(open) = self.open.last()
            && let Some(count) = open.count
        {
            write!(words, "{count} ")?;
        }
        for open in self.open.iter().skip(self.low).rev() {
            words.push_str(open.closer)?;
        }
        Ok(words)
    }

    /// How many folds this line ends, which are no longer open.
    fn ended_folds(&mut self) -> usize {
        let before = self.folds.len();
        let low = self.low;
        for _ in 0..before {
            match self.folds.last() {
                Some(outside) if *outside >= low => {}
                _ => break,
            }
            self.folds.pop();
        }
        before.saturating_sub(self.folds.len())
    }

    /// Adds the ends of folds.
    fn end_folds(&mut self, count: usize) -> Result<(), AllocError> {
        for _ in 0..count {
            self.line.mark(Mark::FoldEnd)?;
        }
        Ok(())
    }

    /// Finds what follows the last line: the ends of the folds that are open.
    pub(crate) fn last_line(&mut self) -> Result<(), AllocError> {
        self.line.clear();
        let count = self.folds.len();
        self.folds.clear();
        self.end_folds(count)
    }
}

/// The level of a line, by the blanks that it begins with.
fn indent_of(line: &[u8]) -> usize {
    let blanks = line.iter().take_while(|byte| **byte == b' ').count();
    (blanks / INDENT).min(DEEPEST)
}
