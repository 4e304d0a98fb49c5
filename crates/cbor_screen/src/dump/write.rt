//! `Writing`: implements `Lines` by writing the lines of a dump: hex digits in a column, comments
//! with names, and notes.
ghost use Rattle.std.specs.Prelude.{◌≤◌, length};

use crate::dump::beside::{Beside, push_word};
use crate::dump::lines::{CutLine, Lines, MOST_DEPTH, at_most};
use crate::dump::walk::{has_level_left, is_context};
use cbor_dump::comment::Comment;
use cbor_dump::context::DumpContext;
use cbor_dump::hex_style::HexStyle;
use cbor_dump::walk::{Walk, dump_notes};
use cbor_dump::writer::Writer;
use cbor_grammar::head::ItemHead;
use cbor_grammar::strings::StringContent;
use cbor_grammar::{Error, Tag};
use cbor_notes::{push_blanks, push_gap};
use cbor_tokens::push_hex;
use std::alloc::{AllocError, Global};
use std::fmt::Write;
use std::mem;

const EMBEDDED_ITEM: &str = "encoded cbor data item";

const FAILED_ITEM: &str = "failed to parse encoded cbor data item";

const FAILED_REST: &str = "failed to parse remaining encoded cbor sequence";

/// No line has more bytes.
const MOST_BYTES: usize = 24;

/// The lines so far, and what stands in the next ones.
#[derive(Drop)]
pub(super) struct Writing<'n> {
    /// The writer of lines and notes.
    walk: Walk,
    /// The names and meanings.
    beside: Beside<'n>,
    /// The comment of a line with words.
    said: String,
    /// How many notes the next lines are in.
    inside: usize,
}

/// The columns of a dump.
#[derive(Clone, Copy)]
pub(super) struct Columns {
    /// The width of the digits.
    width: usize,
    /// The length of what stands before each line.
    before: usize,
}

/// The bytes of a line; none if they are too many for one.
fn few(bytes: &[u8]) -> &[u8]
    ensures { length result.now ≤ 24 }
{
    if bytes.len() > MOST_BYTES { b"" } else { bytes }
}

impl<'n> Writing<'n> {
    /// Takes a text, to which lines are appended, with their digits in a column of this width.
    pub(super) fn new(out: &mut String, width: usize, beside: Beside<'n>) -> Writing<'n> {
        let alloc = *out.allocator();
        let mut writer = Writer::new(alloc, width);
        writer.out = mem::replace(out, String::new(alloc));
        let walk = Walk {
            writer,
            shared: 0,
            alloc,
        };
        Writing {
            walk,
            beside,
            said: String::new(alloc),
            inside: 0,
        }
    }

    /// Gives the text back with the lines.
    pub(super) fn give_back(self, out: &mut String) {
        *out = self.walk.writer.out;
    }

    /// Begins the dump of an item in a note on a value at this depth, with its digits in a column
    /// of this width. Returns the columns of the dump around it.
    pub(super) fn enter(&mut self, depth: usize, width: usize) -> Result<Columns, AllocError> {
        self.note_line(depth, EMBEDDED_ITEM)?;
        let writer = &mut self.walk.writer;
        let columns = Columns {
            width: writer.width,
            before: writer.prefix.len(),
        };
        let comment = at_most(depth, MOST_DEPTH)
            .saturating_add(1)
            .saturating_mul(2);
        push_gap(&mut writer.prefix, columns.width, comment)?;
        writer.width = width;
        self.inside = self.inside.saturating_add(1);
        Ok(columns)
    }

    /// Ends the dump of an item in a note. These are the columns of the dump around it.
    pub(super) fn leave(&mut self, columns: Columns) {
        self.inside = self.inside.saturating_sub(1);
        self.walk.writer.width = columns.width;
        for _ in 0..self.walk.writer.prefix.len() {
            if self.walk.writer.prefix.len() <= columns.before {
                break;
            }
            let _ = self.walk.writer.prefix.pop();
        }
    }

    /// Writes the note of bytes that are no item, or of the last of a sequence that are none.
    pub(super) fn failed(
        &mut self,
        depth: usize,
        sequence: bool,
        error: Error,
    ) -> Result<(), AllocError> {
        self.note_line(depth, if sequence { FAILED_REST } else { FAILED_ITEM })?;
        self.note_line(depth.saturating_add(1), error.text())
    }

    /// Writes a line of a note.
    fn note_line(&mut self, depth: usize, text: &str) -> Result<(), AllocError> {
        let depth = at_most(depth, MOST_DEPTH);
        let comment = Comment::Note(text);
        self.walk
            .writer
            .line(depth, HexStyle::Content, b"", &comment)
    }

    /// The name and the meaning of the item from which on this many bytes remain. Items in notes
    /// have none.
    fn words(&mut self, remaining: usize) -> (&'n str, &'n str) {
        if self.inside > 0 {
            return ("", "");
        }
        self.beside.next(remaining)
    }

    /// Writes a line with the comment that is said.
    fn line_said(&mut self, depth: usize, style: HexStyle, bytes: &[u8]) -> Result<(), AllocError> {
        let comment = Comment::Note(&self.said);
        self.walk
            .writer
            .line(at_most(depth, MOST_DEPTH), style, few(bytes), &comment)
    }

    /// Writes the last line of a string that is cut, with the comment that is said.
    fn last_line(&mut self, depth: usize, bytes: &[u8]) -> Result<(), AllocError> {
        let blanks = depth.saturating_mul(3);
        let digits = bytes.len().saturating_mul(2).saturating_add(3);
        let width = self.walk.writer.width;
        let out = &mut self.walk.writer.out;
        push_blanks(out, blanks)?;
        push_hex(out, bytes)?;
        out.push_str("...")?;
        let gap = width.saturating_sub(blanks.saturating_add(digits));
        push_gap(out, gap, depth.saturating_mul(2))?;
        out.push_str(&self.said)?;
        out.push('\n')
    }
}

impl Lines for Writing<'_> {
    const SHOWS_NOTES: bool = true;

    fn head(
        &mut self,
        depth: usize,
        head: (ItemHead, &[u8]),
        remaining: usize,
    ) -> Result<(), AllocError> {
        let (head, digits) = head;
        let comment = Comment::of(head, digits);
        let (name, meaning) = self.words(remaining);
        if name.is_empty() && meaning.is_empty() {
            let depth = at_most(depth, MOST_DEPTH);
            return self
                .walk
                .writer
                .line(depth, HexStyle::Head, few(digits), &comment);
        }
        self.said.clear();
        push_word(&mut self.said, "/", name, "/ ")?;
        comment.push(&mut self.said)?;
        push_word(&mut self.said, " /", meaning, "/")?;
        self.line_said(depth, HexStyle::Head, digits)
    }

    fn content(
        &mut self,
        context: &DumpContext,
        content: StringContent<'_>,
    ) -> Result<(), AllocError> {
        if !is_context(context) {
            return Ok(());
        }
        self.walk.writer.string_content(context, content)
    }

    fn cut_line(&mut self, depth: usize, line: &CutLine<'_>) -> Result<(), AllocError> {
        self.said.clear();
        line.comment.push(&mut self.said)?;
        if line.goes_on {
            let quote = self.said.pop().unwrap_or('"');
            self.said.push_str("...")?;
            self.said.push(quote)?;
        }
        match line.cut {
            Some(len) => {
                write!(self.said, " /{len} bytes/")?;
                self.last_line(depth, line.bytes)
            }
            None => self.line_said(depth, HexStyle::Content, line.bytes),
        }
    }

    fn end(&mut self, depth: usize) -> Result<(), AllocError> {
        self.walk.writer.break_line(at_most(depth, MOST_DEPTH))
    }

    fn notes(&mut self, context: &DumpContext, tag: Tag, value: &[u8]) -> Result<(), AllocError> {
        if !has_level_left(context) {
            return Ok(());
        }
        dump_notes(&mut self.walk, context, tag, value)
    }
}
