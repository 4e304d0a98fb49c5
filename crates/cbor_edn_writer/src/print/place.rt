//! `EdnPlace`: where an item is in an EDN text (its level, the tag around it, its line), with the
//! style and the note on the item. The place and the item decide what is written. Also finds the
//! note of an item.
ghost use Rattle.std.specs.Prelude.{◌≡◌, ◌≤◌, ◌||◌, IfOk, length};
ghost use Rattle.cbor_grammar.specs.WellFormed.{deepest};
ghost use Rattle.cbor_grammar.specs.NotationText.{indent_of, style_indent};
ghost use Rattle.cbor_edn_writer.specs.EdnLeaves.{edn_leaves, is_encoded, style_on};
ghost use Rattle.cbor_edn_writer.specs.EdnLeaves.{FoundAt, IsGiven, LaidOut, NotedAt};
ghost use Rattle.cbor_edn_writer.specs.EdnLeaves.{argument_bytes as bytes_of_width};
ghost use Rattle.cbor_edn_writer.specs.EdnLeaves.{end_in as members_end};
ghost use Rattle.cbor_edn_writer.specs.EdnLeaves.{end_of_string as string_end};
ghost use Rattle.cbor_edn_writer.specs.Written.{IsOutermost};

use crate::print::line::{Line, line_at, line_of};
use crate::style::{EdnStyle, NotedStyle};
use cbor_grammar::IntegerWidth;
use cbor_grammar::argument::Argument;
use cbor_grammar::layout::{ContainerStyle, Layout};
use cbor_marks::{Kind, Marks};
use cbor_notation_writer::parts::{Container, Front};
use cbor_notes::Note;
use std::alloc::{AllocError, Global};

/// Where an item is.
#[derive(Clone, Copy)]
pub(crate) struct EdnPlace<'a> {
    /// The allocator of notes.
    pub(crate) alloc: Global,
    /// The level of the item; the outermost is at level 1.
    pub(crate) level: u8,
    /// How containers are laid out.
    pub(crate) layout: Layout,
    /// What is shown.
    pub(crate) style: EdnStyle,
    /// The tag that directly encloses the item.
    pub(crate) tag: Option<u64>,
    /// The notes on items.
    pub(crate) notes: &'a [Note<'a>],
    /// Where the bytes that items are read from end in the outermost bytes.
    pub(crate) end: u64,
    /// Where the item begins in the outermost bytes, or an item around it.
    pub(crate) start: u64,
    /// How many of the notes are known to be on items before this one.
    pub(crate) passed: usize,
    /// The note on the item.
    pub(crate) found: Option<&'a Note<'a>>,
    /// What is known of the line of the item.
    pub(crate) line: Line,
    /// Where the tokens of the text are marked.
    pub(crate) marks: Option<&'a Marks>,
}

impl<'a> EdnPlace<'a> {
    /// The place of the outermost item of a text, at the front of this many bytes.
    pub(crate) fn new(alloc: Global, noted: NotedStyle<'a>, len: usize) -> EdnPlace<'a>
        ensures outermost { IsOutermost noted.entry.style noted.entry.notes.now len result }
        ensures indent { indent_of result.layout ≡ 0 }
    {
        let style = noted.style;
        EdnPlace {
            alloc,
            level: 1,
            layout: if style.lines {
                Layout::Pretty { indent: 0 }
            } else {
                Layout::Compact
            },
            style,
            tag: None,
            notes: noted.notes,
            end: len as u64,
            start: 0,
            passed: 0,
            found: None,
            line: Line::outermost(style),
            marks: noted.marks,
        }
    }

    /// Marks the token that was written from this place of the text on, if tokens are marked.
    #[inline(always)]
    pub(crate) fn mark(&self, kind: Kind, start: usize, out: &String) {
        if let Some(marks) = self.marks {
            marks.mark_from(kind, out, start);
        }
    }

    /// The same place with what is known of the line of an item with parts, which comes after the
    /// text `out`.
    #[inline(always)]
    pub(crate) fn laid_out(
        &self,
        out: &String,
        front: Front<'_>,
    ) -> Result<EdnPlace<'a>, AllocError>
        ensures { IfOk result (λ moved. LaidOut self.now moved) }
    {
        let line = line_of(self, out, front)?;
        Ok(EdnPlace { line, ..*self })
    }

    /// The same place with the note on the item, too.
    #[inline(always)]
    pub(crate) fn noted(&self, out: &String, front: Front<'_>) -> Result<EdnPlace<'a>, AllocError>
        ensures { IfOk result (λ moved. NotedAt self.now (length front.entry.bytes.now) moved) }
    {
        let start = self.end.saturating_sub(front.bytes.len() as u64);
        let place = self.with_note(start);
        let line = line_at(&place, out, front)?;
        Ok(EdnPlace { line, ..place })
    }

    /// The same place with the note on the item that begins at `start`.
    pub(crate) fn with_note(&self, start: u64) -> EdnPlace<'a>
        ensures { FoundAt self.now start result }
    {
        let passed = notes_before(self.notes, self.passed, start);
        EdnPlace {
            start,
            passed,
            found: note_at(self.notes, passed, start),
            ..*self
        }
    }

    /// How a container there is laid out.
    #[inline(always)]
    pub(crate) fn container_style(&self) -> ContainerStyle
        ensures style { result ≡ style_on self.now.line self.now.layout }
        ensures indent { style_indent result ≡ indent_of self.now.layout }
    {
        match self.layout {
            Layout::Compact => ContainerStyle::Compact,
            Layout::Pretty { indent } if self.line.breaks => ContainerStyle::MultiLine { indent },
            Layout::Pretty { indent } => ContainerStyle::OneLine { indent },
        }
    }

    /// Whether a byte string is shown as the items in it, if its tag does not decide that.
    #[inline(always)]
    pub(crate) fn shows_items(&self) -> bool
        ensures { result ≡ (self.now.style.embedded || is_encoded self.now.found) }
    {
        self.style.embedded || matches!(self.found, Some(note) if note.encoded)
    }

    /// The place of a member of this container.
    #[inline(always)]
    pub(crate) fn inside(self, container: Container, layout: Layout) -> EdnPlace<'a>
        requires { self.level ≤ deepest }
        ensures { result ≡ edn_leaves.inside container layout self.entry }
    {
        EdnPlace {
            level: self.level + 1,
            layout,
            tag: None,
            end: self.end_in(container),
            found: None,
            ..self
        }
    }

    /// Where the bytes that the items in a container are read from end.
    #[inline(always)]
    fn end_in(self, container: Container) -> u64
        ensures { result ≡ members_end container self.entry }
    {
        match container {
            Container::Embedded(len) => end_of_string(len, self.start),
            _ => self.end,
        }
    }

    /// The place of the content of this tag.
    #[inline(always)]
    pub(crate) fn below(self, tag: u64) -> EdnPlace<'a>
        requires { self.level ≤ deepest }
        ensures { result ≡ edn_leaves.below tag self.entry }
    {
        EdnPlace {
            level: self.level + 1,
            tag: Some(tag),
            found: None,
            ..self
        }
    }
}

/// Where a byte string of this length ends that begins at `start`.
fn end_of_string(len: Argument, start: u64) -> u64
    ensures { result ≡ string_end len start }
{
    match len {
        Argument::Number(count, width) => start
            .saturating_add(1 + argument_bytes(width))
            .saturating_add(count),
        Argument::Indefinite => start,
    }
}

/// How many bytes an argument of this width takes after the first byte of its head.
fn argument_bytes(width: IntegerWidth) -> u64
    ensures value { result ≡ bytes_of_width width }
    ensures most { result ≤ 8 }
{
    match width {
        IntegerWidth::Unknown | IntegerWidth::Zero => 0,
        IntegerWidth::Eight => 1,
        IntegerWidth::Sixteen => 2,
        IntegerWidth::ThirtyTwo => 4,
        IntegerWidth::SixtyFour => 8,
    }
}

/// The note at this index, if its item begins at `start`.
#[inline(always)]
pub(super) fn note_at<'a>(notes: &'a [Note<'a>], index: usize, start: u64) -> Option<&'a Note<'a>>
    ensures { IsGiven notes.now start result }
{
    match notes.get(index) {
        Some(note) if note.start as u64 == start => Some(note),
        _ => None,
    }
}

/// How many notes are checked in turn before a binary search of the others.
const NEAR: usize = 16;

/// How many notes are on items before the one that begins at `start`. The first `passed` notes are.
/// The notes have the order of the items, so the wanted one is mostly near.
#[inline(never)]
pub(super) fn notes_before(notes: &[Note<'_>], passed: usize, start: u64) -> usize {
    let behind = notes.get(passed..).unwrap_or(&[]);
    let mut near = behind.iter().take(NEAR);
    let more = match near.position(|note| note.start as u64 >= start) {
        Some(index) => index,
        None => match behind.binary_search_by(|note| (note.start as u64).cmp(&start)) {
            Ok(index) | Err(index) => index,
        },
    };
    passed.saturating_add(more)
}
