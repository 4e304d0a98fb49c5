//! Tests whether an item fits into a number of columns on one line of EDN. It adds up the columns
//! of the parts before they are written, and stops when there are too many.

use crate::print::columns::{
    after_columns, before_columns, bytes_note_columns, count_columns, float_columns,
    length_columns, negative_columns, number_columns, quoted_columns, simple_columns,
    text_note_columns, time_columns,
};
use crate::print::place::{EdnPlace, note_at, notes_before};
use crate::style::EdnStyle;
use cbor_bytes::head::read_head;
use cbor_bytes::skip::after_front;
use cbor_bytes::strings::{read_chunk_length, split_at};
use cbor_grammar::argument::Argument;
use cbor_grammar::head::ItemHead;
use cbor_grammar::layout::Content;
use cbor_grammar::level::DEEPEST;
use cbor_grammar::strings::StringKind;
use cbor_grammar::{FloatWidth, IntegerWidth};
use cbor_inside::content_under;
use cbor_notes::Note;
use std::alloc::{AllocError, Global};

/// Whether the item at the front, which is at this place, fits into this many columns on one line.
pub(super) fn fits_in(
    columns: usize,
    place: &EdnPlace<'_>,
    bytes: &[u8],
) -> Result<bool, AllocError> {
    let walk = Walk {
        alloc: place.alloc,
        style: place.style,
        level: place.level,
        notes: place.notes,
        end: place.end,
    };
    let left = Left {
        columns,
        rest: bytes,
        passed: place.passed,
        tag: place.tag,
    };
    match walk.items(1, left, DEEPEST) {
        Ok(_) => Ok(true),
        Err(Stop::TooLong) => Ok(false),
        Err(Stop::OutOfMemory) => Err(AllocError),
    }
}

/// Why a text is not on one line.
#[derive(Clone, Copy)]
enum Stop {
    /// It is longer than the columns that are left, or the bytes are no item.
    TooLong,
    OutOfMemory,
}

impl From<AllocError> for Stop {
    fn from(_refused: AllocError) -> Stop {
        Stop::OutOfMemory
    }
}

/// What is left of a line after the text of an item, and after its bytes.
#[derive(Clone, Copy)]
struct Left<'b> {
    /// The columns that are left.
    columns: usize,
    /// The bytes after the item.
    rest: &'b [u8],
    /// How many of the notes are known to be on items before the rest.
    passed: usize,
    /// The tag that directly encloses the item at the front of the rest.
    tag: Option<u64>,
}

impl<'b> Left<'b> {
    /// What is left after this many columns.
    fn take(self, columns: usize) -> Result<Left<'b>, Stop> {
        match self.columns.checked_sub(columns) {
            Some(columns) => Ok(Left { columns, ..self }),
            None => Err(Stop::TooLong),
        }
    }

    /// What is left after brackets and what separates this many members from each other.
    fn take_list(self, count: u64, around: usize) -> Result<Left<'b>, Stop> {
        let Ok(count) = usize::try_from(count) else {
            return Err(Stop::TooLong);
        };
        self.take(
            count
                .saturating_sub(1)
                .saturating_mul(2)
                .saturating_add(around),
        )
    }
}

/// What decides the notes on an item.
#[derive(Clone, Copy)]
struct Noted<'n> {
    /// The tag that directly encloses the item.
    tag: Option<u64>,
    /// The caller's note on the item.
    note: Option<&'n Note<'n>>,
}

/// How the text of items is measured.
#[derive(Clone, Copy)]
struct Walk<'a> {
    alloc: Global,
    style: EdnStyle,
    level: u8,
    notes: &'a [Note<'a>],
    /// Where the bytes that items are read from end in the outermost bytes.
    end: u64,
}

impl<'a> Walk<'a> {
    /// Measures this many items without what separates them. They are nested `deep` levels at most.
    #[cycle(walk)]
    fn items<'b>(&self, count: u64, left: Left<'b>, deep: u8) -> Result<Left<'b>, Stop> {
        let mut left = left;
        let mut pending = count;
        for _ in 0..=left.columns {
            let Some(others) = pending.checked_sub(1) else {
                return Ok(left);
            };
            let (after, parts) = self.head(left, deep)?;
            left = after;
            pending = others.saturating_add(parts);
        }
        if pending == 0 {
            return Ok(left);
        }
        Err(Stop::TooLong)
    }

    /// Measures the item at the front, without the parts that are after its head. Returns the
    /// number of these parts, too.
    #[cycle(walk)]
    fn head<'b>(&self, left: Left<'b>, deep: u8) -> Result<(Left<'b>, u64), Stop> {
        let Ok((head, rest)) = read_head(left.rest) else {
            return Err(Stop::TooLong);
        };
        let (note, passed) = self.note(left);
        let noted = Noted {
            tag: left.tag,
            note,
        };
        let inner = Left {
            rest,
            passed,
            tag: None,
            ..left.take(self.shown(before_columns(note)))?
        };
        match head {
            ItemHead::Integer(number, width) => {
                let columns = number_columns(number, width, self.style.widths);
                Ok((
                    self.number(inner.take(columns)?, (number, false), noted)?,
                    0,
                ))
            }
            ItemHead::Negative(number, width) => {
                let columns = negative_columns(number, width, self.style.widths);
                Ok((self.number(inner.take(columns)?, (number, true), noted)?, 0))
            }
            ItemHead::String(kind, Argument::Number(len, width)) => {
                Ok((self.string((kind, len, width), inner, noted, deep)?, 0))
            }
            ItemHead::String(kind, Argument::Indefinite) => Ok((self.chunks(kind, inner)?, 0)),
            ItemHead::Array(count) => self.array(count, inner, deep),
            ItemHead::Map(count) => self.map(count, inner, deep),
            ItemHead::Tag(tag, width) => {
                let columns = number_columns(tag, width, self.style.widths).saturating_add(2);
                let below = Left {
                    tag: Some(tag),
                    ..inner.take(columns)?
                };
                Ok((below, 1))
            }
            ItemHead::Float(bits, width) => Ok((self.float(inner, (bits, width), noted)?, 0)),
            ItemHead::Simple(value) => {
                let takes_two = matches!(left.rest.first(), Some(0xf8));
                Ok((self.simple(inner, (value, takes_two), noted)?, 0))
            }
        }
    }

    /// The note on the item at the front, and how many notes are on items before it.
    fn note<'b>(&self, left: Left<'b>) -> (Option<&'a Note<'a>>, usize) {
        if self.notes.is_empty() {
            return (None, 0);
        }
        let start = self.end.saturating_sub(left.rest.len() as u64);
        let passed = notes_before(self.notes, left.passed, start);
        (note_at(self.notes, passed, start), passed)
    }

    /// The columns of a note, if the style shows notes.
    fn shown(&self, columns: usize) -> usize {
        if self.style.notes { columns } else { 0 }
    }

    /// Measures the notes after an integer.
    fn number<'b>(
        &self,
        left: Left<'b>,
        number: (u64, bool),
        noted: Noted<'_>,
    ) -> Result<Left<'b>, Stop> {
        if !self.style.notes {
            return Ok(left);
        }
        let own = time_columns(noted.tag, number, self.alloc)?;
        left.take(own.saturating_add(after_columns(noted.note)))
    }

    /// Measures a float and the note after it.
    fn float<'b>(
        &self,
        left: Left<'b>,
        float: (u64, FloatWidth),
        noted: Noted<'_>,
    ) -> Result<Left<'b>, Stop> {
        let columns = float_columns(float.0, float.1, self.style.widths);
        left.take(columns.saturating_add(self.shown(after_columns(noted.note))))
    }

    /// Measures a simple value and the notes after it.
    fn simple<'b>(
        &self,
        left: Left<'b>,
        simple: (u8, bool),
        noted: Noted<'_>,
    ) -> Result<Left<'b>, Stop> {
        let (value, takes_two) = simple;
        let own = if takes_two && value < 32 { 12 } else { 0 };
        let notes = self.shown(after_columns(noted.note).saturating_add(own));
        left.take(simple_columns(value).saturating_add(notes))
    }

    /// Measures a string of definite length, by its kind, length and width.
    #[cycle(walk)]
    fn string<'b>(
        &self,
        head: (StringKind, u64, IntegerWidth),
        left: Left<'b>,
        noted: Noted<'_>,
        deep: u8,
    ) -> Result<Left<'b>, Stop> {
        let (kind, len, width) = head;
        // No item takes more than three bytes for a column, and no text more than four.
        if len > 4u64.saturating_mul(left.columns as u64) {
            return Err(Stop::TooLong);
        }
        let Ok((content, rest)) = split_at(left.rest, len) else {
            return Err(Stop::TooLong);
        };
        let after = Left { rest, ..left };
        if let StringKind::Bytes = kind {
            let embedded = self.style.embedded || matches!(noted.note, Some(note) if note.encoded);
            match content_under(embedded, self.level, noted.tag, content) {
                Content::Bytes => {}
                Content::Item if !self.is_item(content) => {}
                _ => return self.embedded(content, (after, width), deep),
            }
        }
        let columns = quoted_columns(kind, content).saturating_add(length_columns(len, width));
        let notes = self.string_notes(kind, content, noted)?;
        after.take(columns.saturating_add(notes))
    }

    /// The columns of the notes after a string.
    fn string_notes(
        &self,
        kind: StringKind,
        content: &[u8],
        noted: Noted<'_>,
    ) -> Result<usize, AllocError> {
        if !self.style.notes {
            return Ok(0);
        }
        let own = match kind {
            StringKind::Bytes => bytes_note_columns(noted.tag, content, noted.note, self.alloc)?,
            StringKind::Text => text_note_columns(noted.tag, content, self.alloc)?,
        };
        Ok(own.saturating_add(after_columns(noted.note)))
    }

    /// Whether bytes are nothing, or one item.
    fn is_item(&self, content: &[u8]) -> bool {
        if content.is_empty() {
            return true;
        }
        if self.level == 0 || self.level > DEEPEST {
            return false;
        }
        matches!(after_front(content, self.level + 1), Some([]))
    }

    /// Measures a byte string that is shown as the items in it, given what is left without it and
    /// the width of its length.
    #[cycle(walk)]
    fn embedded<'b>(
        &self,
        content: &[u8],
        string: (Left<'b>, IntegerWidth),
        deep: u8,
    ) -> Result<Left<'b>, Stop> {
        let (left, width) = string;
        let Some(deep) = deep.checked_sub(1) else {
            return Err(Stop::TooLong);
        };
        let inner = Walk {
            end: self.end.saturating_sub(left.rest.len() as u64),
            ..*self
        };
        let mark = length_columns(content.len() as u64, width);
        let mut items = Left {
            columns: left.take(mark.saturating_add(4))?.columns,
            rest: content,
            passed: left.passed,
            tag: None,
        };
        for index in 0..=left.columns {
            if items.rest.is_empty() {
                return Ok(Left {
                    columns: items.columns,
                    passed: items.passed,
                    ..left
                });
            }
            if index > 0 {
                items = items.take(2)?;
            }
            items = inner.items(1, items, deep)?;
        }
        Err(Stop::TooLong)
    }

    /// Measures a string in chunks after its opening byte.
    fn chunks<'b>(&self, kind: StringKind, left: Left<'b>) -> Result<Left<'b>, Stop> {
        let mut left = left;
        for index in 0..=left.columns {
            let Ok((length, after)) = read_chunk_length(kind.major(), left.rest) else {
                return Err(Stop::TooLong);
            };
            let Some((len, width)) = length else {
                // Without chunks it is a pair of quotes and an underscore.
                let around = if index == 0 { 3 } else { 4 };
                return Left {
                    rest: after,
                    ..left
                }
                .take(around);
            };
            let Ok((content, rest)) = split_at(after, len) else {
                return Err(Stop::TooLong);
            };
            let columns = quoted_columns(kind, content).saturating_add(length_columns(len, width));
            let between = if index == 0 { 0 } else { 2 };
            left = Left { rest, ..left }.take(columns.saturating_add(between))?;
        }
        Err(Stop::TooLong)
    }

    /// Measures the brackets and separators of an array after its head, or all of one of indefinite
    /// length.
    #[cycle(walk)]
    fn array<'b>(
        &self,
        count: Argument,
        left: Left<'b>,
        deep: u8,
    ) -> Result<(Left<'b>, u64), Stop> {
        match count {
            Argument::Number(count, width) => {
                let around = count_columns(count, width).saturating_add(2);
                Ok((left.take_list(count, around)?, count))
            }
            Argument::Indefinite => Ok((self.until_break(1, left, deep)?, 0)),
        }
    }

    /// The same of a map.
    #[cycle(walk)]
    fn map<'b>(&self, count: Argument, left: Left<'b>, deep: u8) -> Result<(Left<'b>, u64), Stop> {
        match count {
            Argument::Number(count, width) => {
                let around = count_columns(count, width).saturating_add(2);
                let left = left.take_list(count.saturating_mul(2), around)?;
                Ok((left, count.saturating_mul(2)))
            }
            Argument::Indefinite => Ok((self.until_break(2, left, deep)?, 0)),
        }
    }

    /// Measures a list of indefinite length, each of whose members is this many items, after its
    /// opening byte.
    #[cycle(walk)]
    fn until_break<'b>(&self, each: u64, left: Left<'b>, deep: u8) -> Result<Left<'b>, Stop> {
        let Some(deep) = deep.checked_sub(1) else {
            return Err(Stop::TooLong);
        };
        let mut left = left.take(4)?;
        for index in 0..=left.columns {
            if let Some((0xff, rest)) = left.rest.split_first() {
                return Ok(Left { rest, ..left });
            }
            let between = if index == 0 {
                each.saturating_sub(1)
            } else {
                each
            };
            left = left.take_list(between.saturating_add(1), 0)?;
            left = self.items(each, left, deep)?;
        }
        Err(Stop::TooLong)
    }
}
