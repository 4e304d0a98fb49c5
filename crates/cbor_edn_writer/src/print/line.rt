//! `Line`: whether a container of EDN takes a line for each member, and how many columns follow its
//! parts on their line. A container is written on one line if it fits there with what is before and
//! after it. `measure.rt` counts its columns.

use crate::print::columns::length_columns;
use crate::print::measure::fits_in;
use crate::print::place::EdnPlace;
use crate::style::EdnStyle;
use cbor_grammar::argument::Argument;
use cbor_grammar::head::ItemHead;
use cbor_grammar::layout::Layout;
use cbor_grammar::strings::StringKind;
use cbor_notation_writer::parts::Front;
use std::alloc::AllocError;

/// What is known of the line of an item.
#[derive(Clone, Copy)]
pub(crate) struct Line {
    /// Whether a container there takes a line for each member.
    pub(crate) breaks: bool,
    /// The columns behind a part of the item on its line: closing brackets and a comma.
    pub(crate) after: usize,
}

impl Line {
    /// The line of an outermost item; without lines all is on one.
    pub(crate) fn outermost(style: EdnStyle) -> Line {
        Line {
            breaks: style.lines,
            after: 0,
        }
    }
}

/// Whether more is to be known of the line of an item with this head at this place than of the line
/// of what the item is in.
#[inline(always)]
pub(super) fn has_new_line(place: &EdnPlace<'_>, head: ItemHead) -> bool {
    place.line.breaks && has_parts(place, head)
}

/// What is known of the line of an item at this place, which comes after the text `out`.
#[inline(always)]
pub(super) fn line_at(
    place: &EdnPlace<'_>,
    out: &String,
    front: Front<'_>,
) -> Result<Line, AllocError> {
    if has_new_line(place, front.head) {
        line_of(place, out, front)
    } else {
        Ok(place.line)
    }
}

/// Whether an item with this head may have parts that take lines.
#[inline(always)]
fn has_parts(place: &EdnPlace<'_>, head: ItemHead) -> bool {
    match head {
        ItemHead::Array(_) | ItemHead::Map(_) | ItemHead::Tag(..) => true,
        ItemHead::String(_, Argument::Indefinite) => true,
        ItemHead::String(StringKind::Bytes, _) => {
            matches!(place.tag, Some(24 | 63)) || place.shows_items()
        }
        _ => false,
    }
}

/// The line of an item with parts that is not in a container on one line, and that comes after the
/// text `out`.
#[inline(never)]
pub(super) fn line_of(
    place: &EdnPlace<'_>,
    out: &String,
    front: Front<'_>,
) -> Result<Line, AllocError> {
    match front.head {
        ItemHead::Tag(..) => Ok(behind(place, 1)),
        ItemHead::String(StringKind::Bytes, Argument::Number(len, width))
            if place.tag != Some(63) => {
            Ok(behind(place, length_columns(len, width).saturating_add(2)))
        }
        head => Ok(Line {
            breaks: !is_empty(head, front.rest)
                && !fits_in(columns_left(place, out), place, front.bytes)?,
            after: 1,
        }),
    }
}

/// The line of an item that encloses its part by this many columns.
fn behind(place: &EdnPlace<'_>, columns: usize) -> Line {
    Line {
        breaks: true,
        after: place.line.after.saturating_add(columns),
    }
}

/// Whether a container has no members.
fn is_empty(head: ItemHead, rest: &[u8]) -> bool {
    match head {
        ItemHead::Array(count) | ItemHead::Map(count) | ItemHead::String(_, count) => match count {
            Argument::Number(count, _) => count == 0,
            Argument::Indefinite => matches!(rest.first(), Some(0xff)),
        },
        _ => false,
    }
}

/// The columns that are left for an item after the text `out`. A line may have all columns of the
/// style, and at least [`EdnStyle::LEAST_COLUMNS`] after its indentation.
fn columns_left(place: &EdnPlace<'_>, out: &String) -> usize {
    let indent = match place.layout {
        Layout::Compact => 0,
        Layout::Pretty { indent } => indent,
    };
    let least = indent.saturating_add(usize::from(EdnStyle::LEAST_COLUMNS));
    let all = usize::from(place.style.columns).max(least);
    all.saturating_sub(place.line.after)
        .saturating_sub(last_column(out, all))
}

/// The number of characters after the last line feed of a text. Those past `most` may be left out.
fn last_column(out: &String, most: usize) -> usize {
    let mut column = 0usize;
    for byte in out.as_bytes().iter().rev() {
        if *byte == b'\n' || column > most {
            return column;
        }
        if *byte & 0xc0 != 0x80 {
            column = column.saturating_add(1);
        }
    }
    column
}
