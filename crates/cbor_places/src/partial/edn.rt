//! Writes a truncated or malformed item as EDN: its whole parts and, in place of the rest, a
//! comment with the error and some of the bytes that remain.

ghost use Rattle.std.specs.Prelude.{◌+◌, ◌*◌, ◌<◌, ◌≤◌, ◌^◌, length};
ghost use Rattle.cbor_grammar.specs.NotationText.{style_indent};

use crate::partial::strings::{CutString, chunks_at_front};
use crate::partial::{parts_before, shown_of};
use cbor_bytes::head::read_head;
use cbor_edn_writer::{NotedStyle, PartPlace, push_note_before, push_part_to_edn};
use cbor_grammar::argument::Argument;
use cbor_grammar::layout::ContainerStyle;
use cbor_grammar::{Error, IntegerWidth};
use cbor_marks::Kind;
use cbor_notation_writer::members::{push_closing, push_end, push_start};
use cbor_notation_writer::scalars::push_number;
use cbor_tokens::push_hex;
use cbor_trace::{Open, Part, Span, Spot, part_at};
use std::alloc::AllocError;
use std::fmt::Write;

/// Bytes that begin with no whole item, how EDN is written, and what is said of those that remain.
#[derive(Clone, Copy)]
pub(super) struct PartialEdn<'a> {
    pub(super) bytes: &'a [u8],
    pub(super) said: &'a str,
    pub(super) noted: NotedStyle<'a>,
}

impl PartialEdn<'_> {
    /// Appends the truncated or malformed item at this spot. Its lines begin with this many
    /// blanks. Returns where the comment is that says what is wrong.
    pub(super) fn push_item(
        &self,
        out: &mut String,
        spot: Spot,
        indent: usize,
    ) -> Result<Span, Error>
        requires start { spot.start ≤ length self.now.bytes.now }
        requires indent { indent ≤ 4 * spot.level }
    {
        push_note_before(out, self.noted, spot.start)?;
        let Some(part) = part_at(self.bytes, spot, self.bytes.len()) else {
            let (_, item) = self.bytes.split_at(spot.start);
            return match chunks_at_front(item) {
                Some(chunks) => self.push_chunks(out, chunks, spot, indent),
                None => Ok(self.push_remaining(out, spot.start)?),
            };
        };
        let style = self.container_style(indent);
        self.push_opening(out, part.open, style)?;
        self.push_parts(out, spot, part, style)?;
        let said = self.push_item(out, spot.of_part(part), indent_in(part.open, indent))?;
        let start = out.len();
        push_closer(out, part.open, style)?;
        self.mark(Kind::Closing, start, out);
        Ok(said)
    }

    /// Marks the token that was written from this place of the text on, if tokens are marked.
    pub(super) fn mark(&self, kind: Kind, start: usize, out: &String) {
        if let Some(marks) = self.noted.marks {
            marks.mark_from(kind, out, start);
        }
    }

    /// Marks the part that was written last as a key, if it is one: that before this one.
    fn mark_key(&self, container: Open, index: usize) {
        if let Some(marks) = self.noted.marks
            && is_value(container, index)
        {
            marks.mark_key();
        }
    }

    /// How a container is laid out.
    pub(super) fn container_style(&self, indent: usize) -> ContainerStyle
        ensures { style_indent result ≤ indent }
    {
        if self.noted.style.lines {
            ContainerStyle::MultiLine { indent }
        } else {
            ContainerStyle::OneLine { indent: 0 }
        }
    }

    /// Appends what opens a container.
    fn push_opening(
        &self,
        out: &mut String,
        container: Open,
        style: ContainerStyle,
    ) -> Result<(), AllocError> {
        let start = out.len();
        match container {
            Open::Array { count, .. } => {
                out.push('[')?;
                push_count(out, count, style)?;
                self.mark(Kind::Opening, start, out);
                Ok(())
            }
            Open::Key { count, .. } | Open::Value { count, .. } => {
                out.push('{')?;
                push_count(out, count, style)?;
                self.mark(Kind::Opening, start, out);
                Ok(())
            }
            Open::Tag { number, width } => {
                let shown = if self.noted.style.widths {
                    width
                } else {
                    longer(number, width)
                };
                push_number(out, number, shown)?;
                self.mark(Kind::Tag, start, out);
                out.push('(')
            }
        }
    }

    /// Appends the parts of a container that are before one, and what is between them and that.
    fn push_parts(
        &self,
        out: &mut String,
        spot: Spot,
        part: Part,
        style: ContainerStyle,
    ) -> Result<(), Error>
        requires start { spot.start ≤ length self.now.bytes.now }
        requires indent { style_indent style < 2 ^ 31 }
    {
        let (_, item) = self.bytes.split_at(spot.start);
        let Ok((_, mut rest)) = read_head(item) else {
            return Ok(());
        };
        let count = parts_before(part.open);
        for index in 0..count {
            self.mark_key(part.open, index);
            push_before(out, part.open, index, style)?;
            let place = PartPlace {
                noted: self.noted,
                level: spot.level.saturating_add(1),
                indent: lines_inside(style),
                end: self.bytes.len(),
            };
            rest = push_part_to_edn(out, rest, place)?;
            push_after(out, part.open, index, style)?;
        }
        self.mark_key(part.open, count);
        push_before(out, part.open, count, style)?;
        Ok(())
    }

    /// Appends what is said of the bytes from a place on, and the first of them. Returns where the
    /// comment with the former is.
    pub(super) fn push_remaining(&self, out: &mut String, start: usize) -> Result<Span, AllocError>
        requires { start ≤ length self.now.bytes.now }
    {
        let (_, rest) = self.bytes.split_at(start);
        let begins = out.len();
        out.push('/')?;
        out.push_str(self.said)?;
        out.push('/')?;
        let said = Span {
            start: begins,
            end: out.len(),
        };
        self.mark(Kind::Fault, begins, out);
        if let Some(cut) = CutString::at_front(rest) {
            out.push(' ')?;
            self.push_cut(out, cut)?;
        } else {
            self.push_first(out, rest)?;
        }
        Ok(said)
    }

    /// Appends the first of the bytes that remain, and how many more there are.
    fn push_first(&self, out: &mut String, rest: &[u8]) -> Result<(), AllocError> {
        let (shown, more) = shown_of(rest);
        let start = out.len();
        out.push_str(" h'")?;
        push_hex(out, shown)?;
        out.push('\'')?;
        self.mark(Kind::Bytes, start, out);
        let start = out.len();
        push_more(out, more)?;
        self.mark(Kind::Note, start, out);
        Ok(())
    }
}

/// How many blanks the lines of a member of a container begin with.
pub(super) fn lines_inside(style: ContainerStyle) -> usize
    requires { style_indent style < 2 ^ 31 }
{
    match style {
        ContainerStyle::MultiLine { indent } => indent + 4,
        _ => 0,
    }
}

/// Appends how many more bytes there are.
fn push_more(out: &mut String, more: usize) -> Result<(), AllocError> {
    if more == 0 {
        return Ok(());
    }
    write!(out, " /and {more} more bytes/")
}

/// How many blanks the lines of a part begin with: those below a tag as many as its own.
fn indent_in(container: Open, indent: usize) -> usize
    requires { indent < 2 ^ 31 }
    ensures { result ≤ indent + 4 }
{
    match container {
        Open::Tag { .. } => indent,
        _ => indent + 4,
    }
}

/// The width of a number where it is longer than the number needs, and else `Unknown`.
fn longer(number: u64, width: IntegerWidth) -> IntegerWidth {
    let is_longer = match width {
        IntegerWidth::Unknown | IntegerWidth::Zero => false,
        IntegerWidth::Eight => number < 24,
        IntegerWidth::Sixteen => number < 1 << 8,
        IntegerWidth::ThirtyTwo => number < 1 << 16,
        IntegerWidth::SixtyFour => number < 1 << 32,
    };
    if is_longer {
        width
    } else {
        IntegerWidth::Unknown
    }
}

/// Appends what EDN states of a length, and a blank after it on one line.
fn push_count(out: &mut String, count: Argument, style: ContainerStyle) -> Result<(), AllocError> {
    let mark = mark_of(count);
    out.push_str(mark)?;
    match style {
        ContainerStyle::MultiLine { .. } => Ok(()),
        _ if mark.is_empty() => Ok(()),
        _ => out.push(' '),
    }
}

/// What EDN states of the length of a container: nothing of the shortest width.
fn mark_of(count: Argument) -> &'static str {
    match count {
        Argument::Indefinite => "_",
        Argument::Number(number, width) => match longer(number, width) {
            IntegerWidth::Unknown | IntegerWidth::Zero => "",
            IntegerWidth::Eight => "_0",
            IntegerWidth::Sixteen => "_1",
            IntegerWidth::ThirtyTwo => "_2",
            IntegerWidth::SixtyFour => "_3",
        },
    }
}

/// Whether the part at an index is the value of a key.
fn is_value(container: Open, index: usize) -> bool {
    match container {
        Open::Key { .. } | Open::Value { .. } => index % 2 == 1,
        Open::Array { .. } | Open::Tag { .. } => false,
    }
}

/// Appends what is before the part at an index.
fn push_before(
    out: &mut String,
    container: Open,
    index: usize,
    style: ContainerStyle,
) -> Result<(), AllocError>
    requires { style_indent style < 2 ^ 31 }
{
    match container {
        Open::Tag { .. } => Ok(()),
        _ if is_value(container, index) => out.push_str(": "),
        _ => push_start(out, style, index == 0),
    }
}

/// Appends what is after the whole part at an index.
fn push_after(
    out: &mut String,
    container: Open,
    index: usize,
    style: ContainerStyle,
) -> Result<(), AllocError> {
    match container {
        Open::Tag { .. } => Ok(()),
        Open::Key { .. } | Open::Value { .. } if index % 2 == 0 => Ok(()),
        _ => push_end(out, style),
    }
}

/// Appends what closes a container.
fn push_closer(out: &mut String, container: Open, style: ContainerStyle) -> Result<(), AllocError> {
    match container {
        Open::Array { .. } => push_closing(out, style, ']'),
        Open::Key { .. } | Open::Value { .. } => push_closing(out, style, '}'),
        Open::Tag { .. } => out.push(')'),
    }
}
