//! Writes a string that is not whole as EDN: the content that is there and how much that is, or the
//! whole chunks and the one that is not whole.

ghost use Rattle.std.specs.Prelude.{◌≤◌, ◌*◌, length};

use crate::partial::edn::{PartialEdn, lines_inside};
use crate::partial::shown_of;
use cbor_bytes::head::read_head;
use cbor_bytes::{Extent, extent, utf8_fault};
use cbor_edn_writer::{PartPlace, push_part_to_edn};
use cbor_grammar::Error;
use cbor_grammar::argument::Argument;
use cbor_grammar::head::ItemHead;
use cbor_grammar::layout::ContainerStyle;
use cbor_grammar::strings::StringKind;
use cbor_marks::Kind;
use cbor_notation_writer::members::{push_closing, push_end, push_start};
use cbor_tokens::{push_escaped, push_hex};
use cbor_trace::{Span, Spot};
use std::alloc::AllocError;
use std::fmt::Write;

/// A string of definite length that is cut.
#[derive(Clone, Copy)]
pub(super) struct CutString<'a> {
    kind: StringKind,
    /// The length that its head states.
    length: u64,
    /// The part of the content that is there.
    content: &'a [u8],
}

impl<'a> CutString<'a> {
    /// The string that these bytes are a part of, if they are one.
    pub(super) fn at_front(bytes: &'a [u8]) -> Option<CutString<'a>> {
        match read_head(bytes) {
            Ok((ItemHead::String(kind, Argument::Number(length, _)), content))
                if (content.len() as u64) < length => {
                Some(CutString {
                    kind,
                    length,
                    content,
                })
            }
            _ => None,
        }
    }
}

/// The chunks of a string of indefinite length that these bytes begin with, if it has some.
pub(super) fn chunks_at_front(bytes: &[u8]) -> Option<(StringKind, &[u8])> {
    match read_head(bytes) {
        Ok((ItemHead::String(kind, Argument::Indefinite), chunks)) if !chunks.is_empty() => {
            Some((kind, chunks))
        }
        _ => None,
    }
}

/// Whether bytes begin with a whole chunk of this kind.
fn begins_with_chunk(bytes: &[u8], kind: StringKind) -> bool {
    let is_whole = matches!(extent(bytes), Extent::Item(_));
    match (read_head(bytes), kind) {
        (Ok((ItemHead::String(StringKind::Bytes, Argument::Number(..)), _)), StringKind::Bytes)
        | (Ok((ItemHead::String(StringKind::Text, Argument::Number(..)), _)), StringKind::Text) => {
            is_whole
        }
        _ => false,
    }
}

/// Appends the first bytes of a text, and those of a character that is cut as bytes.
fn push_text_part(out: &mut String, content: &[u8]) -> Result<(), AllocError> {
    let mut whole = utf8_fault(content).unwrap_or(content.len());
    for _ in 0..4 {
        if str::from_utf8(content.get(..whole).unwrap_or(b"")).is_ok() {
            break;
        }
        whole = whole.saturating_sub(1);
    }
    let (text, rest) = content.split_at(whole.min(content.len()));
    out.push('"')?;
    push_escaped(out, str::from_utf8(text).unwrap_or(""))?;
    out.push('"')?;
    if rest.is_empty() {
        return Ok(());
    }
    out.push_str(" + ")?;
    push_bytes_part(out, rest)
}

/// Appends bytes.
fn push_bytes_part(out: &mut String, content: &[u8]) -> Result<(), AllocError> {
    out.push_str("h'")?;
    push_hex(out, content)?;
    out.push('\'')
}

impl PartialEdn<'_> {
    /// Appends the part of a string that is there, and how much that is.
    pub(super) fn push_cut(&self, out: &mut String, cut: CutString<'_>) -> Result<(), AllocError> {
        let (shown, more) = shown_of(cut.content);
        let start = out.len();
        let kind = match cut.kind {
            StringKind::Bytes => {
                push_bytes_part(out, shown)?;
                Kind::Bytes
            }
            StringKind::Text => {
                push_text_part(out, shown)?;
                Kind::Text
            }
        };
        self.mark(kind, start, out);
        out.push(' ')?;
        let start = out.len();
        write!(out, "/{} of {} bytes", cut.content.len(), cut.length)?;
        if more > 0 {
            write!(out, ", {} are shown", shown.len())?;
        }
        out.push('/')?;
        self.mark(Kind::Note, start, out);
        Ok(())
    }

    /// Appends the chunks of a string of this kind: those that are whole, and in place of the rest
    /// what is said of it and its first bytes. Returns where the comment with the former is.
    pub(super) fn push_chunks(
        &self,
        out: &mut String,
        chunks: (StringKind, &[u8]),
        spot: Spot,
        indent: usize,
    ) -> Result<Span, Error>
        requires indent { indent ≤ 4 * spot.level }
    {
        let (kind, mut rest) = chunks;
        let style = self.container_style(indent);
        let start = out.len();
        out.push_str("(_")?;
        if let ContainerStyle::OneLine { .. } = style {
            out.push(' ')?;
        }
        self.mark(Kind::Opening, start, out);
        let mut is_first = true;
        for _ in 0..self.bytes.len() {
            push_start(out, style, is_first)?;
            is_first = false;
            if !begins_with_chunk(rest, kind) {
                break;
            }
            let place = PartPlace {
                noted: self.noted,
                level: spot.level.saturating_add(1),
                indent: lines_inside(style),
                end: self.bytes.len(),
            };
            rest = push_part_to_edn(out, rest, place)?;
            push_end(out, style)?;
        }
        let said = self.push_remaining(out, self.bytes.len().saturating_sub(rest.len()))?;
        let start = out.len();
        push_closing(out, style, ')')?;
        self.mark(Kind::Closing, start, out);
        Ok(said)
    }
}
