//! Makes the lines of a long string in a dump that shows only the first bytes of long strings.

use crate::dump::lines::{CutLine, Lines};
use cbor_dump::comment::Comment;
use cbor_dump::context::DumpContext;
use cbor_dump::width::{PIECE, SHORT_TEXT, text_cut};
use cbor_grammar::Tag;
use cbor_grammar::encoding::Encoding;
use cbor_grammar::strings::StringContent;
use cbor_notes::element_size;
use std::alloc::AllocError;

/// A string that is cut.
#[derive(Clone, Copy)]
struct Cut<'a> {
    content: StringContent<'a>,
    /// How its bytes are shown.
    encoding: Option<Encoding>,
    /// The tag of a typed array, and the size of its elements, if it is one.
    elements: Option<(Tag, usize)>,
    /// How many of its bytes are shown at most.
    most: usize,
}

/// Takes the lines of the first bytes of a string, which has more than `most`.
pub(super) fn push_cut<L: Lines>(
    lines: &mut L,
    context: &DumpContext,
    content: StringContent<'_>,
    most: usize,
) -> Result<(), AllocError> {
    let cut = Cut {
        content,
        encoding: context.encoding,
        elements: elements_of(context.tag, content),
        most,
    };
    let depth = context.depth.saturating_add(1);
    let mut at = 0usize;
    for _ in 0..content.as_bytes().len() {
        let left = most.saturating_sub(at);
        let len = cut.line_len(at);
        if len > left {
            return lines.cut_line(depth, &cut.last(at, left));
        }
        lines.cut_line(depth, &cut.whole(at, len))?;
        at = at.saturating_add(len);
    }
    Ok(())
}

/// The tag and the size of the elements of a typed array, if the string is one.
fn elements_of(tag: Option<Tag>, content: StringContent<'_>) -> Option<(Tag, usize)> {
    let (Some(tag), StringContent::Bytes(bytes)) = (tag, content) else {
        return None;
    };
    match element_size(tag.0) {
        Some(size) if size > 0 && bytes.len() % size == 0 => Some((tag, size)),
        _ => None,
    }
}

impl<'a> Cut<'a> {
    /// The bytes from a place on, at most this many.
    fn bytes(&self, at: usize, len: usize) -> &'a [u8] {
        let rest = self.content.as_bytes().get(at..).unwrap_or(b"");
        rest.get(..len).unwrap_or(rest)
    }

    /// The text from a place on, if it is one and a character begins there.
    fn text(&self, at: usize) -> &'a str {
        match self.content {
            StringContent::Bytes(_) => "",
            StringContent::Text(text) => text.get(at..).unwrap_or(""),
        }
    }

    /// How many bytes the line has that begins at this place, if it is not cut.
    fn line_len(&self, at: usize) -> usize {
        match (self.content, self.elements) {
            (_, Some((_, size))) => size,
            (StringContent::Bytes(bytes), None) => bytes.len().saturating_sub(at).min(PIECE),
            (StringContent::Text(text), None) if text.len() <= SHORT_TEXT => text.len(),
            (StringContent::Text(_), None) => {
                let rest = self.text(at);
                if rest.is_empty() { 0 } else { text_cut(rest) }
            }
        }
    }

    /// A line that is shown whole. In base 64 it says all that is shown of the string.
    fn whole(&self, at: usize, len: usize) -> CutLine<'a> {
        let bytes = self.bytes(at, len);
        let comment = match self.elements {
            Some((tag, _)) => Comment::Element(tag, bytes),
            None => self.comment(at, len),
        };
        let goes_on = self.elements.is_none() && self.is_in_base_64();
        CutLine {
            bytes,
            comment,
            goes_on,
            cut: None,
        }
    }

    /// The last line, with at most `left` bytes: whole characters, and no part of an
    /// element.
    fn last(&self, at: usize, left: usize) -> CutLine<'a> {
        let cut = Some(self.content.as_bytes().len());
        if self.elements.is_some() {
            return CutLine {
                bytes: b"",
                comment: Comment::Note("..."),
                goes_on: false,
                cut,
            };
        }
        let len = match self.content {
            StringContent::Bytes(_) => left,
            StringContent::Text(_) => self.text(at).floor_char_boundary(left),
        };
        CutLine {
            bytes: self.bytes(at, len),
            comment: self.comment(at, len),
            goes_on: true,
            cut,
        }
    }

    /// What is said of these bytes.
    fn comment(&self, at: usize, len: usize) -> Comment<'a> {
        match self.content {
            StringContent::Bytes(_) => {
                let shown = (self.most / 3).saturating_mul(3);
                Comment::Bytes(self.encoding, self.bytes(0, shown), self.bytes(at, len))
            }
            StringContent::Text(_) => {
                let rest = self.text(at);
                Comment::Text(rest.get(..len).unwrap_or(rest))
            }
        }
    }

    /// Whether the bytes are in base 64.
    fn is_in_base_64(&self) -> bool {
        let is_bytes = matches!(self.content, StringContent::Bytes(_));
        is_bytes && matches!(self.encoding, Some(Encoding::Base64 | Encoding::Base64Url))
    }
}
