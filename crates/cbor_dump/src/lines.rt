//! Writes the lines of a dump for heads, breaks and the content of strings. A byte string with the
//! tag of a typed array gets a line for each element. These are methods of `Writer`.
ghost use Rattle.std.specs.Prelude.{◌≡◌, ◌<◌, ◌≤◌, ◌+◌, ◌*◌, ◌==◌, ◌++◌, ◌∷◌, [], length, OnOk};
ghost use Rattle.std.specs.Prelude.{if◌then◌else◌, replicate};
ghost use Rattle.std.specs.String.{string_bytes};
ghost use Rattle.cbor_dump.specs.Comments.{simple_comment, text_comment};
ghost use Rattle.cbor_dump.specs.Dump as spec;
ghost use Rattle.cbor_dump.specs.Pieces.{text_pieces};
ghost use Rattle.cbor_grammar.specs.Reading.{count_width};
ghost use Rattle.cbor_grammar.specs.WellFormed.{deepest};
ghost use Rattle.cbor_grammar.specs.Written.{encoded_head, encoded_simple};
ghost use Rattle.cbor_grammar.specs.StringKind.{major_of};
ghost use Rattle.cbor_dump.specs.mirror.Dumped.{context_view, tag_number, IsContext, Wrote};
ghost use Rattle.cbor_dump.specs.mirror.Dumped.{IsHead, line_of_head};
ghost use Rattle.cbor_dump.specs.mirror.ShownLines.{comment_text, shown_line};
ghost use Rattle.cbor_grammar.specs.mirror.StringView.{borrowed_chunk, bytes_of, kind_of};

use crate::comment::Comment;
use crate::context::DumpContext;
use crate::hex_style::HexStyle;
use crate::width::{PIECE, SHORT_TEXT, text_cut};
use crate::writer::Writer;
use cbor_grammar::argument::Argument;
use cbor_grammar::encoding::Encoding;
use cbor_grammar::head::ItemHead;
use cbor_grammar::strings::StringContent;
use cbor_grammar::{IntegerWidth, Tag};
use cbor_notes::{element_size, push_blanks, push_gap};
use std::alloc::AllocError;

/// The elements of a typed array (RFC 8746).
#[derive(Clone, Copy)]
pub(crate) struct Elements {
    /// The tag of the array, which says what they are.
    pub(crate) tag: Tag,
    /// The number of bytes of each.
    pub(crate) size: usize,
}

/// The column where the digits of a line begin at a depth. A line without digits has column 0.
fn indent(depth: usize, digits: usize) -> usize
    requires { depth < 140 }
    ensures { result ≡ (if digits == 0 then 0 else 3 * depth) }
{
    if digits == 0 { 0 } else { 3 * depth }
}

impl Writer {
    /// Begins a line: writes the text before each line, and blanks.
    fn begin_line(&mut self, blanks: usize) -> Result<(), AllocError>
        ensures out { OnOk result (string_bytes self.new.out
            ≡ (string_bytes self.old.out ++ string_bytes self.old.prefix) ++ replicate blanks 32) }
        ensures width { self.new.width ≡ self.old.width }
        ensures prefix { string_bytes self.new.prefix ≡ string_bytes self.old.prefix }
    {
        if !self.prefix.is_empty() {
            self.out.push_str(&self.prefix)?;
        }
        push_blanks(&mut self.out, blanks)
    }

    /// Writes a line at a depth: bytes, as digits in a style, and a comment. Digits that reach past
    /// the left column are all written. The only error is out of memory.
    pub fn line(
        &mut self,
        depth: usize,
        style: HexStyle,
        bytes: &[u8],
        comment: &Comment<'_>,
    ) -> Result<(), AllocError>
        requires depth { depth < 140 }
        requires few { length bytes.now ≤ 24 }
        ensures { OnOk result
            (Wrote self.old self.new (shown_line depth style bytes.now comment.now ∷ [])) }
    {
        let digits = style.count(bytes);
        let start = indent(depth, digits);
        self.begin_line(start)?;
        style.push(&mut self.out, bytes)?;
        let blanks = self.width.saturating_sub(start + digits);
        push_gap(&mut self.out, blanks, 2 * depth)?;
        comment.push(&mut self.out)?;
        self.out.push('\n')?;
        Ok(())
    }

    /// Writes the line of a head, given with its bytes.
    pub(super) fn head_line(
        &mut self,
        depth: usize,
        head: ItemHead,
        bytes: &[u8],
    ) -> Result<(), AllocError>
        requires depth { depth < 140 }
        requires bytes { IsHead head bytes.now }
        ensures { OnOk result (Wrote self.old self.new (line_of_head depth head ∷ [])) }
    {
        match head {
            ItemHead::Simple(value) => self.simple(depth, value),
            _ => self.line(depth, HexStyle::Head, bytes, &Comment::of(head, bytes)),
        }
    }

    /// Writes the line of a simple value.
    fn simple(&mut self, depth: usize, value: u8) -> Result<(), AllocError>
        requires { depth < 140 }
        ensures { OnOk result (Wrote self.old self.new
            (spec.head_line depth (encoded_simple value) (simple_comment value) ∷ [])) }
    {
        let comment = Comment::Simple(value);
        if value < 24 {
            self.line(depth, HexStyle::Head, &[0xe0 + value], &comment)
        } else {
            self.line(depth, HexStyle::Head, &[0xf8, value], &comment)
        }
    }

    /// Writes the line of a break.
    pub fn break_line(&mut self, depth: usize) -> Result<(), AllocError>
        requires { depth < 140 }
        ensures { OnOk result (Wrote self.old self.new (spec.break_line depth ∷ [])) }
    {
        self.line(depth, HexStyle::Head, &[0xff], &Comment::Break)
    }

    /// Writes the line of the break that ends a container, if its length is indefinite.
    pub(super) fn close(&mut self, depth: usize, length: Argument) -> Result<(), AllocError>
        requires { depth < 140 }
        ensures { OnOk result (Wrote self.old self.new
            (spec.close_lines depth (count_width length))) }
    {
        match length {
            Argument::Number(..) => Ok(()),
            Argument::Indefinite => self.break_line(depth),
        }
    }

    /// Writes the line of a piece of a string.
    fn piece_line(
        &mut self,
        depth: usize,
        piece: &[u8],
        comment: &Comment<'_>,
    ) -> Result<(), AllocError>
        requires depth { depth < 140 }
        requires few { length piece.now ≤ 24 }
        ensures { OnOk result (Wrote self.old self.new
            (spec.piece_line depth piece.now (comment_text comment.now) ∷ [])) }
    {
        self.line(depth, HexStyle::Content, piece, comment)
    }

    /// Writes the content of a byte string, a line for each piece.
    fn bytes_content(
        &mut self,
        depth: usize,
        encoding: Option<Encoding>,
        bytes: &[u8],
    ) -> Result<(), AllocError>
        requires { depth < 140 }
        ensures { OnOk result (Wrote self.old self.new
            (spec.bytes_lines depth encoding bytes.now)) }
    {
        if bytes.is_empty() {
            return self.piece_line(depth, bytes, &Comment::Empty);
        }
        let mut rest = bytes;
        'pieces: while !rest.is_empty() {
            let (piece, after) = rest.split_at(rest.len().min(PIECE));
            self.piece_line(depth, piece, &Comment::Bytes(encoding, bytes, piece))?;
            rest = after;
        }
        Ok(())
    }

    /// Writes the elements of a typed array, a line for each.
    fn elements(&mut self, depth: usize, of: Elements, bytes: &[u8]) -> Result<(), AllocError>
        requires depth { depth < 140 }
        requires some { 0 < of.size }
        requires few { of.size ≤ 16 }
        ensures { OnOk result (Wrote self.old self.new
            (spec.element_lines depth of.tag.0 of.size bytes.now)) }
    {
        let mut rest = bytes;
        'elements: while !rest.is_empty() {
            let (element, after) = rest.split_at(rest.len().min(of.size));
            self.piece_line(depth, element, &Comment::Element(of.tag, element))?;
            rest = after;
        }
        Ok(())
    }

    /// Writes the content of a byte string, one deeper than the context. It is shown as elements if
    /// the tag above is that of a typed array and the bytes are whole elements.
    fn tagged_content(&mut self, context: &DumpContext, bytes: &[u8]) -> Result<(), AllocError>
        requires { IsContext context.now }
        ensures { OnOk result (Wrote self.old self.new
            (spec.tagged_lines (context.now.depth + 1)
            context.now.encoding (tag_number context.now.tag) bytes.now)) }
    {
        let depth = context.depth + 1;
        let Some(tag) = context.tag else {
            return self.bytes_content(depth, context.encoding, bytes);
        };
        match element_size(tag.0) {
            Some(size) if bytes.len() % size == 0 => {
                self.elements(depth, Elements { tag, size }, bytes)
            }
            _ => self.bytes_content(depth, context.encoding, bytes),
        }
    }

    /// Writes the content of a text, in one line or a line for each piece.
    fn text_content(&mut self, depth: usize, text: &str) -> Result<(), AllocError>
        requires { depth < 140 }
        ensures { OnOk result (Wrote self.old self.new
            (spec.content_lines depth text_comment (text_pieces text.now))) }
    {
        if text.is_empty() {
            return self.piece_line(depth, text.as_bytes(), &Comment::Empty);
        }
        if text.len() <= SHORT_TEXT {
            return self.piece_line(depth, text.as_bytes(), &Comment::Text(text));
        }
        let mut rest = text;
        'pieces: while !rest.is_empty() {
            let (piece, after) = rest.split_at(text_cut(rest));
            self.piece_line(depth, piece.as_bytes(), &Comment::Text(piece))?;
            rest = after;
        }
        Ok(())
    }

    /// Writes the content of a string, one deeper than the context.
    pub fn string_content(
        &mut self,
        context: &DumpContext,
        content: StringContent<'_>,
    ) -> Result<(), AllocError>
        requires { IsContext context.now }
        ensures { OnOk result (Wrote self.old self.new (spec.string_content_lines
            (kind_of content.entry) (context_view context.now) (bytes_of content.entry))) }
    {
        match content {
            StringContent::Bytes(bytes) => self.tagged_content(context, bytes),
            StringContent::Text(text) => self.text_content(context.depth + 1, text),
        }
    }

    /// Writes a chunk, given with the width of its length: its head and its content.
    pub(super) fn chunk(
        &mut self,
        context: &DumpContext,
        chunk: (StringContent<'_>, IntegerWidth),
        head: &[u8],
    ) -> Result<(), AllocError>
        requires context { IsContext context.now }
        requires head { head.now ≡ encoded_head (major_of (kind_of chunk.0))
            (length (bytes_of chunk.0)) chunk.1 }
        ensures { OnOk result (Wrote self.old self.new (spec.string_lines (kind_of chunk.entry.0)
            (context_view context.now) (borrowed_chunk chunk.entry.1 chunk.entry.0))) }
    {
        let (content, width) = chunk;
        let length = Argument::Number(content.as_bytes().len() as u64, width);
        self.head_line(
            context.depth,
            ItemHead::String(content.kind(), length),
            head,
        )?;
        self.string_content(context, content)
    }
}
