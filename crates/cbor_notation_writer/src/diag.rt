//! `Diag`: the dialect of notation that `cbor_view` writes (RFC 7049 section 6). `push_content`
//! writes a byte string in it: as the items in the string, or as bytes.
#![tactic(auto, using(cbor_tokens::proofs::texts::Appending::appending_steps))]

ghost use Rattle.std.specs.Prelude.{◌≡◌, ◌+◌, ◌≤◌};
ghost use Rattle.cbor_grammar.specs.WellFormed.{deepest};
ghost use Rattle.cbor_grammar.specs.mirror.StringView.{kind_of};
ghost use Rattle.cbor_tokens.specs.Appends.{AppendsText};
ghost use Rattle.cbor_notation_writer.specs.Dialect.{anywhere};
ghost use Rattle.cbor_notation_writer.specs.mirror.LayoutView.{IsIndented, content_there};
ghost use Rattle.cbor_notation_writer.specs.mirror.DiagLeaves.{diag_leaves};

use crate::ahead::{array_style_ahead, chunks_style_ahead, map_style_ahead, sequence_style_ahead};
use crate::budget::ONE_LINE_LIMIT;
use crate::context::NotationContext;
use crate::dialect::Dialect;
use crate::from_bytes;
use crate::members::{
    push_closing, push_colon, push_end, push_no_chunks, push_opening, push_rest, push_start,
};
use crate::parts::{Container, Front, Leaf};
use crate::scalars::{push_float, push_negative, push_number, push_simple, push_string};
use cbor_grammar::argument::Argument;
use cbor_grammar::head::ItemHead;
use cbor_grammar::layout::{ContainerStyle, Content, Layout};
use cbor_grammar::strings::{StringContent, StringKind};
use cbor_grammar::{IntegerWidth, Simple, Tag};
use std::alloc::{AllocError, Global};

/// The notation that `cbor_view` writes.
pub struct Diag;

impl Dialect for Diag {
    type Place = NotationContext;

    ghost leaves = { diag_leaves };

    ghost becomes = { anywhere diag_leaves };

    #[inline(always)]
    fn moves(_place: &NotationContext, _head: ItemHead) -> bool {
        false
    }

    #[inline(always)]
    fn at(
        place: &NotationContext,
        _out: &String,
        _front: Front<'_>,
    ) -> Result<NotationContext, AllocError> {
        Ok(*place)
    }

    #[inline(always)]
    fn level(place: &NotationContext) -> u8 {
        place.level
    }

    #[inline(always)]
    fn layout(place: &NotationContext) -> Layout {
        place.layout
    }

    #[inline(always)]
    fn array_style(place: &NotationContext, count: Argument, bytes: &[u8]) -> ContainerStyle {
        array_style_ahead(place.layout, ONE_LINE_LIMIT, count, bytes)
    }

    #[inline(always)]
    fn map_style(place: &NotationContext, count: Argument, bytes: &[u8]) -> ContainerStyle {
        map_style_ahead(place.layout, ONE_LINE_LIMIT, count, bytes)
    }

    #[inline(always)]
    fn chunks_style(place: &NotationContext, kind: StringKind, bytes: &[u8]) -> ContainerStyle {
        chunks_style_ahead(place.layout, ONE_LINE_LIMIT, kind, bytes)
    }

    #[inline(always)]
    fn sequence_style(place: &NotationContext, bytes: &[u8]) -> ContainerStyle {
        sequence_style_ahead(place.layout, ONE_LINE_LIMIT, place.level + 1, bytes)
    }

    #[inline(always)]
    fn content(place: &NotationContext, _bytes: &[u8]) -> Content {
        place.content
    }

    #[inline(always)]
    fn joins(_place: &NotationContext, _kind: StringKind) -> Option<Global> {
        None
    }

    #[inline(always)]
    fn inside(place: &NotationContext, _container: Container, layout: Layout) -> NotationContext {
        place.inside(layout)
    }

    #[inline(always)]
    fn pass(_place: &mut NotationContext) {}

    #[inline(always)]
    fn pass_key(_place: &mut NotationContext, _bytes: &[u8], _rest: &[u8]) {}

    #[inline(always)]
    fn below(place: &NotationContext, tag: u64) -> NotationContext {
        place.below(Tag(tag))
    }

    #[inline(always)]
    fn leaf(out: &mut String, leaf: Leaf, _place: &NotationContext) -> Result<(), AllocError> {
        match leaf {
            Leaf::Integer(value, width) => push_number(out, value, width),
            Leaf::Negative(value, width) => push_negative(out, value, width),
            Leaf::Float(bits, width) => push_float(out, bits, width),
            Leaf::Simple(value, _) => push_simple(out, Simple(value)),
        }
    }

    #[inline(always)]
    fn string(
        out: &mut String,
        content: StringContent<'_>,
        _width: IntegerWidth,
        place: &NotationContext,
    ) -> Result<(), AllocError> {
        push_string(out, content, place.encoding)
    }

    #[inline(always)]
    fn part(
        out: &mut String,
        content: StringContent<'_>,
        _width: IntegerWidth,
        place: &NotationContext,
    ) -> Result<(), AllocError> {
        push_string(out, content, place.encoding)
    }

    #[inline(always)]
    fn no_parts(
        out: &mut String,
        kind: StringKind,
        _place: &NotationContext,
    ) -> Result<(), AllocError> {
        push_no_chunks(out, kind)
    }

    #[inline(always)]
    fn opening(
        out: &mut String,
        container: Container,
        style: ContainerStyle,
        _place: &NotationContext,
    ) -> Result<(), AllocError> {
        match container {
            Container::Array(count) => push_opening(out, '[', count.width(), style),
            Container::Map(count) => push_opening(out, '{', count.width(), style),
            Container::Chunks(_) => push_opening(out, '(', None, style),
            Container::Embedded(_) => out.push_str("<<"),
        }
    }

    #[inline(always)]
    fn closing(
        out: &mut String,
        container: Container,
        style: ContainerStyle,
        _place: &NotationContext,
    ) -> Result<(), AllocError> {
        match container {
            Container::Array(_) => push_closing(out, style, ']'),
            Container::Map(_) => push_closing(out, style, '}'),
            Container::Chunks(_) => push_closing(out, style, ')'),
            Container::Embedded(_) => {
                push_closing(out, style, '>')?;
                out.push('>')
            }
        }
    }

    #[inline(always)]
    fn rest(
        out: &mut String,
        _container: Container,
        rest: &[u8],
        place: &NotationContext,
    ) -> Result<(), AllocError> {
        push_rest(out, rest, place)
    }

    #[inline(always)]
    fn tag(
        out: &mut String,
        tag: u64,
        width: IntegerWidth,
        _place: &NotationContext,
    ) -> Result<(), AllocError> {
        push_number(out, tag, width)?;
        out.push('(')
    }

    #[inline(always)]
    fn tag_end(out: &mut String, _tag: u64, _place: &NotationContext) -> Result<(), AllocError> {
        out.push(')')
    }

    #[inline(always)]
    fn start(
        out: &mut String,
        _container: Container,
        style: ContainerStyle,
        first: bool,
    ) -> Result<(), AllocError> {
        push_start(out, style, first)
    }

    #[inline(always)]
    fn end(
        out: &mut String,
        _container: Container,
        style: ContainerStyle,
    ) -> Result<(), AllocError> {
        push_end(out, style)
    }

    #[inline(always)]
    fn colon(out: &mut String, style: ContainerStyle) -> Result<(), AllocError> {
        push_colon(out, style)
    }
}

/// Writes a byte string: as the items in it, if these are to be shown and can be read, otherwise as
/// bytes.
pub fn push_content(
    out: &mut String,
    bytes: &[u8],
    context: &NotationContext,
) -> Result<(), AllocError>
    requires level { context.now.level ≤ deepest }
    requires indent { IsIndented context.now }
    ensures { AppendsText result out.old out.new
        (content_there context.now context.now.content bytes.now) }
{
    from_bytes::push_content::<Diag>(out, bytes, IntegerWidth::Unknown, context)
}
