//! `Json`: the dialect of notation that writes JSON. Each function writes one kind of part, or
//! decides how an item is laid out.
#![tactic(auto, using(cbor_tokens::proofs::texts::Appending::appending_steps))]

mod leaf;
mod lists;
pub(crate) mod numbers;
pub(crate) mod place;
pub(crate) mod text;

ghost use Rattle.std.specs.Prelude.{◌<◌, ◌^◌};
ghost use Rattle.cbor_grammar.specs.NotationText.{style_indent};
ghost use Rattle.cbor_tokens.specs.Appends.{AppendsText};
ghost use Rattle.cbor_notation_writer.specs.Dialect.{anywhere};
ghost use Rattle.cbor_json.specs.JsonLeaves.{json_leaves};

use crate::print::leaf::push_leaf;
use crate::print::lists::{
    push_closing, push_empty, push_opening, push_start, push_tag, push_tag_end,
};
use crate::print::place::{JsonPlace, Role};
use crate::print::text::{content_at, push_part, push_string};
use cbor_grammar::IntegerWidth;
use cbor_grammar::argument::Argument;
use cbor_grammar::head::ItemHead;
use cbor_grammar::layout::{ContainerStyle, Content, Layout};
use cbor_grammar::strings::{StringContent, StringKind};
use cbor_marks::{Kind, Marks};
use cbor_notation_writer::ahead::{
    array_style_ahead, chunks_style_ahead, map_style_ahead, sequence_style_ahead,
};
use cbor_notation_writer::budget::ONE_LINE_LIMIT;
use cbor_notation_writer::dialect::Dialect;
use cbor_notation_writer::parts::{Container, Front, Leaf};
use std::alloc::{AllocError, Global};

/// JSON.
pub(crate) struct Json<'a> {
    marks: Option<&'a Marks>,
}

impl<'a> Dialect for Json<'a> {
    type Place = JsonPlace<'a>;

    ghost leaves = { json_leaves };

    ghost becomes = { anywhere json_leaves };

    #[inline(always)]
    fn moves(_place: &JsonPlace<'a>, _head: ItemHead) -> bool {
        false
    }

    #[inline(always)]
    fn at(
        place: &JsonPlace<'a>,
        _out: &String,
        _front: Front<'_>,
    ) -> Result<JsonPlace<'a>, AllocError> {
        Ok(*place)
    }

    #[inline(always)]
    fn level(place: &JsonPlace<'a>) -> u8 {
        place.level
    }

    #[inline(always)]
    fn layout(place: &JsonPlace<'a>) -> Layout {
        place.layout
    }

    #[inline(always)]
    fn array_style(place: &JsonPlace<'a>, count: Argument, bytes: &[u8]) -> ContainerStyle {
        array_style_ahead(place.layout, ONE_LINE_LIMIT, count, bytes)
    }

    #[inline(always)]
    fn map_style(place: &JsonPlace<'a>, count: Argument, bytes: &[u8]) -> ContainerStyle {
        map_style_ahead(place.layout, ONE_LINE_LIMIT, count, bytes)
    }

    #[inline(always)]
    fn chunks_style(place: &JsonPlace<'a>, kind: StringKind, bytes: &[u8]) -> ContainerStyle {
        chunks_style_ahead(place.layout, ONE_LINE_LIMIT, kind, bytes)
    }

    #[inline(always)]
    fn sequence_style(place: &JsonPlace<'a>, bytes: &[u8]) -> ContainerStyle {
        sequence_style_ahead(place.layout, ONE_LINE_LIMIT, place.level + 1, bytes)
    }

    #[inline(always)]
    fn content(place: &JsonPlace<'a>, bytes: &[u8]) -> Content {
        content_at(place, bytes)
    }

    #[inline(always)]
    fn joins(place: &JsonPlace<'a>, kind: StringKind) -> Option<Global> {
        match (kind, place.role) {
            (StringKind::Bytes, Role::Value | Role::Named) => Some(place.alloc),
            _ => None,
        }
    }

    #[inline(always)]
    fn inside(place: &JsonPlace<'a>, container: Container, layout: Layout) -> JsonPlace<'a> {
        place.inside(container, layout)
    }

    #[inline(always)]
    fn pass(place: &mut JsonPlace<'a>) {
        place.role = place.role.next();
    }

    #[inline(always)]
    fn pass_key(place: &mut JsonPlace<'a>, _bytes: &[u8], _rest: &[u8]) {
        place.role = place.role.value();
    }

    #[inline(always)]
    fn below(place: &JsonPlace<'a>, tag: u64) -> JsonPlace<'a> {
        place.below(tag)
    }

    #[inline(always)]
    fn leaf(out: &mut String, leaf: Leaf, place: &JsonPlace<'a>) -> Result<(), AllocError> {
        let start = out.len();
        let result = push_leaf(out, leaf, place.role);
        place.mark(Kind::Number, start, out);
        result
    }

    /// The width of the length is not shown.
    #[inline(always)]
    fn string(
        out: &mut String,
        content: StringContent<'_>,
        width: IntegerWidth,
        place: &JsonPlace<'a>,
    ) -> Result<(), AllocError> {
        push_string(out, content, width, place)
    }

    #[inline(always)]
    fn part(
        out: &mut String,
        content: StringContent<'_>,
        width: IntegerWidth,
        place: &JsonPlace<'a>,
    ) -> Result<(), AllocError> {
        push_part(out, content, width, place)
    }

    #[inline(always)]
    fn no_parts(
        out: &mut String,
        kind: StringKind,
        place: &JsonPlace<'a>,
    ) -> Result<(), AllocError> {
        let start = out.len();
        let result = push_empty(out, kind, place.role);
        place.mark(Kind::Text, start, out);
        result
    }

    #[inline(always)]
    fn opening(
        out: &mut String,
        container: Container,
        _style: ContainerStyle,
        place: &JsonPlace<'a>,
    ) -> Result<(), AllocError> {
        let start = out.len();
        let result = push_opening(out, container, place.role);
        place.mark(opening_kind(container), start, out);
        result
    }

    #[inline(always)]
    fn closing(
        out: &mut String,
        container: Container,
        _style: ContainerStyle,
        place: &JsonPlace<'a>,
    ) -> Result<(), AllocError> {
        let start = out.len();
        let result = push_closing(out, container, place.role);
        match (container, place.role) {
            (Container::Chunks(_), _) | (_, Role::Key) => place.mark_end(out),
            _ => place.mark(Kind::Closing, start, out),
        }
        result
    }

    /// Nothing: no byte string is shown as several items.
    #[inline(always)]
    fn rest(
        _out: &mut String,
        _container: Container,
        _rest: &[u8],
        _place: &JsonPlace<'a>,
    ) -> Result<(), AllocError> {
        Ok(())
    }

    #[inline(always)]
    fn tag(
        out: &mut String,
        tag: u64,
        _width: IntegerWidth,
        place: &JsonPlace<'a>,
    ) -> Result<(), AllocError> {
        let start = out.len();
        let result = push_tag(out, tag, place.role);
        place.mark(Kind::Tag, start, out);
        result
    }

    #[inline(always)]
    fn tag_end(out: &mut String, _tag: u64, place: &JsonPlace<'a>) -> Result<(), AllocError> {
        let result = push_tag_end(out, place.role);
        if let Role::Key = place.role {
            place.mark_end(out);
        }
        result
    }

    #[inline(always)]
    fn start(
        out: &mut String,
        container: Container,
        _style: ContainerStyle,
        first: bool,
    ) -> Result<(), AllocError>
        requires { style_indent _style < 2 ^ 32 }
        ensures { AppendsText result out.old out.new (json_leaves.start container _style first) }
    {
        push_start(out, container, first)
    }

    #[inline(always)]
    fn end(
        _out: &mut String,
        _container: Container,
        _style: ContainerStyle,
    ) -> Result<(), AllocError>
        ensures { AppendsText result _out.old _out.new (json_leaves.end _container _style) }
    {
        Ok(())
    }

    #[inline(always)]
    fn colon(out: &mut String, _style: ContainerStyle) -> Result<(), AllocError>
        ensures { AppendsText result out.old out.new (json_leaves.colon _style) }
    {
        out.push_str(": ")
    }
}

/// What the text is that opens this container: a string of chunks begins there.
fn opening_kind(container: Container) -> Kind {
    match container {
        Container::Chunks(_) => Kind::Text,
        _ => Kind::Opening,
    }
}
