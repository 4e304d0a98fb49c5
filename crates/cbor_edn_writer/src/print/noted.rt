//! `NotedEdn`: the dialect of notation that writes EDN with the notes of a caller. `Edn` in
//! `print.rt` writes it without them.
#![tactic(auto, using(cbor_tokens::proofs::texts::Appending::appending_steps))]

ghost use Rattle.std.specs.Prelude.{◌<◌, ◌^◌};
ghost use Rattle.cbor_grammar.specs.NotationText.{style_indent};
ghost use Rattle.cbor_tokens.specs.Appends.{AppendsText};
ghost use Rattle.cbor_edn_writer.specs.EdnLeaves.{NotedAt, edn_leaves};

use crate::print::Edn;
use crate::print::leaf::{push_leaf, push_string};
use crate::print::lists::{push_opening, push_tag};
use crate::print::notes::{push_after, push_before};
use crate::print::numbers::shown_width;
use crate::print::place::EdnPlace;
use crate::print::text::push_no_parts;
use cbor_grammar::IntegerWidth;
use cbor_grammar::argument::Argument;
use cbor_grammar::head::ItemHead;
use cbor_grammar::layout::{ContainerStyle, Content, Layout};
use cbor_grammar::strings::{StringContent, StringKind};
use cbor_notation_writer::dialect::Dialect;
use cbor_notation_writer::parts::{Container, Front, Leaf};
use cbor_notes::Note;
use std::alloc::{AllocError, Global};

/// EDN where a note of the caller is looked for at each item. It is separate from [`Edn`], since a
/// place that may change costs instructions at each item.
pub(crate) struct NotedEdn<'a> {
    notes: &'a [Note<'a>],
}

impl<'a> Dialect for NotedEdn<'a> {
    type Place = EdnPlace<'a>;

    ghost leaves = { edn_leaves };

    ghost becomes = { NotedAt };

    #[inline(always)]
    fn moves(_place: &EdnPlace<'a>, _head: ItemHead) -> bool {
        true
    }

    #[inline(always)]
    fn at(
        place: &EdnPlace<'a>,
        out: &String,
        front: Front<'_>,
    ) -> Result<EdnPlace<'a>, AllocError> {
        place.noted(out, front)
    }

    #[inline(always)]
    fn level(place: &EdnPlace<'a>) -> u8 {
        Edn::level(place)
    }

    #[inline(always)]
    fn layout(place: &EdnPlace<'a>) -> Layout {
        Edn::layout(place)
    }

    #[inline(always)]
    fn array_style(place: &EdnPlace<'a>, count: Argument, bytes: &[u8]) -> ContainerStyle {
        Edn::array_style(place, count, bytes)
    }

    #[inline(always)]
    fn map_style(place: &EdnPlace<'a>, count: Argument, bytes: &[u8]) -> ContainerStyle {
        Edn::map_style(place, count, bytes)
    }

    #[inline(always)]
    fn chunks_style(place: &EdnPlace<'a>, kind: StringKind, bytes: &[u8]) -> ContainerStyle {
        Edn::chunks_style(place, kind, bytes)
    }

    #[inline(always)]
    fn sequence_style(place: &EdnPlace<'a>, bytes: &[u8]) -> ContainerStyle {
        Edn::sequence_style(place, bytes)
    }

    #[inline(always)]
    fn content(place: &EdnPlace<'a>, bytes: &[u8]) -> Content {
        Edn::content(place, bytes)
    }

    #[inline(always)]
    fn joins(place: &EdnPlace<'a>, kind: StringKind) -> Option<Global> {
        Edn::joins(place, kind)
    }

    #[inline(always)]
    fn inside(place: &EdnPlace<'a>, container: Container, layout: Layout) -> EdnPlace<'a> {
        Edn::inside(place, container, layout)
    }

    #[inline(always)]
    fn pass(place: &mut EdnPlace<'a>) {
        Edn::pass(place)
    }

    #[inline(always)]
    fn pass_key(place: &mut EdnPlace<'a>, bytes: &[u8], rest: &[u8]) {
        Edn::pass_key(place, bytes, rest)
    }

    #[inline(always)]
    fn below(place: &EdnPlace<'a>, tag: u64) -> EdnPlace<'a> {
        Edn::below(place, tag)
    }

    #[inline(always)]
    fn leaf(out: &mut String, leaf: Leaf, place: &EdnPlace<'a>) -> Result<(), AllocError> {
        push_before(out, place)?;
        push_leaf(out, leaf, place)?;
        push_after(out, place)
    }

    #[inline(always)]
    fn string(
        out: &mut String,
        content: StringContent<'_>,
        width: IntegerWidth,
        place: &EdnPlace<'a>,
    ) -> Result<(), AllocError> {
        push_before(out, place)?;
        push_string(out, content, width, place)?;
        push_after(out, place)
    }

    #[inline(always)]
    fn part(
        out: &mut String,
        content: StringContent<'_>,
        width: IntegerWidth,
        place: &EdnPlace<'a>,
    ) -> Result<(), AllocError> {
        Edn::part(out, content, width, place)
    }

    #[inline(always)]
    fn no_parts(
        out: &mut String,
        kind: StringKind,
        place: &EdnPlace<'a>,
    ) -> Result<(), AllocError> {
        push_before(out, place)?;
        push_no_parts(out, kind, place)
    }

    #[inline(always)]
    fn opening(
        out: &mut String,
        container: Container,
        style: ContainerStyle,
        place: &EdnPlace<'a>,
    ) -> Result<(), AllocError> {
        push_before(out, place)?;
        push_opening(out, container, style, place)
    }

    #[inline(always)]
    fn closing(
        out: &mut String,
        container: Container,
        style: ContainerStyle,
        place: &EdnPlace<'a>,
    ) -> Result<(), AllocError> {
        Edn::closing(out, container, style, place)
    }

    #[inline(always)]
    fn rest(
        out: &mut String,
        container: Container,
        rest: &[u8],
        place: &EdnPlace<'a>,
    ) -> Result<(), AllocError> {
        Edn::rest(out, container, rest, place)
    }

    #[inline(always)]
    fn tag(
        out: &mut String,
        tag: u64,
        width: IntegerWidth,
        place: &EdnPlace<'a>,
    ) -> Result<(), AllocError> {
        push_before(out, place)?;
        push_tag(out, tag, shown_width(place.style.widths, tag, width), place)
    }

    #[inline(always)]
    fn tag_end(out: &mut String, tag: u64, place: &EdnPlace<'a>) -> Result<(), AllocError> {
        Edn::tag_end(out, tag, place)
    }

    #[inline(always)]
    fn start(
        out: &mut String,
        container: Container,
        style: ContainerStyle,
        first: bool,
    ) -> Result<(), AllocError>
        requires { style_indent style < 2 ^ 32 }
        ensures { AppendsText result out.old out.new (edn_leaves.start container style first) }
    {
        Edn::start(out, container, style, first)
    }

    #[inline(always)]
    fn end(out: &mut String, container: Container, style: ContainerStyle) -> Result<(), AllocError>
        ensures { AppendsText result out.old out.new (edn_leaves.end container style) }
    {
        Edn::end(out, container, style)
    }

    #[inline(always)]
    fn colon(out: &mut String, style: ContainerStyle) -> Result<(), AllocError>
        ensures { AppendsText result out.old out.new (edn_leaves.colon style) }
    {
        Edn::colon(out, style)
    }
}
