//! `Edn`: the dialect of notation that writes EDN without notes of a caller. Each function writes
//! one kind of part, or decides how an item is laid out.
#![tactic(auto, using(cbor_tokens::proofs::texts::Appending::appending_steps))]

mod columns;
mod elements;
mod leaf;
pub(crate) mod line;
mod lists;
mod measure;
pub(crate) mod noted;
pub(crate) mod notes;
mod numbers;
mod own_notes;
pub(crate) mod place;
mod text;

ghost use Rattle.std.specs.Prelude.{◌<◌, ◌^◌};
ghost use Rattle.cbor_grammar.specs.NotationText.{style_indent};
ghost use Rattle.cbor_tokens.specs.Appends.{AppendsText};
ghost use Rattle.cbor_notation_writer.specs.Dialect.{anywhere};
ghost use Rattle.cbor_edn_writer.specs.EdnLeaves.{edn_leaves};

use crate::print::leaf::{push_leaf, push_string};
use crate::print::line::has_new_line;
use crate::print::lists::{push_closing, push_opening, push_tag, push_tag_end, spaced};
use crate::print::numbers::shown_width;
use crate::print::place::EdnPlace;
use crate::print::text::{push_no_parts, push_part};
use cbor_grammar::IntegerWidth;
use cbor_grammar::argument::Argument;
use cbor_grammar::head::ItemHead;
use cbor_grammar::layout::{ContainerStyle, Content, Layout};
use cbor_grammar::strings::{StringContent, StringKind};
use cbor_inside::content_under;
use cbor_notation_writer::dialect::Dialect;
use cbor_notation_writer::members::{push_end, push_start};
use cbor_notation_writer::parts::{Container, Front, Leaf};
use cbor_notes::Note;
use std::alloc::{AllocError, Global};

/// EDN where no notes of a caller are looked for. They are borrowed for `'a`.
pub(crate) struct Edn<'a> {
    notes: &'a [Note<'a>],
}

impl<'a> Dialect for Edn<'a> {
    type Place = EdnPlace<'a>;

    ghost leaves = { edn_leaves };

    ghost becomes = { anywhere edn_leaves };

    #[inline(always)]
    fn moves(place: &EdnPlace<'a>, head: ItemHead) -> bool {
        has_new_line(place, head)
    }

    #[inline(always)]
    fn at(
        place: &EdnPlace<'a>,
        out: &String,
        front: Front<'_>,
    ) -> Result<EdnPlace<'a>, AllocError> {
        place.laid_out(out, front)
    }

    #[inline(always)]
    fn level(place: &EdnPlace<'a>) -> u8 {
        place.level
    }

    #[inline(always)]
    fn layout(place: &EdnPlace<'a>) -> Layout {
        place.layout
    }

    #[inline(always)]
    fn array_style(place: &EdnPlace<'a>, _count: Argument, _bytes: &[u8]) -> ContainerStyle {
        place.container_style()
    }

    #[inline(always)]
    fn map_style(place: &EdnPlace<'a>, _count: Argument, _bytes: &[u8]) -> ContainerStyle {
        place.container_style()
    }

    #[inline(always)]
    fn chunks_style(place: &EdnPlace<'a>, _kind: StringKind, _bytes: &[u8]) -> ContainerStyle {
        place.container_style()
    }

    #[inline(always)]
    fn sequence_style(place: &EdnPlace<'a>, _bytes: &[u8]) -> ContainerStyle {
        place.container_style()
    }

    #[inline(always)]
    fn content(place: &EdnPlace<'a>, bytes: &[u8]) -> Content {
        content_under(place.shows_items(), place.level, place.tag, bytes)
    }

    #[inline(always)]
    fn joins(_place: &EdnPlace<'a>, _kind: StringKind) -> Option<Global> {
        None
    }

    #[inline(always)]
    fn inside(place: &EdnPlace<'a>, container: Container, layout: Layout) -> EdnPlace<'a> {
        place.inside(container, layout)
    }

    #[inline(always)]
    fn pass(_place: &mut EdnPlace<'a>) {}

    #[inline(always)]
    fn pass_key(place: &mut EdnPlace<'a>, _bytes: &[u8], _rest: &[u8]) {
        if let Some(marks) = place.marks {
            marks.mark_key();
        }
    }

    #[inline(always)]
    fn below(place: &EdnPlace<'a>, tag: u64) -> EdnPlace<'a> {
        place.below(tag)
    }

    #[inline(always)]
    fn leaf(out: &mut String, leaf: Leaf, place: &EdnPlace<'a>) -> Result<(), AllocError> {
        push_leaf(out, leaf, place)
    }

    #[inline(always)]
    fn string(
        out: &mut String,
        content: StringContent<'_>,
        width: IntegerWidth,
        place: &EdnPlace<'a>,
    ) -> Result<(), AllocError> {
        push_string(out, content, width, place)
    }

    #[inline(always)]
    fn part(
        out: &mut String,
        content: StringContent<'_>,
        width: IntegerWidth,
        place: &EdnPlace<'a>,
    ) -> Result<(), AllocError> {
        push_part(out, content, width, place)
    }

    #[inline(always)]
    fn no_parts(
        out: &mut String,
        kind: StringKind,
        place: &EdnPlace<'a>,
    ) -> Result<(), AllocError> {
        push_no_parts(out, kind, place)
    }

    #[inline(always)]
    fn opening(
        out: &mut String,
        container: Container,
        style: ContainerStyle,
        place: &EdnPlace<'a>,
    ) -> Result<(), AllocError> {
        push_opening(out, container, style, place)
    }

    #[inline(always)]
    fn closing(
        out: &mut String,
        container: Container,
        style: ContainerStyle,
        place: &EdnPlace<'a>,
    ) -> Result<(), AllocError> {
        push_closing(out, container, style, place)
    }

    /// Nothing: a byte string is shown as items only if all of its bytes are items.
    #[inline(always)]
    fn rest(
        _out: &mut String,
        _container: Container,
        _rest: &[u8],
        _place: &EdnPlace<'a>,
    ) -> Result<(), AllocError> {
        Ok(())
    }

    #[inline(always)]
    fn tag(
        out: &mut String,
        tag: u64,
        width: IntegerWidth,
        place: &EdnPlace<'a>,
    ) -> Result<(), AllocError> {
        push_tag(out, tag, shown_width(place.style.widths, tag, width), place)
    }

    #[inline(always)]
    fn tag_end(out: &mut String, _tag: u64, place: &EdnPlace<'a>) -> Result<(), AllocError> {
        push_tag_end(out, place)
    }

    #[inline(always)]
    fn start(
        out: &mut String,
        _container: Container,
        style: ContainerStyle,
        first: bool,
    ) -> Result<(), AllocError>
        requires { style_indent style < 2 ^ 32 }
        ensures { AppendsText result out.old out.new (edn_leaves.start _container style first) }
    {
        push_start(out, spaced(style), first)
    }

    #[inline(always)]
    fn end(out: &mut String, _container: Container, style: ContainerStyle) -> Result<(), AllocError>
        ensures { AppendsText result out.old out.new (edn_leaves.end _container style) }
    {
        push_end(out, style)
    }

    #[inline(always)]
    fn colon(out: &mut String, _style: ContainerStyle) -> Result<(), AllocError>
        ensures { AppendsText result out.old out.new (edn_leaves.colon _style) }
    {
        out.push_str(": ")
    }
}
