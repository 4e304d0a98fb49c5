//! Writes what opens and closes a container or embedded items in EDN, and what opens a tag:
//! brackets and width indicators.
#![tactic(auto, using(cbor_tokens::proofs::texts::Appending::appending_steps))]

ghost use Rattle.std.specs.Prelude.{◌≡◌, ◌∷◌, [], ◌++◌, ◌<◌, codes};
ghost use Rattle.cbor_tokens.specs.Appends.{AppendsText};
ghost use Rattle.cbor_edn_writer.specs.EdnLeaves.{spaced as spaced_style, gap, with_gap};
ghost use Rattle.cbor_edn_writer.specs.EdnLeaves.{count_mark};
ghost use Rattle.cbor_edn_writer.specs.EdnLeaves.{embedded_mark};
ghost use Rattle.cbor_edn_writer.specs.EdnLeaves.{edn_opening, edn_closing};
ghost use Rattle.cbor_grammar.specs.NotationText.{number, indicator};

use crate::print::numbers::{longer, push_indicator, push_length_mark};
use crate::print::place::EdnPlace;
use cbor_grammar::IntegerWidth;
use cbor_grammar::argument::Argument;
use cbor_grammar::layout::ContainerStyle;
use cbor_marks::Kind;
use cbor_notation_writer::members;
use cbor_notation_writer::parts::Container;
use cbor_notation_writer::scalars::push_number;
use std::alloc::AllocError;

/// The style with blanks also on one line.
#[inline(always)]
pub(super) fn spaced(style: ContainerStyle) -> ContainerStyle
    ensures { result ≡ spaced_style style }
{
    match style {
        ContainerStyle::Compact => ContainerStyle::OneLine { indent: 0 },
        style => style,
    }
}

/// Writes a blank, unless the members begin with a line end.
fn push_gap(out: &mut String, style: ContainerStyle) -> Result<(), AllocError>
    ensures { AppendsText result out.old out.new (gap style) }
{
    match style {
        ContainerStyle::MultiLine { .. } => Ok(()),
        _ => out.push(' '),
    }
}

/// Writes the indicator of a list's length, if it needs one, and a blank after it.
#[inline(always)]
fn push_count(out: &mut String, count: Argument, style: ContainerStyle) -> Result<(), AllocError>
    ensures { AppendsText result out.old out.new (with_gap style (count_mark count)) }
{
    match count {
        Argument::Number(number, width) => match longer(number, width) {
            IntegerWidth::Unknown => Ok(()),
            width => push_long_count(out, width, style),
        },
        Argument::Indefinite => {
            out.push('_')?;
            push_gap(out, style)
        }
    }
}

/// Writes an indicator that is shown, and a blank after it.
#[inline(never)]
fn push_long_count(
    out: &mut String,
    width: IntegerWidth,
    style: ContainerStyle,
) -> Result<(), AllocError>
    ensures { AppendsText result out.old out.new (with_gap style (indicator width)) }
{
    match width {
        IntegerWidth::Unknown | IntegerWidth::Zero => Ok(()),
        _ => {
            push_indicator(out, width)?;
            push_gap(out, style)
        }
    }
}

/// Writes a tag up to its content.
pub(super) fn push_tag(
    out: &mut String,
    tag: u64,
    width: IntegerWidth,
    place: &EdnPlace<'_>,
) -> Result<(), AllocError>
    ensures { AppendsText result out.old out.new (number tag width ++ codes "(") }
{
    let start = out.len();
    push_number(out, tag, width)?;
    place.mark(Kind::Tag, start, out);
    out.push('(')
}

/// Writes what is after the item below a tag.
#[inline(always)]
pub(super) fn push_tag_end(out: &mut String, place: &EdnPlace<'_>) -> Result<(), AllocError>
    ensures { AppendsText result out.old out.new (codes ")") }
{
    let start = out.len();
    let result = out.push(')');
    place.mark(Kind::Closing, start, out);
    result
}

/// Writes what is before the members of a list.
#[inline(always)]
pub(super) fn push_opening(
    out: &mut String,
    container: Container,
    style: ContainerStyle,
    place: &EdnPlace<'_>,
) -> Result<(), AllocError>
    ensures { AppendsText result out.old out.new (edn_opening container style) }
{
    let start = out.len();
    let result = push_open(out, container, style);
    place.mark(Kind::Opening, start, out);
    result
}

/// The same, without a mark.
#[inline(always)]
fn push_open(
    out: &mut String,
    container: Container,
    style: ContainerStyle,
) -> Result<(), AllocError>
    ensures { AppendsText result out.old out.new (edn_opening container style) }
{
    match container {
        Container::Array(count) => {
            out.push('[')?;
            push_count(out, count, style)
        }
        Container::Map(count) => {
            out.push('{')?;
            push_count(out, count, style)
        }
        Container::Chunks(_) => {
            out.push_str("(_")?;
            push_gap(out, style)
        }
        Container::Embedded(_) => out.push_str("<<"),
    }
}

/// Writes what is after the members of a list.
#[inline(always)]
pub(super) fn push_closing(
    out: &mut String,
    container: Container,
    style: ContainerStyle,
    place: &EdnPlace<'_>,
) -> Result<(), AllocError>
    ensures { AppendsText result out.old out.new (edn_closing container style) }
{
    let start = out.len();
    let result = push_close(out, container, style);
    place.mark(Kind::Closing, start, out);
    result
}

/// The same, without a mark.
#[inline(always)]
fn push_close(
    out: &mut String,
    container: Container,
    style: ContainerStyle,
) -> Result<(), AllocError>
    ensures { AppendsText result out.old out.new (edn_closing container style) }
{
    match container {
        Container::Array(_) => members::push_closing(out, style, ']'),
        Container::Map(_) => members::push_closing(out, style, '}'),
        Container::Chunks(_) => members::push_closing(out, style, ')'),
        Container::Embedded(len) => {
            members::push_closing(out, style, '>')?;
            push_embedded_end(out, len)
        }
    }
}

/// Writes the last character after the items of a byte string, and the width of its length.
fn push_embedded_end(out: &mut String, len: Argument) -> Result<(), AllocError>
    ensures { AppendsText result out.old out.new (codes ">" ++ embedded_mark len) }
{
    out.push('>')?;
    push_embedded_mark(out, len)
}

/// Writes the width of the length of a byte string that is shown as items.
fn push_embedded_mark(out: &mut String, len: Argument) -> Result<(), AllocError>
    ensures { AppendsText result out.old out.new (embedded_mark len) }
{
    match len {
        Argument::Number(number, width) => push_length_mark(out, number, width),
        Argument::Indefinite => Ok(()),
    }
}
