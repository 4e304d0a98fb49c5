//! Writes the brackets of containers, and the commas, colons, blanks and line feeds between
//! members, by the style of the container. `push_chunks` writes an indefinite-length string, and
//! `push_rest` the rest of a sequence that is not an item. Short functions that are called for each
//! member are inlined.
#![tactic(auto, using(cbor_tokens::proofs::texts::Appending::appending_steps))]

ghost use Rattle.std.specs.Prelude.{◌≡◌, ◌∷◌, [], ◌++◌, ◌<◌, ◌≤◌, ◌^◌, map};
ghost use Rattle.cbor_tokens.specs.Appends.{AppendsText};
ghost use Rattle.cbor_grammar.specs.StringKind.{no_chunks};
ghost use Rattle.cbor_grammar.specs.WellFormed.{deepest};
ghost use Rattle.cbor_notation_writer.specs.mirror.LayoutView.{context_view, chunks_there};
ghost use Rattle.cbor_notation_writer.specs.mirror.LayoutView.{IsIndented, before_member};
ghost use Rattle.cbor_notation_writer.specs.mirror.LayoutView.{after_member};
ghost use Rattle.cbor_grammar.specs.NotationText.{line, last_line, opened, colon, style_indent};
ghost use Rattle.cbor_grammar.specs.NotationText.{rest_text};

use crate::budget::chunks_style;
use crate::context::NotationContext;
use crate::scalars::push_string;
use cbor_bytes::quoted::push_quoted;
use cbor_grammar::IntegerWidth;
use cbor_grammar::layout::{ContainerStyle, Layout};
use cbor_grammar::strings::{DefiniteString, StringKind};
use std::alloc::AllocError;

/// A line feed, and as many blanks as are written with it at once.
const LINE: &str = "\n                                                                ";

/// Begins a new line with this many blanks. Most lines are near the left: their text has a length
/// that is known here, so it is written faster.
fn push_line(out: &mut String, indent: usize) -> Result<(), AllocError>
    ensures { AppendsText result out.old out.new (line indent) }
{
    match indent {
        0 => out.push('\n'),
        4 => out.push_str("\n    "),
        8 => out.push_str("\n        "),
        12 => out.push_str("\n            "),
        16 => out.push_str("\n                "),
        _ => push_far_line(out, indent),
    }
}

/// Begins a new line with any number of blanks.
#[inline(never)]
fn push_far_line(out: &mut String, indent: usize) -> Result<(), AllocError>
    ensures { AppendsText result out.old out.new (line indent) }
{
    let near = indent.min(64);
    out.push_str(&LINE[..1 + near])?;
    'blanks: for _ in near..indent {
        out.push(' ')?;
    }
    Ok(())
}

/// Writes an opening bracket, and an underscore where the length is indefinite.
#[inline(always)]
pub fn push_opening(
    out: &mut String,
    bracket: char,
    width: Option<IntegerWidth>,
    style: ContainerStyle,
) -> Result<(), AllocError>
    requires { bracket < 128 }
    ensures { AppendsText result out.old out.new (opened style (bracket ∷ []) width) }
{
    out.push(bracket)?;
    match (width, style) {
        (Some(_), _) => Ok(()),
        (None, ContainerStyle::OneLine { .. }) => out.push_str("_ "),
        (None, _) => out.push('_'),
    }
}

/// Writes the text before a member.
#[inline(always)]
pub fn push_start(out: &mut String, style: ContainerStyle, first: bool) -> Result<(), AllocError>
    requires { style_indent style < 2 ^ 32 }
    ensures { AppendsText result out.old out.new (before_member style first) }
{
    match style {
        ContainerStyle::MultiLine { indent } => push_line(out, indent + 4),
        _ if first => Ok(()),
        ContainerStyle::Compact => out.push(','),
        ContainerStyle::OneLine { .. } => out.push_str(", "),
    }
}

/// Writes the text after a member.
#[inline(always)]
pub fn push_end(out: &mut String, style: ContainerStyle) -> Result<(), AllocError>
    ensures { AppendsText result out.old out.new (after_member style) }
{
    match style {
        ContainerStyle::MultiLine { .. } => out.push(','),
        _ => Ok(()),
    }
}

/// Writes the text between a key and its value.
#[inline(always)]
pub fn push_colon(out: &mut String, style: ContainerStyle) -> Result<(), AllocError>
    ensures { AppendsText result out.old out.new (colon style) }
{
    match style {
        ContainerStyle::Compact => out.push(':'),
        _ => out.push_str(": "),
    }
}

/// Writes a closing bracket, on its own line if the members are on lines.
#[inline(always)]
pub fn push_closing(
    out: &mut String,
    style: ContainerStyle,
    bracket: char,
) -> Result<(), AllocError>
    requires { bracket < 128 }
    ensures { AppendsText result out.old out.new (last_line style ++ (bracket ∷ [])) }
{
    if let ContainerStyle::MultiLine { indent } = style {
        push_line(out, indent)?;
    }
    out.push(bracket)
}

/// Writes the chunks of an indefinite string. A string without chunks keeps its kind.
#[inline(never)]
pub fn push_chunks<S: DefiniteString>(
    out: &mut String,
    chunks: &[S],
    context: &NotationContext,
) -> Result<(), AllocError>
    requires level { context.now.level ≤ deepest }
    requires indent { IsIndented context.now }
    ensures { AppendsText result out.old out.new
        (chunks_there context.now S.kind (map S.chunk chunks.now)) }
{
    if chunks.is_empty() {
        return push_no_chunks(out, S::kind());
    }
    let style = chunks_style(context.layout, chunks);
    push_opening(out, '(', None, style)?;
    let mut first = true;
    'chunks: for chunk in chunks {
        push_start(out, style, first)?;
        push_string(out, chunk.content(), context.encoding)?;
        push_end(out, style)?;
        first = false;
    }
    push_closing(out, style, ')')
}

/// Writes an indefinite string of this kind that has no chunks.
pub(crate) fn push_no_chunks(out: &mut String, kind: StringKind) -> Result<(), AllocError>
    ensures { AppendsText result out.old out.new (no_chunks kind) }
{
    match kind {
        StringKind::Bytes => out.push_str("''_"),
        StringKind::Text => out.push_str("\"\"_"),
    }
}

/// Writes the rest of a sequence, which cannot be read as an item.
pub(crate) fn push_rest(
    out: &mut String,
    rest: &[u8],
    context: &NotationContext,
) -> Result<(), AllocError>
    ensures { AppendsText result out.old out.new (rest_text (context_view context.now) rest.now) }
{
    if rest.is_empty() {
        return Ok(());
    }
    if let Layout::Pretty { .. } = context.layout {
        out.push(' ')?;
    }
    push_quoted(out, rest, context.encoding)
}
