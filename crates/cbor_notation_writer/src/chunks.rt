//! Writes a string of indefinite length straight from its bytes, in any dialect of notation: chunk
//! by chunk, or its chunks as one string. `from_bytes.rt` writes all other items.
#![tactic(auto, using(cbor_tokens::proofs::texts::Appending::appending_steps))]

ghost use Rattle.std.specs.Prelude.{◌≡◌, ◌+◌, ◌*◌, ◌<◌, ◌≤◌, ◌^◌, IfOk, IfErr, OnErr, true, false};
ghost use Rattle.std.specs.Io.{StartsWith};
ghost use Rattle.std.specs.String.{string_bytes};
ghost use Rattle.cbor_grammar.specs.NotationText.{style_indent};
ghost use Rattle.cbor_grammar.specs.Reading.{Fails};
ghost use Rattle.cbor_grammar.specs.WellFormed.{deepest};
ghost use Rattle.cbor_grammar.specs.mirror.AtLevel.{read_behind};
ghost use Rattle.cbor_notation_writer.specs.Dialect.{Writes, located};
ghost use Rattle.cbor_notation_writer.specs.mirror.Straight.{Written, TextsHere, IsLaidOut};
ghost use Rattle.cbor_notation_writer.specs.mirror.Straight.{BeforeChunk, AfterChunks};

use crate::dialect::Dialect;
use crate::parts::Container;
use cbor_bytes::borrowed::next_chunk;
use cbor_grammar::IntegerWidth;
use cbor_grammar::argument::Argument;
use cbor_grammar::head::ItemHead;
use cbor_grammar::layout::ContainerStyle;
use cbor_grammar::strings::{StringContent, StringKind};
use std::alloc::{AllocError, Global};

/// Writes an indefinite string after its opening byte.
#[inline(never)]
pub(crate) fn push_chunks_front<'a, D: Dialect>(
    out: &mut String,
    kind: StringKind,
    bytes: &'a [u8],
    place: &D::Place,
) -> cbor_grammar::Result<&'a [u8]>
    requires level { D.leaves.level place.now ≤ deepest }
    requires indent { IsLaidOut D.leaves place.now }
    ensures printed { IfOk result (λ rest. Written (TextsHere (located D.leaves D.becomes)
        (place.now, bytes.now))
        (read_behind (D.leaves.level place.now)
        (ItemHead.String kind Argument.Indefinite) bytes.now)
        rest.now (string_bytes out.old) (string_bytes out.new)) }
    ensures refused { IfErr result (λ e. Fails e (read_behind (D.leaves.level place.now)
        (ItemHead.String kind Argument.Indefinite) bytes.now)) }
    ensures begun { OnErr result (StartsWith (string_bytes out.new) (string_bytes out.old)) }
{
    match D::joins(place, kind) {
        Some(alloc) => push_joined_front::<D>(out, bytes, place, alloc),
        None => push_parts_front::<D>(out, kind, bytes, place),
    }
}

/// Writes an indefinite byte string after its opening byte, its chunks as one string.
#[inline(never)]
fn push_joined_front<'a, D: Dialect>(
    out: &mut String,
    bytes: &'a [u8],
    place: &D::Place,
    alloc: Global,
) -> cbor_grammar::Result<&'a [u8]>
    requires joins { D.leaves.joins place.now StringKind.Bytes ≡ true }
    requires level { D.leaves.level place.now ≤ deepest }
    ensures printed { IfOk result (λ rest. Written (TextsHere (located D.leaves D.becomes)
        (place.now, bytes.now))
        (read_behind (D.leaves.level place.now)
        (ItemHead.String StringKind.Bytes Argument.Indefinite) bytes.now)
        rest.now (string_bytes out.old) (string_bytes out.new)) }
    ensures refused { IfErr result (λ e. Fails e (read_behind (D.leaves.level place.now)
        (ItemHead.String StringKind.Bytes Argument.Indefinite) bytes.now)) }
    ensures begun { OnErr result (StartsWith (string_bytes out.new) (string_bytes out.old)) }
{
    let mut joined = Vec::new(alloc);
    let mut rest = bytes;
    'chunks: loop {
        let (chunk, after) = next_chunk(StringKind::Bytes, rest)?;
        let Some((content, _)) = chunk else {
            let content = StringContent::Bytes(&joined);
            D::string(out, content, IntegerWidth::Unknown, place)?;
            return Ok(after);
        };
        joined.extend_from_slice(content.as_bytes())?;
        rest = after;
    }
}

/// Writes an indefinite string after its opening byte, chunk by chunk.
#[inline(never)]
fn push_parts_front<'a, D: Dialect>(
    out: &mut String,
    kind: StringKind,
    bytes: &'a [u8],
    place: &D::Place,
) -> cbor_grammar::Result<&'a [u8]>
    requires parts { D.leaves.joins place.now kind ≡ false }
    requires level { D.leaves.level place.now ≤ deepest }
    requires indent { IsLaidOut D.leaves place.now }
    ensures printed { IfOk result (λ rest. Written (TextsHere (located D.leaves D.becomes)
        (place.now, bytes.now))
        (read_behind (D.leaves.level place.now)
        (ItemHead.String kind Argument.Indefinite) bytes.now)
        rest.now (string_bytes out.old) (string_bytes out.new)) }
    ensures refused { IfErr result (λ e. Fails e (read_behind (D.leaves.level place.now)
        (ItemHead.String kind Argument.Indefinite) bytes.now)) }
    ensures begun { OnErr result (StartsWith (string_bytes out.new) (string_bytes out.old)) }
{
    let container = Container::Chunks(kind);
    let style = D::chunks_style(place, kind, bytes);
    let mut rest = bytes;
    let mut held = 0;
    'chunks: loop {
        let (chunk, after) = next_chunk(kind, rest)?;
        let Some((content, width)) = chunk else {
            push_chunks_end::<D>(out, kind, held, style, place)?;
            return Ok(after);
        };
        push_chunk_start::<D>(out, kind, held, style, place)?;
        D::part(out, content, width, place)?;
        D::end(out, container, style)?;
        rest = after;
        held += 1;
    }
}

/// Writes the text before a chunk, after `held` others.
fn push_chunk_start<D: Dialect>(
    out: &mut String,
    kind: StringKind,
    held: usize,
    style: ContainerStyle,
    place: &D::Place,
) -> Result<(), AllocError>
    requires { style_indent style < 2 ^ 32 }
    ensures { Writes result out.old out.new (BeforeChunk D.leaves place.now kind style held) }
{
    let container = Container::Chunks(kind);
    if held == 0 {
        D::opening(out, container, style, place)?;
        D::start(out, container, style, true)
    } else {
        D::start(out, container, style, false)
    }
}

/// Writes the text after the last of `held` chunks. A string without chunks keeps its kind.
fn push_chunks_end<D: Dialect>(
    out: &mut String,
    kind: StringKind,
    held: usize,
    style: ContainerStyle,
    place: &D::Place,
) -> Result<(), AllocError>
    ensures { Writes result out.old out.new (AfterChunks D.leaves place.now kind style held) }
{
    if held == 0 {
        D::no_parts(out, kind, place)
    } else {
        D::closing(out, Container::Chunks(kind), style, place)
    }
}
