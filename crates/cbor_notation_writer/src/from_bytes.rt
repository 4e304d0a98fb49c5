//! Writes an item straight from its bytes, in any dialect of notation. Each part is written as soon
//! as it is read, and no item is built. The dialect decides which containers are on one line.
//!
//! The functions whose names end in `_front` take the remaining bytes and return those after what
//! they wrote. What was written before an error stays. The same functions write the items that are
//! embedded in a byte string. If these cannot be read, their text is removed again.
#![tactic(auto, using(cbor_tokens::proofs::texts::Appending::appending_steps))]

ghost use Rattle.std.specs.Prelude.{◌≡◌, ◌+◌, ◌*◌, ◌≤◌, Ok, IfOk, IfErr, OnErr};
ghost use Rattle.std.specs.Io.{StartsWith};
ghost use Rattle.std.specs.String.{string_bytes};
ghost use Rattle.cbor_grammar.specs.declared.layout.Content.TheVariants as shown;
ghost use Rattle.cbor_grammar.specs.Reading.{Fails, read_head as head_read};
ghost use Rattle.cbor_grammar.specs.WellFormed.{deepest};
ghost use Rattle.cbor_notation_writer.specs.Dialect.{Writes, TextsAt, located};
ghost use Rattle.cbor_grammar.specs.mirror.StringView.{borrowed_chunk};
ghost use Rattle.cbor_grammar.specs.mirror.AtLevel.{read_at, read_behind};
ghost use Rattle.cbor_notation_writer.specs.mirror.Straight.{Written, TextsHere, IsLaidOut};
ghost use Rattle.cbor_notation_writer.specs.mirror.Straight.{chunk, ContentThere, StringThere};

use crate::chunks::push_chunks_front;
use crate::dialect::Dialect;
use crate::parts::{Container, Front, Leaf};
use cbor_bytes::borrowed::read_borrowed;
use cbor_bytes::head::{no_level_left, read_head};
use cbor_grammar::argument::Argument;
use cbor_grammar::head::ItemHead;
use cbor_grammar::layout::{ContainerStyle, Content};
use cbor_grammar::level::DEEPEST;
use cbor_grammar::strings::{StringContent, StringKind};
use cbor_grammar::{Error, IntegerWidth};
use std::alloc::AllocError;

/// Whether the simple value at the front has a two-byte encoding (`f8`).
#[inline(always)]
fn takes_two(bytes: &[u8]) -> bool {
    matches!(bytes.first(), Some(0xf8))
}

/// Writes the item at the front.
#[cycle(straight)]
pub fn push_front<'a, D: Dialect>(
    out: &mut String,
    bytes: &'a [u8],
    place: &D::Place,
) -> cbor_grammar::Result<&'a [u8]>
    requires level { D.leaves.level place.now ≤ deepest + 1 }
    requires indent { IsLaidOut D.leaves place.now }
    ensures printed { IfOk result (λ rest. Written (TextsAt (located D.leaves D.becomes)
        (place.now, bytes.now))
        (read_at (D.leaves.level place.now) bytes.now)
        rest.now (string_bytes out.old) (string_bytes out.new)) }
    ensures refused { IfErr result
        (λ e. Fails e (read_at (D.leaves.level place.now) bytes.now)) }
    ensures begun { OnErr result (StartsWith (string_bytes out.new) (string_bytes out.old)) }
{
    if D::level(place) > DEEPEST {
        return Err(no_level_left(bytes));
    }
    let front = read_head(bytes)?;
    if D::moves(place, front.0) {
        return push_moved::<D>(out, bytes, front, place);
    }
    push_here::<D>(out, bytes, front, place)
}

/// Writes the item at the front, whose place may change now that its head is read. A function of
/// its own, so that an item that stays where it is clears and copies no memory for a new place.
#[cycle(straight)]
#[inline(never)]
fn push_moved<'a, D: Dialect>(
    out: &mut String,
    bytes: &'a [u8],
    front: (ItemHead, &'a [u8]),
    place: &D::Place,
) -> cbor_grammar::Result<&'a [u8]>
    requires level { D.leaves.level place.now ≤ deepest }
    requires indent { IsLaidOut D.leaves place.now }
    requires head { head_read bytes.now ≡ Ok (front.0, front.1.now) }
    ensures printed { IfOk result (λ rest. Written (TextsAt (located D.leaves D.becomes)
        (place.now, bytes.now))
        (read_at (D.leaves.level place.now) bytes.now)
        rest.now (string_bytes out.old) (string_bytes out.new)) }
    ensures refused { IfErr result
        (λ e. Fails e (read_at (D.leaves.level place.now) bytes.now)) }
    ensures begun { OnErr result (StartsWith (string_bytes out.new) (string_bytes out.old)) }
{
    let (head, rest) = front;
    let here = D::at(place, out, Front { head, bytes, rest })?;
    push_here::<D>(out, bytes, front, &here)
}

/// Writes the item at the front, whose place is this one.
#[cycle(straight)]
#[inline(always)]
fn push_here<'a, D: Dialect>(
    out: &mut String,
    bytes: &'a [u8],
    front: (ItemHead, &'a [u8]),
    place: &D::Place,
) -> cbor_grammar::Result<&'a [u8]>
    requires level { D.leaves.level place.now ≤ deepest }
    requires indent { IsLaidOut D.leaves place.now }
    requires head { head_read bytes.now ≡ Ok (front.0, front.1.now) }
    ensures printed { IfOk result (λ rest. Written (TextsHere (located D.leaves D.becomes)
        (place.now, front.entry.1.now))
        (read_behind (D.leaves.level place.now) front.entry.0 front.entry.1.now)
        rest.now (string_bytes out.old) (string_bytes out.new)) }
    ensures refused { IfErr result (λ e. Fails e (read_behind (D.leaves.level place.now)
        front.entry.0 front.entry.1.now)) }
    ensures begun { OnErr result (StartsWith (string_bytes out.new) (string_bytes out.old)) }
{
    let (head, rest) = front;
    match head {
        ItemHead::Integer(value, width) => {
            D::leaf(out, Leaf::Integer(value, width), place)?;
            Ok(rest)
        }
        ItemHead::Negative(value, width) => {
            D::leaf(out, Leaf::Negative(value, width), place)?;
            Ok(rest)
        }
        ItemHead::String(kind, len) => push_string_front::<D>(out, (kind, len), rest, place),
        ItemHead::Array(count) => push_array_front::<D>(out, count, rest, place),
        ItemHead::Map(count) => push_map_front::<D>(out, count, rest, place),
        ItemHead::Tag(tag, width) => push_tag_front::<D>(out, (tag, width), rest, place),
        ItemHead::Float(bits, width) => {
            D::leaf(out, Leaf::Float(bits, width), place)?;
            Ok(rest)
        }
        ItemHead::Simple(value) => {
            D::leaf(out, Leaf::Simple(value, takes_two(bytes)), place)?;
            Ok(rest)
        }
    }
}

/// Writes an array after its head, with this count of items.
#[cycle(straight)]
#[inline(never)]
fn push_array_front<'a, D: Dialect>(
    out: &mut String,
    count: Argument,
    bytes: &'a [u8],
    place: &D::Place,
) -> cbor_grammar::Result<&'a [u8]>
    requires level { D.leaves.level place.now ≤ deepest }
    requires indent { IsLaidOut D.leaves place.now }
    ensures printed { IfOk result (λ rest. Written (TextsHere (located D.leaves D.becomes)
        (place.now, bytes.now))
        (read_behind (D.leaves.level place.now) (ItemHead.Array count) bytes.now)
        rest.now (string_bytes out.old) (string_bytes out.new)) }
    ensures refused { IfErr result (λ e. Fails e (read_behind (D.leaves.level place.now)
        (ItemHead.Array count) bytes.now)) }
    ensures begun { OnErr result (StartsWith (string_bytes out.new) (string_bytes out.old)) }
{
    let container = Container::Array(count);
    let style = D::array_style(place, count, bytes);
    let mut inner = D::inside(place, container, style.members_layout());
    D::opening(out, container, style, place)?;
    let mut rest = bytes;
    let mut held = 0;
    'items: loop {
        if let Some(after) = count.after_end(held, rest) {
            D::closing(out, container, style, place)?;
            return Ok(after);
        }
        D::start(out, container, style, held == 0)?;
        rest = push_front::<D>(out, rest, &inner)?;
        D::end(out, container, style)?;
        D::pass(&mut inner);
        held += 1;
    }
}

/// Writes a map after its head, with this count of pairs.
#[cycle(straight)]
#[inline(never)]
fn push_map_front<'a, D: Dialect>(
    out: &mut String,
    count: Argument,
    bytes: &'a [u8],
    place: &D::Place,
) -> cbor_grammar::Result<&'a [u8]>
    requires level { D.leaves.level place.now ≤ deepest }
    requires indent { IsLaidOut D.leaves place.now }
    ensures printed { IfOk result (λ rest. Written (TextsHere (located D.leaves D.becomes)
        (place.now, bytes.now))
        (read_behind (D.leaves.level place.now) (ItemHead.Map count) bytes.now)
        rest.now (string_bytes out.old) (string_bytes out.new)) }
    ensures refused { IfErr result (λ e. Fails e (read_behind (D.leaves.level place.now)
        (ItemHead.Map count) bytes.now)) }
    ensures begun { OnErr result (StartsWith (string_bytes out.new) (string_bytes out.old)) }
{
    let container = Container::Map(count);
    let style = D::map_style(place, count, bytes);
    let mut inner = D::inside(place, container, style.members_layout());
    D::opening(out, container, style, place)?;
    let mut rest = bytes;
    let mut held = 0;
    'pairs: loop {
        if let Some(after) = count.after_end(held, rest) {
            D::closing(out, container, style, place)?;
            return Ok(after);
        }
        D::start(out, container, style, held == 0)?;
        let value = push_front::<D>(out, rest, &inner)?;
        D::pass_key(&mut inner, rest, value);
        D::colon(out, style)?;
        rest = push_front::<D>(out, value, &inner)?;
        D::end(out, container, style)?;
        D::pass(&mut inner);
        held += 1;
    }
}

/// Writes a tag after its head, given its number and width, and the item below it.
#[cycle(straight)]
#[inline(never)]
fn push_tag_front<'a, D: Dialect>(
    out: &mut String,
    head: (u64, IntegerWidth),
    bytes: &'a [u8],
    place: &D::Place,
) -> cbor_grammar::Result<&'a [u8]>
    requires level { D.leaves.level place.now ≤ deepest }
    requires indent { IsLaidOut D.leaves place.now }
    ensures printed { IfOk result (λ rest. Written (TextsHere (located D.leaves D.becomes)
        (place.now, bytes.now))
        (read_behind (D.leaves.level place.now) (ItemHead.Tag head.0 head.1) bytes.now)
        rest.now (string_bytes out.old) (string_bytes out.new)) }
    ensures refused { IfErr result (λ e. Fails e (read_behind (D.leaves.level place.now)
        (ItemHead.Tag head.0 head.1) bytes.now)) }
    ensures begun { OnErr result (StartsWith (string_bytes out.new) (string_bytes out.old)) }
{
    let (tag, width) = head;
    D::tag(out, tag, width, place)?;
    let rest = push_front::<D>(out, bytes, &D::below(place, tag))?;
    D::tag_end(out, tag, place)?;
    Ok(rest)
}

/// Writes a string after its head, with this length.
#[cycle(straight)]
fn push_string_front<'a, D: Dialect>(
    out: &mut String,
    head: (StringKind, Argument),
    bytes: &'a [u8],
    place: &D::Place,
) -> cbor_grammar::Result<&'a [u8]>
    requires level { D.leaves.level place.now ≤ deepest }
    requires indent { IsLaidOut D.leaves place.now }
    ensures printed { IfOk result (λ rest. Written (TextsHere (located D.leaves D.becomes)
        (place.now, bytes.now))
        (read_behind (D.leaves.level place.now) (ItemHead.String head.0 head.1) bytes.now)
        rest.now (string_bytes out.old) (string_bytes out.new)) }
    ensures refused { IfErr result (λ e. Fails e (read_behind (D.leaves.level place.now)
        (ItemHead.String head.0 head.1) bytes.now)) }
    ensures begun { OnErr result (StartsWith (string_bytes out.new) (string_bytes out.old)) }
{
    let (kind, len) = head;
    match len {
        Argument::Number(count, width) => {
            let (content, rest) = read_borrowed(kind, count, bytes)?;
            push_definite::<D>(out, content, width, place)?;
            Ok(rest)
        }
        Argument::Indefinite => push_chunks_front::<D>(out, kind, bytes, place),
    }
}

/// Writes a string of definite length.
#[cycle(straight)]
fn push_definite<D: Dialect>(
    out: &mut String,
    content: StringContent<'_>,
    width: IntegerWidth,
    place: &D::Place,
) -> Result<(), AllocError>
    requires level { D.leaves.level place.now ≤ deepest }
    requires indent { IsLaidOut D.leaves place.now }
    ensures { Writes result out.old out.new (StringThere (located D.leaves D.becomes)
        (place.now, (borrowed_chunk width content.entry).bytes) width content.entry) }
{
    match content {
        StringContent::Bytes(bytes) => push_content::<D>(out, bytes, width, place),
        StringContent::Text(_) => D::string(out, content, width, place),
    }
}

/// Writes a byte string: as the items in it, if these are to be shown and can be read, otherwise as
/// bytes. Its length has this width.
#[cycle(straight)]
pub fn push_content<D: Dialect>(
    out: &mut String,
    bytes: &[u8],
    width: IntegerWidth,
    place: &D::Place,
) -> Result<(), AllocError>
    requires level { D.leaves.level place.now ≤ deepest }
    requires indent { IsLaidOut D.leaves place.now }
    ensures { Writes result out.old out.new (ContentThere (located D.leaves D.becomes)
        (D.leaves.content place.now bytes.now) (place.now, bytes.now) (chunk width bytes.now)) }
{
    match D::content(place, bytes) {
        Content::Bytes => D::string(out, StringContent::Bytes(bytes), width, place),
        Content::Item => push_embedded::<D>(out, bytes, width, place),
        Content::Sequence => push_sequence::<D>(out, bytes, width, place),
    }
}

/// Writes the item that the bytes encode, or the bytes if they encode none.
#[cycle(straight)]
#[inline(never)]
fn push_embedded<D: Dialect>(
    out: &mut String,
    bytes: &[u8],
    width: IntegerWidth,
    place: &D::Place,
) -> Result<(), AllocError>
    requires level { D.leaves.level place.now ≤ deepest }
    requires indent { IsLaidOut D.leaves place.now }
    ensures { Writes result out.old out.new (ContentThere (located D.leaves D.becomes)
        shown.Item (place.now, bytes.now) (chunk width bytes.now)) }
{
    let container = Container::Embedded(Argument::Number(bytes.len() as u64, width));
    let style = ContainerStyle::Compact;
    if bytes.is_empty() {
        D::opening(out, container, style, place)?;
        return D::closing(out, container, style, place);
    }
    let start = out.len();
    D::opening(out, container, style, place)?;
    match push_front::<D>(out, bytes, &D::inside(place, container, D::layout(place))) {
        Ok(rest) => {
            if rest.is_empty() {
                return D::closing(out, container, style, place);
            }
            out.truncate(start);
            D::string(out, StringContent::Bytes(bytes), width, place)
        }
        Err(error) => match error {
            Error::Memory => Err(AllocError),
            _ => {
                out.truncate(start);
                D::string(out, StringContent::Bytes(bytes), width, place)
            }
        },
    }
}

/// Writes the bytes as the items that can be read from their front, and the rest as bytes.
#[cycle(straight)]
#[inline(never)]
fn push_sequence<D: Dialect>(
    out: &mut String,
    bytes: &[u8],
    width: IntegerWidth,
    place: &D::Place,
) -> Result<(), AllocError>
    requires level { D.leaves.level place.now ≤ deepest }
    requires indent { IsLaidOut D.leaves place.now }
    ensures { Writes result out.old out.new (ContentThere (located D.leaves D.becomes)
        shown.Sequence (place.now, bytes.now) (chunk width bytes.now)) }
{
    let container = Container::Embedded(Argument::Number(bytes.len() as u64, width));
    let style = D::sequence_style(place, bytes);
    let mut inner = D::inside(place, container, style.members_layout());
    D::opening(out, container, style, place)?;
    let mut rest = bytes;
    let mut held: usize = 0;
    'items: loop {
        let start = out.len();
        D::start(out, container, style, held == 0)?;
        match push_front::<D>(out, rest, &inner) {
            Ok(after) => {
                D::end(out, container, style)?;
                D::pass(&mut inner);
                rest = after;
                held += 1;
            }
            Err(error) => match error {
                Error::Memory => return Err(AllocError),
                _ => {
                    out.truncate(start);
                    D::closing(out, container, style, place)?;
                    return D::rest(out, container, rest, place);
                }
            },
        }
    }
}
