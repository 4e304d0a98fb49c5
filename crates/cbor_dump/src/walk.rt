//! Writes the dump of an item straight from its bytes: a line for each part as soon as it is read,
//! and the notes on the values of tags, with the dumps of embedded items. No item is built.
//!
//! A function that dumps an item or a part of one takes the remaining bytes and returns those after
//! it. A function that writes notes returns none.
ghost use Rattle.std.specs.Prelude.{◌≡◌, ◌≤◌, ◌+◌, ℕ, List, Ok, IfOk, IfErr, OnOk, option_copied};
ghost use Rattle.std.specs.String.{string_bytes};
ghost use Rattle.cbor_notes.specs.Layout.{width_of};
ghost use Rattle.cbor_grammar.specs.declared.width.IntegerWidth.{IntegerWidth};
ghost use Rattle.cbor_dump.specs.Dump as spec;
ghost use Rattle.cbor_grammar.specs.Item.{Item};
ghost use Rattle.cbor_grammar.specs.Reading.{Fails};
ghost use Rattle.cbor_grammar.specs.WellFormed.{deepest};
ghost use Rattle.cbor_grammar.specs.mirror.AtLevel.{read_at, read_behind};
ghost use Rattle.cbor_dump.specs.mirror.Dumped.{IsContext, Wrote, Dumped, DumpedBehind, dump_at};
ghost use Rattle.cbor_dump.specs.mirror.Dumped.{embedded_lines, notes_there, value_note_there};
ghost use Rattle.cbor_dump.specs.mirror.Dumped.{whole_note_there, sequence_notes_there};

use crate::context::DumpContext;
use crate::notes::{Value, may_have_note, value_note};
use crate::width::dump_width;
use crate::writer::Writer;
use cbor_bytes::borrowed::{next_chunk, read_borrowed};
use cbor_bytes::head::{no_level_left, read_head};
use cbor_grammar::argument::Argument;
use cbor_grammar::head::ItemHead;
use cbor_grammar::level::DEEPEST;
use cbor_grammar::strings::StringKind;
use cbor_grammar::{Error, Tag};
use std::alloc::{AllocError, Global};

const EMBEDDED_ITEM: &str = "encoded cbor data item";

const INVALID_ITEM: &str = "invalid type for encoded cbor data item";

const INVALID_SEQUENCE: &str = "invalid type for encoded cbor sequence";

const FAILED_ITEM: &str = "failed to parse encoded cbor data item";

const FAILED_REST: &str = "failed to parse remaining encoded cbor sequence";

/// A walk over bytes, and what it has found so far.
#[derive(Drop)]
pub struct Walk {
    /// The lines so far.
    pub writer: Writer,
    /// The number of values that were shared so far.
    pub shared: u64,
    /// The allocator of the notes.
    pub alloc: Global,
}

/// Returns the dump of the item at the front, which is at `level`, and the bytes after the item.
pub fn dump(alloc: Global, bytes: &[u8], level: u8) -> cbor_grammar::Result<(String, &[u8])>
    requires from { 1 ≤ level }
    requires to { level ≤ deepest + 1 }
    ensures dumped { IfOk result (λ x. (i : Item) × (read_at level bytes.now ≡ Ok (i, x.1.now))
        × (string_bytes x.0 ≡ dump_at level i)) }
    ensures refused { IfErr result (λ e. Fails e (read_at level bytes.now)) }
{
    let (width, _) = dump_width(bytes, level)?;
    let mut walk = Walk {
        writer: Writer::new(alloc, width),
        shared: 0,
        alloc,
    };
    let rest = dump_front(&mut walk, &DumpContext::top(level), bytes)?;
    Ok((walk.writer.out, rest))
}

/// Dumps the item at the front, without the notes on it. The items in a container or below a tag
/// are one deeper.
///
/// The functions for containers and tags are not inlined here: they keep values across calls, and
/// each number and text would need space for these, too.
#[cycle(walk)]
fn dump_front<'a>(
    walk: &mut Walk,
    context: &DumpContext,
    bytes: &'a [u8],
) -> cbor_grammar::Result<&'a [u8]>
    requires { IsContext context.now }
    ensures dumped { IfOk result (λ rest. Dumped context.now
        (read_at context.now.level bytes.now) rest.now walk.old walk.new) }
    ensures refused { IfErr result (λ e. Fails e (read_at context.now.level bytes.now)) }
{
    if context.level > DEEPEST {
        return Err(no_level_left(bytes));
    }
    let (head, rest) = read_head(bytes)?;
    let taken = bytes.len() - rest.len();
    walk.writer.head_line(context.depth, head, &bytes[..taken])?;
    match head {
        ItemHead::String(kind, length) => dump_string(walk, context, (kind, length), rest),
        ItemHead::Array(count) => dump_items(walk, context, count, rest),
        ItemHead::Map(count) => dump_pairs(walk, context, count, rest),
        ItemHead::Tag(tag, _) => dump_tagged(walk, context, Tag(tag), rest),
        _ => Ok(rest),
    }
}

/// Dumps the items of an array after its head, with this count of them.
#[cycle(walk)]
#[inline(never)]
fn dump_items<'a>(
    walk: &mut Walk,
    context: &DumpContext,
    count: Argument,
    bytes: &'a [u8],
) -> cbor_grammar::Result<&'a [u8]>
    requires context { IsContext context.now }
    requires level { context.now.level ≤ deepest }
    ensures dumped { IfOk result (λ rest. DumpedBehind context.now
        (ItemHead.Array count) bytes.now rest.now walk.old walk.new) }
    ensures refused { IfErr result (λ e. Fails e (read_behind context.now.level
        (ItemHead.Array count) bytes.now)) }
{
    let inner = context.inside();
    let mut rest = bytes;
    let mut held = 0;
    'items: loop {
        if let Some(after) = count.after_end(held, rest) {
            walk.writer.close(inner.depth, count)?;
            return Ok(after);
        }
        rest = dump_front(walk, &inner, rest)?;
        held += 1;
    }
}

/// Dumps the keys and values of a map in turn after its head, with this count of pairs.
#[cycle(walk)]
#[inline(never)]
fn dump_pairs<'a>(
    walk: &mut Walk,
    context: &DumpContext,
    count: Argument,
    bytes: &'a [u8],
) -> cbor_grammar::Result<&'a [u8]>
    requires context { IsContext context.now }
    requires level { context.now.level ≤ deepest }
    ensures dumped { IfOk result (λ rest. DumpedBehind context.now
        (ItemHead.Map count) bytes.now rest.now walk.old walk.new) }
    ensures refused { IfErr result (λ e. Fails e (read_behind context.now.level
        (ItemHead.Map count) bytes.now)) }
{
    let inner = context.inside();
    let mut rest = bytes;
    let mut held = 0;
    'pairs: loop {
        if let Some(after) = count.after_end(held, rest) {
            walk.writer.close(inner.depth, count)?;
            return Ok(after);
        }
        let value = dump_front(walk, &inner, rest)?;
        rest = dump_front(walk, &inner, value)?;
        held += 1;
    }
}

/// Dumps the value right below a tag, after the tag's head, and the notes on the value.
#[cycle(walk)]
#[inline(never)]
fn dump_tagged<'a>(
    walk: &mut Walk,
    context: &DumpContext,
    tag: Tag,
    bytes: &'a [u8],
) -> cbor_grammar::Result<&'a [u8]>
    requires context { IsContext context.now }
    requires level { context.now.level ≤ deepest }
    ensures dumped { (w : IntegerWidth) → IfOk result (λ rest. DumpedBehind context.now
        (ItemHead.Tag tag.0 w) bytes.now rest.now walk.old walk.new) }
    ensures refused { (w : IntegerWidth) → IfErr result (λ e. Fails e (read_behind
        context.now.level (ItemHead.Tag tag.0 w) bytes.now)) }
{
    let inner = context.below(tag, walk.shared);
    walk.shared = shared_below(walk.shared, tag)?;
    let rest = dump_front(walk, &inner, bytes)?;
    dump_notes(walk, &inner, tag, bytes)?;
    Ok(rest)
}

/// How many values were shared before the value below a tag begins. The only error is an overflow:
/// no memory holds that many values.
pub fn shared_below(shared: u64, tag: Tag) -> Result<u64, AllocError>
    ensures { IfOk result (λ n. n ≡ spec.shared_from tag.0 shared) }
{
    match tag {
        Tag::SHAREABLE => shared.checked_add(1).ok_or(AllocError),
        _ => Ok(shared),
    }
}

/// Dumps a string after its head, by its kind and length.
fn dump_string<'a>(
    walk: &mut Walk,
    context: &DumpContext,
    head: (StringKind, Argument),
    bytes: &'a [u8],
) -> cbor_grammar::Result<&'a [u8]>
    requires context { IsContext context.now }
    requires level { context.now.level ≤ deepest }
    ensures dumped { IfOk result (λ rest. DumpedBehind context.now
        (ItemHead.String head.0 head.1) bytes.now rest.now walk.old walk.new) }
    ensures refused { IfErr result (λ e. Fails e (read_behind context.now.level
        (ItemHead.String head.0 head.1) bytes.now)) }
{
    let (kind, length) = head;
    match length {
        Argument::Number(count, _) => {
            let (content, rest) = read_borrowed(kind, count, bytes)?;
            walk.writer.string_content(context, content)?;
            Ok(rest)
        }
        Argument::Indefinite => dump_chunks(walk, context, kind, bytes),
    }
}

/// Dumps the chunks of an indefinite string after its opening byte, and its break.
#[inline(never)]
fn dump_chunks<'a>(
    walk: &mut Walk,
    context: &DumpContext,
    kind: StringKind,
    bytes: &'a [u8],
) -> cbor_grammar::Result<&'a [u8]>
    requires context { IsContext context.now }
    requires level { context.now.level ≤ deepest }
    ensures dumped { IfOk result (λ rest. DumpedBehind context.now
        (ItemHead.String kind Argument.Indefinite) bytes.now rest.now walk.old walk.new) }
    ensures refused { IfErr result (λ e. Fails e (read_behind context.now.level
        (ItemHead.String kind Argument.Indefinite) bytes.now)) }
{
    let inner = context.inside();
    let mut rest = bytes;
    'chunks: loop {
        let (chunk, after) = next_chunk(kind, rest)?;
        let Some((content, width)) = chunk else {
            walk.writer.break_line(inner.depth)?;
            return Ok(after);
        };
        let behind = content.as_bytes().len() + after.len();
        let head = &rest[..rest.len() - behind];
        walk.writer.chunk(&inner, (content, width), head)?;
        rest = after;
    }
}

/// Dumps the notes on the value at the front, which is right below this tag. The value was read
/// before, so the only error is out of memory.
#[cycle(walk)]
#[inline(never)]
pub fn dump_notes(
    walk: &mut Walk,
    context: &DumpContext,
    tag: Tag,
    bytes: &[u8],
) -> Result<(), AllocError>
    requires context { IsContext context.now }
    requires level { context.now.level ≤ deepest }
    ensures wrote { (i : Item) (rest : List ℕ) → read_at context.now.level bytes.now ≡ Ok (i, rest)
        → OnOk result (Wrote walk.old.writer walk.new.writer (notes_there context.now tag.0 i)) }
    ensures shared { OnOk result (walk.new.shared ≡ walk.old.shared) }
{
    match tag {
        Tag::ENCODED_CBOR => match definite_bytes(bytes)? {
            Some(content) => embedded_item(walk, context, content),
            None => walk.writer.note_line(context.depth, INVALID_ITEM),
        },
        Tag::ENCODED_CBOR_SEQ => match definite_bytes(bytes)? {
            Some(content) => embedded_sequence(walk, context, content),
            None => walk.writer.note_line(context.depth, INVALID_SEQUENCE),
        },
        _ => dump_value_note(walk, context, tag, bytes),
    }
}

/// Dumps the note of a tag other than 24 and 63. The value is read only if it may have a note.
fn dump_value_note(
    walk: &mut Walk,
    context: &DumpContext,
    tag: Tag,
    bytes: &[u8],
) -> Result<(), AllocError>
    requires context { IsContext context.now }
    requires level { context.now.level ≤ deepest }
    ensures wrote { (i : Item) (rest : List ℕ) → read_at context.now.level bytes.now ≡ Ok (i, rest)
        → OnOk result (Wrote walk.old.writer walk.new.writer
        (value_note_there context.now tag.0 i)) }
    ensures shared { OnOk result (walk.new.shared ≡ walk.old.shared) }
{
    if !may_have_note(tag) {
        return Ok(());
    }
    match value_note(walk.alloc, context.shared, tag, Value::read(bytes))? {
        Some(note) => walk.writer.note(context.depth, &note),
        None => Ok(()),
    }
}

/// The content of the item at the front if it is a byte string of definite length, otherwise
/// `None`. The item was read before, so the only error is out of memory.
fn definite_bytes(bytes: &[u8]) -> Result<Option<&[u8]>, AllocError>
    ensures { (level : ℕ) (i : Item) (rest : List ℕ) → level ≤ deepest + 1
        → read_at level bytes.now ≡ Ok (i, rest)
        → IfOk result (λ x. option_copied x ≡ spec.bytes_in i) }
{
    let Ok((head, rest)) = read_head(bytes) else {
        return Err(AllocError);
    };
    let ItemHead::String(kind, length) = head else {
        return Ok(None);
    };
    let Argument::Number(count, _) = length else {
        return Ok(None);
    };
    match kind {
        StringKind::Text => Ok(None),
        StringKind::Bytes => match read_borrowed(kind, count, rest) {
            Ok((content, _)) => Ok(Some(content.as_bytes())),
            Err(_) => Err(AllocError),
        },
    }
}

/// Dumps the note of tag 24: the dump of the item that the bytes encode, one level deeper, or the
/// error.
#[cycle(walk)]
fn embedded_item(walk: &mut Walk, context: &DumpContext, bytes: &[u8]) -> Result<(), AllocError>
    requires context { IsContext context.now }
    requires level { context.now.level ≤ deepest }
    ensures wrote { OnOk result (Wrote walk.old.writer walk.new.writer
        (whole_note_there context.now bytes.now)) }
    ensures shared { OnOk result (walk.new.shared ≡ walk.old.shared) }
{
    match dump_width(bytes, context.level + 1) {
        Ok((width, rest)) => {
            if rest.is_empty() {
                embedded_note(walk, context, bytes, width)
            } else {
                let error = Error::Remaining;
                walk.writer.failed_note(context.depth, FAILED_ITEM, error)
            }
        }
        Err(error) => match error {
            Error::Memory => Err(AllocError),
            _ => walk.writer.failed_note(context.depth, FAILED_ITEM, error),
        },
    }
}

/// Dumps the notes of tag 63: the dumps of the items in the bytes, in order, and then the error, if
/// any.
#[cycle(walk)]
fn embedded_sequence(walk: &mut Walk, context: &DumpContext, bytes: &[u8]) -> Result<(), AllocError>
    requires context { IsContext context.now }
    requires level { context.now.level ≤ deepest }
    ensures wrote { OnOk result (Wrote walk.old.writer walk.new.writer
        (sequence_notes_there context.now bytes.now)) }
    ensures shared { OnOk result (walk.new.shared ≡ walk.old.shared) }
{
    let mut rest = bytes;
    'items: while !rest.is_empty() {
        match dump_width(rest, context.level + 1) {
            Ok((width, after)) => {
                embedded_note(walk, context, rest, width)?;
                rest = after;
            }
            Err(error) => match error {
                Error::Memory => return Err(AllocError),
                _ => return walk.writer.failed_note(context.depth, FAILED_REST, error),
            },
        }
    }
    Ok(())
}

/// Dumps the note of an embedded item at the front of the bytes: its dump, with a left column of
/// this width. The item was read before, so the only error is out of memory.
#[cycle(walk)]
fn embedded_note(
    walk: &mut Walk,
    context: &DumpContext,
    bytes: &[u8],
    width: usize,
) -> Result<(), AllocError>
    requires context { IsContext context.now }
    requires level { context.now.level ≤ deepest }
    ensures wrote { (i : Item) (rest : List ℕ)
        → read_at (context.now.level + 1) bytes.now ≡ Ok (i, rest)
        → width ≡ width_of (embedded_lines context.now i)
        → OnOk result (Wrote walk.old.writer walk.new.writer (spec.note_lines context.now.depth
        (spec.embedded_note (embedded_lines context.now i)))) }
    ensures shared { OnOk result (walk.new.shared ≡ walk.old.shared) }
{
    walk.writer.note_line(context.depth, EMBEDDED_ITEM)?;
    let writer = walk.writer.embedded(walk.alloc, context.depth + 1, width)?;
    let mut inner = Walk {
        writer,
        shared: 0,
        alloc: walk.alloc,
    };
    let top = DumpContext::top(context.level + 1);
    let Ok(_) = dump_front(&mut inner, &top, bytes) else {
        return Err(AllocError);
    };
    walk.writer.out = inner.writer.out;
    Ok(())
}
