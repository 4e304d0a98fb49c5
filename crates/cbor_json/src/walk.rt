//! Writes JSON straight from bytes. For each open object it remembers where its names are in the
//! output, so it finds two equal names and where their keys are in the input.
#![tactic(auto, using(cbor_tokens::proofs::texts::Appending::appending_steps))]

ghost use Rattle.std.specs.Prelude.{◌≡◌, ◌+◌, ◌≤◌, ◌∷◌, [], ◌++◌, ℕ, List, length, true};
ghost use Rattle.std.specs.Prelude.{IfOk, IfSome, IfNone, OnOk};
ghost use Rattle.std.specs.String.{string_bytes};
ghost use Rattle.json.specs.Strict.{AreDistinct};
ghost use Rattle.cbor_grammar.specs.declared.strings.StringKind.{StringKind};
ghost use Rattle.cbor_grammar.specs.declared.width.IntegerWidth.{IntegerWidth};
ghost use Rattle.cbor_grammar.specs.WellFormed.{deepest, levels_left};
ghost use Rattle.cbor_grammar.specs.mirror.AtLevel.{read_at, read_behind};
ghost use Rattle.cbor_notation_writer.specs.Dialect.{TextsAt, embedding};
ghost use Rattle.cbor_notation_writer.specs.mirror.Straight.{Written, chunk};
ghost use Rattle.cbor_json.specs.JsonLeaves.{json_leaves, is_value};
ghost use Rattle.cbor_json.specs.mirror.Walking.{AreAt, UniqueTexts, UniqueHere, name_between};

use crate::names::{Name, SameNames, are_distinct, same_names};
use crate::print::Json;
use crate::print::place::JsonPlace;
use crate::print::text::{content_at, is_item};
use cbor_bytes::borrowed::read_borrowed;
use cbor_bytes::head::read_head;
use cbor_grammar::argument::Argument;
use cbor_grammar::head::ItemHead;
use cbor_grammar::layout::{ContainerStyle, Content, Layout};
use cbor_grammar::level::DEEPEST;
use cbor_grammar::strings::{StringContent, StringKind};
use cbor_grammar::{Error, IntegerWidth};
use cbor_notation_writer::dialect::Dialect;
use cbor_notation_writer::from_bytes::push_front;
use cbor_notation_writer::parts::{Container, Leaf};
use std::alloc::{AllocError, Global};

/// Why no text is written.
#[derive(Clone, Copy)]
pub(crate) enum NotWritten {
    /// No item is at the front, or memory ran out.
    Failed,
    /// Two names of an object are equal.
    SameNames(SameNames),
}

impl From<AllocError> for NotWritten {
    fn from(_refused: AllocError) -> NotWritten {
        NotWritten::Failed
    }
}

impl From<Error> for NotWritten {
    fn from(_error: Error) -> NotWritten {
        NotWritten::Failed
    }
}

impl NotWritten {
    /// The same, if the bytes go on for that many more.
    fn before(self, more: usize) -> NotWritten {
        match self {
            NotWritten::Failed => NotWritten::Failed,
            NotWritten::SameNames(names) => NotWritten::SameNames(names.before(more)),
        }
    }
}

/// For how many bytes of an input memory is taken before its text is written, at most.
const MOST: usize = 1 << 19;

/// How much memory a text of that many bytes begins with: it is mostly up to twice as long.
pub(crate) fn first_capacity(len: usize) -> usize {
    2 * len.min(MOST) + 32
}

/// The kind of a string of definite length, its length and the width of that, by its head.
#[inline(always)]
fn definite(head: ItemHead) -> Option<(StringKind, u64, IntegerWidth)>
    ensures some { IfSome result (λ s. head
        ≡ ItemHead.String s.0 (Argument.Number s.1 s.2)) }
    ensures none { IfNone result ((k : StringKind) (n : ℕ) (w : IntegerWidth)
        → ¬ (head ≡ ItemHead.String k (Argument.Number n w))) }
{
    match head {
        ItemHead::String(kind, len) => match len {
            Argument::Number(len, width) => Some((kind, len, width)),
            Argument::Indefinite => None,
        },
        _ => None,
    }
}

/// Writes the item at the front, which is no key and no part of one, and returns the bytes after
/// it. The names of its objects are dropped again.
#[cycle(walk)]
pub(crate) fn push_item<'a>(
    out: &mut String,
    names: &mut Vec<Name>,
    bytes: &'a [u8],
    place: &JsonPlace<'_>,
) -> Result<&'a [u8], NotWritten>
    requires level { 1 ≤ place.now.level }
    requires deepest { place.now.level ≤ deepest + 1 }
    requires value { is_value place.now.role ≡ true }
    requires flat { place.now.layout ≡ Layout.Compact }
    ensures written { IfOk result (λ rest. Written
        (UniqueTexts (levels_left place.now.level) place.now)
        (read_at place.now.level bytes.now)
        rest.now (string_bytes out.old) (string_bytes out.new)) }
    ensures names { OnOk result (names.new.items ≡ names.old.items) }
{
    if place.level > DEEPEST {
        return Err(NotWritten::Failed);
    }
    let (head, inner) = read_head(bytes)?;
    if let Some(string) = definite(head) {
        return push_string(out, names, (string, inner), place);
    }
    match head {
        ItemHead::Integer(value, width) => {
            Json::leaf(out, Leaf::Integer(value, width), place)?;
            Ok(inner)
        }
        ItemHead::Negative(value, width) => {
            Json::leaf(out, Leaf::Negative(value, width), place)?;
            Ok(inner)
        }
        ItemHead::Array(count) => push_array(out, names, (count, inner), place),
        ItemHead::Map(count) => push_object(out, names, (count, inner), place),
        ItemHead::Tag(tag, _) => push_item(out, names, inner, &place.below(tag)),
        _ => match push_front::<Json<'_>>(out, bytes, place) {
            Ok(rest) => Ok(rest),
            Err(_) => Err(NotWritten::Failed),
        },
    }
}

/// Writes an array after its head.
#[cycle(walk)]
#[inline(never)]
fn push_array<'a>(
    out: &mut String,
    names: &mut Vec<Name>,
    array: (Argument, &'a [u8]),
    place: &JsonPlace<'_>,
) -> Result<&'a [u8], NotWritten>
    requires level { 1 ≤ place.now.level }
    requires deepest { place.now.level ≤ deepest }
    requires value { is_value place.now.role ≡ true }
    requires flat { place.now.layout ≡ Layout.Compact }
    ensures written { IfOk result (λ rest. Written (UniqueHere place.now)
        (read_behind place.now.level (ItemHead.Array array.entry.0) array.entry.1.now)
        rest.now (string_bytes out.old) (string_bytes out.new)) }
    ensures names { OnOk result (names.new.items ≡ names.old.items) }
{
    let (count, bytes) = array;
    let container = Container::Array(count);
    let style = ContainerStyle::Compact;
    let mut inner = place.inside(container, Layout::Compact);
    Json::opening(out, container, style, place)?;
    let mut rest = bytes;
    let mut held: usize = 0;
    'items: loop {
        if let Some(after) = count.after_end(held, rest) {
            Json::closing(out, container, style, place)?;
            return Ok(after);
        }
        Json::start(out, container, style, held == 0)?;
        rest = push_item(out, names, rest, &inner)?;
        Json::pass(&mut inner);
        held += 1;
    }
}

/// Writes a map after its head, as an object.
#[cycle(walk)]
#[inline(never)]
fn push_object<'a>(
    out: &mut String,
    names: &mut Vec<Name>,
    map: (Argument, &'a [u8]),
    place: &JsonPlace<'_>,
) -> Result<&'a [u8], NotWritten>
    requires level { 1 ≤ place.now.level }
    requires deepest { place.now.level ≤ deepest }
    requires value { is_value place.now.role ≡ true }
    requires flat { place.now.layout ≡ Layout.Compact }
    ensures written { IfOk result (λ rest. Written (UniqueHere place.now)
        (read_behind place.now.level (ItemHead.Map map.entry.0) map.entry.1.now)
        rest.now (string_bytes out.old) (string_bytes out.new)) }
    ensures names { OnOk result (names.new.items ≡ names.old.items) }
{
    let (count, bytes) = map;
    let container = Container::Map(count);
    let style = ContainerStyle::Compact;
    let first = names.len();
    let mut inner = place.inside(container, Layout::Compact);
    Json::opening(out, container, style, place)?;
    let mut rest = bytes;
    let mut held: usize = 0;
    'pairs: loop {
        if let Some(after) = count.after_end(held, rest) {
            close_object(out, names, first, place.alloc)?;
            Json::closing(out, container, style, place)?;
            return Ok(after);
        }
        Json::start(out, container, style, held == 0)?;
        let value = push_name(out, names, rest, &inner)?;
        let after_key = names.len();
        Json::pass_key(&mut inner, rest, value);
        Json::colon(out, style)?;
        rest = match push_item(out, names, value, &inner) {
            Ok(next) => next,
            Err(why) => {
                let own = names.get(first..after_key).unwrap_or(&[]);
                return Err(why_around(out, own, place.alloc, why));
            }
        };
        Json::pass(&mut inner);
        held += 1;
    }
}

/// Why an object is not written, given why the value after these names is not: two of the names
/// that are equal come before those of the value.
fn why_around(out: &String, own: &[Name], alloc: Global, why: NotWritten) -> NotWritten {
    let NotWritten::SameNames(_) = why else {
        return why;
    };
    match same_names(out.as_bytes(), own, alloc) {
        Ok(Some(same)) => NotWritten::SameNames(same),
        Ok(None) => why,
        Err(_) => NotWritten::Failed,
    }
}

/// Writes the key at the front, and records where its name stands.
fn push_name<'a>(
    out: &mut String,
    names: &mut Vec<Name>,
    bytes: &'a [u8],
    place: &JsonPlace<'_>,
) -> Result<&'a [u8], NotWritten>
    requires deepest { place.now.level ≤ deepest + 1 }
    requires flat { place.now.layout ≡ Layout.Compact }
    ensures written { IfOk result (λ rest. Written (TextsAt json_leaves place.now)
        (read_at place.now.level bytes.now)
        rest.now (string_bytes out.old) (string_bytes out.new)) }
    ensures names { OnOk result (names.new.items ≡ names.old.items
        ++ name_between (string_bytes out.old) (string_bytes out.new) (length bytes.now) ∷ []) }
{
    let start = out.len();
    let Ok(rest) = push_front::<Json<'_>>(out, bytes, place) else {
        return Err(NotWritten::Failed);
    };
    let name = Name {
        start,
        end: out.len(),
        left: bytes.len(),
    };
    match names.push(name) {
        Ok(()) => Ok(rest),
        Err(_) => Err(NotWritten::Failed),
    }
}

/// Drops the names of an object, which are those from the first on, if no two of them are equal.
fn close_object(
    out: &String,
    names: &mut Vec<Name>,
    first: usize,
    alloc: Global,
) -> Result<(), NotWritten>
    ensures distinct { OnOk result ((before own : List Name) (ns : List (List ℕ))
        → names.old.items ≡ before ++ own → length before ≡ first
        → AreAt (string_bytes out.now) own ns → AreDistinct ns) }
    ensures names { OnOk result ((before own : List Name) → names.old.items ≡ before ++ own
        → length before ≡ first → names.new.items ≡ before) }
{
    let Some(own) = names.get(first..) else {
        return Err(NotWritten::Failed);
    };
    if are_distinct(out.as_bytes(), own, alloc) {
        names.truncate(first);
        return Ok(());
    }
    match same_names(out.as_bytes(), own, alloc)? {
        Some(same) => Err(NotWritten::SameNames(same)),
        None => Err(NotWritten::Failed),
    }
}

/// Writes a string, by its kind, its length and the bytes after its head.
#[cycle(walk)]
#[inline(never)]
fn push_string<'a>(
    out: &mut String,
    names: &mut Vec<Name>,
    string: ((StringKind, u64, IntegerWidth), &'a [u8]),
    place: &JsonPlace<'_>,
) -> Result<&'a [u8], NotWritten>
    requires level { 1 ≤ place.now.level }
    requires deepest { place.now.level ≤ deepest }
    requires value { is_value place.now.role ≡ true }
    requires flat { place.now.layout ≡ Layout.Compact }
    ensures written { IfOk result (λ rest. Written (UniqueHere place.now)
        (read_behind place.now.level (ItemHead.String string.entry.0.0
        (Argument.Number string.entry.0.1 string.entry.0.2)) string.entry.1.now)
        rest.now (string_bytes out.old) (string_bytes out.new)) }
    ensures names { OnOk result (names.new.items ≡ names.old.items) }
{
    let ((kind, len, width), bytes) = string;
    let (content, rest) = read_borrowed(kind, len, bytes)?;
    match content {
        StringContent::Text(_) => {
            Json::string(out, content, width, place)?;
            Ok(rest)
        }
        StringContent::Bytes(inner) => match content_at(place, inner) {
            Content::Bytes => {
                Json::string(out, content, width, place)?;
                Ok(rest)
            }
            Content::Item => match shown_text((inner, width), place, out.len()) {
                Ok(text) => {
                    out.push_str(text.as_str())?;
                    Ok(rest)
                }
                Err(why) => {
                    if is_item(inner, place.level + 1) {
                        return Err(why.before(rest.len()));
                    }
                    Json::string(out, content, width, place)?;
                    Ok(rest)
                }
            },
            Content::Sequence => Err(NotWritten::Failed),
        },
    }
}

/// The text of the item that the bytes of a byte string are, all of them. It is written after this
/// many bytes of the text around it.
#[cycle(walk)]
fn shown_text(
    string: (&[u8], IntegerWidth),
    place: &JsonPlace<'_>,
    before: usize,
) -> Result<String, NotWritten>
    requires level { 1 ≤ place.now.level }
    requires deepest { place.now.level ≤ deepest }
    requires value { is_value place.now.role ≡ true }
    ensures { IfOk result (λ text. Written
        (UniqueTexts (levels_left (place.now.level + 1)) (json_leaves.inside
        (embedding (chunk string.entry.1 string.entry.0.now)) Layout.Compact place.now))
        (read_at (place.now.level + 1) string.entry.0.now) [] [] (string_bytes text)) }
{
    let (bytes, width) = string;
    let container = Container::Embedded(Argument::Number(bytes.len() as u64, width));
    let inside = place.inside(container, Layout::Compact);
    let mut text = String::with_capacity(place.alloc, first_capacity(bytes.len()))?;
    let mut names = Vec::new(place.alloc);
    let begins = place.begin_after(before);
    let found = push_item(&mut text, &mut names, bytes, &inside);
    place.begin(begins);
    if found?.is_empty() {
        Ok(text)
    } else {
        Err(NotWritten::Failed)
    }
}
