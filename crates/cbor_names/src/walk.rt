//! `notes`, `notes_of`: walk over an item and collect its notes, which are names and meanings. They
//! read head after head. Each container, each tag and each byte string that holds an item is read
//! by a recursive call, at most 128 deep.

ghost use Rattle.std.specs.Prelude.{◌≡◌, ◌+◌, ◌^◌, ◌<◌, ◌≤◌, length, IfOk};
ghost use Rattle.cbor_names.specs.Order.{len_of};

use crate::authenticator::{Item, parts_of};
use crate::decimal::Scaled;
use crate::expected::Expected;
use crate::heads::after_leaf;
use crate::moment::datetime_of_float;
use crate::note::{Found, Notes};
use crate::scalar::{Scalar, float_at, scalar_at};
use crate::shape::{ENCODED, EPOCH, Fit, SELF_DESCRIBED, SET};
use crate::table::{Inside, Names, PartRow, Type, WhatRow};
use crate::way::Known;
use cbor_bytes::head::read_head;
use cbor_bytes::strings::{read_chunk_length, split_at};
use cbor_grammar::argument::Argument;
use cbor_grammar::head::ItemHead;
use cbor_grammar::strings::StringKind;
use cbor_notes::datetime_of_epoch;
use std::alloc::{AllocError, Global};

/// Why the pass ends before the bytes do.
#[derive(Clone, Copy)]
enum Stop {
    /// The bytes are no item.
    NoItem,
    OutOfMemory,
}

impl From<AllocError> for Stop {
    fn from(_refused: AllocError) -> Stop {
        Stop::OutOfMemory
    }
}

/// The bytes after a string, whose head is read already.
fn after_string(kind: StringKind, count: Argument, bytes: &[u8]) -> Result<&[u8], Stop>
    ensures shorter { IfOk result (λ rest. length rest.now ≤ length bytes.now) }
{
    match count {
        Argument::Number(count, _) => match split_at(bytes, count) {
            Ok((_, rest)) => Ok(rest),
            Err(_) => Err(Stop::NoItem),
        },
        Argument::Indefinite => after_chunks(kind, bytes),
    }
}

/// The bytes after the break of a string in chunks, whose head is read already.
fn after_chunks(kind: StringKind, bytes: &[u8]) -> Result<&[u8], Stop>
    ensures shorter { IfOk result (λ rest. length rest.now ≤ length bytes.now) }
{
    let mut rest = bytes;
    'chunks: loop {
        let Ok((length, after)) = read_chunk_length(kind.major(), rest) else {
            return Err(Stop::NoItem);
        };
        let Some((length, _)) = length else {
            return Ok(after);
        };
        let Ok((_, next)) = split_at(after, length) else {
            return Err(Stop::NoItem);
        };
        rest = next;
    }
}

impl WhatRow {
    /// What is known of a byte string that holds an item, if this is known of the item.
    fn encoded(self) -> WhatRow {
        match self {
            WhatRow::Of(index) | WhatRow::Encoded(index) | WhatRow::Nested(index) => {
                WhatRow::Encoded(index)
            }
            _ => WhatRow::Any,
        }
    }
}

impl Names {
    /// The note of a tag, and what is known of the item below it, where this is known of what has
    /// the tag.
    pub(crate) fn below<'a>(
        &'a self,
        tag: u64,
        note: Found<'a>,
        what: WhatRow,
        bytes: &[u8],
    ) -> (Found<'a>, WhatRow) {
        if let Some(found) = self.type_of(tag) {
            let inside = found.what();
            return match self.fit_below(found, bytes) {
                Fit::Other => (note, WhatRow::Any),
                Fit::Members => (note, inside),
                Fit::Whole => (note.or_name(self.text(found.name)), inside),
            };
        }
        match tag {
            SELF_DESCRIBED | SET => (note, what),
            ENCODED => (note, what.encoded()),
            EPOCH if float_at(bytes).is_some() => (note, WhatRow::Date),
            _ => (note, WhatRow::Any),
        }
    }
}

/// The pass.
#[derive(Drop)]
struct Pass<'a> {
    alloc: Global,
    names: &'a Names,
    notes: Notes<'a>,
}

impl<'a> Pass<'a> {
    /// Notes the name of an item that has no parts, and the meaning of what is at the front.
    fn note_leaf(
        &mut self,
        expected: &Expected<'a>,
        note: Found<'a>,
        bytes: &[u8],
    ) -> Result<(), Stop> {
        let note = match expected.what {
            WhatRow::Of(index) | WhatRow::OneOrMore(index) => self.meant(note, index, bytes),
            WhatRow::Date => {
                let date = self.date_of(bytes)?;
                self.notes.meaning(note, &date)?
            }
            _ => note,
        };
        self.notes.push(note)?;
        Ok(())
    }

    /// The note with what the value at the front means, by this type.
    fn meant(&self, note: Found<'a>, index: usize, bytes: &[u8]) -> Found<'a> {
        let names = self.names;
        match names.inside(WhatRow::Of(index)) {
            Inside::Values(values) => match names.part_at(values, None, bytes) {
                Some(value) => note.meaning(names.text(value.name)),
                None => note,
            },
            _ => note,
        }
    }

    /// The date that the seconds at the front are.
    fn date_of(&self, bytes: &[u8]) -> Result<Option<String>, AllocError> {
        if let Some(Scalar::Integer(seconds)) = scalar_at(bytes) {
            return datetime_of_epoch(self.alloc, seconds);
        }
        match float_at(bytes) {
            Some(seconds) => datetime_of_float(self.alloc, seconds),
            None => Ok(None),
        }
    }

    /// Notes the number that a decimal fraction or a bigfloat right below this tag is, at its
    /// mantissa, unless the tag is one of a type.
    fn note_number(&mut self, tag: u64, behind: usize, bytes: &[u8]) -> Result<(), AllocError> {
        let Some(number) = Scaled::below(tag, bytes) else {
            return Ok(());
        };
        if self.names.type_of(tag).is_some() {
            return Ok(());
        }
        let text = number.text(self.alloc)?;
        let at = number.mantissa.len().saturating_add(behind);
        let note = self.notes.meaning(Found::new(at, ""), &text)?;
        self.notes.push(note)
    }

    /// Notes the name of a byte string that is no item, and the names of items in it. This many
    /// bytes remain behind its content.
    fn note_bytes(
        &mut self,
        what: WhatRow,
        note: Found<'a>,
        content: &[u8],
        behind: usize,
    ) -> Result<(), AllocError> {
        let parts = match what {
            WhatRow::AuthenticatorData => parts_of(self.alloc, content)?,
            _ => None,
        };
        let Some(parts) = parts else {
            return self.notes.push(note);
        };
        let items = parts.items;
        let note = self.notes.meaning(note, &Some(parts.text))?;
        self.notes.push(note)?;
        let end = content.len().saturating_add(behind);
        for item in &items {
            if let Some(item) = item {
                self.note_item(*item, end)?;
            }
        }
        Ok(())
    }

    /// Notes the name of an item in a byte string. This many bytes remain from the content of the
    /// string on.
    fn note_item(&mut self, item: Item, remaining: usize) -> Result<(), AllocError> {
        let at = remaining.saturating_sub(item.start);
        let index = self.notes.len();
        self.notes.push(Found::new(at, item.name))?;
        self.notes
            .end(index, at, remaining.saturating_sub(item.end));
        Ok(())
    }

    /// The bytes after an item.
    #[cycle(item)]
    fn item<'b>(&mut self, expected: &Expected<'a>, bytes: &'b [u8]) -> Result<&'b [u8], Stop>
        requires total { length bytes.now + expected.now.behind < 2 ^ 64 }
        ensures shorter { IfOk result (λ rest. length rest.now < length bytes.now) }
    {
        if expected.left == 0 {
            return Err(Stop::NoItem);
        }
        if expected.says_nothing() {
            if let Some(rest) = after_leaf(bytes) {
                return Ok(rest);
            }
        }
        let Ok((head, rest)) = read_head(bytes) else {
            return Err(Stop::NoItem);
        };
        let at = bytes.len() + expected.behind;
        let note = Found::new(at, expected.name);
        let index = self.notes.len();
        let after = match head {
            ItemHead::Tag(tag, _) => self.tagged(expected, note, tag, rest)?,
            ItemHead::Array(count) => {
                self.notes.push(note)?;
                self.members(expected, count, rest)?
            }
            ItemHead::Map(count) => {
                self.notes.push(note)?;
                self.pairs(expected, count, rest)?
            }
            ItemHead::String(StringKind::Bytes, Argument::Number(len, _)) => {
                self.bytes(expected, note, len, rest)?
            }
            ItemHead::String(kind, count) => {
                self.note_leaf(expected, note, bytes)?;
                after_string(kind, count, rest)?
            }
            _ => {
                self.note_leaf(expected, note, bytes)?;
                rest
            }
        };
        self.notes.end(index, at, after.len() + expected.behind);
        Ok(after)
    }

    /// The bytes after the item of a tag.
    #[cycle(item)]
    fn tagged<'b>(
        &mut self,
        expected: &Expected<'a>,
        note: Found<'a>,
        tag: u64,
        bytes: &'b [u8],
    ) -> Result<&'b [u8], Stop>
        requires left { 0 < expected.now.left }
        requires total { length bytes.now + expected.now.behind < 2 ^ 64 }
        ensures shorter { IfOk result (λ rest. length rest.now < length bytes.now) }
    {
        let (note, what) = self.names.below(tag, note, expected.what, bytes);
        self.notes.push(note)?;
        self.note_number(tag, expected.behind, bytes)?;
        self.item(&expected.below(tag, what), bytes)
    }

    /// The bytes after the members of an array.
    #[cycle(item)]
    fn members<'b>(
        &mut self,
        expected: &Expected<'a>,
        count: Argument,
        bytes: &'b [u8],
    ) -> Result<&'b [u8], Stop>
        requires left { 0 < expected.now.left }
        requires total { length bytes.now + expected.now.behind < 2 ^ 64 }
        ensures shorter { IfOk result (λ rest. length rest.now ≤ length bytes.now) }
    {
        let names = self.names;
        let inside = names.inside_array(expected.what, bytes);
        let mut index = 0;
        let mut rest = bytes;
        'members: loop {
            if let Some(after) = count.after_end(index, rest) {
                return Ok(after);
            }
            let member = expected.member(names, inside, index);
            rest = self.item(&member, rest)?;
            index += 1;
        }
    }

    /// The bytes after the pairs of a map.
    #[cycle(item)]
    fn pairs<'b>(
        &mut self,
        expected: &Expected<'a>,
        count: Argument,
        bytes: &'b [u8],
    ) -> Result<&'b [u8], Stop>
        requires left { 0 < expected.now.left }
        requires total { length bytes.now + expected.now.behind < 2 ^ 64 }
        ensures shorter { IfOk result (λ rest. length rest.now ≤ length bytes.now) }
    {
        let names = self.names;
        let keys = names.keys(expected.what, count, bytes);
        let mut index = 0;
        let mut rest = bytes;
        'pairs: loop {
            if let Some(after) = count.after_end(index, rest) {
                return Ok(after);
            }
            let part = names.part_at(keys.parts, keys.chosen, rest);
            let at = rest.len() + expected.behind;
            let noted = self.notes.len();
            let value = self.key(expected, part, rest)?;
            rest = self.item(&expected.value(part, keys.each), value)?;
            self.notes.end(noted, at, rest.len() + expected.behind);
            index += 1;
        }
    }

    /// The bytes after a key, which this part is, if it is one.
    #[cycle(item)]
    fn key<'b>(
        &mut self,
        expected: &Expected<'a>,
        part: Option<&PartRow>,
        bytes: &'b [u8],
    ) -> Result<&'b [u8], Stop>
        requires left { 0 < expected.now.left }
        requires total { length bytes.now + expected.now.behind < 2 ^ 64 }
        ensures shorter { IfOk result (λ rest. length rest.now < length bytes.now) }
    {
        let name = match part {
            Some(part) => self.names.text(part.name),
            None => "",
        };
        if let Some(rest) = after_leaf(bytes) {
            let at = bytes.len() + expected.behind;
            self.notes.push(Found::new(at, name))?;
            return Ok(rest);
        }
        let key = Expected {
            name,
            ..expected.unknown()
        };
        self.item(&key, bytes)
    }

    /// The bytes after the content of a byte string, which may hold an item.
    #[cycle(item)]
    fn bytes<'b>(
        &mut self,
        expected: &Expected<'a>,
        note: Found<'a>,
        len: u64,
        bytes: &'b [u8],
    ) -> Result<&'b [u8], Stop>
        requires left { 0 < expected.now.left }
        requires total { length bytes.now + expected.now.behind < 2 ^ 64 }
        ensures shorter { IfOk result (λ rest. length rest.now ≤ length bytes.now) }
    {
        let Ok((content, rest)) = split_at(bytes, len) else {
            self.notes.push(note)?;
            return Err(Stop::NoItem);
        };
        let Some(what) = self.names.held(expected, content) else {
            let behind = rest.len().saturating_add(expected.behind);
            self.note_bytes(expected.what, note, content, behind)?;
            return Ok(rest);
        };
        if let (WhatRow::Payload(_), WhatRow::Of(_)) = (expected.what, what) {
            self.notes.holds();
        }
        self.notes.push(note.encoded(true))?;
        let inside = Expected {
            what,
            behind: expected.behind + rest.len(),
            ..expected.unknown()
        };
        match self.item(&inside, content) {
            Err(Stop::OutOfMemory) => Err(Stop::OutOfMemory),
            _ => Ok(rest),
        }
    }
}

/// Returns the notes of the item at the front, by these tables. `outer` is the type of the
/// outermost item, if it is known.
///
/// An item has a name if it is a member of an array or a key of a map that the tables name, or if
/// it has the tag of a type and the type's shape; and the outermost item has that of its type if it
/// has the shape. A member or a value has a meaning if the tables have one of it, or if it is a
/// date, a decimal fraction or authenticator data.
///
/// Of bytes that are no item, the notes end where they cease to be one. The only error is out of
/// memory.
///
/// ```rust
/// use cbor_names::{Definition, Key, Names, Part, Shape, notes};
///
/// let mut names = Names::new(alloc);
/// let parts = [
///     Part::new(Key::Integer(1), "sensor"),
///     Part::new(Key::Integer(-1), "value"),
/// ];
/// names.add(Definition::new("Reading", Shape::Map), &parts)?;
/// // {1: 7, -1: 21}
/// let found = notes(alloc, b"\xa2\x01\x07\x20\x15", &names, names.of("Reading"))?;
/// let list = found.list(alloc)?;
/// assert_eq!(rt; list.len(), 3);
/// assert_eq!(rt; (list[0].start, list[0].before), (0, "Reading"));
/// assert_eq!(rt; (list[1].before, list[2].before), ("sensor", "value"));
/// ```
pub fn notes<'a>(
    alloc: Global,
    bytes: &[u8],
    names: &'a Names,
    outer: Option<Type>,
) -> Result<Notes<'a>, AllocError>
    ensures len { IfOk result (λ notes. len_of notes ≡ length bytes.now) }
{
    notes_of(alloc, bytes, names, outer.map(Known::of))
}

/// Returns the notes of the item at the front, as [`notes`] does, if this is known of it. If it is
/// a part, these are the notes that it has in its item, but for the name of its own place. The only
/// error is out of memory.
///
/// [`Way::known_at`](crate::Way::known_at) finds what is known of a part, and has an example.
pub fn notes_of<'a>(
    alloc: Global,
    bytes: &[u8],
    names: &'a Names,
    known: Option<Known>,
) -> Result<Notes<'a>, AllocError>
    ensures len { IfOk result (λ notes. len_of notes ≡ length bytes.now) }
{
    let known = match known {
        Some(known) => known,
        None => names.known_at(bytes),
    };
    let name = match known.named {
        Some(outer) if names.fit_behind_tags(&outer, bytes) == Fit::Whole => names.text(outer.name),
        _ => "",
    };
    let mut pass = Pass {
        alloc,
        names,
        notes: Notes::new(alloc, known),
    };
    match pass.item(&Expected::outermost(name, known), bytes) {
        Err(Stop::OutOfMemory) => Err(AllocError),
        _ => Ok(pass.notes.within(bytes.len())),
    }
}
