//! Writes the message for a path that leads nowhere: at which step, and what is there, such as the
//! first keys of the map.

use crate::way::way_to;
use cbor_bytes::{Extent, extent};
use cbor_edn_writer::{EdnStyle, push_bytes_to_edn};
use cbor_grammar::Error;
use cbor_grammar::argument::Argument;
use cbor_grammar::head::ItemHead;
use cbor_grammar::strings::StringKind;
use cbor_paths::{Lost, Members, Picture, Step, lost_at};
use cbor_trace::head_at;
use std::alloc::{AllocError, Global};

/// The item where a path ends that leads nowhere.
#[derive(Clone, Copy)]
struct Dead<'a> {
    /// The bytes of the whole item.
    bytes: &'a [u8],
    /// What is shown of it.
    picture: Picture<'a>,
    /// Where this item begins, below its tags.
    start: usize,
    /// Its head.
    head: ItemHead,
    /// Where its head ends.
    inner: usize,
}

/// What is said of the item at the front of the bytes, which does not have the part that the steps
/// of the path lead to: where they lead nowhere, and what is there. The error is `Memory`, or that
/// of bytes that are no item.
pub fn lost_words(
    alloc: Global,
    path: (&str, &[Step]),
    bytes: &[u8],
    picture: Picture,
) -> Result<String, Error> {
    match extent(bytes) {
        Extent::Item(_) => {}
        Extent::Cut => return Err(Error::CutShort),
        Extent::Fault { error, .. } => return Err(error),
    }
    let (text, steps) = path;
    let lost = lost_at(alloc, bytes, steps, picture)?;
    let Some((head, inner)) = head_at(bytes, lost.start) else {
        return Err(Error::CutShort);
    };
    let dead = Dead {
        bytes,
        picture,
        start: lost.start,
        head,
        inner,
    };
    let next = first_steps(alloc, text, lost.steps.saturating_add(1))?;
    let there = there(alloc, path, bytes, lost)?;
    let words = (next.as_str(), there.as_str());
    let said = match steps.get(lost.steps) {
        Some(Step::Key(_)) => say_no_member(alloc, dead, words)?,
        Some(Step::Each) => say_no_members(alloc, dead, words)?,
        Some(Step::Inside) => say_not_inside(alloc, dead, words)?,
        Some(Step::InsideAt(_)) => say_not_inside_at(alloc, dead, words)?,
        None => next,
    };
    Ok(said)
}

/// Where nothing is, in words: those that say where an item is, or `there`.
fn nowhere(there: &str) -> &str {
    if there.is_empty() { " there" } else { there }
}

impl<'a> Dead<'a> {
    /// The length of a byte string of definite length.
    fn string_len(self) -> Option<usize> {
        match self.head {
            ItemHead::String(StringKind::Bytes, Argument::Number(len, _)) => {
                match usize::try_from(len) {
                    Ok(len) => Some(len),
                    Err(_) => None,
                }
            }
            _ => None,
        }
    }

    /// Whether it is a byte string that is one item.
    fn has_item(self) -> bool {
        let Some(len) = self.string_len() else {
            return false;
        };
        let content = self
            .bytes
            .get(self.inner..self.inner.saturating_add(len))
            .unwrap_or(b"");
        matches!(extent(content), Extent::Item(count) if count == content.len())
    }

    /// How many members it has.
    fn count(self) -> usize {
        let Some(mut members) = Members::of(self.bytes, self.start) else {
            return 0;
        };
        let mut count = 0usize;
        for _ in 0..self.bytes.len() {
            if members.next(self.bytes).is_none() {
                break;
            }
            count = count.saturating_add(1);
        }
        count
    }
}

/// What is said of an item that has no member where a key leads: `words` are the path, which ends
/// with that step, and where the item is.
fn say_no_member(alloc: Global, dead: Dead, words: (&str, &str)) -> Result<String, AllocError> {
    let (path, there) = words;
    match dead.head {
        ItemHead::Map(_) => {
            let keys = keys_of(alloc, dead)?;
            format!(in alloc; "{path}: no such key; the map{there} has {keys}")
        }
        ItemHead::Array(_) => {
            let count = dead.count();
            let what = if count == 1 { "item" } else { "items" };
            let names = names_of(alloc, dead)?;
            format!(in alloc; "{path}: no such index; the array{there} has {count} {what}{names}")
        }
        _ if dead.has_item() => {
            let place = nowhere(there);
            let before = match there.strip_prefix(" at ") {
                Some(before) => format!(in alloc; "{before}/")?,
                None => String::new(alloc),
            };
            format!(in alloc; "{path}: a byte string is{place}; {before}@ is the item in it")
        }
        _ => {
            let place = nowhere(there);
            format!(in alloc; "{path}: no array or map is{place}")
        }
    }
}

/// The same of an item that has no members.
fn say_no_members(alloc: Global, dead: Dead, words: (&str, &str)) -> Result<String, AllocError> {
    let (path, there) = words;
    match dead.head {
        ItemHead::Map(_) => format!(in alloc; "{path}: the map{there} has no members"),
        ItemHead::Array(_) => format!(in alloc; "{path}: the array{there} has no members"),
        _ => say_no_member(alloc, dead, words),
    }
}

/// The same of an item that is no byte string, or one that is no item.
fn say_not_inside(alloc: Global, dead: Dead, words: (&str, &str)) -> Result<String, AllocError> {
    let (path, there) = words;
    match dead.head {
        ItemHead::String(StringKind::Bytes, Argument::Number(..)) => {
            format!(in alloc; "{path}: the bytes{there} are not one item")
        }
        ItemHead::String(StringKind::Bytes, Argument::Indefinite) => {
            format!(in alloc; "{path}: the bytes{there} are of indefinite length")
        }
        _ => {
            let place = nowhere(there);
            format!(in alloc; "{path}: no bytes are{place}")
        }
    }
}

/// The same of an item that is no byte string, or one without an item at a byte.
fn say_not_inside_at(alloc: Global, dead: Dead, words: (&str, &str)) -> Result<String, AllocError> {
    let Some(count) = dead.string_len() else {
        return say_not_inside(alloc, dead, words);
    };
    let (path, there) = words;
    let what = if count == 1 { "byte" } else { "bytes" };
    format!(in alloc; "{path}: no item begins at that byte of the {count} {what}{there}")
}

/// The first steps of a path, as they were given. Between two `/` with nothing between them, and
/// before a `/` at the front, is no step.
fn first_steps(alloc: Global, path: &str, count: usize) -> Result<String, AllocError> {
    let mut text = String::new(alloc);
    let mut left = count;
    let mut quoted = false;
    let mut in_step = false;
    for c in path.chars() {
        if c == '"' {
            quoted = !quoted;
        }
        let joins = c == '/' && !quoted;
        if joins && in_step {
            left = left.saturating_sub(1);
        }
        if left == 0 {
            break;
        }
        in_step = !joins;
        text.push(c)?;
    }
    Ok(text)
}

/// Where the item is in words: nothing is said of the whole item. It has the steps as they were
/// given, unless these have names or go into byte strings without an `@`.
fn there(alloc: Global, path: (&str, &[Step]), bytes: &[u8], lost: Lost) -> Result<String, Error> {
    let (text, steps) = path;
    let is_plain = lost_at(alloc, bytes, steps, Picture::plain())? == lost;
    if is_plain && lost.steps == 0 {
        return Ok(String::new(alloc));
    }
    let before = if is_plain {
        first_steps(alloc, text, lost.steps)?
    } else {
        way_to(alloc, bytes, lost.start)?
    };
    if before.is_empty() {
        return Ok(before);
    }
    Ok(format!(in alloc; " at {before}")?)
}

/// How many keys are named.
const KEYS: usize = 12;

/// The keys of a map in a few words: as `1 to 7`, or the first of them, with their names where
/// these are shown.
fn keys_of(alloc: Global, dead: Dead) -> Result<String, AllocError> {
    if let Some((first, last)) = range_of(dead) {
        return format!(in alloc; "{first} to {last}");
    }
    let Some(mut members) = Members::of(dead.bytes, dead.start) else {
        return String::from_str(alloc, "no keys");
    };
    let mut text = String::new(alloc);
    for index in 0..=KEYS {
        let Some(at) = members.next(dead.bytes) else {
            break;
        };
        if index > 0 {
            text.push_str(", ")?;
        }
        if index == KEYS {
            text.push_str("..")?;
            break;
        }
        let name = dead.picture.name_at(at.named);
        if name.is_empty() {
            push_key(&mut text, dead.bytes.get(at.named..at.start).unwrap_or(b""))?;
        } else {
            text.push_str(name)?;
        }
    }
    if text.is_empty() {
        text.push_str("no keys")?;
    }
    Ok(text)
}

/// The names of the members of an array that are shown, after a colon; nothing if none are.
fn names_of(alloc: Global, dead: Dead) -> Result<String, AllocError> {
    let mut text = String::new(alloc);
    let Some(mut members) = Members::of(dead.bytes, dead.start) else {
        return Ok(text);
    };
    for _ in 0..KEYS {
        let Some(at) = members.next(dead.bytes) else {
            break;
        };
        let name = dead.picture.name_at(at.named);
        if !name.is_empty() {
            text.push_str(if text.is_empty() { ": " } else { ", " })?;
            text.push_str(name)?;
        }
    }
    Ok(text)
}

/// Appends a key in EDN.
fn push_key(text: &mut String, key: &[u8]) -> Result<(), AllocError> {
    match push_bytes_to_edn(*text.allocator(), key, EdnStyle::LINE, text) {
        Err(Error::Memory) => Err(AllocError),
        _ => Ok(()),
    }
}

/// The first and the last of the keys of a map, if they are numbers without names, each one more
/// than the one before, and more than two.
fn range_of(dead: Dead) -> Option<(u64, u64)> {
    let mut members = Members::of(dead.bytes, dead.start)?;
    let mut range: Option<(u64, u64)> = None;
    for _ in 0..dead.bytes.len() {
        let Some(at) = members.next(dead.bytes) else {
            break;
        };
        let Some((ItemHead::Integer(value, _), _)) = head_at(dead.bytes, at.named) else {
            return None;
        };
        if !dead.picture.name_at(at.named).is_empty() {
            return None;
        }
        range = match range {
            None => Some((value, value)),
            Some((first, last)) if last < u64::MAX && value == last + 1 => Some((first, value)),
            _ => return None,
        };
    }
    match range {
        Some((first, last)) if last.saturating_sub(first) >= 2 => range,
        _ => None,
    }
}
