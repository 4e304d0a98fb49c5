//! `Names`: the tables of names, which are types with the names of their parts and values. Finds a
//! type by its name or its tag. All texts are in one string; the rows of the tables have ranges of
//! it.

ghost use Rattle.std.specs.Prelude.{◌≡◌, IfSome, Some};
ghost use Rattle.cbor_names.specs.Texts.{text_of};

use crate::part::Kind;
use std::alloc::{AllocError, Global};

/// Tables of names: types, and how their parts and values are called.
///
/// [`Names::new`] has none, and [`Names::add`] adds a type.
#[derive(Drop)]
pub struct Names {
    /// All texts, one after the other.
    pub(crate) texts: String,
    pub(crate) types: Vec<Type>,
    /// Bit n is set if a type has a tag whose lowest six bits are n.
    pub(crate) tags: u64,
    /// The parts of all types; those of a type stand together.
    pub(crate) parts: Vec<PartRow>,
    /// The type that was defined last.
    pub(crate) last: usize,
    /// The types that were defined again since the last [`Names::merge`].
    pub(crate) again: Vec<Again>,
    /// How many types there were then.
    pub(crate) merged: usize,
}

/// A type that was defined again, or that took the tag of another.
#[derive(Clone, Copy)]
pub(crate) struct Again {
    pub index: usize,
    /// What it was, or the other.
    pub before: Type,
}

/// The text between two places.
#[derive(Clone, Copy)]
pub(crate) struct TextRange {
    pub start: usize,
    pub end: usize,
}

/// A type of items, in the tables that it was found in.
#[derive(Clone, Copy)]
pub struct Type {
    /// Its place among the types.
    pub(crate) index: usize,
    pub(crate) name: TextRange,
    pub(crate) tag: Option<u64>,
    pub(crate) shape: ShapeRow,
    /// Where its parts begin.
    pub(crate) start: usize,
    /// Where its parts end.
    pub(crate) end: usize,
}

/// What the items of a type are. Another type is its place among the types.
#[derive(Clone, Copy)]
pub(crate) enum ShapeRow {
    /// Not known: the type was named and is not defined.
    Undefined,
    Array,
    Map,
    MapBy(KeyRow),
    MapTo(WhatRow),
    Each(usize),
    Values,
    Encoded(usize),
}

/// A part of a type.
#[derive(Clone, Copy)]
pub(crate) struct PartRow {
    pub key: KeyRow,
    pub name: TextRange,
    pub what: WhatRow,
    pub when: Option<KeyRow>,
    pub sign: Option<Kind>,
    pub optional: bool,
}

/// An integer or a text.
#[derive(Clone, Copy)]
pub(crate) enum KeyRow {
    Integer(i64),
    Text(TextRange),
}

/// What is known of an item. A type is its place among the types.
#[derive(Clone, Copy)]
pub(crate) enum WhatRow {
    Any,
    Of(usize),
    Each(usize),
    OneOrMore(usize),
    Encoded(usize),
    Payload(usize),
    Nested(usize),
    Date,
    AuthenticatorData,
}

/// What is known of the items in an item, or of its value.
#[derive(Clone, Copy)]
pub(crate) enum Inside<'a> {
    Nothing,
    /// The members of an array.
    Members(&'a [PartRow]),
    /// The keys of a map, and the one that some depend on.
    Keys(&'a [PartRow], Option<KeyRow>),
    /// The values of all keys of a map.
    EachValue(WhatRow),
    /// The type of all members of an array.
    Each(usize),
    /// Values that mean something.
    Values(&'a [PartRow]),
}

impl Names {
    /// The text between two places.
    pub(crate) fn text(&self, range: TextRange) -> &str {
        self.texts
            .as_str()
            .get(range.start..range.end)
            .unwrap_or("")
    }

    /// The type of this name, which may be named alone.
    pub(crate) fn named(&self, name: &str) -> Option<Type>
        ensures { IfSome result (λ found. text_of self.now found.name ≡ name.now) }
    {
        for found in &self.types {
            let range = found.name.start..found.name.end;
            if let Some(text) = self.texts.as_str().get(range)
                && text == name
            {
                return Some(*found);
            }
        }
        None
    }

    /// The type of this name.
    ///
    /// ```rust
    /// use cbor_names::{Definition, Names, Shape};
    ///
    /// let mut names = Names::new(alloc);
    /// names.define(Definition::new("Reading", Shape::Map))?;
    /// assert!(rt; names.of("Reading").is_some());
    /// assert!(rt; names.of("Read").is_none());
    /// ```
    pub fn of(&self, name: &str) -> Option<Type>
        ensures { IfSome result (λ found. text_of self.now found.name ≡ name.now) }
    {
        match self.named(name) {
            Some(found) if found.is_defined() => Some(found),
            _ => None,
        }
    }

    /// The type of this name, or else the first one whose name is the same but for case, `_` and
    /// `-`.
    ///
    /// ```rust
    /// use cbor_names::{Definition, Names, Shape};
    ///
    /// let mut names = Names::new(alloc);
    /// names.define(Definition::new("COSE_Key", Shape::Map))?;
    /// assert!(rt; names.find("cose-key").is_some());
    /// assert!(rt; names.find("COSE").is_none());
    /// ```
    pub fn find(&self, name: &str) -> Option<Type> {
        if let Some(found) = self.of(name) {
            return Some(found);
        }
        for found in &self.types {
            if found.is_defined() && is_alike(self.text(found.name), name) {
                return Some(*found);
            }
        }
        None
    }

    /// The type whose items have this tag.
    pub fn tagged(&self, tag: u64) -> Option<Type>
        ensures { IfSome result (λ found. found.tag ≡ Some tag) }
    {
        match self.type_of(tag) {
            Some(found) => Some(*found),
            None => None,
        }
    }

    /// The same, where it is in the tables.
    pub(crate) fn type_of(&self, tag: u64) -> Option<&Type>
        ensures { IfSome result (λ found. found.now.tag ≡ Some tag) }
    {
        if (self.tags >> (tag % 64)) & 1 == 0 {
            return None;
        }
        for found in &self.types {
            if found.tag == Some(tag) {
                return Some(found);
            }
        }
        None
    }

    /// The names of all types, with `, ` between them, for messages.
    pub fn list(&self, alloc: Global) -> Result<String, AllocError> {
        let mut list = String::new(alloc);
        for found in &self.types {
            if !found.is_defined() {
                continue;
            }
            if !list.is_empty() {
                list.push_str(", ")?;
            }
            list.push_str(self.text(found.name))?;
        }
        Ok(list)
    }

    /// Whether a type is named here that is defined neither here nor in these tables.
    pub fn lacks(&self, others: &Names) -> bool {
        for found in &self.types {
            if !found.is_defined() && others.of(self.text(found.name)).is_none() {
                return true;
            }
        }
        false
    }

    /// What is known about the items in an item, if this is known about the item.
    pub(crate) fn inside(&self, what: WhatRow) -> Inside<'_> {
        match what {
            WhatRow::Of(index) | WhatRow::OneOrMore(index) | WhatRow::Nested(index) => {
                match self.types.get(index) {
                    Some(found) => self.inside_of(found),
                    None => Inside::Nothing,
                }
            }
            WhatRow::Each(index) => Inside::Each(index),
            _ => Inside::Nothing,
        }
    }

    /// The same of the members of an array whose head is read already.
    pub(crate) fn inside_array(&self, what: WhatRow, members: &[u8]) -> Inside<'_> {
        match (what, self.inside(what), members) {
            // An array of the type may have this first member.
            (WhatRow::OneOrMore(_), Inside::Members(_) | Inside::Each(_), [first, ..])
                if !matches!(*first, 0x80..=0x9f) => { self.inside(what) }
            (WhatRow::OneOrMore(index), _, _) => Inside::Each(index),
            (_, inside, _) => inside,
        }
    }

    /// What is known of the items in an item of this type.
    pub(crate) fn inside_of(&self, found: &Type) -> Inside<'_> {
        let parts = self.parts.get(found.start..found.end).unwrap_or(&[]);
        match found.shape {
            ShapeRow::Undefined | ShapeRow::Encoded(_) => Inside::Nothing,
            ShapeRow::Array => Inside::Members(parts),
            ShapeRow::Map => Inside::Keys(parts, None),
            ShapeRow::MapBy(key) => Inside::Keys(parts, Some(key)),
            ShapeRow::MapTo(what) => Inside::EachValue(what),
            ShapeRow::Each(index) => Inside::Each(index),
            ShapeRow::Values => Inside::Values(parts),
        }
    }
}

impl Type {
    /// What is known of an item of this type.
    pub(crate) fn what(self) -> WhatRow {
        match self.shape {
            ShapeRow::Encoded(index) => WhatRow::Encoded(index),
            _ => WhatRow::Of(self.index),
        }
    }

    /// Whether it is defined, not named alone.
    pub(crate) fn is_defined(self) -> bool {
        !matches!(self.shape, ShapeRow::Undefined)
    }
}

/// Whether two names are the same but for case, `_` and `-`.
fn is_alike(one: &str, other: &str) -> bool {
    let mut rest = other.as_bytes();
    for byte in one.as_bytes() {
        if is_joint(*byte) {
            continue;
        }
        match after_joints(rest) {
            [first, after @ ..] if first.to_ascii_lowercase() == byte.to_ascii_lowercase() => {
                rest = after;
            }
            _ => return false,
        }
    }
    after_joints(rest).is_empty()
}

/// Whether names are compared without this character.
fn is_joint(byte: u8) -> bool {
    byte == b'_' || byte == b'-'
}

/// What is from the first other character on.
fn after_joints(bytes: &[u8]) -> &[u8] {
    match bytes.iter().position(|byte| !is_joint(*byte)) {
        Some(at) => bytes.get(at..).unwrap_or(b""),
        None => b"",
    }
}
