//! Looks ahead at the pairs of a map: finds the value of a key, and whether the map has the signs
//! of a type, which are keys whose values have a given kind. `knows`: whether an item is an
//! attestation of WebAuthn, which is recognized without a tag.

ghost use Rattle.std.specs.Prelude.{◌<◌, length, IfSome};

use crate::scalar::{Scalar, scalar_at};
use crate::table::{Inside, KeyRow, Names, Type, WhatRow};
use crate::way::Known;
use cbor_bytes::head::read_head;
use cbor_bytes::skip::after_front;
use cbor_grammar::argument::Argument;
use cbor_grammar::head::ItemHead;

/// How many signs show that an item is of a type.
const ENOUGH: usize = 2;

/// The pairs of a map that are still to come.
#[derive(Clone, Copy)]
pub(crate) struct Pairs<'b> {
    count: Argument,
    index: usize,
    pub rest: &'b [u8],
}

/// A pair: the bytes from its key on, and those from its value on.
#[derive(Clone, Copy)]
pub(crate) struct Pair<'b> {
    pub key: &'b [u8],
    pub value: &'b [u8],
}

/// The bytes after the item at the front, if one is there.
pub(crate) fn after_item(bytes: &[u8]) -> Option<&[u8]>
    ensures { IfSome result (λ rest. length rest.now < length bytes.now) }
{
    let Some(rest) = after_front(bytes, 1) else {
        return None;
    };
    Some(rest)
}

impl<'b> Pairs<'b> {
    /// All the pairs of a map of that count, whose head is read already.
    pub(crate) fn new(count: Argument, bytes: &'b [u8]) -> Pairs<'b> {
        Pairs {
            count,
            index: 0,
            rest: bytes,
        }
    }

    /// The pair at the front; `None` after the last one, and where none is whole.
    pub(crate) fn next(&mut self) -> Option<Pair<'b>>
        ensures { IfSome result (λ pair. length self.new.rest.now < length self.old.rest.now) }
    {
        if self.count.after_end(self.index, self.rest).is_some() {
            return None;
        }
        let key = self.rest;
        let value = after_item(key)?;
        self.rest = after_item(value)?;
        self.index = self.index.saturating_add(1);
        Some(Pair { key, value })
    }

    /// Whether the map ends here, and nothing follows it.
    fn is_end(self) -> bool {
        match self.count.after_end(self.index, self.rest) {
            Some(rest) => rest.is_empty(),
            None => false,
        }
    }

    /// The value of this key.
    pub(crate) fn value_of(self, names: &Names, key: KeyRow) -> Option<Scalar<'b>> {
        let mut pairs = self;
        'pairs: while let Some(pair) = pairs.next() {
            if names.is_at(key, pair.key) {
                return scalar_at(pair.value);
            }
        }
        None
    }
}

/// The type of maps that their keys tell from any other.
const ATTESTATION: &str = "WebAuthn_Attestation";

/// Whether bytes begin as these maps do: with one of their three keys.
fn begins_attestation(bytes: &[u8]) -> bool {
    bytes.starts_with(b"\xa3\x63fmt")
        || bytes.starts_with(b"\xa3\x67attStmt")
        || bytes.starts_with(b"\xa3\x68authData")
}

impl Names {
    /// Whether the bytes are a map with the signs of maps of this type.
    pub(crate) fn has_signs(&self, found: &Type, bytes: &[u8]) -> bool {
        match self.after_signs(found, bytes) {
            Some(pairs) => pairs.is_end(),
            None => false,
        }
    }

    /// The end of the pairs of a map with the signs of maps of this type: each value of a key that
    /// has a sign is of its kind, and there are at least two.
    fn after_signs<'b>(&self, found: &Type, bytes: &'b [u8]) -> Option<Pairs<'b>> {
        let Inside::Keys(parts, _) = self.inside_of(found) else {
            return None;
        };
        let Ok((ItemHead::Map(count), rest)) = read_head(bytes) else {
            return None;
        };
        let mut pairs = Pairs::new(count, rest);
        let mut signs = 0usize;
        'pairs: while let Some(pair) = pairs.next() {
            let Some(part) = self.part_at(parts, None, pair.key) else {
                continue;
            };
            let Some(sign) = part.sign else {
                continue;
            };
            if !sign.is_at(pair.value) {
                return None;
            }
            signs = signs.saturating_add(1);
        }
        if signs >= ENOUGH { Some(pairs) } else { None }
    }

    /// The type of the outermost item at the front if nothing else says it: that of an attestation
    /// object of WebAuthn.
    pub(crate) fn type_at(&self, bytes: &[u8]) -> Option<Type> {
        if !begins_attestation(bytes) {
            return None;
        }
        let found = self.of(ATTESTATION)?;
        self.after_signs(&found, bytes)?;
        Some(found)
    }

    /// What is known of the outermost item at the front if nothing else says it.
    pub(crate) fn known_at(&self, bytes: &[u8]) -> Known {
        match self.type_at(bytes) {
            Some(found) => Known::by_tables(WhatRow::Of(found.index)),
            None => Known::by_tables(WhatRow::Any),
        }
    }

    /// Whether the outermost item at the front is known without a tag.
    pub fn knows(&self, bytes: &[u8]) -> bool {
        self.type_at(bytes).is_some()
    }
}
