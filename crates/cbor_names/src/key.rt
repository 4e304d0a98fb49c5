//! `Names::key_of`: the key that a name stands for in a map, by what is known of the map.

use crate::scalar::Scalar;
use crate::table::{KeyRow, Names, PartRow, WhatRow};
use crate::way::Known;
use cbor_bytes::head::read_head;
use cbor_bytes::write::push_head;
use cbor_grammar::IntegerWidth;
use cbor_grammar::head::ItemHead;
use cbor_grammar::major::Major;
use std::alloc::{AllocError, Global};

/// What a name stands for as a key of a map.
#[derive(Drop)]
pub enum NamedKey<'a> {
    /// Nothing is known of the map's keys.
    Unknown,
    /// The key of these bytes.
    Key(Vec<u8>),
    /// No key: the type of the map has other names.
    Other(OtherNames<'a>),
}

/// The names that a type has in a map.
#[derive(Drop)]
pub struct OtherNames<'a> {
    /// The type.
    pub of: &'a str,
    /// Its keys that are texts, and the names of the others.
    pub names: Vec<&'a str>,
}

impl Names {
    /// Returns the key that a name stands for in the map at the front, if this is known of it: the
    /// key of that name, or the text where that is a key of the type. A key that depends on the
    /// value of another is one only where the map has that value. The only error is out of memory.
    ///
    /// ```rust
    /// use cbor_names::{Known, NamedKey, known_names};
    ///
    /// let names = known_names(alloc)?;
    /// let outer = names.of("COSE_Key").map(Known::of);
    /// // {1: 4}, a symmetric key
    /// let key = match names.key_of(alloc, outer, b"\xa1\x01\x04", "alg")? {
    ///     NamedKey::Key(key) => key,
    ///     _ => Vec::new(alloc),
    /// };
    /// assert_eq!(rt; key.as_slice(), b"\x03".as_slice());
    /// ```
    pub fn key_of<'a>(
        &'a self,
        alloc: Global,
        known: Option<Known>,
        map: &[u8],
        name: &str,
    ) -> Result<NamedKey<'a>, AllocError> {
        let (Some(known), Ok((ItemHead::Map(count), rest))) = (known, read_head(map)) else {
            return Ok(NamedKey::Unknown);
        };
        let keys = self.keys(known.what, count, rest);
        if keys.parts.is_empty() {
            return Ok(NamedKey::Unknown);
        }
        let mut others = Vec::new(alloc);
        for part in keys.parts {
            if !self.applies(part, keys.chosen) {
                continue;
            }
            for word in [self.text(part.name), self.text_key(part)] {
                if word.is_empty() {
                    continue;
                }
                if word == name {
                    return Ok(NamedKey::Key(self.key_bytes(alloc, part.key)?));
                }
                others.push(word)?;
            }
        }
        Ok(NamedKey::Other(OtherNames {
            of: self.name_of(known.what),
            names: others,
        }))
    }

    /// The key of a part, if that is a text; else the empty text.
    fn text_key(&self, part: &PartRow) -> &str {
        match part.key {
            KeyRow::Text(range) => self.text(range),
            KeyRow::Integer(_) => "",
        }
    }

    /// The name of the type that an item is of, if this is known of it.
    fn name_of(&self, what: WhatRow) -> &str {
        match what {
            WhatRow::Of(index) | WhatRow::OneOrMore(index) | WhatRow::Nested(index) => {
                match self.types.get(index) {
                    Some(found) => self.text(found.name),
                    None => "",
                }
            }
            _ => "",
        }
    }

    /// The bytes of a key.
    fn key_bytes(&self, alloc: Global, key: KeyRow) -> Result<Vec<u8>, AllocError> {
        let mut bytes = Vec::new(alloc);
        let shortest = IntegerWidth::Unknown;
        match key {
            KeyRow::Integer(number) if number < 0 => {
                push_head(&mut bytes, Major::Negative, (-1 - number) as u64, shortest)?;
            }
            KeyRow::Integer(number) => {
                push_head(&mut bytes, Major::Unsigned, number as u64, shortest)?;
            }
            KeyRow::Text(range) => {
                let text = self.text(range).as_bytes();
                push_head(&mut bytes, Major::Text, text.len() as u64, shortest)?;
                bytes.extend_from_slice(text)?;
            }
        }
        Ok(bytes)
    }
}
