//! Finds how far an item has the shape of a type (`Fit`): not at all, as an array of another length
//! (its members still get names), or wholly. `says`: whether the tag at the front gives notes.

use crate::decimal::Scaled;
use crate::scalar::float_at;
use crate::table::{Inside, Names, PartRow, ShapeRow, Type, WhatRow};
use crate::way::Known;
use cbor_bytes::head::read_head;
use cbor_bytes::skip::after_front;
use cbor_grammar::argument::Argument;
use cbor_grammar::head::ItemHead;
use cbor_grammar::strings::StringKind;

/// The tag whose item may be one of any type.
pub(crate) const SELF_DESCRIBED: u64 = 55_799;

/// The tag of a set, which is an array.
pub(crate) const SET: u64 = 258;

/// The tag of a byte string that holds an item.
pub(crate) const ENCODED: u64 = 24;

/// The tag of seconds from 1970.
pub(crate) const EPOCH: u64 = 1;

/// How far an item has the shape of a type.
#[derive(Clone, Copy, PartialEq, Eq, Debug)]
pub(crate) enum Fit {
    /// It is something else.
    Other,
    /// It is an array of too few or too many members. Each that has a type of its own is there and
    /// may be of that type.
    Members,
    /// It has the shape.
    Whole,
}

impl Names {
    /// How far the item at the front has the shape of this type. Of bytes that end before it does,
    /// what is there decides.
    pub(crate) fn fit(&self, found: &Type, bytes: &[u8]) -> Fit {
        match read_head(bytes) {
            Ok((head, rest)) => self.fit_head(found, head, rest),
            Err(_) => Fit::Other,
        }
    }

    /// The same of an item whose head is read already.
    fn fit_head(&self, found: &Type, head: ItemHead, rest: &[u8]) -> Fit {
        if let ShapeRow::Encoded(_) = found.shape {
            return match head {
                ItemHead::String(StringKind::Bytes, _) => Fit::Whole,
                _ => Fit::Other,
            };
        }
        match (self.inside_of(found), head) {
            // The type has nothing but a name.
            (Inside::Members([]), _) => Fit::Whole,
            (Inside::Members(parts), ItemHead::Array(count)) => {
                self.fit_members(parts, count, rest)
            }
            (Inside::Each(_), ItemHead::Array(_)) => Fit::Whole,
            (Inside::Keys(..) | Inside::EachValue(_), ItemHead::Map(_)) => Fit::Whole,
            (Inside::Values(_), ItemHead::Integer(..) | ItemHead::Negative(..)) => Fit::Whole,
            (Inside::Values(_), ItemHead::String(StringKind::Text, _)) => Fit::Whole,
            _ => Fit::Other,
        }
    }

    /// Whether the item at the front has the shape of the type that is given; true if none is.
    ///
    /// ```rust
    /// use cbor_names::{Known, known_names};
    ///
    /// let names = known_names(alloc)?;
    /// let Some(found) = names.of("COSE_Key") else {
    ///     return Ok(());
    /// };
    /// let key = Known::of(found);
    /// // {1: 4}, and [1]
    /// assert!(rt; names.has_shape(key, b"\xa1\x01\x04"));
    /// assert!(rt; !names.has_shape(key, b"\x81\x01"));
    /// ```
    pub fn has_shape(&self, known: Known, bytes: &[u8]) -> bool {
        match known.named {
            Some(outer) => self.fit_behind_tags(&outer, bytes) == Fit::Whole,
            None => true,
        }
    }

    /// How far the item behind all tags has the shape of this type.
    pub(crate) fn fit_behind_tags(&self, found: &Type, bytes: &[u8]) -> Fit {
        let mut rest = bytes;
        for _ in 0..=u8::MAX {
            match read_head(rest) {
                Ok((ItemHead::Tag(..), after)) => rest = after,
                _ => break,
            }
        }
        self.fit(found, rest)
    }

    /// The same of the item right below a tag of the type. That may also be the tag of a type, as
    /// the one of a message below that of a token.
    pub(crate) fn fit_below(&self, found: &Type, bytes: &[u8]) -> Fit {
        match read_head(bytes) {
            Ok((ItemHead::Tag(SELF_DESCRIBED, _), rest)) => self.fit(found, rest),
            Ok((ItemHead::Tag(tag, _), _)) if self.type_of(tag).is_some() => Fit::Whole,
            Ok((head, rest)) => self.fit_head(found, head, rest),
            Err(_) => Fit::Other,
        }
    }

    /// The same of an array whose head is read already.
    fn fit_members(&self, parts: &[PartRow], count: Argument, bytes: &[u8]) -> Fit {
        let mut rest = bytes;
        for (index, part) in parts.iter().enumerate() {
            if count.after_end(index, rest).is_some() {
                return self.fit_without(parts.get(index..).unwrap_or(&[]));
            }
            let Ok((head, _)) = read_head(rest) else {
                return fit_count(parts, count);
            };
            if !self.may_be(part.what, head) {
                return Fit::Other;
            }
            // A stated count says how the array fits, whatever is in its last member.
            if index.saturating_add(1) == parts.len() && matches!(count, Argument::Number(..)) {
                return fit_count(parts, count);
            }
            match after_front(rest, 1) {
                Some(after) => rest = after,
                None => return fit_count(parts, count),
            }
        }
        match count.after_end(parts.len(), rest) {
            Some(_) => Fit::Whole,
            None => Fit::Members,
        }
    }

    /// How an array fits that ends before these members.
    fn fit_without(&self, missing: &[PartRow]) -> Fit {
        if missing.iter().all(|part| part.optional) {
            return Fit::Whole;
        }
        for part in missing {
            if !part.optional && has_type(part.what) {
                return Fit::Other;
            }
        }
        Fit::Members
    }

    /// Whether a member may have this head, if this is known about it. Null and undefined stand for
    /// any.
    fn may_be(&self, what: WhatRow, head: ItemHead) -> bool {
        if matches!(head, ItemHead::Simple(22 | 23)) {
            return true;
        }
        match what {
            WhatRow::Encoded(_) | WhatRow::Payload(_) | WhatRow::AuthenticatorData => {
                matches!(head, ItemHead::String(StringKind::Bytes, _))
            }
            WhatRow::Each(_) | WhatRow::OneOrMore(_) => {
                matches!(head, ItemHead::Array(_) | ItemHead::Tag(..))
            }
            WhatRow::Of(_) => match self.inside(what) {
                Inside::Members(_) | Inside::Each(_) => {
                    matches!(head, ItemHead::Array(_) | ItemHead::Tag(..))
                }
                Inside::Keys(..) | Inside::EachValue(_) => {
                    matches!(head, ItemHead::Map(_) | ItemHead::Tag(..))
                }
                Inside::Values(_) | Inside::Nothing => true,
            },
            WhatRow::Any | WhatRow::Nested(_) | WhatRow::Date => true,
        }
    }

    /// Whether there are notes by the tag at the front, whatever is around it. An item in which no
    /// such tag is has none if its type is not known.
    ///
    /// ```rust
    /// use cbor_names::known_names;
    ///
    /// let names = known_names(alloc)?;
    /// // 18([h'', {}, h'', h'']), and 18("")
    /// assert!(rt; names.says(b"\xd2\x84\x40\xa0\x40\x40"));
    /// assert!(rt; !names.says(b"\xd2\x60"));
    /// ```
    pub fn says(&self, bytes: &[u8]) -> bool {
        let Ok((ItemHead::Tag(tag, _), rest)) = read_head(bytes) else {
            return false;
        };
        match self.type_of(tag) {
            Some(found) => self.fit_below(found, rest) != Fit::Other,
            None if tag == EPOCH => float_at(rest).is_some(),
            None => Scaled::below(tag, rest).is_some(),
        }
    }
}

/// Whether a member has a type of its own, if this is known about it.
fn has_type(what: WhatRow) -> bool {
    !matches!(what, WhatRow::Any | WhatRow::Date)
}

/// How an array fits whose members are not all there, by its count.
fn fit_count(parts: &[PartRow], count: Argument) -> Fit {
    match count {
        Argument::Number(count, _) if count == parts.len() as u64 => Fit::Whole,
        _ => Fit::Members,
    }
}
