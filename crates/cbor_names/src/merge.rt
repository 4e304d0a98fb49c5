//! `Names::merge`: gives types that were defined again the names that they had before.

use crate::table::{Again, KeyRow, Names, PartRow, ShapeRow, Type, WhatRow};
use std::alloc::AllocError;

impl ShapeRow {
    /// The shape of a type that had another one before, if the parts of both count: the items are
    /// of the same kind, or the later definition has no parts. `count` and `count_before` are the
    /// numbers of their parts.
    fn over(self, count: usize, before: ShapeRow, count_before: usize) -> Option<ShapeRow> {
        match (self, before) {
            (_, ShapeRow::Undefined) => None,
            (ShapeRow::Array, _) if count == 0 => Some(before),
            (ShapeRow::Array, ShapeRow::Array) if count == count_before => Some(self),
            (ShapeRow::Values, ShapeRow::Values) => Some(self),
            (ShapeRow::Map | ShapeRow::MapTo(_), ShapeRow::Map | ShapeRow::MapBy(_)) => {
                Some(before)
            }
            (ShapeRow::MapBy(_), ShapeRow::Map) => Some(self),
            (ShapeRow::MapBy(KeyRow::Integer(key)), ShapeRow::MapBy(KeyRow::Integer(key_before)))
                if key == key_before => Some(self),
            _ => None,
        }
    }
}

impl WhatRow {
    /// The type of the items that this is known about.
    fn type_index(self) -> Option<usize> {
        match self {
            WhatRow::Of(index)
            | WhatRow::Each(index)
            | WhatRow::OneOrMore(index)
            | WhatRow::Encoded(index)
            | WhatRow::Nested(index) => Some(index),
            // Such a byte string may hold something else.
            WhatRow::Payload(_) => None,
            WhatRow::Any | WhatRow::Date | WhatRow::AuthenticatorData => None,
        }
    }
}

impl Names {
    /// Merges each type that was defined again with what it was before, and each type that took the
    /// tag of another one with that type. The names of the last definition come first. A type that
    /// is new, and stands in a part of such a type, gets what the part had before.
    ///
    /// A definition of another shape, as an array of more members, replaces what was there.
    ///
    /// ```rust
    /// use cbor_names::{Definition, Key, Names, Part, Shape, notes};
    ///
    /// let mut names = Names::new(alloc);
    /// let parts = [Part::new(Key::Integer(1), "a"), Part::new(Key::Integer(2), "b")];
    /// names.add(Definition::new("Reading", Shape::Map), &parts)?;
    /// names.add(Definition::new("Reading", Shape::Map), &[Part::new(Key::Integer(1), "c")])?;
    /// names.merge()?;
    /// // {1: 7, 2: 8}
    /// let notes = notes(alloc, b"\xa2\x01\x07\x02\x08", &names, names.of("Reading"))?;
    /// let list = notes.list(alloc)?;
    /// assert_eq!(rt; (list[1].before, list[2].before), ("c", "b"));
    /// ```
    pub fn merge(&mut self) -> Result<(), AllocError> {
        for at in 0..usize::MAX {
            let Some(again) = self.again.get(at).copied() else {
                break;
            };
            self.merge_type(again)?;
        }
        self.again.clear();
        self.merged = self.types.len();
        Ok(())
    }

    /// Merges a type with what it was.
    fn merge_type(&mut self, again: Again) -> Result<(), AllocError> {
        let before = again.before;
        let Some(now) = self.types.get(again.index).copied() else {
            return Ok(());
        };
        let count = now.end.saturating_sub(now.start);
        let count_before = before.end.saturating_sub(before.start);
        let Some(shape) = now.shape.over(count, before.shape, count_before) else {
            return Ok(());
        };
        let is_array = matches!(shape, ShapeRow::Array);
        let start = self.parts.len();
        let mut place = before.start;
        for at in now.start..now.end {
            let Some(row) = self.parts.get(at).copied() else {
                break;
            };
            let old = if is_array {
                self.parts.get(place).copied()
            } else {
                self.part_like(before, &row)
            };
            place = place.saturating_add(1);
            let row = self.filled(row, old)?;
            self.parts.push(row)?;
        }
        // All members of an array are there by now, if there were some.
        let rest = if is_array { place } else { before.start };
        for at in rest..before.end {
            if let Some(old) = self.parts.get(at).copied() {
                self.parts.push(old)?;
            }
        }
        let tag = self.tag_of(now, before);
        let end = self.parts.len();
        if let Some(found) = self.types.get_mut(again.index) {
            *found = Type {
                tag,
                shape,
                start,
                end,
                ..now
            };
        }
        Ok(())
    }

    /// The tag of a type: the one that it had before counts if it is no other type's by now.
    fn tag_of(&self, now: Type, before: Type) -> Option<u64> {
        match (now.tag, before.tag) {
            (None, Some(tag)) if self.type_of(tag).is_none() => Some(tag),
            (tag, _) => tag,
        }
    }

    /// The part of a type with the key of another one.
    fn part_like(&self, found: Type, row: &PartRow) -> Option<PartRow> {
        for old in self.parts.get(found.start..found.end)? {
            let is_same_case = match (row.when, old.when) {
                (None, None) => true,
                (Some(when), Some(when_old)) => self.is_same(when, when_old),
                _ => false,
            };
            if is_same_case && self.is_same(row.key, old.key) {
                return Some(*old);
            }
        }
        None
    }

    /// Whether two keys are the same.
    fn is_same(&self, one: KeyRow, other: KeyRow) -> bool {
        match (one, other) {
            (KeyRow::Integer(one), KeyRow::Integer(other)) => one == other,
            (KeyRow::Text(one), KeyRow::Text(other)) => self.text(one) == self.text(other),
            _ => false,
        }
    }

    /// A part with what it does not say from the part that it was.
    fn filled(&mut self, row: PartRow, old: Option<PartRow>) -> Result<PartRow, AllocError> {
        let Some(old) = old else {
            return Ok(row);
        };
        self.inherit(row.what, old.what)?;
        let is_unnamed = row.name.start == row.name.end;
        let says_nothing = matches!(row.what, WhatRow::Any);
        Ok(PartRow {
            name: if is_unnamed { old.name } else { row.name },
            what: if says_nothing { old.what } else { row.what },
            sign: row.sign.or(old.sign),
            ..row
        })
    }

    /// A new type, which is known about a part, will be merged with the type that was known about
    /// it.
    fn inherit(&mut self, what: WhatRow, old: WhatRow) -> Result<(), AllocError> {
        let (Some(index), Some(base)) = (what.type_index(), old.type_index()) else {
            return Ok(());
        };
        let is_listed = self.again.iter().any(|again| again.index == index);
        if index < self.merged || is_listed {
            return Ok(());
        }
        if let Some(before) = self.types.get(base).copied() {
            self.again.push(Again { index, before })?;
        }
        Ok(())
    }
}
