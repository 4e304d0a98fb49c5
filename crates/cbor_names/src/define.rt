//! Builds a table of names: adds types and their parts to `Names`.

use crate::part::{Definition, Key, Part, Shape, What};
use crate::table::{Again, KeyRow, Names, PartRow, ShapeRow, TextRange, Type, WhatRow};
use std::alloc::{AllocError, Global};

impl Names {
    /// No tables.
    pub fn new(alloc: Global) -> Names {
        Names {
            texts: String::new(alloc),
            types: Vec::new(alloc),
            tags: 0,
            parts: Vec::new(alloc),
            last: 0,
            again: Vec::new(alloc),
            merged: 0,
        }
    }

    /// Defines a type, whose parts [`push`](Names::push) adds. It takes the place of one that has
    /// its name, and its tag is no other type's any more. [`merge`](Names::merge) gives it what
    /// these had.
    ///
    /// Types that a definition or a part names may be defined later. A type that is not says
    /// nothing of an item.
    pub fn define(&mut self, definition: Definition<'_>) -> Result<(), AllocError> {
        let index = self.place_of(definition.name)?;
        let shape = self.shape_row(definition.shape)?;
        if let Some(before) = self.before(index, definition.tag) {
            self.again.push(Again { index, before })?;
        }
        if let Some(tag) = definition.tag {
            self.release(tag);
            self.tags |= 1 << (tag % 64);
        }
        let start = self.parts.len();
        if let Some(found) = self.types.get_mut(index) {
            found.tag = definition.tag;
            found.shape = shape;
            found.start = start;
            found.end = start;
        }
        self.last = index;
        Ok(())
    }

    /// Adds a part to the type that was defined last.
    pub fn push(&mut self, part: Part<'_>) -> Result<(), AllocError> {
        let row = PartRow {
            key: self.key_row(part.key)?,
            name: self.push_text(part.name)?,
            what: self.what_row(part.what)?,
            when: match part.when {
                Some(when) => Some(self.key_row(when)?),
                None => None,
            },
            sign: part.sign,
            optional: part.optional,
        };
        self.parts.push(row)?;
        let end = self.parts.len();
        if let Some(found) = self.types.get_mut(self.last) {
            found.end = end;
        }
        Ok(())
    }

    /// Defines a type with its parts, as [`define`](Names::define) and [`push`](Names::push) do.
    pub fn add(
        &mut self,
        definition: Definition<'_>,
        parts: &[Part<'_>],
    ) -> Result<(), AllocError> {
        self.define(definition)?;
        for part in parts {
            self.push(*part)?;
        }
        Ok(())
    }

    /// What a type was before it is defined with this tag, or else the type that has the tag.
    fn before(&self, index: usize, tag: Option<u64>) -> Option<Type> {
        match self.types.get(index) {
            Some(found) if found.is_defined() => Some(*found),
            _ => self.tagged(tag?),
        }
    }

    /// No type has this tag any more.
    fn release(&mut self, tag: u64) {
        for found in &mut self.types {
            if found.tag == Some(tag) {
                found.tag = None;
            }
        }
    }

    /// The place of the type of this name among the types.
    fn place_of(&mut self, name: &str) -> Result<usize, AllocError> {
        if let Some(found) = self.named(name) {
            return Ok(found.index);
        }
        let index = self.types.len();
        let name = self.push_text(name)?;
        self.types.push(Type {
            index,
            name,
            tag: None,
            shape: ShapeRow::Undefined,
            start: 0,
            end: 0,
        })?;
        Ok(index)
    }

    fn push_text(&mut self, text: &str) -> Result<TextRange, AllocError> {
        let start = self.texts.len();
        self.texts.push_str(text)?;
        Ok(TextRange {
            start,
            end: self.texts.len(),
        })
    }

    fn key_row(&mut self, key: Key<'_>) -> Result<KeyRow, AllocError> {
        match key {
            Key::Integer(number) => Ok(KeyRow::Integer(number)),
            Key::Text(text) => Ok(KeyRow::Text(self.push_text(text)?)),
        }
    }

    fn what_row(&mut self, what: What<'_>) -> Result<WhatRow, AllocError> {
        match what {
            What::Any => Ok(WhatRow::Any),
            What::Of(name) => Ok(WhatRow::Of(self.place_of(name)?)),
            What::Each(name) => Ok(WhatRow::Each(self.place_of(name)?)),
            What::OneOrMore(name) => Ok(WhatRow::OneOrMore(self.place_of(name)?)),
            What::Encoded(name) => Ok(WhatRow::Encoded(self.place_of(name)?)),
            What::Payload(name) => Ok(WhatRow::Payload(self.place_of(name)?)),
            What::Nested(name) => Ok(WhatRow::Nested(self.place_of(name)?)),
            What::Date => Ok(WhatRow::Date),
            What::AuthenticatorData => Ok(WhatRow::AuthenticatorData),
        }
    }

    fn shape_row(&mut self, shape: Shape<'_>) -> Result<ShapeRow, AllocError> {
        match shape {
            Shape::Array => Ok(ShapeRow::Array),
            Shape::Map => Ok(ShapeRow::Map),
            Shape::MapBy(key) => Ok(ShapeRow::MapBy(self.key_row(key)?)),
            Shape::MapTo(what) => Ok(ShapeRow::MapTo(self.what_row(what)?)),
            Shape::Each(name) => Ok(ShapeRow::Each(self.place_of(name)?)),
            Shape::Values => Ok(ShapeRow::Values),
            Shape::Encoded(name) => Ok(ShapeRow::Encoded(self.place_of(name)?)),
        }
    }
}
