//! `with_schema` adds the types of a schema to tables of names: the rules that are maps, arrays,
//! tags or choices of named values, and the types inside them.

use crate::alternatives::{Alternative, Depth, Kind};
use crate::groups::{Entry, placed_len};
use crate::source::{Source, name_of};
use crate::types::{Known, Spot, Types, tag_of};
use cbor_cddl::{Node, Schema};
use cbor_names::{Definition, Key, Names, Part, Shape, What};
use std::alloc::{AllocError, Global};

/// A part of a type.
#[derive(Clone, Copy)]
struct Row<'a> {
    key: Key<'a>,
    name: &'a str,
    known: Known,
    is_optional: bool,
}

/// What the items of a type are.
#[derive(Clone, Copy)]
enum Form {
    Array,
    Map,
    /// Maps whose values are all this.
    MapTo(Known),
    /// Arrays whose members are all of this type.
    Each(usize),
    Values,
    /// Byte strings that hold an item of this type.
    Encoded(usize),
}

/// A type with its parts.
#[derive(Drop)]
struct Body<'a> {
    form: Form,
    rows: Vec<Row<'a>>,
}

/// Returns the tables with the types of a schema: each rule that is a map, an array, a tag or a
/// choice of named values. Its names come before those of a type that has the same name or the same
/// tag, and these stay where the schema has none.
pub fn with_schema(alloc: Global, names: Names, schema: &Schema) -> Result<Names, AllocError> {
    let mut names = names;
    let source = Source::new(alloc, schema)?;
    let mut types = Types::new(source)?;
    let mut tags = Vec::new(alloc);
    // A type may add others, of what is in it.
    for index in 0..usize::MAX {
        let Some(found) = types.list.get(index) else {
            break;
        };
        let node = found.node;
        let tag = match tag_of(schema.node(node)) {
            Some(tag) if !tags.contains(&tag) => {
                tags.push(tag)?;
                Some(tag)
            }
            _ => None,
        };
        let body = types.body(index, node)?;
        types.push(&mut names, index, tag, &body)?;
    }
    names.merge()?;
    Ok(names)
}

impl<'a> Types<'a> {
    /// What the type at a node is.
    fn body(&mut self, index: usize, node: usize) -> Result<Body<'a>, AllocError> {
        let alternatives = self.source.alternatives(node, Depth::Whole, &[])?;
        match self.source.kind_of(&alternatives) {
            Some(Kind::Map) => self.map(index, &alternatives),
            Some(Kind::Array(group)) => self.array(index, group),
            Some(Kind::Values) => self.values(&alternatives),
            None => self.encoded(index, node),
        }
    }

    /// The values that have names.
    fn values(&self, alternatives: &[Alternative<'a>]) -> Result<Body<'a>, AllocError> {
        let mut rows = Vec::new(self.source.alloc);
        for one in alternatives {
            if let Some(key) = one.value(&self.source) {
                rows.push(Row {
                    key,
                    name: one.name,
                    known: Known::Nothing,
                    is_optional: false,
                })?;
            }
        }
        let form = Form::Values;
        Ok(Body { form, rows })
    }

    /// The item in a byte string below a tag, or nothing but a name.
    fn encoded(&mut self, index: usize, node: usize) -> Result<Body<'a>, AllocError> {
        let spot = Spot {
            parent: index,
            part: "item",
        };
        let held = match self.source.schema.node(node) {
            Node::Tag { item, .. } => self.held(item, spot)?,
            _ => None,
        };
        let form = match held {
            Some(held) => Form::Encoded(held),
            None => Form::Array,
        };
        let rows = Vec::new(self.source.alloc);
        Ok(Body { form, rows })
    }

    /// The members of an array.
    fn array(&mut self, index: usize, group: usize) -> Result<Body<'a>, AllocError> {
        let members = self.source.members(group)?;
        let mut rows = Vec::new(self.source.alloc);
        if let [only] = members.as_slice()
            && only.occurrence.most > 1
        {
            let spot = Spot {
                parent: index,
                part: "item",
            };
            if let Some(found) = self.at(only.value, spot)? {
                let form = Form::Each(found);
                return Ok(Body { form, rows });
            }
        }
        for (place, member) in members.iter().enumerate().take(placed_len(&members)) {
            let number = format!(in self.source.alloc; "{place}")?;
            let part = if member.name.is_empty() {
                number.as_str()
            } else {
                member.name
            };
            let spot = Spot {
                parent: index,
                part,
            };
            let known = self.known(member.value, spot)?;
            rows.push(Row {
                key: Key::Integer(0),
                name: member.name,
                known,
                is_optional: member.is_optional(),
            })?;
        }
        let form = Form::Array;
        Ok(Body { form, rows })
    }

    /// The keys of maps, one after the other.
    fn map(
        &mut self,
        index: usize,
        alternatives: &[Alternative<'a>],
    ) -> Result<Body<'a>, AllocError> {
        let mut rows = Vec::new(self.source.alloc);
        let mut each = Known::Nothing;
        for one in alternatives {
            let Node::Map(group) = self.source.schema.node(one.node) else {
                continue;
            };
            let entries = self.source.entries(group)?;
            for entry in &entries {
                if let Some(known) = self.push_entry(&mut rows, index, *entry)?
                    && matches!(each, Known::Nothing)
                {
                    each = known;
                }
            }
        }
        let form = match each {
            Known::Nothing => Form::Map,
            _ if rows.is_empty() => Form::MapTo(each),
            _ => Form::Map,
        };
        Ok(Body { form, rows })
    }

    /// Appends the keys of an entry, or returns what the values of any keys are.
    fn push_entry(
        &mut self,
        rows: &mut Vec<Row<'a>>,
        index: usize,
        entry: Entry,
    ) -> Result<Option<Known>, AllocError> {
        let keys = self.source.alternatives(entry.key, Depth::Whole, &[])?;
        let mut is_any = true;
        for one in &keys {
            let Some(key) = self.source.key_of(one.node) else {
                continue;
            };
            is_any = false;
            let name = one.key_name(key);
            let part = self.part_of(key, name)?;
            let spot = Spot {
                parent: index,
                part: &part,
            };
            let known = self.known(entry.value, spot)?;
            rows.push(Row {
                key,
                name,
                known,
                is_optional: false,
            })?;
        }
        if !is_any {
            return Ok(None);
        }
        let spot = Spot {
            parent: index,
            part: "value",
        };
        Ok(Some(self.known(entry.value, spot)?))
    }

    /// What a key is called in the name of the type of its value.
    fn part_of(&self, key: Key<'_>, name: &str) -> Result<String, AllocError> {
        let alloc = self.source.alloc;
        match key {
            _ if !name.is_empty() => String::from_str(alloc, name),
            Key::Text(text) => String::from_str(alloc, name_of(text).unwrap_or("text")),
            Key::Integer(number) => format!(in alloc; "{number}"),
        }
    }

    /// The name of a type.
    fn name(&self, index: usize) -> &str {
        match self.list.get(index) {
            Some(found) => found.name.as_str(),
            None => "",
        }
    }

    /// What is known, as an author of tables writes it.
    fn what(&self, known: Known) -> What<'_> {
        match known {
            Known::Nothing => What::Any,
            Known::Of(index) => What::Of(self.name(index)),
            Known::OneOrMore(index) => What::OneOrMore(self.name(index)),
            Known::Encoded(index) => What::Encoded(self.name(index)),
            Known::Nested(index) => What::Nested(self.name(index)),
            Known::Date => What::Date,
        }
    }

    /// Adds a type to the tables.
    fn push(
        &self,
        names: &mut Names,
        index: usize,
        tag: Option<u64>,
        body: &Body<'a>,
    ) -> Result<(), AllocError> {
        let shape = match body.form {
            Form::Array => Shape::Array,
            Form::Map => Shape::Map,
            Form::MapTo(known) => Shape::MapTo(self.what(known)),
            Form::Each(each) => Shape::Each(self.name(each)),
            Form::Values => Shape::Values,
            Form::Encoded(held) => Shape::Encoded(self.name(held)),
        };
        names.define(Definition {
            name: self.name(index),
            tag,
            shape,
        })?;
        for row in &body.rows {
            names.push(Part {
                what: self.what(row.known),
                optional: row.is_optional,
                ..Part::new(row.key, row.name)
            })?;
        }
        Ok(())
    }
}
