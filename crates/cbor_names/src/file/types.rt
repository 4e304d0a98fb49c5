//! Adds the types of a file of names, which is read as TOML, to `Names`: their tags, members, keys
//! and values.

use crate::file::fault::Fault;
use crate::file::read::{by, key, member, name, part, tag, text};
use crate::{Definition, Key, Names, Part, Shape};
use std::alloc::{AllocError, Global};
use toml::Table;

/// What says in a file what the items of a type are.
#[derive(Clone, Copy)]
enum Body<'t> {
    /// Nothing, so there is only the type's name.
    None,
    Array(&'t toml::Value),
    Map(&'t toml::Value),
    Each(&'t toml::Value),
    Values(&'t toml::Value),
}

/// Adds the types of a table.
pub(crate) fn add_types(alloc: Global, table: &Table, names: &mut Names) -> Result<(), Fault> {
    let mut tags = Vec::new(alloc);
    for (word, value) in table.iter() {
        let toml::Value::Table(fields) = value else {
            return Err(Fault::NoTable);
        };
        if let Some(tag) = tag(fields)? {
            if !push_new(&mut tags, tag)? {
                return Err(Fault::SameTag);
            }
        }
        add_type(names, word.as_str(), fields)?;
    }
    Ok(())
}

/// Appends a tag if it is not there, and returns whether it was not.
fn push_new(tags: &mut Vec<u64>, tag: u64) -> Result<bool, AllocError> {
    if tags.contains(&tag) {
        return Ok(false);
    }
    tags.push(tag)?;
    Ok(true)
}

/// Adds a type.
fn add_type(names: &mut Names, word: &str, fields: &Table) -> Result<(), Fault> {
    let name = name(word)?;
    let tag = tag(fields)?;
    let body = body_of(fields)?;
    let shape = shape_of(fields, body)?;
    names.define(Definition { name, tag, shape })?;
    match body {
        Body::None | Body::Each(_) => Ok(()),
        Body::Array(value) => push_members(names, value),
        Body::Map(value) => {
            push_keys(names, None, value)?;
            push_cases(names, fields)
        }
        Body::Values(value) => push_values(names, value),
    }
}

/// What says what the items of a type are.
fn body_of(fields: &Table) -> Result<Body<'_>, Fault> {
    let mut body = Body::None;
    for (word, value) in fields.iter() {
        let found = match word.as_str() {
            "array" => Body::Array(value),
            "map" => Body::Map(value),
            "each" => Body::Each(value),
            "values" => Body::Values(value),
            // These are read with the type, and with its map.
            "tag" | "by" | "when" => continue,
            _ => return Err(Fault::Word),
        };
        if !matches!(body, Body::None) {
            return Err(Fault::TwoShapes);
        }
        body = found;
    }
    Ok(body)
}

/// The shape of a type.
fn shape_of<'t>(fields: &'t Table, body: Body<'t>) -> Result<Shape<'t>, Fault> {
    match body {
        Body::None | Body::Array(_) => Ok(Shape::Array),
        Body::Map(_) => match fields.get("by") {
            Some(value) => Ok(Shape::MapBy(by(value)?)),
            None => Ok(Shape::Map),
        },
        Body::Each(value) => Ok(Shape::Each(text(value)?)),
        Body::Values(_) => Ok(Shape::Values),
    }
}

/// Adds the members of an array.
fn push_members(names: &mut Names, value: &toml::Value) -> Result<(), Fault> {
    let toml::Value::Array(members) = value else {
        return Err(Fault::Shape);
    };
    for value in members {
        let member = member(value)?;
        names.push(member)?;
    }
    Ok(())
}

/// Adds the keys of a map that depend on the value of another.
fn push_cases(names: &mut Names, fields: &Table) -> Result<(), Fault> {
    let Some(value) = fields.get("when") else {
        return Ok(());
    };
    let toml::Value::Table(cases) = value else {
        return Err(Fault::Shape);
    };
    for (word, value) in cases.iter() {
        push_keys(names, Some(key(word.as_str())), value)?;
    }
    Ok(())
}

/// Adds the keys of a map.
fn push_keys(names: &mut Names, when: Option<Key<'_>>, value: &toml::Value) -> Result<(), Fault> {
    let toml::Value::Table(keys) = value else {
        return Err(Fault::Shape);
    };
    for (word, value) in keys.iter() {
        let part = part(key(word.as_str()), value)?;
        if part.optional {
            return Err(Fault::Word);
        }
        names.push(Part { when, ..part })?;
    }
    Ok(())
}

/// Adds values that mean something.
fn push_values(names: &mut Names, value: &toml::Value) -> Result<(), Fault> {
    let toml::Value::Table(values) = value else {
        return Err(Fault::Shape);
    };
    for (word, value) in values.iter() {
        let meaning = name(text(value)?)?;
        names.push(Part::new(key(word.as_str()), meaning))?;
    }
    Ok(())
}
