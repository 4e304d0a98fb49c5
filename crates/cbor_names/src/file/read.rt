//! Reads single TOML values of a file of names: texts, names, keys and tags, and the parts of a
//! type, which are members of an array or keys of a map.

use crate::file::fault::Fault;
use crate::{Key, Kind, Part, What};
use toml::{Table, Value};

/// The word for a date in the place of a type's name.
const DATE: &str = "date";

/// The word for authenticator data, likewise.
const AUTHENTICATOR_DATA: &str = "authData";

/// A text.
pub(crate) fn text(value: &Value) -> Result<&str, Fault> {
    match value {
        Value::String(text) => Ok(text.as_str()),
        _ => Err(Fault::Text),
    }
}

/// A text that a note can have.
pub(crate) fn name(text: &str) -> Result<&str, Fault> {
    let is_printable = |byte: &u8| (0x20..0x7f).contains(byte) && *byte != b'/';
    if text.is_empty() || text.starts_with("*") || !text.as_bytes().iter().all(is_printable) {
        return Err(Fault::Name);
    }
    Ok(text)
}

/// A key or a value from a key of TOML: an integer if it is one in decimal; a text between double
/// quotes is what is between them.
pub(crate) fn key(word: &str) -> Key<'_> {
    if let Ok(number) = word.parse::<i64>() {
        return Key::Integer(number);
    }
    match word.strip_prefix("\"") {
        Some(rest) => Key::Text(rest.strip_suffix("\"").unwrap_or(word)),
        None => Key::Text(word),
    }
}

/// The key that others depend on.
pub(crate) fn by(value: &Value) -> Result<Key<'_>, Fault> {
    match value {
        Value::Integer(number) => Ok(Key::Integer(*number)),
        Value::String(text) => Ok(Key::Text(text.as_str())),
        _ => Err(Fault::By),
    }
}

/// A tag.
pub(crate) fn tag(fields: &Table) -> Result<Option<u64>, Fault> {
    match fields.get("tag") {
        None => Ok(None),
        Some(Value::Integer(number)) if *number >= 0 => Ok(Some(*number as u64)),
        Some(_) => Err(Fault::Tag),
    }
}

/// The kind of value that is a sign.
fn sign(value: &Value) -> Result<Kind, Fault> {
    match text(value)? {
        "number" => Ok(Kind::Number),
        "text" => Ok(Kind::Text),
        "bytes" => Ok(Kind::Bytes),
        _ => Err(Fault::Sign),
    }
}

/// Whether something is so.
fn flag(value: &Value) -> Result<bool, Fault> {
    match value {
        Value::Boolean(flag) => Ok(*flag),
        _ => Err(Fault::Flag),
    }
}

/// What a member's word says of its type.
fn what<'t>(word: &str, value: &'t Value) -> Result<What<'t>, Fault> {
    match word {
        "is" => match text(value)? {
            DATE => Ok(What::Date),
            AUTHENTICATOR_DATA => Ok(What::AuthenticatorData),
            name => Ok(What::Of(name)),
        },
        "each" => Ok(What::Each(text(value)?)),
        "holds" => Ok(What::Encoded(text(value)?)),
        "may_hold" => Ok(What::Payload(text(value)?)),
        _ => Err(Fault::Word),
    }
}

/// A key or a member with what its table says.
fn part_of<'t>(key: Key<'t>, fields: &'t Table) -> Result<Part<'t>, Fault> {
    let mut part = Part::new(key, "");
    for (word, value) in fields.iter() {
        match word.as_str() {
            "name" => part.name = name(text(value)?)?,
            "sign" => part.sign = Some(sign(value)?),
            "optional" => part.optional = flag(value)?,
            word => {
                let what = what(word, value)?;
                if !matches!(part.what, What::Any) {
                    return Err(Fault::TwoTypes);
                }
                part.what = what;
            }
        }
    }
    Ok(part)
}

/// A key with its name, or with its table.
pub(crate) fn part<'t>(key: Key<'t>, value: &'t Value) -> Result<Part<'t>, Fault> {
    match value {
        Value::String(text) => Ok(Part::new(key, name(text.as_str())?)),
        Value::Table(fields) => part_of(key, fields),
        _ => Err(Fault::Member),
    }
}

/// A member of an array, likewise.
pub(crate) fn member(value: &Value) -> Result<Part<'_>, Fault> {
    let part = part(Key::Integer(0), value)?;
    if part.sign.is_some() {
        return Err(Fault::Word);
    }
    Ok(part)
}
