//! `name_at` returns the name of the part that a path leads to: the name of its key, of its place
//! in an array, of its tag or of its type.
ghost use Rattle.std.specs.Prelude.{IfOk, IfErr};
ghost use Rattle.cbor_grammar.specs.Item.{Item};
ghost use Rattle.cbor_grammar.specs.Facts.{IsItem};
ghost use Rattle.cbor_inspect.specs.Named.{HasNoName};

use crate::naming::Naming;
use cbor_diag::parse_bytes;
use cbor_grammar::Error;
use cbor_paths::{Picture, Step, follow};
use std::alloc::Global;

/// Why there is no item whose name is looked for.
#[derive(Clone, Copy, PartialEq, Eq, Debug)]
pub enum NameError {
    /// The bytes are not an item, or memory ran out.
    Cbor(Error),
    /// The path leads to no part of the item.
    NoPart,
}

/// Whether a path has a `*`, after which each member has a name of its own.
fn has_each(steps: &[Step]) -> bool {
    for step in steps {
        if let Step::Each = step {
            return true;
        }
    }
    false
}

/// Returns the name of the part of an item that a path leads to, if it has one: that of its key in
/// a map, of a member of an array, of the tag before it, or of the type of the outermost item.
///
/// A path with `*` may lead to several parts, so it has no name.
///
/// Returns the errors of `parse_bytes`, or `NoPart` if the path leads nowhere.
///
/// ```rust
/// use cbor_inspect::{Naming, name_at, steps_of};
/// use cbor_names::{Definition, Key, Names, Part, Shape};
///
/// let mut names = Names::new(alloc);
/// let reading = Definition::new("Reading", Shape::Map).tagged(1001);
/// names.add(reading, &[Part::new(Key::Integer(1), "sensor")])?;
/// // [1001({1: 7})]
/// let bytes = b"\x81\xd9\x03\xe9\xa1\x01\x07";
/// let naming = Naming::new(&names, None);
/// let steps = steps_of(alloc, "0/1")?;
/// assert_eq!(rt; name_at(alloc, naming, bytes, &steps)?, Some("sensor"));
/// ```
pub fn name_at<'a>(
    alloc: Global,
    naming: Naming<'a>,
    bytes: &[u8],
    steps: &[Step],
) -> Result<Option<&'a str>, NameError>
    // The bytes are an item.
    ensures item { IfOk result (λ _. (i : Item) × IsItem bytes.now i) }

    // Each error, only if it is true.
    ensures refused { IfErr result (HasNoName bytes.now) }
{
    if let Err(error) = parse_bytes(alloc, bytes) {
        return Err(NameError::Cbor(error));
    }
    let Ok(found) = follow(alloc, bytes, steps, Picture::plain()) else {
        return Err(NameError::Cbor(Error::Memory));
    };
    let Some(part) = found.first() else {
        return Err(NameError::NoPart);
    };
    if has_each(steps) {
        return Ok(None);
    }
    match naming.notes(alloc, bytes) {
        Ok(notes) => Ok(notes.name_before(part.named)),
        Err(_) => Err(NameError::Cbor(Error::Memory)),
    }
}
