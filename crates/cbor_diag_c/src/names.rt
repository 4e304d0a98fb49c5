//! The C call `cbor_diag_name_at`: writes the name of the part that a path leads to.
ghost use Rattle.std.specs.Prelude.{◌≡◌, ℕ, List, length, IfOk, IfErr};
ghost use Rattle.cbor_diag_c.specs.Answers.{IfLength, IfError, written};
ghost use Rattle.cbor_diag_c.specs.Names.{IsOneItem, IsNoName, IsNoNamed};

use crate::answer::{refused, write};
use cbor_grammar::Error;
use cbor_inspect::{NameError, Naming, name_at, steps_of};
use cbor_names::{Names, Type, known_names};
use std::alloc::Global;

/// What is returned for a path that leads to no part of the item.
pub(crate) const NO_PART: i64 = -16;

/// What is returned for a name of no type.
pub(crate) const NO_TYPE: i64 = -17;

/// Returns the type of this name.
pub(crate) fn type_of(names: &Names, name: &[u8]) -> Option<Type> {
    match str::from_utf8(name) {
        Ok(name) => names.of(name),
        Err(_) => None,
    }
}

/// Returns the name of the part of the input that the path leads to; empty if it has none.
#[tactic(auto, using(crate::proofs::NameErrors::no_name))]
fn name_of<'n>(
    alloc: Global,
    naming: Naming<'n>,
    input: &[u8],
    path: &[u8],
) -> Result<&'n str, NameError>
    ensures item { IfOk result (λ _. IsOneItem input.now) }
    ensures refused { IfErr result (IsNoNamed input.now path.now) }
{
    let Ok(path) = str::from_utf8(path) else {
        return Err(NameError::Cbor(Error::Utf8));
    };
    let Ok(steps) = steps_of(alloc, path) else {
        return Err(NameError::Cbor(Error::Memory));
    };
    match name_at(alloc, naming, input, &steps) {
        Ok(Some(name)) => Ok(name),
        Ok(None) => Ok(""),
        Err(error) => Err(error),
    }
}

/// Writes the name of the part of an item that a path leads to, by the tables that come with the
/// library, in ASCII. `kind` is the name of the type of the outermost item, or empty if that is not
/// known.
///
/// Returns the length of the name, and writes as much of it as fits into `output`; 0 if the part
/// has none. Otherwise minus the number of the error, and then nothing is written: that for which
/// the input is no item; `Utf8` also for a path that is not UTF-8; `Memory`; 16 for a path that
/// leads to no part; or 17 for a name of no type.
#[unsafe(no_mangle)]
pub extern "C" fn cbor_diag_name_at(
    alloc: Global,
    input: &[u8],
    path: &[u8],
    kind: &[u8],
    output: &mut [u8],
) -> i64
    ensures item { IfLength result (λ n. IsOneItem input.now) }
    ensures name { IfLength result (λ n. (name : List ℕ)
        × (n ≡ length name) × (output.new ≡ written name output.old)) }
    ensures error { IfError result (IsNoName input.now path.now kind.now) }
    ensures unchanged { IfError result (λ n. output.new ≡ output.old) }
{
    let Ok(names) = known_names(alloc) else {
        return refused(Error::Memory);
    };
    let mut outer = None;
    if !kind.is_empty() {
        outer = type_of(&names, kind);
        if outer.is_none() {
            return NO_TYPE;
        }
    }
    match name_of(alloc, Naming::new(&names, outer), input, path) {
        Ok(name) => write(name.as_bytes(), output),
        Err(NameError::Cbor(error)) => refused(error),
        Err(NameError::NoPart) => NO_PART,
    }
}
