//! The C calls `cbor_diag_part` and `cbor_diag_parts`: find the first part of an item that a path
//! leads to, or all of them, and return where they are (`Part`).
ghost use Rattle.std.specs.Prelude.{◌≡◌, ◌<◌, ◌^◌, length, IfOk, IfErr};
ghost use Rattle.std.specs.List.{AllByRecursion};
ghost use Rattle.cbor_paths.specs.Followed.{IsPart};
ghost use Rattle.cbor_diag_c.specs.Answers.{IfLength, IfError, IsMinus};
ghost use Rattle.cbor_diag_c.specs.Names.{IsOneItem, IsNoNamed};
ghost use Rattle.cbor_diag_c.specs.Parts.{part_error, IsPartAt, IsNoPart};
ghost use Rattle.cbor_diag_c.specs.Places.{no_place};

use crate::answer::refused;
use crate::faults::{NO_PLACE, in_bytes};
use crate::names::NO_PART;
use cbor_grammar::Error;
use cbor_inside::Inside;
use cbor_inspect::{NameError, steps_of};
use cbor_paths::{Found, Picture, follow};
use std::alloc::Global;

/// A part of an item.
#[repr(C)]
#[derive(Clone, Copy)]
pub struct Part {
    /// Where its key begins, if it is the value of a key in a map, and otherwise where it begins.
    pub key: usize,
    /// Where it begins, with its tags.
    pub start: usize,
    /// Where it ends.
    pub end: usize,
}

/// Returns the parts of the input that the path leads to, in order.
pub(crate) fn parts_at(alloc: Global, input: &[u8], path: &[u8]) -> Result<Vec<Found>, NameError>
    ensures item { IfOk result (λ _. IsOneItem input.now) }
    ensures parts { IfOk result (λ found. AllByRecursion (IsPart input.now) found.items) }
    ensures refused { IfErr result (IsNoNamed input.now path.now) }
{
    if let Some((error, _)) = in_bytes(input) {
        return Err(NameError::Cbor(error));
    }
    let Ok(path) = str::from_utf8(path) else {
        return Err(NameError::Cbor(Error::Utf8));
    };
    let Ok(steps) = steps_of(alloc, path) else {
        return Err(NameError::Cbor(Error::Memory));
    };
    let picture = Picture {
        inside: Some(Inside::TAGGED),
        ..Picture::plain()
    };
    match follow(alloc, input, &steps, picture) {
        Ok(found) => Ok(found),
        Err(_) => Err(NameError::Cbor(Error::Memory)),
    }
}

/// Returns the part of the input that the path leads to, the first one with `*`.
pub(crate) fn part_at(alloc: Global, input: &[u8], path: &[u8]) -> Result<Found, NameError>
    ensures item { IfOk result (λ _. IsOneItem input.now) }
    ensures part { IfOk result (IsPart input.now) }
    ensures refused { IfErr result (IsNoNamed input.now path.now) }
{
    let found = parts_at(alloc, input, path)?;
    match found.first() {
        Some(part) => Ok(*part),
        None => Err(NameError::NoPart),
    }
}

/// Returns minus the number of the error for which there is no part.
pub(crate) fn no_part(error: NameError) -> i64
    ensures { IsMinus (part_error error) result }
{
    match error {
        NameError::Cbor(error) => refused(error),
        NameError::NoPart => NO_PART,
    }
}

/// Finds the part of an item that a path leads to: steps joined by `/`, as `cborcat -p` reads them,
/// but for names. With `*` it is the first of the parts.
///
/// Returns 0, and sets `start` and `end` to where in the input the part begins and ends, with its
/// tags. Otherwise returns minus the number of the error, and both are 2^64 - 1: the error for
/// which the input is no item; `Utf8` also for a path that is not UTF-8; `Memory`; or 16 for a path
/// that leads to no part.
#[unsafe(no_mangle)]
pub extern "C" fn cbor_diag_part(
    alloc: Global,
    input: &[u8],
    path: &[u8],
    start: &mut usize,
    end: &mut usize,
) -> i64
    // The part is an item of the bytes, where the path leads.
    ensures part { IfLength result (λ n. (n ≡ 0) × IsPartAt input.now start.new end.new) }
    ensures item { IfLength result (λ n. IsOneItem input.now) }
    ensures error { IfError result (IsNoPart input.now path.now) }
    ensures no_place { IfError result (λ n. (start.new ≡ no_place) × (end.new ≡ no_place)) }
{
    *start = NO_PLACE;
    *end = NO_PLACE;
    match part_at(alloc, input, path) {
        Ok(part) => {
            *start = part.span.start;
            *end = part.span.end;
            0
        }
        Err(error) => no_part(error),
    }
}

/// Finds all parts of an item that a path leads to, which are several with `*`.
///
/// Returns how many there are, which may be 0, and writes as many of them, in order, as fit
/// `parts`. Otherwise returns minus the number of the error of `cbor_diag_part`, but 16, and then
/// writes nothing.
#[unsafe(no_mangle)]
pub extern "C" fn cbor_diag_parts(
    alloc: Global,
    input: &[u8],
    path: &[u8],
    parts: &mut [Part],
) -> i64
    ensures item { IfLength result (λ n. IsOneItem input.now) }
    ensures error { IfError result (IsNoPart input.now path.now) }
    ensures unchanged { IfError result (λ n. parts.new ≡ parts.old) }
{
    let found = match parts_at(alloc, input, path) {
        Ok(found) => found,
        Err(error) => return no_part(error),
    };
    for (slot, part) in parts.iter_mut().zip(&found) {
        *slot = Part {
            key: part.named,
            start: part.span.start,
            end: part.span.end,
        };
    }
    found.len() as i64
}
