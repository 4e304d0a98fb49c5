//! Returns the notes of a dump on shared values and on references to them (tags 28 and 29 of the
//! IANA registry).
ghost use Rattle.std.specs.Prelude.{◌≡◌, IfOk};
ghost use Rattle.std.specs.String.{string_bytes};
ghost use Rattle.cbor_dump.specs.Notes as spec;
ghost use Rattle.cbor_dump.specs.mirror.NotesView.{value_view};

use super::in_brackets;
use super::value::{Atom, Value};
use cbor_notes::grouped;
use std::alloc::{AllocError, Global};

/// The note on a value that is shared: its number, which is how many were shared before it.
pub(super) fn shareable_note(alloc: Global, number: u64) -> Result<String, AllocError>
    ensures { IfOk result (λ note. string_bytes note ≡ spec.shareable_note number) }
{
    let number = grouped(alloc, u128::from(number), false)?;
    in_brackets(alloc, "reference", &number)
}

/// The note on a reference to a shared value: its number, and whether it is known.
pub(super) fn reference_note(
    alloc: Global,
    known: u64,
    value: Value<'_>,
) -> Result<String, AllocError>
    ensures { IfOk result (λ note. string_bytes note
        ≡ spec.reference_note known (value_view value.entry)) }
{
    let Value::Atom(Atom::Integer(number)) = value else {
        return String::from_str(alloc, "invalid type for shared ref");
    };
    let digits = grouped(alloc, u128::from(number), false)?;
    let mut note = in_brackets(alloc, "reference-to", &digits)?;
    let unknown = if number < known {
        ""
    } else {
        ", not previously shared"
    };
    note.push_str(unknown)?;
    Ok(note)
}
