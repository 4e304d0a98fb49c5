//! Finds the first error in diagnostic notation, and its place (`diag_fault`).
ghost use Rattle.std.specs.Prelude.{◌≡◌, ◌≤◌, length, None, IfOk, IfErr, IfSome, IfNone};
ghost use Rattle.cbor_grammar.specs.Item.{Item};
ghost use Rattle.cbor_grammar.specs.Notation.{IsNotation};
ghost use Rattle.cbor_grammar.specs.NotationRefused.{IsNoNotation};

use super::whole_text;
use cbor_grammar::{Error, Result};
use cbor_notation::cursor::Cursor;
use std::alloc::Global;

/// Finds where diagnostic notation is wrong: the error that [`parse_diag`] returns, and its place.
/// If `parse_diag` reads the text, returns `None`.
///
/// The place is the number of bytes before the first byte with which the text cannot go on. If more
/// text is expected, as in `[1, 2` or `"abc`, it is the length of the text. An error in digits is
/// at their closing quote. An error in a number is at its last byte or behind it: `300_0` does not
/// fit its width, but `300_03` is a number. docs/NOTATION.md has the rules.
///
/// The call reads the text once, and allocates what it reads. Returns `Memory` if an allocation
/// fails.
///
/// ```rust
/// use cbor_diag::{Error, diag_fault};
///
/// // After `1` the text cannot go on with `.`.
/// assert_eq!(rt; diag_fault(alloc, "[1.5]")?, Some((Error::Notation, 2)));
/// assert_eq!(rt; diag_fault(alloc, "[300_0]")?, Some((Error::PastWidth, 6)));
/// assert_eq!(rt; diag_fault(alloc, "[1, 2")?, Some((Error::Notation, 5)));
/// assert_eq!(rt; diag_fault(alloc, "[1, 2]")?, None);
/// ```
///
/// [`parse_diag`]: crate::parse_diag
pub fn diag_fault(alloc: Global, text: &str) -> Result<Option<(Error, usize)>>
    // `None`, if and only if the text is an item with no item below level 128.
    ensures none { IfOk result (λ found. IfNone found ((i : Item) × IsNotation text.now i)) }
    ensures every_item { (i : Item) → IsNotation text.now i
        → IfOk result (λ found. found ≡ None) }

    // Otherwise the text is not an item, the error holds for it, and the place is in the text or
    // at its end.
    ensures fault { IfOk result (λ found. IfSome found (λ x. IsNoNotation text.now x.0
        × (x.1 ≤ length text.now))) }
    ensures refused { IfErr result (λ e. e ≡ Error.Memory) }
{
    let mut rest = Cursor::new(text.as_bytes());
    let error = match whole_text(alloc, &mut rest) {
        Ok(_) => return Ok(None),
        Err(Error::Memory) => return Err(Error::Memory),
        Err(error) => error,
    };
    let place = text.len().saturating_sub(rest.rest().len());
    Ok(Some((error, place)))
}
