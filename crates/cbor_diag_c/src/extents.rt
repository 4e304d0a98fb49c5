//! The C call `cbor_diag_extent`: returns whether bytes begin with an item, are truncated, or are
//! malformed, and how many bytes decide this.
ghost use Rattle.std.specs.Prelude.{◌≡◌, ◌<◌, ◌^◌, ℕ, List, length};
ghost use Rattle.cbor_bytes.specs.Extent.{IfItem, IsExtent};
ghost use Rattle.cbor_bytes.specs.declared.skip.answer.Extent.{Extent as Beginning};
ghost use Rattle.cbor_diag_c.specs.Beginnings.{IsItemOf, IsCutOrFault, IsReturned};
ghost use Rattle.cbor_diag_c.specs.Answers.{IfLength, IfError};

use crate::answer::refused;
use cbor_bytes::{Extent, extent};
use cbor_grammar::Error;

/// Returns the result for a beginning of `len` bytes, and sets `end` to how many decide it. An
/// item is shorter than 2^63 bytes.
pub(crate) fn answer(beginning: Extent, len: usize, end: &mut usize) -> i64
    ensures returned { IfItem beginning (λ n. n < 2 ^ 63)
        → IsReturned beginning len result end.new }
    ensures item { (b : List ℕ) → IsExtent b beginning → length b < 2 ^ 63
        → IfLength result (λ n. IsItemOf b n end.new) }
    ensures error { (b : List ℕ) → IsExtent b beginning → length b ≡ len
        → IfError result (λ n. IsCutOrFault b n end.new) }
    ensures only { (b : List ℕ) (other : Beginning) → IsExtent b beginning → length b < 2 ^ 63
        → length b ≡ len → beginning ≡ other → IsReturned other (length b) result end.new }
{
    match beginning {
        Extent::Item(length) => {
            *end = length;
            length.min(i64::MAX as usize) as i64
        }
        Extent::Cut => {
            *end = len;
            refused(Error::CutShort)
        }
        Extent::Fault { error, end: shown } => {
            *end = shown;
            refused(error)
        }
    }
}

/// Reports how the bytes begin. It allocates nothing.
///
/// Returns the length of the item at the front, or minus the number of the error: `CutShort` if the
/// bytes end before the item does and before any other error, otherwise the first error from the
/// left. Sets `end` to the number of bytes that decide this: the length of the item, that of the
/// input if it is cut, or the first bytes that have the error.
#[unsafe(no_mangle)]
pub extern "C" fn cbor_diag_extent(input: &[u8], end: &mut usize) -> i64
    ensures item { IfLength result (λ n. IsItemOf input.now n end.new) }
    ensures error { IfError result (λ n. IsCutOrFault input.now n end.new) }
{
    answer(extent(input), input.len(), end)
}
