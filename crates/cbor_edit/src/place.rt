//! `EnclosedSpan`: bytes of an item, and the byte strings that they are in. `Change`: such bytes,
//! and the new bytes for them. `push_changed`: copies bytes, with some places changed.
ghost use Rattle.std.specs.Prelude.{◌≡◌, ℕ, ◌≤◌, ◌++◌, List, length, IfOk, IfSome};
ghost use Rattle.cbor_edit.specs.Edited.{changed};

use cbor_trace::Span;
use std::alloc::AllocError;

/// Bytes of an item, and the byte strings of definite length that they are in.
#[derive(Drop)]
pub struct EnclosedSpan {
    /// Where the heads of the byte strings begin, the outermost first.
    pub around: Vec<usize>,
    /// The bytes.
    pub span: Span,
}

/// Bytes that take the place of others.
#[derive(Drop)]
pub struct Change {
    pub place: EnclosedSpan,
    pub new: Vec<u8>,
}

/// Appends the bytes from a place on with these changes, up to the end of the last; `None` if they
/// are not in order, one after the other.
pub(crate) fn push_changed(
    out: &mut Vec<u8>,
    bytes: &[u8],
    from: usize,
    changes: &[Change],
) -> Result<Option<()>, AllocError>
    ensures { IfOk result (λ found. IfSome found (λ _.
        out.new.items ≡ out.old.items ++ changed bytes.now from changes.now)) }
{
    let mut at = from;
    'changes: for change in changes {
        let Span { start, end } = change.place.span;
        if start < at || end < start || bytes.len() < end {
            return Ok(None);
        }
        out.extend_from_slice(&bytes[at..start])?;
        out.extend_from_slice(&change.new)?;
        at = end;
    }
    Ok(Some(()))
}
