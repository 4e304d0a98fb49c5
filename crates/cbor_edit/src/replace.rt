//! Replaces a part of an item by other bytes, and writes the new lengths into the heads of the byte
//! strings around it.
ghost use Rattle.std.specs.Prelude.{◌≡◌, ℕ, ◌≤◌, List, IfOk, IfSome};
ghost use Rattle.cbor_grammar.specs.declared.argument.Argument.{Argument};
ghost use Rattle.cbor_edit.specs.Edited.{Edited, bytes_of};
ghost use Rattle.cbor_edit.specs.mirror.Heads.{HasHead};

use crate::place::EnclosedSpan;
use crate::width::{head_bytes, kept};
use cbor_grammar::IntegerWidth;
use cbor_grammar::argument::Argument;
use cbor_grammar::head::ItemHead;
use cbor_grammar::major::Major;
use cbor_grammar::strings::StringKind;
use cbor_trace::{Span, head_at};
use std::alloc::{AllocError, Global};

/// The head of a byte string of definite length.
#[derive(Clone, Copy)]
struct StringHead {
    len: u64,
    width: IntegerWidth,
    /// Where it ends.
    inner: usize,
}

/// The head of the byte string of definite length that begins at a place.
fn string_at(bytes: &[u8], start: usize) -> Option<StringHead>
    ensures { IfSome result
        (λ s. HasHead bytes.now start 2 (Argument.Number s.len s.width) s.inner) }
{
    let (head, inner) = head_at(bytes, start)?;
    let ItemHead::String(kind, count) = head else {
        return None;
    };
    let StringKind::Bytes = kind else {
        return None;
    };
    let Argument::Number(len, width) = count else {
        return None;
    };
    Some(StringHead { len, width, inner })
}

/// What stands in place of a span.
#[derive(Drop)]
struct Patch {
    span: Span,
    new: Vec<u8>,
}

impl Patch {
    /// The bytes of a span around this one, with the new bytes in place; `None` if it is not around
    /// this one.
    fn within(
        &self,
        alloc: Global,
        bytes: &[u8],
        outer: Span,
    ) -> Result<Option<Vec<u8>>, AllocError>
        ensures { (old part : List ℕ)
            → Edited old part (bytes_of self.now.span bytes.now) self.now.new.items
            → IfOk result (λ found. IfSome found
            (λ new. Edited old part (bytes_of outer bytes.now) new.items)) }
    {
        let Span { start, end } = self.span;
        if start < outer.start || end < start || outer.end < end || bytes.len() < outer.end {
            return Ok(None);
        }
        let mut new = Vec::from_slice(alloc, &bytes[outer.start..start])?;
        new.extend_from_slice(&self.new)?;
        new.extend_from_slice(&bytes[end..outer.end])?;
        Ok(Some(new))
    }

    /// What stands in place of the byte string of definite length whose head begins at a place, and
    /// in whose content this is; `None` if it is not.
    fn in_string(
        &self,
        alloc: Global,
        bytes: &[u8],
        start: usize,
    ) -> Result<Option<Patch>, AllocError>
        ensures { (old part : List ℕ)
            → Edited old part (bytes_of self.now.span bytes.now) self.now.new.items
            → IfOk result (λ found. IfSome found
            (λ p. Edited old part (bytes_of p.span bytes.now) p.new.items)) }
    {
        let Some(head) = string_at(bytes, start) else {
            return Ok(None);
        };
        if ((bytes.len() - head.inner) as u64) < head.len {
            return Ok(None);
        }
        let inner = head.inner;
        let end = inner + head.len as usize;
        let Some(content) = self.within(alloc, bytes, Span { start: inner, end })? else {
            return Ok(None);
        };
        let len = content.len() as u64;
        let mut new = head_bytes(alloc, Major::Bytes, len, kept(head.width, len))?;
        new.extend_from_slice(&content)?;
        Ok(Some(Patch {
            span: Span { start, end },
            new,
        }))
    }
}

/// Returns the bytes with a part in place of those at a place, and the new lengths in the heads of
/// the byte strings around it; `None` if these are no byte strings around it.
pub fn replaced(
    alloc: Global,
    bytes: &[u8],
    place: &EnclosedSpan,
    part: &[u8],
) -> Result<Option<Vec<u8>>, AllocError>
    // All bytes are the same but for the part, and the lengths of these byte strings.
    ensures edited { IfOk result (λ found. IfSome found
        (λ new. Edited (bytes_of place.now.span bytes.now) part.now bytes.now new.items)) }
{
    let mut patch = Patch {
        span: place.span,
        new: Vec::from_slice(alloc, part)?,
    };
    'strings: for start in place.around.iter().rev() {
        patch = match patch.in_string(alloc, bytes, *start)? {
            Some(outer) => outer,
            None => return Ok(None),
        };
    }
    let whole = Span {
        start: 0,
        end: bytes.len(),
    };
    patch.within(alloc, bytes, whole)
}
