//! The C call `cbor_diag_value`: finds the part that a path leads to, and returns its kind, its
//! value and its innermost tag, and where its content is (`Value`).
ghost use Rattle.std.specs.Prelude.{◌≡◌, ◌≤◌, length, IfSome};
ghost use Rattle.cbor_diag_c.specs.Answers.{IfLength, IfError};
ghost use Rattle.cbor_diag_c.specs.Names.{IsOneItem};
ghost use Rattle.cbor_diag_c.specs.Parts.{IsNoPart};

use crate::heads::{Head, TAG, head_in};
use crate::parts::{no_part, part_at};
use cbor_inspect::NameError;
use cbor_paths::{Found, bytes_from};
use std::alloc::Global;

/// What C gets of the value of a part.
#[repr(C)]
#[derive(Clone, Copy)]
pub struct Value {
    /// Of the head below its tags: the major type, or 8 for a float.
    pub kind: u8,
    /// 1 for an indefinite length, and otherwise 0.
    pub indefinite: u8,
    /// 1 if it has tags, and otherwise 0.
    pub tagged: u8,
    /// The innermost of its tags.
    pub tag: u64,
    /// The argument of that head.
    pub argument: u64,
    /// The number of a float.
    pub number: f64,
    /// Where the content of a string of definite length begins, and otherwise the part.
    pub start: usize,
    /// Where that ends.
    pub end: usize,
}

/// An item below its tags.
#[derive(Clone, Copy)]
struct Below {
    head: Head,
    /// Where its head ends.
    inner: usize,
    /// The innermost of its tags.
    tag: Option<u64>,
}

/// The item below the tags of that which begins at a place.
fn below_tags(bytes: &[u8], start: usize) -> Option<Below> {
    let (mut at, mut tag) = (start, None);
    for _ in 0..=u8::MAX {
        let (head, len) = head_in(bytes_from(bytes, at)).ok()?;
        at = at.saturating_add(len);
        if head.kind != TAG {
            return Some(Below {
                head,
                inner: at,
                tag,
            });
        }
        tag = Some(head.argument);
    }
    None
}

/// Where the content of a string of definite length begins and ends, and otherwise the part.
fn content(below: Below, part: Found) -> (usize, usize) {
    match below.head.kind {
        2 | 3 if below.head.indefinite == 0 => {
            let len = usize::try_from(below.head.argument).unwrap_or(usize::MAX);
            (below.inner, below.inner.saturating_add(len))
        }
        _ => (part.span.start, part.span.end),
    }
}

/// The value of a part of the bytes.
fn value_of(bytes: &[u8], part: Found) -> Option<Value>
    ensures { IfSome result (λ v. (v.start ≤ v.end) × (v.end ≤ length bytes.now)) }
{
    let below = below_tags(bytes, part.span.start)?;
    let (start, end) = content(below, part);
    // It is within the bytes.
    if start > end || end > bytes.len() {
        return None;
    }
    Some(Value {
        kind: below.head.kind,
        indefinite: below.head.indefinite,
        tagged: u8::from(below.tag.is_some()),
        tag: below.tag.unwrap_or(0),
        argument: below.head.argument,
        number: below.head.number,
        start,
        end,
    })
}

/// Finds the value of the part of an item that a path leads to, below its tags.
///
/// Returns 0, and sets `value`: its kind, its argument and its number as `cbor_diag_head` has them,
/// its innermost tag, and where its content is: of a string of definite length its bytes, and of
/// any other part all of it. Otherwise returns minus the number of the error, as `cbor_diag_part`
/// does, and `value` is unchanged.
#[unsafe(no_mangle)]
pub extern "C" fn cbor_diag_value(
    alloc: Global,
    input: &[u8],
    path: &[u8],
    value: &mut Value,
) -> i64
    ensures item { IfLength result (λ n. (n ≡ 0) × IsOneItem input.now) }
    ensures within { IfLength result (λ n.
        (value.new.start ≤ value.new.end) × (value.new.end ≤ length input.now)) }
    ensures error { IfError result (IsNoPart input.now path.now) }
    ensures unchanged { IfError result (λ n. value.new ≡ value.old) }
{
    let part = match part_at(alloc, input, path) {
        Ok(part) => part,
        Err(error) => return no_part(error),
    };
    match value_of(input, part) {
        Some(found) => {
            *value = found;
            0
        }
        // A part has a head.
        None => no_part(NameError::NoPart),
    }
}
