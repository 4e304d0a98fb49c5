//! `extent`: reports whether bytes begin with an item, are truncated or have an error. It builds no
//! item and allocates nothing. `after_front` returns the bytes after the item at the front.
//!
//! Both go from head to head; `after_parts` calls itself for a container in a container. It keeps
//! how many parts of a container are still to come. The content of strings is skipped, but texts
//! are tested for UTF-8. Most private functions take the remaining bytes. They return the bytes
//! after what they skip, or why they stop.
mod answer;
mod containers;
mod due;
mod held;
mod packed;
mod progress;
mod scanner;
mod to_come;

ghost use Rattle.std.specs.Prelude.{◌≡◌, ◌≢◌, ℕ, ◌+◌, ◌-◌, ◌<◌, ◌≤◌, List, ◌++◌, length, take, ◌↔◌};
ghost use Rattle.std.specs.Prelude.{IsTrue, IsSome, None, IfOk, IfErr, IfSome, IfNone, Ok, Err};
ghost use Rattle.cbor_grammar.specs.declared.error.Error.{Error};
ghost use Rattle.cbor_grammar.specs.declared.width.IntegerWidth.{IntegerWidth};
ghost use Rattle.cbor_grammar.specs.Item.{Item};
ghost use Rattle.cbor_grammar.specs.WellFormed.{deepest, levels_left};
ghost use Rattle.cbor_grammar.specs.Facts.{BeginsWithItem, IsCut, HasFault};
ghost use Rattle.cbor_bytes.specs.Extent.{IfItem, IfFault, FaultEnds, IsExtent};
ghost use Rattle.cbor_grammar.specs.Reading.{opened, read_item};
ghost use Rattle.cbor_bytes.specs.mirror.Skipping.{here, Goes, StopsSo, stop_of};
ghost use Rattle.cbor_bytes.specs.mirror.Skipping.{skip_content, skip_chunks};
ghost use Rattle.cbor_bytes.specs.mirror.Skipping.{after_chunk_length};
ghost use Rattle.cbor_bytes.specs.mirror.Skipping.{skip_item, skip_body, skip_parts, begun};

use crate::{head, strings};
pub use answer::Extent;
use cbor_grammar::argument::Argument;
use cbor_grammar::head::ItemHead;
use cbor_grammar::level::DEEPEST;
use cbor_grammar::strings::StringKind;
use cbor_grammar::{Error, IntegerWidth};
pub use scanner::Scanner;
use to_come::ToCome;

/// Why there is no complete item.
#[derive(Clone, Copy)]
enum Stop {
    /// The bytes end.
    Cut,
    /// An error, and how many bytes follow the first bytes that have it.
    Fault { error: Error, after: usize },
}

impl Stop {
    /// The reason to stop at a head with this error at the front. Its first byte has the error.
    fn in_head(error: Error, bytes: &[u8]) -> Stop
        ensures { result ≡ stop_of error (length bytes.now - 1) }
    {
        match error {
            Error::CutShort => Stop::Cut,
            _ => {
                let after = bytes.len().saturating_sub(1);
                Stop::Fault { error, after }
            }
        }
    }
}

/// The bytes after the content of a string of this length. Its head is already read.
fn after_content(kind: StringKind, count: u64, bytes: &[u8]) -> Result<&[u8], Stop>
    ensures goes { (w : IntegerWidth) → IfOk result (λ rest.
        Goes (skip_content kind count w) here bytes.now rest.now) }
    ensures stops { (w : IntegerWidth) → IfErr result (λ stop.
        StopsSo (skip_content kind count w) bytes.now stop) }
    ensures shorter { IfOk result (λ rest. length rest.now ≤ length bytes.now) }
{
    if (bytes.len() as u64) < count {
        return Err(Stop::Cut);
    }
    let (content, rest) = bytes.split_at(count as usize);
    if kind.may_hold(content) {
        return Ok(rest);
    }
    let after = rest.len();
    let error = Error::Utf8;
    Err(Stop::Fault { error, after })
}

/// The length of the next chunk of an indefinite-length string, or `None` at its break, and the
/// bytes after that head.
fn read_chunk_length(
    kind: StringKind,
    bytes: &[u8],
) -> Result<(Option<(u64, IntegerWidth)>, &[u8]), Stop>
    ensures goes { IfOk result (λ x. Goes (skip_chunks kind)
        (after_chunk_length kind x.0) bytes.now x.1.now) }
    ensures stops { IfErr result (λ stop. StopsSo (skip_chunks kind) bytes.now stop) }
    ensures shorter { IfOk result (λ x. length x.1.now < length bytes.now) }
    ensures few { IfErr result (λ stop. stop ≡ Stop.Cut → length bytes.now ≤ 8) }
{
    match strings::read_chunk_length(kind.major(), bytes) {
        Ok(read) => Ok(read),
        Err(error) => Err(Stop::in_head(error, bytes)),
    }
}

/// The bytes after the break of an indefinite-length string. Its opening byte is already read.
fn after_chunks(kind: StringKind, bytes: &[u8]) -> Result<&[u8], Stop>
    ensures goes { IfOk result (λ rest. Goes (skip_chunks kind) here bytes.now rest.now) }
    ensures stops { IfErr result (λ stop. StopsSo (skip_chunks kind) bytes.now stop) }
    ensures shorter { IfOk result (λ rest. length rest.now ≤ length bytes.now) }
{
    let mut rest = bytes;
    'chunks: loop {
        let (len, after) = read_chunk_length(kind, rest)?;
        let Some((count, _)) = len else {
            return Ok(after);
        };
        rest = after_content(kind, count, after)?;
    }
}

/// The head of an item with `levels` left for it, and the bytes after the head.
#[inline(always)]
fn read_item_head(bytes: &[u8], levels: usize) -> Result<(ItemHead, &[u8]), Stop>
    ensures goes { IfOk result (λ x.
        Goes (skip_item levels) (skip_body (levels - 1) x.0) bytes.now x.1.now) }
    ensures stops { IfErr result (λ stop. StopsSo (skip_item levels) bytes.now stop) }
    ensures shorter { IfOk result (λ x. length x.1.now < length bytes.now) }
    ensures level { IfOk result (λ x. 0 < levels) }
    ensures few { IfErr result (λ stop. stop ≡ Stop.Cut → length bytes.now ≤ 8) }
{
    match head::read_item_head(bytes, levels) {
        Ok(read) => Ok(read),
        Err(error) => Err(Stop::in_head(error, bytes)),
    }
}

/// The bytes after a string of this length, or one in chunks. Its head is already read.
#[inline(always)]
fn after_string(kind: StringKind, len: Argument, bytes: &[u8]) -> Result<&[u8], Stop>
    ensures goes { (left : ℕ) → IfOk result (λ rest. Goes (skip_body left
        (ItemHead.String kind len)) here bytes.now rest.now) }
    ensures stops { (left : ℕ) → IfErr result (λ stop. StopsSo (skip_body left
        (ItemHead.String kind len)) bytes.now stop) }
    ensures shorter { IfOk result (λ rest. length rest.now ≤ length bytes.now) }
{
    match len {
        Argument::Number(count, _) => after_content(kind, count, bytes),
        Argument::Indefinite => after_chunks(kind, bytes),
    }
}

/// The bytes after an item without parts. Its head is already read.
#[inline(always)]
fn after_atom(head: ItemHead, bytes: &[u8]) -> Result<&[u8], Stop>
    requires { opened head ≡ None }
    ensures goes { (left : ℕ) → IfOk result
        (λ rest. Goes (skip_body left head) here bytes.now rest.now) }
    ensures stops { (left : ℕ) → IfErr result
        (λ stop. StopsSo (skip_body left head) bytes.now stop) }
    ensures shorter { IfOk result (λ rest. length rest.now ≤ length bytes.now) }
{
    match head {
        ItemHead::String(kind, len) => after_string(kind, len, bytes),
        _ => Ok(bytes),
    }
}

/// What is still to come of an item with `levels` left for it, and the bytes after its head. It is
/// all of a container if the head opens one, otherwise nothing. Inlined into the loops of `extent`
/// and `Scanner`.
#[inline(always)]
fn read_part(bytes: &[u8], levels: usize) -> Result<(Option<ToCome>, &[u8]), Stop>
    ensures goes { IfOk result
        (λ x. Goes (skip_item levels) (begun (levels - 1) x.0) bytes.now x.1.now) }
    ensures stops { IfErr result (λ stop. StopsSo (skip_item levels) bytes.now stop) }
    ensures shorter { IfOk result (λ x. length x.1.now < length bytes.now) }
    ensures level { IfOk result (λ x. 0 < levels) }
{
    let (head, rest) = read_item_head(bytes, levels)?;
    if let Some(parts) = ToCome::new(head) {
        return Ok((Some(parts), rest));
    }
    let rest = after_atom(head, rest)?;
    Ok((None, rest))
}

/// The bytes after the item at the front, if it is complete and has no parts.
fn after_whole(bytes: &[u8]) -> Option<&[u8]>
    ensures { IfSome result (λ rest. Goes (skip_item deepest) here bytes.now rest.now) }
{
    match read_part(bytes, usize::from(DEEPEST)) {
        Ok((None, rest)) => Some(rest),
        _ => None,
    }
}

/// The bytes after the parts that are still to come of an item at `level`. The call stack keeps the
/// containers around it, since an array for them would be cleared for each item. Not inlined: an
/// item without parts needs no frame.
#[inline(never)]
fn after_parts(parts: ToCome, bytes: &[u8], level: u8) -> Result<&[u8], Stop>
    requires { level ≤ deepest }
    ensures goes { IfOk result (λ rest.
        Goes (skip_parts (deepest - level) parts) here bytes.now rest.now) }
    ensures stops { IfErr result (λ stop.
        StopsSo (skip_parts (deepest - level) parts) bytes.now stop) }
    ensures shorter { IfOk result (λ rest. length rest.now ≤ length bytes.now) }
{
    let mut parts = parts;
    let mut rest = bytes;
    'parts: loop {
        if let Some(after) = parts.after_end(rest) {
            return Ok(after);
        }
        let (inner, after) = read_part(rest, usize::from(DEEPEST - level))?;
        parts = parts.after_part();
        rest = after;
        if let Some(inner) = inner {
            rest = after_parts(inner, after, level + 1)?;
        }
    }
}

/// The bytes after the item at the front, read from `level`.
fn after_item(bytes: &[u8], level: u8) -> Result<&[u8], Stop>
    requires from { 1 ≤ level }
    requires to { level ≤ deepest + 1 }
    ensures goes { IfOk result (λ rest.
        Goes (skip_item (levels_left level)) here bytes.now rest.now) }
    ensures stops { IfErr result (λ stop. StopsSo (skip_item (levels_left level)) bytes.now stop) }
{
    let (parts, rest) = read_part(bytes, usize::from(DEEPEST + 1 - level))?;
    match parts {
        Some(parts) => after_parts(parts, rest, level),
        None => Ok(rest),
    }
}

/// The bytes after the item at the front, read from `level`, or `None` if there is no item.
pub fn after_front(bytes: &[u8], level: u8) -> Option<&[u8]>
    requires from { 1 ≤ level }
    requires to { level ≤ deepest + 1 }
    ensures some { IfSome result (λ rest. (i : Item)
        × (read_item (levels_left level) bytes.now ≡ Ok (i, rest.now))) }
    ensures none { IfNone result ((e : Error)
        × (read_item (levels_left level) bytes.now ≡ Err e)) }
{
    match after_item(bytes, level) {
        Ok(rest) => Some(rest),
        Err(_) => None,
    }
}

/// How the bytes begin.
fn begins(bytes: &[u8]) -> Extent
    ensures { IsExtent bytes.now result }
{
    match after_item(bytes, 1) {
        Ok(rest) => Extent::Item(bytes.len() - rest.len()),
        Err(Stop::Cut) => Extent::Cut,
        Err(Stop::Fault { error, after }) => {
            let end = bytes.len() - after;
            Extent::Fault { error, end }
        }
    }
}

/// Reports how the bytes begin, by the rules of [`parse_bytes_partial`]. It allocates nothing.
///
/// Returns `Item` with the length of the item; `Cut` if the bytes end before the item does and
/// before any error; or `Fault` with the first error from the left. The first `end` bytes have this
/// error, and any fewer are truncated. For `Head` and `TooDeep`, the last of them is the wrong
/// byte. For `Utf8`, they end with the text that is not UTF-8.
///
/// ```rust
/// use cbor_diag::{Error, Extent, extent};
///
/// assert_eq!(rt; extent(b"\x82\x01\x02\xff"), Extent::Item(3));
/// assert_eq!(rt; extent(b"\x82\x01"), Extent::Cut);
/// let (error, end) = (Error::Head, 3);
/// assert_eq!(rt; extent(b"\x82\x01\x1f\x00"), Extent::Fault { error, end });
/// ```
///
/// [`parse_bytes_partial`]: cbor_diag::parse_bytes_partial
pub fn extent(bytes: &[u8]) -> Extent
    // An item of `n` bytes if and only if they encode one.
    ensures item { IfItem result (λ n. (i : Item) × BeginsWithItem bytes.now i n) }
    ensures every_item { (i : Item) (n : ℕ) → BeginsWithItem bytes.now i n
        → result ≡ Extent.Item n }

    // Cut if and only if the bytes are.
    ensures cut { (result ≡ Extent.Cut) ↔ IsCut bytes.now }

    // A fault if and only if the bytes have it.
    ensures fault { IfFault result (λ error end. HasFault bytes.now error) }
    ensures every_fault { (error : Error) → HasFault bytes.now error
        → (end : ℕ) × (result ≡ Extent.Fault error end) }

    // The first `end` bytes have the fault, and fewer are cut.
    ensures shown { IfFault result (λ error end. FaultEnds bytes.now error end) }
    ensures fronts_cut { IfFault result
        (λ error end. (n : ℕ) → n < end → IsCut (take n bytes.now)) }

    // Bytes that come later change no item, no fault, and no `end`.
    ensures item_stays { IfItem result (λ n.
        (more : List ℕ) → (i : Item) × BeginsWithItem (bytes.now ++ more) i n) }
    ensures fault_stays { IfFault result (λ error end.
        (more : List ℕ) → HasFault (bytes.now ++ more) error
        × FaultEnds (bytes.now ++ more) error end) }
{
    begins(bytes)
}
