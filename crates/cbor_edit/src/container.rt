//! Drops members from an array or a map, or adds one at its end, with the new count in its head.
ghost use Rattle.std.specs.Prelude.{◌≡◌, ℕ, ◌-◌, ◌≤◌, List, ◌++◌, take, drop, length};
ghost use Rattle.std.specs.Prelude.{IfOk, IfSome};
ghost use Rattle.cbor_edit.specs.Edited.{bytes_of};
ghost use Rattle.cbor_edit.specs.Members.{IsLess, OneMore, IsContainer, IsWithout, IsWith};
ghost use Rattle.cbor_edit.specs.Members.{argument_head, argument_end, between};
ghost use Rattle.cbor_edit.specs.mirror.Heads.{HasHead};
ghost use Rattle.cbor_grammar.specs.Reading.{FitsArgument};
ghost use Rattle.cbor_tokens.specs.Appends.{Appends};
ghost use Rattle.cbor_grammar.specs.mirror.MajorNumber.{major_number};

use crate::width::{head_bytes, kept};
use cbor_grammar::argument::Argument;
use cbor_grammar::head::ItemHead;
use cbor_grammar::major::Major;
use cbor_trace::{Span, head_at};
use std::alloc::{AllocError, Global};

/// The head of an array or a map.
#[derive(Clone, Copy)]
struct Opened {
    major: Major,
    count: Argument,
    /// Where it ends.
    inner: usize,
}

/// The head of the array or the map that begins at a place.
fn opened_at(bytes: &[u8], start: usize) -> Option<Opened>
    ensures major { IfSome result (λ o. IsContainer (major_number o.major)) }
    ensures head { IfSome result
        (λ o. HasHead bytes.now start (major_number o.major) o.count o.inner) }
{
    let (head, inner) = head_at(bytes, start)?;
    let (major, count) = match head {
        ItemHead::Array(count) => (Major::Array, count),
        ItemHead::Map(count) => (Major::Map, count),
        _ => return None,
    };
    Some(Opened {
        major,
        count,
        inner,
    })
}

/// The count, less by this many members.
fn less(count: Argument, gone: usize) -> Option<Argument>
    ensures less { IfSome result (IsLess gone count) }
    ensures fits { IfSome result FitsArgument }
{
    match count {
        Argument::Number(number, width) => {
            let left = number.checked_sub(gone as u64)?;
            Some(Argument::Number(left, kept(width, left)))
        }
        Argument::Indefinite => Some(Argument::Indefinite),
    }
}

/// The count with one more member.
fn one_more(count: Argument) -> Option<Argument>
    ensures more { IfSome result (OneMore count) }
    ensures fits { IfSome result FitsArgument }
{
    match count {
        Argument::Number(u64::MAX, _) => None,
        Argument::Number(number, width) => {
            let more = number + 1;
            Some(Argument::Number(more, kept(width, more)))
        }
        Argument::Indefinite => Some(Argument::Indefinite),
    }
}

/// The head of a container with a count.
fn head_of(alloc: Global, major: Major, count: Argument) -> Result<Vec<u8>, AllocError>
    requires { FitsArgument count }
    ensures { IfOk result (λ v. v.items ≡ argument_head (major_number major) count) }
{
    match count {
        Argument::Number(number, width) => head_bytes(alloc, major, number, width),
        Argument::Indefinite => Vec::from_slice(alloc, &[major.high_bits() + 31]),
    }
}

/// Where the members end of a container of this count: before the break, if that ends it.
fn members_end(bytes: &[u8], members: Span, count: Argument) -> Option<usize>
    requires start { members.start ≤ members.end }
    requires end { members.end ≤ length bytes.now }
    ensures from { IfSome result (λ last. members.start ≤ last) }
    ensures to { IfSome result (λ last. last ≤ members.end) }
    ensures members { IfSome result (λ last. bytes_of members bytes.now
        ≡ take (last - members.start) (drop members.start bytes.now) ++ argument_end count) }
{
    if let Argument::Number(..) = count {
        return Some(members.end);
    }
    if members.end == members.start {
        return None;
    }
    let last = members.end - 1;
    if bytes[last] != 0xff {
        return None;
    }
    Some(last)
}

/// Appends what ends a container of this count.
#[tactic(auto, using(cbor_tokens::proofs::texts::Appending::appending_steps))]
fn push_end(out: &mut Vec<u8>, count: Argument) -> Result<(), AllocError>
    ensures { Appends result out.old.items out.new.items (argument_end count) }
{
    if let Argument::Indefinite = count {
        out.push(0xff)?;
    }
    Ok(())
}

/// Appends the bytes from a place on without these, up to the end of the last; `None` if they are
/// not in order, one after the other.
fn push_between(
    out: &mut Vec<u8>,
    bytes: &[u8],
    from: usize,
    gone: &[Span],
) -> Result<Option<()>, AllocError>
    ensures { IfOk result (λ found. IfSome found (λ _.
        out.new.items ≡ out.old.items ++ between bytes.now from gone.now)) }
{
    let mut at = from;
    'spans: for span in gone {
        let Span { start, end } = *span;
        if start < at || end < start || bytes.len() < end {
            return Ok(None);
        }
        out.extend_from_slice(&bytes[at..start])?;
        at = end;
    }
    Ok(Some(()))
}

/// Returns the first bytes of the array or the map that begins at a place, up to the end of the
/// last of these members, without them: keys and values in a map. `None` if these are not in order,
/// or no members.
pub fn without(
    alloc: Global,
    bytes: &[u8],
    start: usize,
    gone: &[Span],
) -> Result<Option<Vec<u8>>, AllocError>
    // The head has as many members less, and the members between those are the same.
    ensures without { IfOk result (λ found. IfSome found
        (λ new. IsWithout bytes.now start gone.now new.items)) }
{
    let Some(opened) = opened_at(bytes, start) else {
        return Ok(None);
    };
    let Some(count) = less(opened.count, gone.len()) else {
        return Ok(None);
    };
    let mut new = head_of(alloc, opened.major, count)?;
    let Some(()) = push_between(&mut new, bytes, opened.inner, gone)? else {
        return Ok(None);
    };
    Ok(Some(new))
}

/// Returns the bytes of the array or the map in this span with one more member at its end: an item,
/// or a key and its value. `None` if these bytes are no array and no map.
pub fn with_more(
    alloc: Global,
    bytes: &[u8],
    container: Span,
    member: &[u8],
) -> Result<Option<Vec<u8>>, AllocError>
    // The head has one member more, and the members before are the same.
    ensures more { IfOk result (λ found. IfSome found
        (λ new. IsWith member.now (bytes_of container bytes.now) new.items)) }
{
    let Some(opened) = opened_at(bytes, container.start) else {
        return Ok(None);
    };
    let Some(count) = one_more(opened.count) else {
        return Ok(None);
    };
    let members = Span {
        start: opened.inner,
        end: container.end,
    };
    if bytes.len() < members.end || members.end < members.start {
        return Ok(None);
    }
    let Some(last) = members_end(bytes, members, opened.count) else {
        return Ok(None);
    };
    let mut new = head_of(alloc, opened.major, count)?;
    new.extend_from_slice(&bytes[members.start..last])?;
    new.extend_from_slice(member)?;
    push_end(&mut new, count)?;
    Ok(Some(new))
}
