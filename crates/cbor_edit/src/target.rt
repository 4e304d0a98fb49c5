//! Finds what an edit changes: the parts that the steps of a path lead to, or the container that
//! gets a new member.

use crate::place::EnclosedSpan;
use cbor_bytes::head::read_head;
use cbor_bytes::{Extent, extent};
use cbor_grammar::argument::Argument;
use cbor_grammar::head::ItemHead;
use cbor_grammar::strings::StringKind;
use cbor_paths::{Found, Members, Picture, Step, bytes_from, follow, follow_from, lost_from};
use cbor_trace::{Span, Spot, head_at};
use std::alloc::{AllocError, Global};

/// What is changed at a place.
#[derive(Clone, Copy, PartialEq, Eq)]
pub(crate) enum What {
    /// The bytes there, which are an item.
    Part,
    /// The bytes there, which are a member of the container that begins at this place: with its
    /// key, if that is a map.
    Member(usize),
    /// The array or the map there, which gets a member at its end.
    Container { is_map: bool },
}

/// Something that is changed.
#[derive(Drop)]
pub(crate) struct Target {
    pub place: EnclosedSpan,
    pub what: What,
}

/// An item that steps lead to.
#[derive(Drop)]
struct Reached {
    /// Where the byte strings begin that it is in, the outermost first.
    around: Vec<usize>,
    item: Found,
}

impl Reached {
    /// Where the item begins.
    fn spot(&self) -> Spot {
        Spot {
            start: self.item.span.start,
            level: self.item.level,
        }
    }
}

/// The item at a place, below its tags and in the byte strings that are shown as the item in them,
/// in which a step leads nowhere.
fn lost_in(
    alloc: Global,
    bytes: &[u8],
    from: &Reached,
    step: (&[Step], Picture),
) -> Result<Option<Span>, AllocError> {
    let start = lost_from(alloc, bytes, from.spot(), step)?.start;
    match extent(bytes_from(bytes, start)) {
        Extent::Item(len) => Ok(Some(Span {
            start,
            end: start.saturating_add(len),
        })),
        _ => Ok(None),
    }
}

/// Where the byte strings begin around the items that are right in a holder, the outermost first. A
/// step leads from an item to that holder: the item below its tags, or the one in it, as long as it
/// is a byte string. Also returns whether the holder is a byte string.
fn strings_around(
    alloc: Global,
    bytes: &[u8],
    from: &Reached,
    holder: usize,
) -> Result<(Vec<usize>, bool), AllocError> {
    let mut around = Vec::from_slice(alloc, &from.around)?;
    let mut at = from.item.span.start;
    for _ in 0..bytes.len() {
        at = match head_at(bytes, at) {
            Some((ItemHead::Tag(..), inner)) => inner,
            Some((ItemHead::String(StringKind::Bytes, Argument::Number(..)), inner)) => {
                around.push(at)?;
                if at >= holder {
                    return Ok((around, true));
                }
                inner
            }
            _ => break,
        };
    }
    Ok((around, false))
}

/// Appends the items that a step leads to from another.
fn push_reached(
    places: &mut Vec<Reached>,
    bytes: &[u8],
    from: &Reached,
    step: (&[Step], Picture),
) -> Result<(), AllocError> {
    let alloc = *places.allocator();
    for found in &follow_from(alloc, bytes, from.spot(), step)? {
        let item = *found;
        let (around, _) = strings_around(alloc, bytes, from, item.holder)?;
        places.push(Reached { around, item })?;
    }
    Ok(())
}

/// Appends what a step leads to that is dropped.
fn push_dropped(
    targets: &mut Vec<Target>,
    bytes: &[u8],
    from: &Reached,
    step: (&[Step], Picture),
) -> Result<(), AllocError> {
    let alloc = *targets.allocator();
    for found in &follow_from(alloc, bytes, from.spot(), step)? {
        let Span { start, end } = found.span;
        let (around, in_string) = strings_around(alloc, bytes, from, found.holder)?;
        let (start, what) = if in_string {
            (start, What::Part)
        } else {
            (found.named, What::Member(found.holder))
        };
        let span = Span { start, end };
        let place = EnclosedSpan { around, span };
        targets.push(Target { place, what })?;
    }
    Ok(())
}

/// Appends what a step leads to that gets other bytes, or the container that gets a member.
fn push_set(
    targets: &mut Vec<Target>,
    bytes: &[u8],
    from: &Reached,
    step: (&[Step], Picture),
) -> Result<(), AllocError> {
    let alloc = *targets.allocator();
    let all = follow_from(alloc, bytes, from.spot(), step)?;
    for found in &all {
        let span = found.span;
        let (around, _) = strings_around(alloc, bytes, from, found.holder)?;
        let place = EnclosedSpan { around, span };
        let what = What::Part;
        targets.push(Target { place, what })?;
    }
    if all.is_empty()
        && let Some(span) = lost_in(alloc, bytes, from, step)?
        && let Some(what) = added_to(bytes, span, step.0)
    {
        let (around, _) = strings_around(alloc, bytes, from, span.start)?;
        let place = EnclosedSpan { around, span };
        targets.push(Target { place, what })?;
    }
    Ok(())
}

/// How a member is added to an item at the index or the key of a step, if it can be: a key to a
/// map, and the next index to an array.
fn added_to(bytes: &[u8], container: Span, step: &[Step]) -> Option<What> {
    let Some(Step::Key(key)) = step.first() else {
        return None;
    };
    let mut members = Members::of(bytes, container.start)?;
    let is_map = members.is_map();
    if is_map {
        return Some(What::Container { is_map });
    }
    let Ok((ItemHead::Integer(index, _), _)) = read_head(key) else {
        return None;
    };
    for _ in 0..index {
        let _ = members.next(bytes)?;
    }
    Some(What::Container { is_map })
}

/// The items that the steps lead to, in order.
fn items_reached(
    alloc: Global,
    item: &[u8],
    steps: &[Step],
    picture: Picture,
) -> Result<Vec<Reached>, AllocError> {
    let mut places = Vec::new(alloc);
    for found in &follow(alloc, item, &[], picture)? {
        let around = Vec::new(alloc);
        let item = *found;
        places.push(Reached { around, item })?;
    }
    for index in 0..steps.len() {
        let mut next = Vec::new(alloc);
        for place in &places {
            push_reached(&mut next, item, place, (&steps[index..index + 1], picture))?;
        }
        places = next;
    }
    Ok(places)
}

/// Where the steps lead in the item to something that is dropped, or else set, in order.
pub(crate) fn targets(
    alloc: Global,
    item: &[u8],
    way: (&[Step], Picture),
    is_dropped: bool,
) -> Result<Vec<Target>, AllocError> {
    let (steps, picture) = way;
    let mut targets = Vec::new(alloc);
    if steps.is_empty() {
        return Ok(targets);
    }
    let (before, last) = steps.split_at(steps.len() - 1);
    for place in &items_reached(alloc, item, before, picture)? {
        if is_dropped {
            push_dropped(&mut targets, item, place, (last, picture))?;
        } else {
            push_set(&mut targets, item, place, (last, picture))?;
        }
    }
    Ok(targets)
}
