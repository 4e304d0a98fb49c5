//! Follows the steps of a path from an item. `follow` returns the parts that they lead to.
//! `lost_at` returns how many steps lead somewhere, and to which item, if the path leads nowhere.
//! `follow_from` and `lost_from` do the same from an item in another.
ghost use Rattle.std.specs.Prelude.{IfOk, IfSome};
ghost use Rattle.std.specs.List.{AllByRecursion};
ghost use Rattle.cbor_paths.specs.Followed.{IsItemSpan, IsPart};

use crate::members::{At, Below};
use crate::part::{push_next, shown_below};
use crate::picture::Picture;
use crate::skip::bytes_from;
use crate::step::Step;
use cbor_bytes::{Extent, extent};
use cbor_trace::{Span, Spot};
use std::alloc::{AllocError, Global};

/// A part of an item.
#[derive(Clone, Copy, PartialEq, Eq, Debug)]
pub struct Found {
    /// Where its name is: at its key, if it is a value of a map, or else where it begins.
    pub named: usize,
    /// Its bytes.
    pub span: Span,
    /// Its level; the outermost is 1.
    pub level: u8,
    /// Where the array, the map or the byte string begins that it is right in; where it begins if
    /// it is in none.
    pub holder: usize,
    /// Where the outermost of the tags around it begins, if it has one.
    pub tag: Option<usize>,
}

/// Where steps lead, as far as they lead somewhere.
#[derive(Drop)]
struct Reach {
    /// How many lead somewhere.
    steps: usize,
    /// Where they do, in order: to one place at least.
    places: Vec<At>,
}

/// Follows the steps as far as they lead from the item there.
fn reached(
    alloc: Global,
    bytes: &[u8],
    from: Spot,
    way: (&[Step], Picture),
) -> Result<Reach, AllocError> {
    let (steps, picture) = way;
    let mut places = Vec::new(alloc);
    places.push(At::of_spot(from))?;
    let mut taken = 0usize;
    for step in steps {
        let mut next = Vec::new(alloc);
        for at in &places {
            push_next(&mut next, bytes, *at, (step, picture))?;
        }
        if next.is_empty() {
            break;
        }
        places = next;
        taken = taken.saturating_add(1);
    }
    Ok(Reach {
        steps: taken,
        places,
    })
}

/// The span of the item that begins at a place, if a whole one does.
fn item_at(bytes: &[u8], start: usize) -> Option<Span>
    ensures { IfSome result (IsItemSpan bytes.now) }
{
    match extent(bytes_from(bytes, start)) {
        Extent::Item(len) => Some(Span {
            start,
            end: start + len,
        }),
        _ => None,
    }
}

/// Returns the parts of the item at the front that the steps lead to, in order: none if they lead
/// nowhere, and one at most without `*`. It goes from head to head, and builds no item.
///
/// ```rust
/// use cbor_paths::{Picture, Step, follow};
///
/// // [1, {"a": 2}]
/// let bytes = b"\x82\x01\xa1\x61\x61\x02";
/// let mut steps = Vec::new(alloc);
/// steps.push(Step::Key(Vec::from_slice(alloc, b"\x01")?))?;
/// steps.push(Step::Key(Vec::from_slice(alloc, b"\x61\x61")?))?;
/// let found = follow(alloc, bytes, &steps, Picture::plain())?;
/// assert_eq!(rt; found.len(), 1);
/// assert_eq!(rt; found[0].named, 3);
/// assert_eq!(rt; found[0].span.bytes(bytes), b"\x02".as_slice());
/// ```
pub fn follow(
    alloc: Global,
    bytes: &[u8],
    steps: &[Step],
    picture: Picture,
) -> Result<Vec<Found>, AllocError>
    // Each of them is an item of the bytes.
    ensures items { IfOk result (λ found. AllByRecursion (IsPart bytes.now) found.items) }
{
    follow_from(alloc, bytes, Spot::outermost(), (steps, picture))
}

/// Returns the parts of the item there that the steps lead to, as [`follow`] does. The notes of the
/// picture are at their places in the bytes.
pub fn follow_from(
    alloc: Global,
    bytes: &[u8],
    from: Spot,
    way: (&[Step], Picture),
) -> Result<Vec<Found>, AllocError>
    // Each of them is an item of the bytes.
    ensures items { IfOk result (λ found. AllByRecursion (IsPart bytes.now) found.items) }
{
    let reached = reached(alloc, bytes, from, way)?;
    let (steps, _) = way;
    let mut found = Vec::new(alloc);
    if reached.steps < steps.len() {
        return Ok(found);
    }
    'places: for at in &reached.places {
        if let Some(span) = item_at(bytes, at.start) {
            found.push(Found {
                named: at.named,
                span,
                level: at.level,
                holder: at.holder,
                tag: at.tag,
            })?;
        }
    }
    Ok(found)
}

/// Where a path ends that leads nowhere.
#[derive(Clone, Copy, PartialEq, Eq, Debug)]
pub struct Lost {
    /// How many steps lead somewhere.
    pub steps: usize,
    /// Where the item begins that they lead to, without its tags, and without the byte strings
    /// around it that are shown as the item in them.
    pub start: usize,
}

/// Follows the steps as far as they lead from the item at the front. After `*` that is from the
/// member from which they lead farthest, the first of these.
pub fn lost_at(
    alloc: Global,
    bytes: &[u8],
    steps: &[Step],
    picture: Picture,
) -> Result<Lost, AllocError> {
    lost_from(alloc, bytes, Spot::outermost(), (steps, picture))
}

/// Follows the steps as far as they lead from the item there, as [`lost_at`] does.
pub fn lost_from(
    alloc: Global,
    bytes: &[u8],
    from: Spot,
    way: (&[Step], Picture),
) -> Result<Lost, AllocError> {
    let (steps, picture) = way;
    let reached = reached(alloc, bytes, from, way)?;
    let at = match reached.places.first() {
        Some(at) => *at,
        None => At::of_spot(from),
    };
    let below = match steps.get(reached.steps) {
        Some(Step::Inside | Step::InsideAt(_)) => Below::new(bytes, at),
        _ => shown_below(bytes, at, picture),
    };
    Ok(Lost {
        steps: reached.steps,
        start: match below {
            Some(below) => below.start,
            None => at.start,
        },
    })
}
