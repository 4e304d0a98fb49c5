//! `edited`: replaces or drops the parts of an item that a path leads to, or adds a part. It
//! changes the places from the last to the first. `EditError`: why an item is not edited.
ghost use Rattle.std.specs.Prelude.{ℕ, IfOk};
ghost use Rattle.cbor_grammar.specs.Item.{Item};
ghost use Rattle.cbor_grammar.specs.Facts.{IsItem};

use crate::container::{with_more, without};
use crate::place::{Change, EnclosedSpan, push_changed};
use crate::replace::replaced;
use crate::target::{Target, What, targets};
use cbor_bytes::{Extent, extent};
use cbor_paths::{Picture, Step};
use cbor_trace::{Span, head_at};
use std::alloc::{AllocError, Global};

/// What is edited in an item.
#[derive(Clone, Copy)]
pub struct Edit<'a> {
    /// The path to it.
    pub steps: &'a [Step],
    /// The bytes of the item that takes its place; `None` if it is dropped.
    pub part: Option<&'a [u8]>,
    /// The keys of maps that get another key than that of the last step.
    pub keys: &'a [NewKey],
}

/// A key that a map gets.
#[derive(Drop)]
pub struct NewKey {
    /// Where the map begins in the item.
    pub map: usize,
    /// The bytes of the key.
    pub key: Vec<u8>,
}

/// Why an item is not edited.
#[derive(Clone, Copy, PartialEq, Eq, Debug, Drop)]
pub enum EditError {
    /// Memory ran out.
    Memory,
    /// The path leads nowhere.
    Lost,
    /// What it would be is no item: it has more levels than items have, or the part is none.
    NoItem,
}

impl From<AllocError> for EditError {
    fn from(_: AllocError) -> EditError {
        EditError::Memory
    }
}

/// A head that takes more bytes than before: where it begins, and how many more.
#[derive(Clone, Copy)]
struct Growth {
    at: usize,
    by: usize,
}

/// How many bytes the head at a place takes.
fn head_len(bytes: &[u8], at: usize) -> usize {
    match head_at(bytes, at) {
        Some((_, inner)) => inner.saturating_sub(at),
        None => 0,
    }
}

/// Which of these heads, the outermost first, took more bytes when what is in them was changed.
fn growths(
    alloc: Global,
    heads: &[usize],
    before: &[u8],
    after: &[u8],
) -> Result<Vec<Growth>, AllocError> {
    let mut list = Vec::new(alloc);
    let mut shift = 0usize;
    for at in heads {
        let len = head_len(after, at.saturating_add(shift));
        let by = len.saturating_sub(head_len(before, *at));
        if by > 0 {
            list.push(Growth { at: *at, by })?;
            shift = shift.saturating_add(by);
        }
    }
    Ok(list)
}

/// Where a place is after heads took more bytes.
fn shifted(place: usize, growths: &[Growth]) -> usize {
    let mut to = place;
    for growth in growths {
        if growth.at < place {
            to = to.saturating_add(growth.by);
        }
    }
    to
}

/// The same changes after heads took more bytes.
fn shifted_changes(
    alloc: Global,
    changes: &[Change],
    growths: &[Growth],
) -> Result<Vec<Change>, AllocError> {
    let mut list = Vec::with_capacity(alloc, changes.len())?;
    for change in changes {
        let mut around = Vec::with_capacity(alloc, change.place.around.len())?;
        for at in &change.place.around {
            around.push(shifted(*at, growths))?;
        }
        let span = Span {
            start: shifted(change.place.span.start, growths),
            end: shifted(change.place.span.end, growths),
        };
        list.push(Change {
            place: EnclosedSpan { around, span },
            new: Vec::from_slice(alloc, &change.new)?,
        })?;
    }
    Ok(list)
}

/// How many targets at the front are changed together: members of one container.
fn count_together(targets: &[Target]) -> usize {
    let Some(first) = targets.first() else {
        return 0;
    };
    let What::Member(_) = first.what else {
        return 1;
    };
    let mut count = 0usize;
    for target in targets {
        if target.what != first.what {
            break;
        }
        count = count.saturating_add(1);
    }
    count
}

/// Where the last of these changes begin that are in the same byte strings.
fn last_together(changes: &[Change]) -> usize {
    let Some(last) = changes.last() else {
        return 0;
    };
    let mut start = changes.len();
    for change in changes.iter().rev() {
        if change.place.around.as_slice() != last.place.around.as_slice() {
            break;
        }
        start = start.saturating_sub(1);
    }
    start
}

/// One change in place of several in the same byte strings.
fn joined(alloc: Global, bytes: &[u8], changes: &[Change]) -> Result<Option<Change>, AllocError> {
    let (Some(first), Some(last)) = (changes.first(), changes.last()) else {
        return Ok(None);
    };
    let start = first.place.span.start;
    let mut new = Vec::new(alloc);
    let Some(()) = push_changed(&mut new, bytes, start, changes)? else {
        return Ok(None);
    };
    let place = EnclosedSpan {
        around: Vec::from_slice(alloc, &first.place.around)?,
        span: Span {
            start,
            end: last.place.span.end,
        },
    };
    Ok(Some(Change { place, new }))
}

/// The bytes with these changes, those that are in the same byte strings together.
fn with_changes(
    alloc: Global,
    item: &[u8],
    changes: Vec<Change>,
) -> Result<Option<Vec<u8>>, AllocError> {
    let mut bytes = Vec::from_slice(alloc, item)?;
    let mut left = changes;
    for _ in 0..left.len() {
        if left.is_empty() {
            break;
        }
        let start = last_together(&left);
        let Some(change) = joined(alloc, &bytes, left.get(start..).unwrap_or(&[]))? else {
            return Ok(None);
        };
        left.truncate(start);
        let Some(next) = replaced(alloc, &bytes, &change.place, &change.new)? else {
            return Ok(None);
        };
        let grown = growths(alloc, &change.place.around, &bytes, &next)?;
        if !grown.is_empty() {
            left = shifted_changes(alloc, &left, &grown)?;
        }
        bytes = next;
    }
    Ok(Some(bytes))
}

impl<'e> Edit<'e> {
    /// The key that the map at a place gets: that of the last step, unless it has one of its own.
    fn key_at(self, map: usize) -> &'e [u8] {
        for new in self.keys {
            if new.map == map {
                return &new.key;
            }
        }
        match self.steps.last() {
            Some(Step::Key(key)) => key,
            _ => b"",
        }
    }

    /// What stands in place of a container that gets a member, which is the part, after its key in a
    /// map.
    fn container(
        self,
        alloc: Global,
        bytes: &[u8],
        container: (Span, bool),
    ) -> Result<Option<Vec<u8>>, AllocError> {
        let (span, is_map) = container;
        let mut member = Vec::new(alloc);
        if is_map {
            member.extend_from_slice(self.key_at(span.start))?;
        }
        member.extend_from_slice(self.part.unwrap_or(b""))?;
        with_more(alloc, bytes, span, &member)
    }

    /// What takes the place of these targets, which are members of one container or one other.
    fn change(
        self,
        alloc: Global,
        bytes: &[u8],
        targets: &[Target],
    ) -> Result<Option<Change>, AllocError> {
        let (Some(first), Some(last)) = (targets.first(), targets.last()) else {
            return Ok(None);
        };
        let span = first.place.span;
        let (start, new) = match first.what {
            What::Part => {
                let part = Vec::from_slice(alloc, self.part.unwrap_or(b""))?;
                (span.start, Some(part))
            }
            What::Member(start) => {
                let mut gone = Vec::with_capacity(alloc, targets.len())?;
                for target in targets {
                    gone.push(target.place.span)?;
                }
                (start, without(alloc, bytes, start, &gone)?)
            }
            What::Container { is_map } => (
                span.start,
                self.container(alloc, bytes, (span, is_map))?,
            ),
        };
        let Some(new) = new else {
            return Ok(None);
        };
        let place = EnclosedSpan {
            around: Vec::from_slice(alloc, &first.place.around)?,
            span: Span {
                start,
                end: last.place.span.end,
            },
        };
        Ok(Some(Change { place, new }))
    }

    /// The changes of the targets, in order.
    fn changes(
        self,
        alloc: Global,
        bytes: &[u8],
        targets: &[Target],
    ) -> Result<Option<Vec<Change>>, AllocError> {
        let mut changes = Vec::new(alloc);
        let mut rest = targets;
        for _ in 0..targets.len() {
            if rest.is_empty() {
                break;
            }
            let (some, others) = rest.split_at(count_together(rest).min(rest.len()));
            let Some(change) = self.change(alloc, bytes, some)? else {
                return Ok(None);
            };
            changes.push(change)?;
            rest = others;
        }
        Ok(Some(changes))
    }
}

/// The bytes, if they are an item.
fn checked(bytes: Vec<u8>) -> Result<Vec<u8>, EditError>
    ensures { IfOk result (λ v. (i : Item) × IsItem v.items i) }
{
    match extent(&bytes) {
        Extent::Item(len) if len == bytes.len() => Ok(bytes),
        _ => Err(EditError::NoItem),
    }
}

/// Returns where the maps begin, in order, that an edit with these steps adds a key to: those that
/// the steps before the last one lead to, and that do not have its key.
pub fn maps_without(
    alloc: Global,
    item: &[u8],
    steps: &[Step],
    picture: Picture,
) -> Result<Vec<usize>, AllocError> {
    let mut maps = Vec::new(alloc);
    for target in &targets(alloc, item, (steps, picture), false)? {
        if let What::Container { is_map: true } = target.what {
            maps.push(target.place.span.start)?;
        }
    }
    Ok(maps)
}

/// Returns the bytes of an item with another part in place of each that the path leads to, or
/// without these. The path of a part that is set may also end with a key that is not in its map, or
/// with the next index of its array: the part is added at the end. No path leads to the whole item.
pub fn edited(
    alloc: Global,
    item: &[u8],
    edit: Edit,
    picture: Picture,
) -> Result<Vec<u8>, EditError>
    // They are an item.
    ensures item { IfOk result (λ v. (i : Item) × IsItem v.items i) }
{
    let targets = targets(alloc, item, (edit.steps, picture), edit.part.is_none())?;
    if targets.is_empty() {
        return Err(EditError::Lost);
    }
    let Some(changes) = edit.changes(alloc, item, &targets)? else {
        return Err(EditError::NoItem);
    };
    match with_changes(alloc, item, changes)? {
        Some(bytes) => checked(bytes),
        None => Err(EditError::NoItem),
    }
}
