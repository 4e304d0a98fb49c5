//! `parts_of` finds the parts of an item that a path leads to, also by names that are shown, and
//! inside byte strings that are shown as items. `NamedPart`: such a part, and what is known of it.

use crate::items::Show;
use cbor_names::Known;
use cbor_paths::{Found, Picture, Step, follow};
use cbor_trace::Span;
use std::alloc::{AllocError, Global};

/// A part of an item, with what the tables of names know of it by what is around it.
#[derive(Clone, Copy)]
pub struct NamedPart {
    /// Its bytes in the item.
    pub span: Span,
    pub(crate) known: Option<Known>,
}

/// Whether a path may lead farther with the names of an item: it leads nowhere without them, or
/// `*` leads to several items, and it may lead farther from some.
fn may_need_names(steps: &[Step], found: &[Found]) -> bool {
    if found.is_empty() {
        return true;
    }
    for step in steps {
        if let Step::Each = step {
            return true;
        }
    }
    false
}

/// Returns the parts of an item that a path leads to, in order. A step goes into byte strings that
/// are shown as the item in them, and leads to a name that is shown where it is no key and no
/// index. [`Show::of_part`] shows such a part with the names that it has in the item.
pub fn parts_of(alloc: Global, show: &Show, item: &[u8]) -> Result<Vec<NamedPart>, AllocError> {
    let found = found_of(alloc, show, item)?;
    if let Some(naming) = show.names {
        return naming.parts(alloc, item, &found);
    }
    let mut parts = Vec::with_capacity(alloc, found.len())?;
    for part in &found {
        parts.push(NamedPart {
            span: part.span,
            known: None,
        })?;
    }
    Ok(parts)
}

/// The places of these parts.
fn found_of(alloc: Global, show: &Show, item: &[u8]) -> Result<Vec<Found>, AllocError> {
    let picture = show.picture();
    let found = follow(alloc, item, show.steps, picture)?;
    let Some(naming) = show.names else {
        return Ok(found);
    };
    if !may_need_names(show.steps, &found) || !naming.may_name(item) {
        return Ok(found);
    }
    let names = naming.notes(alloc, item)?;
    let notes = names.list(alloc)?;
    let named = Picture {
        notes: &notes,
        ..picture
    };
    follow(alloc, item, show.steps, named)
}
