//! `encoded_in` finds the byte strings that hold an item, if the names say so. `inside_of`: which
//! byte strings are open.

use cbor_bytes::{Extent, extent};
use cbor_inside::Inside;
use cbor_inspect::Naming;
use cbor_places::Piece;
use cborcat_arguments::Job;
use std::alloc::{AllocError, Global};

/// Where the byte strings begin in the data that hold an item by the names of these items, in
/// order.
pub fn encoded_in(
    alloc: Global,
    tables: Option<Naming>,
    items: Piece,
) -> Result<Vec<usize>, AllocError> {
    let mut places = Vec::new(alloc);
    let Some(naming) = tables else {
        return Ok(places);
    };
    let mut rest = items;
    for _ in 0..u64::MAX {
        if rest.bytes.is_empty() {
            break;
        }
        let len = match extent(rest.bytes) {
            Extent::Item(len) => len,
            _ => rest.bytes.len(),
        };
        let (bytes, after) = rest.bytes.split_at(len.min(rest.bytes.len()));
        let end = rest.number(bytes.len());
        if naming.may_name(bytes) {
            push_encoded(&mut places, naming, rest.first(len))?;
        }
        rest = Piece {
            begins: end,
            bytes: after,
        };
    }
    Ok(places)
}

/// Appends the places of those in an item.
fn push_encoded(places: &mut Vec<usize>, naming: Naming, item: Piece) -> Result<(), AllocError> {
    let alloc = *places.allocator();
    let found = naming.notes(alloc, item.bytes)?;
    let list = found.list(alloc)?;
    for note in &list {
        if note.encoded {
            places.push(item.number(note.start))?;
        }
    }
    Ok(())
}

/// Which byte strings are open, where these hold items by names.
pub fn inside_of<'n>(job: &Job, named: &'n [usize]) -> Inside<'n> {
    Inside {
        embedded: job.show.style.embedded,
        named,
    }
}
