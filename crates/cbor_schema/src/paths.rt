//! Writes the path to the item that does not fit, also if it is in a byte string that holds items.

use crate::misfit::Words;
use cbor_bytes::{Extent, extent};
use cbor_places::{Around, Path, Piece, item_with};
use std::alloc::AllocError;

/// Appends the path to the item at a byte of a piece, which begins with an item around it.
fn push_path(out: &mut String, piece: Piece, at: usize) -> Result<(), AllocError> {
    let around = Around::new(*out.allocator(), piece, at)?;
    if around.path.is_empty() {
        return Ok(());
    }
    if !out.is_empty() {
        out.push('/')?;
    }
    out.push_str(around.path.as_str())
}

/// Appends the step into a byte string and the path from there to the item at a byte of the
/// string's content, which is a piece of the data.
fn push_inside(out: &mut String, content: Piece, at: usize) -> Result<(), AllocError> {
    let (_, item) = item_with(content, content.number(at));
    let start = item.begins.saturating_sub(content.begins);
    let len = content.bytes.len();
    let byte = match extent(content.bytes) {
        Extent::Item(whole) if whole == len => None,
        _ => Some(start),
    };
    let mut step = Path::new(*out.allocator(), 0);
    step.push_inside(byte)?;
    if !out.is_empty() {
        out.push('/')?;
    }
    out.push_str(step.as_str())?;
    push_path(out, item, at.saturating_sub(start))
}

impl Words<'_, '_> {
    /// The path to an item, as `-p` takes it; empty for the outermost item, which begins at this
    /// byte of the data.
    pub(crate) fn path(&self, index: usize, begins: usize) -> Result<String, AllocError> {
        let mut levels = Vec::new(self.alloc);
        let mut level = Some(index);
        for _ in 0..self.missed.items.count() {
            let Some(index) = level else {
                break;
            };
            levels.push(index)?;
            level = self.missed.items.item(index).holder;
        }
        let mut out = String::new(self.alloc);
        for _ in 0..self.missed.items.count() {
            let Some(index) = levels.pop() else {
                break;
            };
            let item = self.missed.items.item(index);
            let content = self.missed.items.content_around(item);
            let bytes = self.missed.items.bytes(content);
            let begins = begins.saturating_add(self.missed.items.place_of(content, item));
            let piece = Piece { begins, bytes };
            let at = item.span.start.saturating_sub(content.start);
            match item.holder {
                Some(_) => push_inside(&mut out, piece, at)?,
                None => push_path(&mut out, piece, at)?,
            }
        }
        Ok(out)
    }
}
