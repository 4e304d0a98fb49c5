//! `partial_edn` writes what `cborcat --partial` shows of a truncated or malformed item in EDN: its
//! whole parts with notes, then the error and the first 64 of the bytes that remain. Of a string
//! that is cut it shows the content that is there.

mod edn;
mod strings;

use cbor_edn_writer::NotedStyle;
use cbor_grammar::Error;
use cbor_trace::{Open, Span, Spot};
use edn::PartialEdn;
use std::alloc::Global;

/// How many of the bytes that remain are shown.
const MOST: usize = 64;

/// A text that shows an item which is not whole.
#[derive(Drop)]
pub struct PartialText {
    pub text: String,
    /// Where the comment that says what is wrong is in the text.
    pub said: Span,
}

/// What EDN shows of the item that is not whole, at the front of these bytes: its whole parts, with
/// notes, and then, with what is said of them, the bytes that remain.
///
/// It has each container that goes on to the end of the bytes. Each note's place counts all of the
/// bytes, those that remain as well.
pub fn partial_edn(
    alloc: Global,
    noted: NotedStyle<'_>,
    bytes: &[u8],
    said: &str,
) -> Result<PartialText, Error> {
    let mut text = String::new(alloc);
    let edn = PartialEdn { bytes, said, noted };
    let said = edn.push_item(&mut text, Spot::outermost(), 0)?;
    text.push('\n')?;
    Ok(PartialText { text, said })
}

/// The first of the bytes that remain, and how many more there are.
fn shown_of(rest: &[u8]) -> (&[u8], usize) {
    let (shown, unshown) = rest.split_at(MOST.min(rest.len()));
    (shown, unshown.len())
}

/// How many parts of a container are before the next.
fn parts_before(container: Open) -> usize {
    match container {
        Open::Array { index, .. } => index,
        Open::Key { index, .. } => index.saturating_mul(2),
        Open::Value { index, .. } => index.saturating_mul(2).saturating_add(1),
        Open::Tag { .. } => 0,
    }
}
