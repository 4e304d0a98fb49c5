//! Writes the item at the front of bytes as EDN, with its names as notes if names are shown. It
//! looks for names only if the bytes may have some.
ghost use Rattle.std.specs.Prelude.{◌≡◌, ◌++◌, [], List, IfOk, IfErr, IfSome};
ghost use Rattle.std.specs.String.{string_bytes};
ghost use Rattle.cbor_grammar.specs.Item.{Item};
ghost use Rattle.cbor_grammar.specs.Facts.{BeginsWithItem};
ghost use Rattle.cbor_notes.specs.declared.note.Note.{Note};
ghost use Rattle.cbor_edn_writer.specs.Written.{IsNotedText};
ghost use Rattle.cbor_paths.specs.Ends.{StopsSo};
ghost use Rattle.cbor_inspect.specs.Forms.{AreBeside, IsLineOf, edn_style};

use crate::items::{Show, len_of};
use crate::naming::Naming;
use cbor_edn_writer::{NotedStyle, push_bytes_to_edn_noted_partial};
use cbor_paths::End;
use std::alloc::Global;

/// What items are written with, one after the other.
#[derive(Drop)]
pub(crate) struct Work {
    /// The text of an item, whose memory is used again.
    pub text: String,
    /// How many bytes from the next item on are known to have no mark of names.
    pub clear: usize,
}

impl Work {
    /// Nothing is written, and nothing is known of the bytes.
    pub(crate) fn new(alloc: Global) -> Work {
        Work {
            text: String::new(alloc),
            clear: 0,
        }
    }
}

/// Appends the item at the front in EDN, and a line feed. The text is empty.
pub(crate) fn push_notation(show: &Show, bytes: &[u8], work: &mut Work) -> Result<usize, End>
    requires { string_bytes work.old.text ≡ [] }
    ensures written { IfOk result (λ used. (i : Item) × BeginsWithItem bytes.now i used
        × IsLineOf show.now.names (edn_style show.now.style) i (string_bytes work.new.text)) }
    ensures ends { IfErr result (StopsSo bytes.now) }
{
    let found = match show.names {
        Some(naming) if show.style.has_notes() => push_named(naming, show, bytes, work),
        _ => push_edn(show.noted(&[]), bytes, &mut work.text),
    };
    let used = match found {
        Ok(used) => used,
        Err(end) => return Err(end),
    };
    match work.text.push('\n') {
        Ok(()) => Ok(used),
        Err(_) => Err(End::Memory),
    }
}

/// Appends the item at the front, with its names. The text is empty.
fn push_named(naming: Naming<'_>, show: &Show, bytes: &[u8], work: &mut Work) -> Result<usize, End>
    requires { string_bytes work.old.text ≡ [] }
    ensures written { IfOk result (λ used. (i : Item) × BeginsWithItem bytes.now i used
        × (notes : List Note) × IsNotedText (edn_style show.now.style) notes i
        (string_bytes work.new.text)) }
    ensures ends { IfErr result (StopsSo bytes.now) }
{
    if work.clear == 0 {
        work.clear = naming.clear(bytes);
    }
    let mut plain = None;
    if !naming.is_near(bytes, work.clear) {
        let used = match push_edn(show.noted(&[]), bytes, &mut work.text) {
            Ok(used) => used,
            Err(end) => return Err(end),
        };
        if !naming.is_marked(bytes.get(work.clear..used).unwrap_or(b"")) {
            work.clear = work.clear.saturating_sub(used);
            return Ok(used);
        }
        plain = Some(used);
    }
    work.clear = 0;
    push_noted(naming, show, (bytes, plain), &mut work.text)
}

/// Appends the item at the front, with its names. The text is empty, or that of the item without
/// names, and then the number of its bytes is known.
fn push_noted(
    naming: Naming<'_>,
    show: &Show,
    front: (&[u8], Option<usize>),
    text: &mut String,
) -> Result<usize, End>
    requires { IfSome front.1 (λ used. (i : Item) × BeginsWithItem front.0.now i used
        × IsNotedText (edn_style show.now.style) [] i (string_bytes text.old)) }
    ensures written { IfOk result (λ used. (i : Item) × BeginsWithItem front.entry.0.now i used
        × (notes : List Note) × IsNotedText (edn_style show.now.style) notes i
        (string_bytes text.new)) }
    ensures ends { IfErr result (StopsSo front.entry.0.now) }
{
    let (bytes, plain) = front;
    let alloc = *text.allocator();
    let Ok(found) = naming.notes(alloc, bytes) else {
        return Err(End::Memory);
    };
    if let Some(used) = plain {
        if found.is_empty() {
            return Ok(used);
        }
    }
    let Ok(notes) = found.list(alloc) else {
        return Err(End::Memory);
    };
    text.clear();
    push_edn(show.noted(&notes), bytes, text)
}

/// Appends the item at the front. The text is empty.
fn push_edn(noted: NotedStyle<'_>, bytes: &[u8], text: &mut String) -> Result<usize, End>
    requires { string_bytes text.old ≡ [] }
    ensures written { IfOk result (λ used. (i : Item) × BeginsWithItem bytes.now i used
        × IsNotedText noted.entry.style noted.entry.notes.now i (string_bytes text.new)) }
    ensures ends { IfErr result (StopsSo bytes.now) }
{
    let found = push_bytes_to_edn_noted_partial(*text.allocator(), bytes, noted, text);
    len_of(bytes, found)
}
