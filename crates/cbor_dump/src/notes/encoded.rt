//! Returns the notes of a dump on URIs, on texts in base 64, and on UUIDs.
ghost use Rattle.std.specs.Prelude.{◌≡◌, ◌++◌, IfOk};
ghost use Rattle.std.specs.String.{string_bytes};
ghost use Rattle.cbor_dump.specs.Notes as spec;
ghost use Rattle.cbor_dump.specs.mirror.NotesView.{note_view, value_view};

use super::Note;
use super::value::{Atom, Value};
use cbor_notes::{base64_lines, url_verdict, uuid_lines};
use std::alloc::{AllocError, Global};

/// The note on a URI: whether it is a URL.
pub(super) fn url_note(alloc: Global, value: Value<'_>) -> Result<String, AllocError>
    ensures { IfOk result (λ note. string_bytes note ≡ spec.url_note (value_view value.entry)) }
{
    let Value::Atom(Atom::Text(text)) = value else {
        return String::from_str(alloc, "invalid type for uri");
    };
    let verdict = if url_verdict(alloc, text)? {
        "valid"
    } else {
        "invalid"
    };
    let mut note = String::from_str(alloc, verdict)?;
    note.push_str(" URL (checked against URL Standard, not RFC 3986)")?;
    Ok(note)
}

/// The note on a text in base 64: what it encodes. If `url` is set, the alphabet is the one that is
/// safe in URLs.
pub(super) fn base64_note(alloc: Global, url: bool, value: Value<'_>) -> Result<Note, AllocError>
    ensures { IfOk result (λ note. note_view note ≡ spec.base64_note url (value_view value.entry)) }
{
    let name = base64_name(url);
    let Value::Atom(Atom::Text(text)) = value else {
        let text = joined(alloc, "invalid type for ", name)?;
        return Ok(Note::plain(alloc, text));
    };
    match base64_lines(alloc, text, url)? {
        Some(lines) => Ok(Note {
            text: joined(alloc, name, " decoded")?,
            below: lines,
        }),
        None => Ok(Note::plain(alloc, joined(alloc, "invalid data for ", name)?)),
    }
}

fn base64_name(url: bool) -> &'static str
    ensures { result.now ≡ spec.base64_name url }
{
    if url { "base64url" } else { "base64" }
}

fn joined(alloc: Global, front: &str, back: &str) -> Result<String, AllocError>
    ensures { IfOk result (λ text. string_bytes text ≡ front.now ++ back.now) }
{
    let mut text = String::from_str(alloc, front)?;
    text.push_str(back)?;
    Ok(text)
}

/// The note on a UUID: its fields, and below them its bytes in other bases.
pub(super) fn uuid_note(alloc: Global, value: Value<'_>) -> Result<Note, AllocError>
    ensures { IfOk result (λ note. note_view note ≡ spec.uuid_note (value_view value.entry)) }
{
    let Value::Atom(Atom::Bytes(bytes)) = value else {
        return Note::words(alloc, "invalid type for uuid");
    };
    match bytes.as_array() {
        Some(octets) => {
            let mut below = uuid_lines(alloc, octets)?;
            let text = below.remove(0);
            Ok(Note { text, below })
        }
        None => Note::words(alloc, "invalid data length for uuid"),
    }
}
