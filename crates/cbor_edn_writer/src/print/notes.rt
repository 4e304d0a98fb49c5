//! Writes the notes of EDN, which are comments: what the writer itself says of an item
//! (`own_notes.rt`), and the notes of a caller before and after an item.
#![tactic(auto, using(cbor_tokens::proofs::texts::Appending::appending_steps))]

ghost use Rattle.std.specs.Prelude.{◌≡◌, if◌then◌else◌, None, option_map};
ghost use Rattle.std.specs.List.{list_any};
ghost use Rattle.std.specs.String.{string_bytes};
ghost use Rattle.cbor_grammar.specs.mirror.StringView.{kind_of, bytes_of};
ghost use Rattle.cbor_tokens.specs.Appends.{AppendsText};
ghost use Rattle.cbor_notation_writer.specs.Dialect.{Writes};
ghost use Rattle.cbor_edn_writer.specs.EdnLeaves.{ends_note as no_note_has, begins_note};
ghost use Rattle.cbor_edn_writer.specs.EdnLeaves.{NoteAfter, is_note as may_be_note};
ghost use Rattle.cbor_edn_writer.specs.EdnLeaves.{comment_before, comment_after, own_comment};
ghost use Rattle.cbor_edn_writer.specs.EdnLeaves.{says_time, says_string};
ghost use Rattle.cbor_edn_writer.specs.EdnLeaves.{has_after as has_note_after};
ghost use Rattle.cbor_edn_writer.specs.EdnLeaves.{note_before, note_after};
ghost use Rattle.cbor_edn_writer.specs.OwnNotes.{time_note as note_of_time, IsSimpleNote};
ghost use Rattle.cbor_edn_writer.specs.OwnNotes.{characters_note as characters_of};

use crate::print::own_notes::{characters_note, tagged_note, text_note, time_note};
use crate::print::place::EdnPlace;
use cbor_grammar::strings::StringContent;
use cbor_inside::says_what_bytes_are;
use cbor_marks::Kind;
use std::alloc::AllocError;

/// Writes the caller's note before an item.
#[inline(always)]
pub(crate) fn push_before(out: &mut String, place: &EdnPlace<'_>) -> Result<(), AllocError>
    ensures { AppendsText result out.old out.new (note_before place.now) }
{
    match place.found {
        Some(note) if place.style.notes => {
            let start = out.len();
            let result = push_comment_before(out, note.before);
            place.mark(Kind::Note, start, out);
            result
        }
        _ => Ok(()),
    }
}

/// Writes the caller's note after an item.
#[inline(always)]
pub(super) fn push_after(out: &mut String, place: &EdnPlace<'_>) -> Result<(), AllocError>
    ensures { AppendsText result out.old out.new (note_after place.now) }
{
    match place.found {
        Some(note) if place.style.notes => {
            let start = out.len();
            let result = push_comment_after(out, note.after);
            place.mark(Kind::Note, start, out);
            result
        }
        _ => Ok(()),
    }
}

/// Writes the note on an integer, by the number that is encoded.
#[inline(always)]
pub(super) fn push_integer_note(
    out: &mut String,
    value: u64,
    negative: bool,
    place: &EdnPlace<'_>,
) -> Result<(), AllocError>
    ensures { Writes result out.old out.new
        (NoteAfter place.now (says_time place.now negative value)) }
{
    if !place.style.notes {
        return Ok(());
    }
    match place.tag {
        Some(tag) => push_time(out, tag, (value, negative), place),
        None => Ok(()),
    }
}

/// Writes the date that a tagged number stands for.
#[inline(never)]
fn push_time(
    out: &mut String,
    tag: u64,
    number: (u64, bool),
    place: &EdnPlace<'_>,
) -> Result<(), AllocError>
    ensures { AppendsText result out.old out.new
        (own_comment (note_of_time tag number.1 number.0)) }
{
    push_own(out, time_note(place.alloc, tag, number)?, place)
}

/// Writes the note on a simple value below 32 in two bytes, which RFC 8949 does not allow.
#[inline(always)]
pub(super) fn push_simple_note(
    out: &mut String,
    value: u8,
    takes_two: bool,
    place: &EdnPlace<'_>,
) -> Result<(), AllocError>
    ensures { Writes result out.old out.new (NoteAfter place.now (IsSimpleNote value)) }
{
    if !place.style.notes {
        return Ok(());
    }
    if takes_two && value < 32 {
        let start = out.len();
        let result = push_comment_after(out, "two bytes");
        place.mark(Kind::Note, start, out);
        return result;
    }
    Ok(())
}

/// Writes the note on a string.
#[inline(always)]
pub(super) fn push_string_note(
    out: &mut String,
    content: StringContent<'_>,
    place: &EdnPlace<'_>,
) -> Result<(), AllocError>
    ensures { Writes result out.old out.new (NoteAfter place.now
        (says_string place.now (kind_of content.entry) (bytes_of content.entry))) }
{
    if !place.style.notes {
        return Ok(());
    }
    match (content, place.tag) {
        (StringContent::Bytes(bytes), Some(tag)) if says_what_bytes_are(tag) => {
            push_own(out, tagged_note(place.alloc, tag, bytes)?, place)
        }
        (StringContent::Bytes(bytes), _) => push_characters(out, bytes, place),
        (StringContent::Text(text), Some(tag)) => {
            push_own(out, text_note(place.alloc, tag, text)?, place)
        }
        (StringContent::Text(_), None) => Ok(()),
    }
}

/// Writes bytes as characters, unless a note of the caller stands after them.
fn push_characters(out: &mut String, bytes: &[u8], place: &EdnPlace<'_>) -> Result<(), AllocError>
    ensures { AppendsText result out.old out.new (own_comment
        (if has_note_after place.now.found then None else characters_of bytes.now)) }
{
    if is_noted_after(place) {
        return Ok(());
    }
    push_own(out, characters_note(place.alloc, bytes)?, place)
}

/// Whether the caller has a note to write after the item.
fn is_noted_after(place: &EdnPlace<'_>) -> bool
    ensures { result ≡ has_note_after place.now.found }
{
    matches!(place.found, Some(note) if is_note(note.after))
}

/// Writes what the writer itself says of an item, if it says something.
fn push_own(out: &mut String, note: Option<String>, place: &EdnPlace<'_>) -> Result<(), AllocError>
    ensures { AppendsText result out.old out.new (own_comment (option_map string_bytes note)) }
{
    let Some(note) = note else {
        return Ok(());
    };
    let start = out.len();
    let result = push_comment_after(out, &note);
    place.mark(Kind::Note, start, out);
    result
}

/// Writes a text that a note may have as a comment before an item.
#[inline(never)]
fn push_comment_before(out: &mut String, note: &str) -> Result<(), AllocError>
    ensures { AppendsText result out.old out.new (comment_before note.now) }
{
    if !is_note(note) {
        return Ok(());
    }
    out.push('/')?;
    out.push_str(note)?;
    out.push_str("/ ")
}

/// Writes a text that a note may have as a comment after an item.
#[inline(never)]
fn push_comment_after(out: &mut String, note: &str) -> Result<(), AllocError>
    ensures { AppendsText result out.old out.new (comment_after note.now) }
{
    if !is_note(note) {
        return Ok(());
    }
    out.push_str(" /")?;
    out.push_str(note)?;
    out.push('/')
}

/// Whether a note may have this text.
pub(super) fn is_note(note: &str) -> bool
    ensures { result ≡ may_be_note note.now }
{
    may_begin(note) && !has_other(note)
}

/// Whether a note may begin so: `//` and `/*` begin other comments.
fn may_begin(note: &str) -> bool
    ensures { result ≡ begins_note note.now }
{
    match note.as_bytes().first() {
        Some(first) => *first != b'*',
        None => false,
    }
}

/// Whether a text has a character that no note may have.
fn has_other(note: &str) -> bool
    ensures { result ≡ list_any no_note_has note.now }
{
    let mut found = 0;
    'bytes: for byte in note.as_bytes() {
        found = u8::from(ends_note(*byte)).max(found);
    }
    found > 0
}

/// Whether a note may not have this byte.
fn ends_note(byte: u8) -> bool
    ensures { result ≡ no_note_has byte }
{
    byte < 32 || byte > 126 || byte == b'/'
}
