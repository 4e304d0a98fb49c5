//! Returns the note of a dump on the value of a tag (`value_note`). The folder `notes` has the
//! notes on dates, addresses, shared values, URIs, base 64 texts and UUIDs; the note on an invalid
//! typed array is here. `Note`: the first line of a note, and the lines below it.
ghost use Rattle.std.specs.Prelude.{◌≡◌, ◌<◌, ℕ, false, option_map, Some, None, IfOk};
ghost use Rattle.std.specs.String.{string_bytes};
ghost use Rattle.cbor_dump.specs.Comments as comments;
ghost use Rattle.cbor_grammar.specs.Item.{Item};
ghost use Rattle.cbor_dump.specs.Notes as spec;
ghost use Rattle.cbor_dump.specs.mirror.NotesView.{note_view, value_view};

mod addresses;
mod dates;
mod encoded;
mod shared;
mod value;

use crate::addresses::Family;
use addresses::{address_note, network_note};
use cbor_grammar::Tag;
use cbor_notes::element_size;
use dates::{date_note, datetime_note, epoch_date_note, epoch_datetime_note};
use encoded::{base64_note, url_note, uuid_note};
use shared::{reference_note, shareable_note};
use std::alloc::{AllocError, Global};
use value::Atom;
pub(super) use value::Value;

/// A note on a value.
#[derive(Drop)]
pub(crate) struct Note {
    /// The text of its first line.
    pub(crate) text: String,
    /// The texts of the lines below it, one level deeper.
    pub(crate) below: Vec<String>,
}

impl Note {
    /// A note of one line.
    fn plain(alloc: Global, text: String) -> Note
        ensures { note_view result ≡ spec.plain_note (string_bytes text) }
    {
        Note {
            text,
            below: Vec::new(alloc),
        }
    }

    /// A note of one line with these words.
    fn words(alloc: Global, text: &str) -> Result<Note, AllocError>
        ensures { IfOk result (λ note. note_view note ≡ spec.plain_note text.now) }
    {
        Ok(Note::plain(alloc, String::from_str(alloc, text)?))
    }
}

/// Whether `value_note` may return a note on a value right below this tag.
#[tactic(auto, unfolding(crate::specs::Notes::value_note))]
pub(super) fn may_have_note(tag: Tag) -> bool
    ensures { result ≡ false → (known : ℕ) (i : Item) → spec.value_note known tag.0 i ≡ None }
{
    match tag {
        Tag::DATETIME
        | Tag::EPOCH_DATETIME
        | Tag::SHAREABLE
        | Tag::SHARED_REF
        | Tag::URI
        | Tag::BASE64URL
        | Tag::BASE64
        | Tag::UUID
        | Tag::IPV4
        | Tag::IPV6
        | Tag::EPOCH_DATE
        | Tag::NETWORK_ADDRESS
        | Tag::DATE => true,
        _ => element_size(tag.0).is_some(),
    }
}

/// The note on a value right below a tag, or `None` if it has none. `known` values were shared
/// before the tag. The notes of tags 24 and 63 are in `walk.rt`.
#[tactic(auto, unfolding(crate::specs::Notes::value_note))]
pub(super) fn value_note(
    alloc: Global,
    known: u64,
    tag: Tag,
    value: Value<'_>,
) -> Result<Option<Note>, AllocError>
    ensures { IfOk result (λ note. option_map note_view note ≡ spec.value_note known tag.0
        (value_view value.entry)) }
{
    let note = match tag {
        Tag::DATETIME => Note::plain(alloc, datetime_note(alloc, value)?),
        Tag::EPOCH_DATETIME => Note::plain(alloc, epoch_datetime_note(alloc, value)?),
        Tag::SHAREABLE => Note::plain(alloc, shareable_note(alloc, known)?),
        Tag::SHARED_REF => Note::plain(alloc, reference_note(alloc, known, value)?),
        Tag::URI => Note::plain(alloc, url_note(alloc, value)?),
        Tag::BASE64URL => base64_note(alloc, true, value)?,
        Tag::BASE64 => base64_note(alloc, false, value)?,
        Tag::UUID => uuid_note(alloc, value)?,
        Tag::IPV4 => Note::plain(alloc, address_note(alloc, Family::IPv4, value)?),
        Tag::IPV6 => Note::plain(alloc, address_note(alloc, Family::IPv6, value)?),
        Tag::EPOCH_DATE => Note::plain(alloc, epoch_date_note(alloc, value)?),
        Tag::NETWORK_ADDRESS => Note::plain(alloc, network_note(alloc, value)?),
        Tag::DATE => Note::plain(alloc, date_note(alloc, value)?),
        _ => {
            return match element_size(tag.0) {
                Some(size) => typed_array_note(alloc, size, value),
                None => Ok(None),
            };
        }
    };
    Ok(Some(note))
}

/// A text between brackets after a word.
fn in_brackets(alloc: Global, word: &str, text: &str) -> Result<String, AllocError>
    ensures { IfOk result (λ note. string_bytes note ≡ comments.in_brackets word.now text.now) }
{
    // Enough for all but notes with a long zone.
    let mut note = String::with_capacity(alloc, 64)?;
    note.push_str(word)?;
    note.push('(')?;
    note.push_str(text)?;
    note.push(')')?;
    Ok(note)
}

/// The note on a value that should be a typed array with elements of `size` bytes, but is not: it
/// says why. Whole elements are shown, and need no note.
fn typed_array_note(
    alloc: Global,
    size: usize,
    value: Value<'_>,
) -> Result<Option<Note>, AllocError>
    requires { 0 < size }
    ensures { IfOk result (λ note. option_map note_view note
        ≡ spec.typed_array_note (Some size) (value_view value.entry)) }
{
    match value {
        Value::Atom(Atom::Bytes(bytes)) if bytes.len() % size == 0 => Ok(None),
        Value::Atom(Atom::Bytes(_)) => Ok(Some(Note::words(
            alloc,
            "invalid data length for typed array",
        )?)),
        _ => Ok(Some(Note::words(alloc, "invalid type for typed array")?)),
    }
}
