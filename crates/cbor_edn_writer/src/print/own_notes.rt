//! What notes say of numbers and strings without a caller: which date a number is, how many seconds
//! or days after 1970 a date is, which address, UUID, number or typed array bytes are, and which
//! characters. `None` where there is nothing to say. The only error is `AllocError`.

ghost use Rattle.std.specs.Prelude.{◌≡◌, IfOk, option_map, flat_map, true};
ghost use Rattle.std.specs.List.{list_all};
ghost use Rattle.cbor_tokens.specs.Appends.{AppendsText};
ghost use Rattle.std.specs.String.{string_bytes};
ghost use Rattle.cbor_inside.specs.Rule.{says_what_bytes_are};
ghost use Rattle.cbor_edn_writer.specs.OwnNotes as spec;
ghost use Rattle.cbor_edn_writer.specs.OwnNotes.{IsTaggedNote, escaped_character};

use crate::print::elements::elements_text;
use cbor_notes::{
    big_endian_number, date_of_epoch, datetime_of_epoch, epoch_of_date, epoch_of_datetime,
    ipv4_text, ipv6_text, mac_text,
};
use std::alloc::{AllocError, Global};
use uuid::Uuid;

/// The longest byte string that a note shows as characters, so that the note fits on one line.
const MOST_CHARACTERS: usize = 64;

/// The date of an integer right below this tag, by the number that encodes the integer and whether
/// it is negative: the moment of seconds since 1970, or the day of days since then.
pub(super) fn time_note(
    alloc: Global,
    tag: u64,
    number: (u64, bool),
) -> Result<Option<String>, AllocError>
    ensures { IfOk result (λ found.
        option_map string_bytes found ≡ spec.time_note tag number.1 number.0) }
{
    let Some(number) = signed(number.0, number.1) else {
        return Ok(None);
    };
    match tag {
        1 => datetime_of_epoch(alloc, number),
        100 => date_of_epoch(alloc, number),
        _ => Ok(None),
    }
}

/// The value of an integer, from the number that encodes it.
fn signed(value: u64, negative: bool) -> Option<i64>
    ensures { result ≡ spec.signed_number negative value }
{
    let number = i64::try_from(value).ok()?;
    Some(if negative { -1 - number } else { number })
}

/// The seconds or days since 1970 of the date that a text right below this tag is.
pub(super) fn text_note(alloc: Global, tag: u64, text: &str) -> Result<Option<String>, AllocError>
    ensures { IfOk result (λ found. option_map string_bytes found ≡ spec.text_note tag text.now) }
{
    match tag {
        0 => epoch_note(alloc, epoch_of_datetime(alloc, text)?),
        1004 => epoch_note(alloc, epoch_of_date(alloc, text)?),
        _ => Ok(None),
    }
}

/// The note of this number of seconds or days since 1970.
fn epoch_note(alloc: Global, number: Option<String>) -> Result<Option<String>, AllocError>
    ensures { IfOk result (λ found.
        option_map string_bytes found ≡ spec.epoch_note (option_map string_bytes number)) }
{
    let Some(number) = number else {
        return Ok(None);
    };
    let mut note = String::from_str(alloc, "epoch ")?;
    note.push_str(&number)?;
    Ok(Some(note))
}

/// What bytes right below this tag stand for: an address, a UUID, a big number or a typed array.
pub(super) fn tagged_note(
    alloc: Global,
    tag: u64,
    bytes: &[u8],
) -> Result<Option<String>, AllocError>
    requires { says_what_bytes_are tag ≡ true }
    ensures { IfOk result (λ found. IsTaggedNote tag bytes.now (option_map string_bytes found)) }
{
    match tag {
        2 | 3 => big_number(alloc, tag == 3, bytes),
        37 => uuid_note(alloc, bytes),
        52 | 54 | 260 => address(alloc, tag, bytes),
        _ => elements_text(alloc, tag, bytes),
    }
}

/// The text of the address in these bytes, if they have one.
fn address(alloc: Global, tag: u64, bytes: &[u8]) -> Result<Option<String>, AllocError>
    ensures { IfOk result (λ found.
        option_map string_bytes found ≡ spec.address tag bytes.now) }
{
    if tag != 54 {
        if let Some(octets) = bytes.as_array() {
            return Ok(Some(ipv4_text(alloc, octets)?));
        }
    }
    if tag != 52 {
        if let Some(octets) = bytes.as_array() {
            return Ok(Some(ipv6_text(alloc, octets)?));
        }
    }
    if tag == 260 {
        if let Some(octets) = bytes.as_array() {
            return Ok(Some(mac_text(alloc, octets)?));
        }
    }
    Ok(None)
}

/// The text of a UUID: hex digits in groups of 8, 4, 4, 4 and 12.
fn uuid_note(alloc: Global, bytes: &[u8]) -> Result<Option<String>, AllocError>
    ensures { IfOk result (λ found. option_map string_bytes found ≡ spec.uuid_note bytes.now) }
{
    let Some(octets) = bytes.as_array() else {
        return Ok(None);
    };
    let hyphenated = Uuid::from_bytes(*octets).hyphenated();
    Ok(Some(format!(in alloc; "{hyphenated}")?))
}

/// The digits of a big number of at most 16 bytes. A negative one is -1 minus the bytes' number.
fn big_number(alloc: Global, negative: bool, bytes: &[u8]) -> Result<Option<String>, AllocError>
    ensures { IfOk result (λ found.
        option_map string_bytes found ≡ spec.big_number negative bytes.now) }
{
    if bytes.len() > 16 {
        return Ok(None);
    }
    let number = big_endian_number(bytes);
    if !negative {
        return Ok(Some(format!(in alloc; "{number}")?));
    }
    match number.checked_add(1) {
        Some(amount) => Ok(Some(format!(in alloc; "-{amount}")?)),
        None => Ok(None),
    }
}

/// The characters that bytes are, between apostrophes: a form that byte strings may have in EDN.
pub(super) fn characters_note(alloc: Global, bytes: &[u8]) -> Result<Option<String>, AllocError>
    ensures { IfOk result (λ found.
        option_map string_bytes found ≡ spec.characters_note bytes.now) }
{
    if !are_characters(bytes) {
        return Ok(None);
    }
    let mut note = String::with_capacity(alloc, bytes.len() + 2)?;
    note.push('\'')?;
    push_characters(&mut note, bytes)?;
    note.push('\'')?;
    Ok(Some(note))
}

/// Whether bytes are printable ASCII, at least one and at most as many as a note shows.
pub(super) fn are_characters(bytes: &[u8]) -> bool
    ensures { result ≡ spec.are_characters bytes.now }
{
    !bytes.is_empty() && bytes.len() <= MOST_CHARACTERS && are_printable(bytes)
}

/// Whether all bytes are printable ASCII characters.
fn are_printable(bytes: &[u8]) -> bool
    ensures { result ≡ list_all spec.is_character bytes.now }
{
    bytes.iter().all(|byte| is_character(*byte))
}

/// Whether a byte is a printable ASCII character.
fn is_character(byte: u8) -> bool
    ensures { result ≡ spec.is_character byte }
{
    byte >= 32 && byte < 127
}

/// Appends characters, with a backslash before `'` and `\`.
#[tactic(auto, using(cbor_tokens::proofs::texts::Appending::appending_steps))]
fn push_characters(note: &mut String, characters: &[u8]) -> Result<(), AllocError>
    ensures { AppendsText result note.old note.new (flat_map escaped_character characters.now) }
{
    for character in characters {
        push_character(note, *character)?;
    }
    Ok(())
}

/// Appends the character with this number, with a backslash before `'` and `\`.
#[tactic(auto, using(cbor_tokens::proofs::texts::Appending::appending_steps))]
fn push_character(note: &mut String, character: u8) -> Result<(), AllocError>
    ensures { AppendsText result note.old note.new (escaped_character character) }
{
    if character == b'\'' || character == b'\\' {
        note.push('\\')?;
    }
    note.push(char::from(character))
}
