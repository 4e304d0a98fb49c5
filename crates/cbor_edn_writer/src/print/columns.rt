//! Computes how many columns numbers, strings, simple values, width indicators and notes take in
//! EDN.

use crate::print::notes::is_note;
use crate::print::numbers::{longer, shown_width};
use crate::print::own_notes::{are_characters, tagged_note, text_note, time_note};
use cbor_floats::{EncodedFloat, number_text};
use cbor_grammar::strings::StringKind;
use cbor_grammar::{FloatWidth, IntegerWidth};
use cbor_inside::says_what_bytes_are;
use cbor_notation_writer::budget::digit_count;
use cbor_notes::Note;
use ryu::Buffer;
use std::alloc::{AllocError, Global};

/// The columns of a note between slashes, with the blank beside it; none of a text that no note may
/// have.
pub(super) fn note_columns(text: &str) -> usize {
    if is_note(text) {
        text.len().saturating_add(3)
    } else {
        0
    }
}

/// The columns of what the writer itself says of an item.
fn own_columns(note: Option<String>) -> usize {
    note.map_or(0, |note| note_columns(&note))
}

/// The columns of the note before an item.
pub(super) fn before_columns(note: Option<&Note<'_>>) -> usize {
    note.map_or(0, |note| note_columns(note.before))
}

/// The columns of the note after an item.
pub(super) fn after_columns(note: Option<&Note<'_>>) -> usize {
    note.map_or(0, |note| note_columns(note.after))
}

/// The columns of an indicator.
fn indicator_columns(width: IntegerWidth) -> usize {
    match width {
        IntegerWidth::Unknown | IntegerWidth::Zero => 0,
        _ => 2,
    }
}

/// The columns of a number and its indicator, each indicator if `all` is set.
pub(super) fn number_columns(number: u64, width: IntegerWidth, all: bool) -> usize {
    let indicator = indicator_columns(shown_width(all, number, width));
    digit_count(number).saturating_add(indicator)
}

/// The columns of a negative integer, by its encoded number, and its indicator.
pub(super) fn negative_columns(number: u64, width: IntegerWidth, all: bool) -> usize {
    let indicator = indicator_columns(shown_width(all, number, width));
    let digits = number.checked_add(1).map_or(20, digit_count);
    digits.saturating_add(indicator).saturating_add(1)
}

/// The columns of the indicator behind a string of this length.
pub(super) fn length_columns(len: u64, width: IntegerWidth) -> usize {
    indicator_columns(longer(len, width))
}

/// The columns of the indicator of a list's length, and of the blank after it.
pub(super) fn count_columns(count: u64, width: IntegerWidth) -> usize {
    match indicator_columns(longer(count, width)) {
        0 => 0,
        columns => columns.saturating_add(1),
    }
}

/// The columns of a float, with its indicator if it has one or if `all` is set.
pub(super) fn float_columns(bits: u64, width: FloatWidth, all: bool) -> usize {
    let (float, digits) = match width {
        FloatWidth::Sixteen => (EncodedFloat::Half(u16::try_from(bits).unwrap_or(0)), 4),
        FloatWidth::ThirtyTwo => (EncodedFloat::Single(u32::try_from(bits).unwrap_or(0)), 8),
        FloatWidth::Unknown | FloatWidth::SixtyFour => (EncodedFloat::Double(bits), 16),
    };
    if !float.is_usual() {
        return digits + 7;
    }
    let number = number_text(&mut Buffer::new(), float.value()).len();
    if all || !float.is_shortest() {
        return number.saturating_add(2);
    }
    number
}

/// The columns of a simple value.
pub(super) fn simple_columns(value: u8) -> usize {
    match value {
        20 => 5,
        21 | 22 => 4,
        23 => 9,
        _ => digit_count(u64::from(value)).saturating_add(8),
    }
}

/// The columns of a string between quotes.
pub(super) fn quoted_columns(kind: StringKind, content: &[u8]) -> usize {
    match kind {
        StringKind::Bytes => content.len().saturating_mul(2).saturating_add(3),
        StringKind::Text => escaped_columns(content).saturating_add(2),
    }
}

/// The columns of a text with escapes.
fn escaped_columns(content: &[u8]) -> usize {
    if content.iter().all(|byte| is_plain(*byte)) {
        return content.len();
    }
    let Ok(text) = std::str::from_utf8(content) else {
        return content.len();
    };
    let mut columns = 0usize;
    for character in text.chars() {
        columns = columns.saturating_add(character_columns(character));
    }
    columns
}

/// Whether a byte of a text is one character, which is not escaped.
fn is_plain(byte: u8) -> bool {
    (32..127).contains(&byte) && byte != b'"' && byte != b'\\'
}

/// The columns of a character of a text.
fn character_columns(character: char) -> usize {
    match character {
        '"' | '\\' | '\n' | '\r' | '\t' | '\u{8}' | '\u{c}' => 2,
        '\0'..='\u{1f}'
        | '\u{7f}'..='\u{9f}'
        | '\u{61c}'
        | '\u{200e}'
        | '\u{200f}'
        | '\u{2028}'..='\u{202e}'
        | '\u{2066}'..='\u{2069}'
        | '\u{feff}' => 6,
        _ => 1,
    }
}

/// The columns of the note on an integer right below this tag.
pub(super) fn time_columns(
    tag: Option<u64>,
    number: (u64, bool),
    alloc: Global,
) -> Result<usize, AllocError> {
    let Some(tag @ (1 | 100)) = tag else {
        return Ok(0);
    };
    Ok(own_columns(time_note(alloc, tag, number)?))
}

/// The columns of the note on a text right below this tag.
pub(super) fn text_note_columns(
    tag: Option<u64>,
    content: &[u8],
    alloc: Global,
) -> Result<usize, AllocError> {
    let Some(tag @ (0 | 1004)) = tag else {
        return Ok(0);
    };
    let Ok(text) = std::str::from_utf8(content) else {
        return Ok(0);
    };
    Ok(own_columns(text_note(alloc, tag, text)?))
}

/// The columns of the note on a byte string right below this tag. Its characters are no note where
/// the caller has one.
pub(super) fn bytes_note_columns(
    tag: Option<u64>,
    content: &[u8],
    note: Option<&Note<'_>>,
    alloc: Global,
) -> Result<usize, AllocError> {
    match tag {
        Some(tag) if says_what_bytes_are(tag) => Ok(own_columns(tagged_note(alloc, tag, content)?)),
        _ if after_columns(note) > 0 => Ok(0),
        _ => Ok(characters_columns(content)),
    }
}

/// The columns of the note with the characters of bytes.
fn characters_columns(content: &[u8]) -> usize {
    if !are_characters(content) || content.contains(&b'/') {
        return 0;
    }
    let escapes = content
        .iter()
        .filter(|byte| **byte == b'\'' || **byte == b'\\')
        .count();
    content.len().saturating_add(escapes).saturating_add(5)
}
