//! Runs the test rows about EDN, and returns each result as text. The calls:
//!
//! - `edn_to_bytes` gives the bytes of the items of a text, or the place of its error and what is
//!   wrong there. `parse_edn` gives the bytes of one item.
//! - `bytes_to_edn STYLE` and `bytes_to_edn_pretty` give the text of an item, or what is wrong.
//!   STYLE is none or more of `pretty`, `lines`, `notes`, `embedded`, `widths` and `width=COLUMNS`.
//! - `push_bytes_to_edn_partial STYLE` gives how many bytes the item at the front takes, and its
//!   text, or `truncated`.
//! - `push_bytes_to_edn_noted NOTES` and `push_bytes_to_edn_noted_partial NOTES` write notes of the
//!   caller, in the pretty style. Each note is `PLACE=BEFORE=AFTER`, with `<<` before the place of
//!   a byte string that is shown as the item in it, and `; ` between two notes. The word `line` in
//!   place of a note asks for one line.

use crate::row::Row;
use crate::texts::hex_text;
use cbor_edn::{
    EdnError, EdnStyle, Note, NotedStyle, bytes_to_edn, bytes_to_edn_pretty, edn_to_bytes,
    parse_edn, push_bytes_to_edn, push_bytes_to_edn_noted, push_bytes_to_edn_noted_partial,
    push_bytes_to_edn_partial,
};
use cbor_grammar::Error;
use std::alloc::{AllocError, Global};

/// What the call of a row gives; none if it is no call of this subject.
pub fn answer(alloc: Global, row: &Row) -> Result<Option<String>, AllocError> {
    let found = match row.call {
        "edn_to_bytes" => bytes_of_text(alloc, row.text()),
        "parse_edn" => bytes_of_item(alloc, row.text()),
        "bytes_to_edn" if row.argument.is_empty() => {
            text_of(alloc, bytes_to_edn(alloc, &row.bytes))
        }
        "bytes_to_edn_pretty" => text_of(alloc, bytes_to_edn_pretty(alloc, &row.bytes)),
        "bytes_to_edn" | "push_bytes_to_edn_partial" => styled(alloc, row),
        "push_bytes_to_edn_noted" | "push_bytes_to_edn_noted_partial" => noted(alloc, row),
        _ => return Ok(None),
    };
    Ok(Some(found?))
}

/// The bytes of the items of a text.
fn bytes_of_text(alloc: Global, text: &str) -> Result<String, AllocError> {
    match edn_to_bytes(alloc, text) {
        Ok(bytes) => hex_text(alloc, &bytes),
        Err(error) => error_text(alloc, text, error),
    }
}

/// The bytes of the one item of a text.
fn bytes_of_item(alloc: Global, text: &str) -> Result<String, AllocError> {
    match parse_edn(alloc, text) {
        Ok(item) => match item.to_bytes(alloc) {
            Ok(bytes) => hex_text(alloc, &bytes),
            Err(error) => format!(in alloc; "{error:?}"),
        },
        Err(error) => error_text(alloc, text, error),
    }
}

/// The place of an error of a text, and what is wrong there.
fn error_text(alloc: Global, text: &str, error: EdnError) -> Result<String, AllocError> {
    match error {
        EdnError::Memory => Err(AllocError),
        EdnError::Wrong { place, expected } => {
            let rest = text.as_bytes().get(place..).unwrap_or(b"");
            format!(in alloc; "{place} {}", expected.in_text(rest))
        }
    }
}

/// A text that is written, or why it is not.
fn text_of(alloc: Global, written: Result<String, Error>) -> Result<String, AllocError> {
    match written {
        Ok(text) => Ok(text),
        Err(error) => format!(in alloc; "{error:?}"),
    }
}

/// A text that is appended, or why it is not.
fn appended(alloc: Global, written: Result<(), Error>, text: String) -> Result<String, AllocError> {
    match written {
        Ok(()) => Ok(text),
        Err(error) => format!(in alloc; "{error:?}"),
    }
}

/// How many bytes the item at the front takes, and its text, or why it has none.
fn front_text(
    alloc: Global,
    used: Result<Option<usize>, Error>,
    text: &str,
) -> Result<String, AllocError> {
    match used {
        Ok(Some(used)) => format!(in alloc; "{used} {text}"),
        Ok(None) => String::from_str(alloc, "truncated"),
        Err(error) => format!(in alloc; "{error:?}"),
    }
}

/// The style of these words, which change the style of a line; none if one is no such word.
pub fn style_of(words: &str) -> Option<EdnStyle> {
    let mut style = EdnStyle::LINE;
    for word in words.split_whitespace() {
        match word {
            "pretty" => style = EdnStyle::PRETTY,
            "lines" => style.lines = true,
            "notes" => style.notes = true,
            "embedded" => style.embedded = true,
            "widths" => style.widths = true,
            word => match word.strip_prefix("width=") {
                Some(columns) => style.columns = columns.parse::<u16>().ok()?,
                None => return None,
            },
        }
    }
    Some(style)
}

/// The text of an item, or of the item at the front, in the style of a row.
fn styled(alloc: Global, row: &Row) -> Result<String, AllocError> {
    let Some(style) = style_of(row.argument) else {
        return String::from_str(alloc, "no such style");
    };
    let mut out = String::new(alloc);
    if row.call == "push_bytes_to_edn_partial" {
        let used = push_bytes_to_edn_partial(alloc, &row.bytes, style, &mut out);
        return front_text(alloc, used, &out);
    }
    let written = push_bytes_to_edn(alloc, &row.bytes, style, &mut out);
    appended(alloc, written, out)
}

/// The note of a word; none if it is a style.
fn note_of(word: &str) -> Option<Note<'_>> {
    let (place, texts) = word.split_once("=")?;
    let (before, after) = texts.split_once("=")?;
    let (place, encoded) = match place.strip_prefix("<<") {
        Some(place) => (place, true),
        None => (place, false),
    };
    Some(Note {
        start: place.parse::<usize>().unwrap_or(0),
        before,
        after,
        encoded,
    })
}

/// The notes of a row.
pub fn notes_of<'a>(alloc: Global, words: &'a str) -> Result<Vec<Note<'a>>, AllocError> {
    let mut notes: Vec<Note<'a>> = Vec::new(alloc);
    for word in words.split("; ") {
        if let Some(note) = note_of(word) {
            notes.push(note)?;
        }
    }
    Ok(notes)
}

/// A style with these notes.
fn noted_style<'a>(style: EdnStyle, notes: &'a [Note<'a>]) -> NotedStyle<'a> {
    NotedStyle {
        style,
        notes,
        marks: None,
    }
}

/// The text of an item, or of the item at the front, with the notes of a row.
fn noted(alloc: Global, row: &Row) -> Result<String, AllocError> {
    let notes = &notes_of(alloc, row.argument)?;
    let style = if row.argument.starts_with("line; ") {
        EdnStyle::LINE
    } else {
        EdnStyle::PRETTY
    };
    let noted = noted_style(style, notes);
    let mut out = String::new(alloc);
    if row.call == "push_bytes_to_edn_noted_partial" {
        let used = push_bytes_to_edn_noted_partial(alloc, &row.bytes, noted, &mut out);
        return front_text(alloc, used, &out);
    }
    let written = push_bytes_to_edn_noted(alloc, &row.bytes, noted, &mut out);
    appended(alloc, written, out)
}
