//! Runs the test rows about dumps, and returns each result as text. The calls:
//!
//! - `bytes_to_hex`, `hex_to_hex` and `diag_to_hex` give the dump of an item, or the name of the
//!   error. A word behind the name gives a part of the dump: `first`, its first line; `end`, as
//!   much of its end as the row has; `lines`, how many lines it has, if their comments are in one
//!   column; `count WORDS`, how often it has these words.
//! - `bytes_to_note` and `diag_to_note` give the lines without digits: the notes, and the `""` of
//!   empty strings. A line is indented as in the comments, so a line one level below the outermost
//!   item is not. With `flat` no line is.
//! - `push_bytes_to_hex` and `push_bytes_to_hex_partial` append to the line `before`, and a line
//!   says what they return.

use crate::row::Row;
use crate::texts::lines_text;
use cbor_diag::{
    Error, Source, To, bytes_to_hex, convert, hex_to_hex, push_bytes_to_hex,
    push_bytes_to_hex_partial,
};
use std::alloc::{AllocError, Global};

/// What the call of a row gives; none if it is no call of this subject.
pub fn answer(alloc: Global, row: &Row) -> Result<Option<String>, AllocError> {
    let dump = match row.call {
        "bytes_to_hex" | "bytes_to_note" => bytes_to_hex(alloc, &row.bytes),
        "hex_to_hex" => hex_to_hex(alloc, row.text()),
        "diag_to_hex" | "diag_to_note" => diag_to_hex(alloc, &row.input),
        "push_bytes_to_hex" | "push_bytes_to_hex_partial" => appended(alloc, row),
        _ => return Ok(None),
    };
    let found = match dump {
        Ok(dump) => part(alloc, row, dump.as_str()),
        Err(error) => format!(in alloc; "{error:?}"),
    };
    Ok(Some(found?))
}

/// The dump of the item that a text in notation is.
fn diag_to_hex(alloc: Global, text: &[u8]) -> cbor_diag::Result<String> {
    let dump = convert(alloc, Source::Diag, To::Hex, text)?;
    match String::from_utf8(dump) {
        Ok(dump) => Ok(dump),
        Err(_) => Err(Error::Utf8),
    }
}

/// What is appended to a line, and a line with what the call returned.
fn appended(alloc: Global, row: &Row) -> cbor_diag::Result<String> {
    let mut out = String::from_str(alloc, "before\n")?;
    let used = if row.call == "push_bytes_to_hex_partial" {
        push_bytes_to_hex_partial(alloc, &row.bytes, &mut out)
    } else {
        match push_bytes_to_hex(alloc, &row.bytes, &mut out) {
            Ok(()) => Ok(Some(row.bytes.len())),
            Err(error) => Err(error),
        }
    };
    let said = match used {
        Ok(Some(used)) => format!(in alloc; "{used} bytes\n"),
        Ok(None) => String::from_str(alloc, "truncated\n"),
        Err(error) => format!(in alloc; "{error:?}\n"),
    };
    out.push_str(said?.as_str())?;
    Ok(out)
}

/// What a row asks for of a dump.
fn part(alloc: Global, row: &Row, dump: &str) -> Result<String, AllocError> {
    let words = row.argument;
    if row.call.ends_with("note") {
        return notes(alloc, dump, words == "flat");
    }
    match words {
        "" => lines_text(alloc, dump),
        "first" => String::from_str(alloc, dump.lines().next().unwrap_or("")),
        "end" => String::from_str(alloc, end_of(dump, row.wanted.len())),
        "lines" => lines(alloc, dump),
        _ => {
            let count = dump
                .matches(words.strip_prefix("count ").unwrap_or("\0"))
                .count();
            format!(in alloc; "{count}")
        }
    }
}

/// The last bytes of a dump, but for its last line feed.
fn end_of(dump: &str, len: usize) -> &str {
    let dump = dump.strip_suffix("\n").unwrap_or(dump);
    dump.get(dump.len().saturating_sub(len)..).unwrap_or(dump)
}

/// How many lines a dump has, if the first `#` of each is in one column.
fn lines(alloc: Global, dump: &str) -> Result<String, AllocError> {
    let column = dump.find('#');
    let mut count = 0usize;
    for line in dump.lines() {
        if line.find('#') != column {
            return format!(in alloc; "another column: {line}");
        }
        count = count.saturating_add(1);
    }
    format!(in alloc; "{count}")
}

/// The lines of a dump that have no digits.
fn notes(alloc: Global, dump: &str, flat: bool) -> Result<String, AllocError> {
    let mut notes = String::new(alloc);
    for line in dump.lines() {
        match line.split_once(" #   ") {
            Some((digits, note)) if digits.trim_ascii_start().is_empty() => {
                if !notes.is_empty() {
                    notes.push('\n')?;
                }
                notes.push_str(if flat { note.trim_ascii_start() } else { note })?;
            }
            _ => {}
        }
    }
    Ok(notes)
}
