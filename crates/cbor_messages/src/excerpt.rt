//! `Excerpt`: the part of an input that a message shows, bytes in hex or a line of text, with a
//! mark below what is wrong. It takes no memory. `position_of` finds the line and the column of a
//! byte.

use arrayvec::ArrayString;
use std::alloc::{AllocError, Global};
use std::fmt;
use std::fmt::Write;

/// A place in a text.
#[derive(Clone, Copy)]
pub struct Position {
    /// The line, from 1.
    pub line: usize,
    /// The character in that line, from 1.
    pub column: usize,
    /// The byte at which the line begins.
    pub begins: usize,
}

/// Whether a byte begins a character of UTF-8.
fn begins_character(byte: u8) -> bool {
    byte & 0xc0 != 0x80
}

/// Where a byte of a text is.
pub fn position_of(text: &[u8], at: usize) -> Position {
    let mut position = Position {
        line: 1,
        column: 1,
        begins: 0,
    };
    for (index, byte) in text.iter().enumerate() {
        if index >= at {
            break;
        }
        if *byte == b'\n' {
            position = Position {
                line: position.line.saturating_add(1),
                column: 1,
                begins: index.saturating_add(1),
            };
        } else if begins_character(*byte) {
            position.column = position.column.saturating_add(1);
        }
    }
    position
}

/// How many bytes before one that is at fault are shown.
const BYTES_BEFORE: usize = 11;

/// How many bytes are shown. Each takes two digits and a blank.
const BYTES: usize = 16;

/// A line that is longer than this up to what is at fault is not shown from its beginning.
const LONG: usize = 60;

/// How many bytes of such a line are shown before what is at fault.
const CHARACTERS_BEFORE: usize = 40;

/// How many bytes of a line are shown.
const CHARACTERS: usize = 72;

/// The character that is shown for one that begins with this byte: `?` if it is not of ASCII.
fn shown(byte: u8) -> char {
    match byte {
        b'\t' => ' ',
        32..=126 => char::from(byte),
        _ => '?',
    }
}

/// A line, and below it a mark. It is written as two lines that begin with four blanks.
#[derive(Drop)]
pub struct Excerpt<'a> {
    line: ArrayString<CHARACTERS>,
    /// How many blanks are before the mark.
    before: usize,
    mark: &'a str,
}

impl fmt::Display for Excerpt<'_> {
    fn fmt<W: fmt::Write>(&self, f: &mut fmt::Formatter<W>) -> fmt::Result {
        let (line, before, mark) = (self.line.as_str(), self.before, self.mark);
        write!(f, "    {line}\n    {:before$}{mark}", "")
    }
}

impl<'a> Excerpt<'a> {
    /// What is written before the mark: the line, and the blanks below it.
    pub fn unmarked(&self, alloc: Global) -> Result<String, AllocError> {
        let (line, before) = (self.line.as_str(), self.before);
        format!(in alloc; "    {line}\n    {:before$}", "")
    }

    /// The mark, which is the last that is written.
    pub fn mark(&self) -> &'a str {
        self.mark
    }

    /// The bytes round a place in hex, with a mark below the one at it; none if the place is after
    /// them.
    pub fn of_bytes(bytes: &[u8], at: usize) -> Option<Excerpt<'static>> {
        if at >= bytes.len() {
            return None;
        }
        let from = at.saturating_sub(BYTES_BEFORE);
        let mut line = ArrayString::new();
        for byte in bytes.iter().skip(from).take(BYTES) {
            let gap = if line.is_empty() { "" } else { " " };
            if write!(line, "{gap}{byte:02x}").is_err() {
                break;
            }
        }
        Some(Excerpt {
            line,
            before: at.saturating_sub(from).saturating_mul(3),
            mark: "^^",
        })
    }

    /// The line of a text round a place, with this mark below the character at it.
    pub fn of_text(text: &[u8], at: usize, mark: &'a str) -> Excerpt<'a> {
        let begins = position_of(text, at).begins;
        let from = if at.saturating_sub(begins) > LONG {
            at.saturating_sub(CHARACTERS_BEFORE)
        } else {
            begins
        };
        let mut line = ArrayString::new();
        let mut before = 0usize;
        for (index, byte) in text.iter().enumerate().skip(from).take(CHARACTERS) {
            if *byte == b'\n' || text[index..].starts_with(b"\r\n") {
                break;
            }
            if !begins_character(*byte) {
                continue;
            }
            if line.try_push(shown(*byte)).is_err() {
                break;
            }
            if index < at {
                before = before.saturating_add(1);
            }
        }
        Excerpt { line, before, mark }
    }
}
