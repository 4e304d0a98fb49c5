//! `Row`: one test row, with its call, argument, input and expected result. `rows_of` reads the
//! rows of a file, and `is_met` compares a result with the expected one.

use std::alloc::{AllocError, Global};

/// A row: a call, what it is given, and what it has to give.
#[derive(Drop)]
pub struct Row<'a> {
    /// The number of its first line.
    pub line: usize,
    /// The name of the call.
    pub call: &'a str,
    /// What stands behind that name, one word or several: how the call is made.
    pub argument: &'a str,
    /// The input as it stands.
    pub input: Vec<u8>,
    /// The bytes that the input is in hex digits, with blanks between them; none if it is no hex.
    pub bytes: Vec<u8>,
    /// What the call has to give.
    pub wanted: Vec<u8>,
    /// Whether a line of the input was read.
    has_input: bool,
    /// Whether a line of the result was read.
    has_wanted: bool,
    /// Whether a line was read that is none of a row.
    is_wrong: bool,
}

impl<'a> Row<'a> {
    /// A row that begins with this line: the call, its arguments, and behind two blanks the input.
    fn begun(alloc: Global, line: usize, text: &'a str) -> Result<Row<'a>, AllocError> {
        let (head, input) = match text.split_once("  ") {
            Some((head, input)) => (head, Some(input)),
            None => (text, None),
        };
        let (call, argument) = head.split_once(" ").unwrap_or((head, ""));
        Ok(Row {
            line,
            call,
            argument,
            input: Vec::from_slice(alloc, input.unwrap_or("").as_bytes())?,
            bytes: Vec::new(alloc),
            wanted: Vec::new(alloc),
            has_input: input.is_some(),
            has_wanted: false,
            is_wrong: false,
        })
    }

    /// The input as a text; empty if it is none.
    pub fn text(&self) -> &str {
        match std::str::from_utf8(&self.input) {
            Ok(text) => text,
            Err(_) => "",
        }
    }

    /// Takes a further line by its mark. Another mark is wrong, and then so is the row.
    fn take(&mut self, mark: &str, rest: &str) -> Result<(), AllocError> {
        match mark {
            "|" => push_line(&mut self.input, &mut self.has_input, rest),
            "$" => {
                self.has_input = true;
                push_hex(&mut self.input, rest.as_bytes())
            }
            "=" => push_line(&mut self.wanted, &mut self.has_wanted, rest),
            "%" => {
                self.has_wanted = true;
                push_hex(&mut self.wanted, rest.as_bytes())
            }
            _ => {
                self.is_wrong = true;
                Ok(())
            }
        }
    }

    /// Whether a call that gives this text gives what it has to.
    pub fn is_met(&self, found: &str) -> bool {
        self.has_wanted && !self.is_wrong && found.as_bytes() == self.wanted.as_slice()
    }

    /// Reads the input as hex, once it is whole.
    fn end(&mut self) -> Result<(), AllocError> {
        push_hex(&mut self.bytes, &self.input)
    }
}

/// Appends a line to a text.
fn push_line(text: &mut Vec<u8>, has_line: &mut bool, line: &str) -> Result<(), AllocError> {
    if *has_line {
        text.push(b'\n')?;
    }
    *has_line = true;
    text.extend_from_slice(line.as_bytes())
}

/// The value of a hex digit; none of any other byte.
fn digit(byte: u8) -> Option<u8> {
    match byte {
        b'0'..=b'9' => Some(byte - b'0'),
        b'a'..=b'f' => Some(byte - b'a' + 10),
        _ => None,
    }
}

/// Appends the bytes of hex digits, in lower case, with blanks between bytes; none if that is not
/// what the text is.
fn push_hex(bytes: &mut Vec<u8>, text: &[u8]) -> Result<(), AllocError> {
    let start = bytes.len();
    let mut upper = None;
    for byte in text {
        match (upper, digit(*byte)) {
            (None, Some(value)) => upper = Some(value),
            (Some(value), Some(lower)) => {
                bytes.push(value.saturating_mul(16).saturating_add(lower))?;
                upper = None;
            }
            (None, None) if *byte == b' ' || *byte == b'\n' => {}
            _ => {
                bytes.truncate(start);
                return Ok(());
            }
        }
    }
    if upper.is_some() {
        bytes.truncate(start);
    }
    Ok(())
}

/// The rows of a text. A line that is empty or begins with `#` is none.
pub fn rows_of<'a>(alloc: Global, text: &'a str) -> Result<Vec<Row<'a>>, AllocError> {
    let mut rows: Vec<Row<'a>> = Vec::new(alloc);
    let mut number = 0usize;
    for line in text.lines() {
        number = number.saturating_add(1);
        if line.is_empty() || line.starts_with("#") {
            continue;
        }
        let (mark, rest) = line.split_once(" ").unwrap_or((line, ""));
        match rows.last_mut() {
            Some(row) if !line.starts_with(|c: char| c.is_ascii_lowercase()) => {
                row.take(mark, rest)?;
            }
            _ => rows.push(Row::begun(alloc, number, line)?)?,
        }
    }
    for row in rows.iter_mut() {
        row.end()?;
    }
    Ok(rows)
}
