//! Reads bytes as programs print and write them: dumps of `od`, `xxd` and their like, arrays and
//! strings of programs, hex in quotes. `Printed` says what such a text is.
//!
//! No text of these is EDN. A dump may be hex in another reading, where its addresses are bytes.

mod array;
mod code;
mod cursor;
mod dump;
mod line;
mod quoted;
mod sink;

use self::code::read_code;
use self::dump::read_dump;
pub(crate) use self::line::address_of;
use self::line::next_byte;
use self::sink::Sink;
use crate::text::{mark_len, unmarked};
use std::alloc::{AllocError, Global};

/// What a text of bytes is, as a program printed or has it.
#[derive(Clone, Copy, PartialEq, Eq, Debug)]
pub enum Printed {
    /// `0000000 82 01 02`, of `od -tx1`.
    Od,
    /// `00000000: 8201 02  ...`, of `xxd`.
    Xxd,
    /// `00000000  82 01 02  |...|`, of `hexdump -C`.
    Hexdump,
    /// `0x0000:  8201 02  ...`, of `tcpdump -X`.
    Tcpdump,
    /// `0000   82 01 02   ...`, of Wireshark.
    Wireshark,
    /// `0x4010 <m>: 0x82 0x01 0x02`, of gdb's command `x`.
    Gdb,
    /// `<Buffer 82 01 02>`, of Node.js.
    Buffer,
    /// A column of `bytea`, as `psql` prints it: `\x820102` below a line of dashes.
    Psql,
    /// Numbers in brackets: `uint8_t m[] = {0x82, 1, 2};`.
    Array,
    /// Strings with escapes: `b'\x82\x01\x02'`.
    Escapes,
    /// Hex in quotes: `bytes.fromhex('82 01 02')`, `X'820102'`.
    QuotedHex,
}

impl Printed {
    /// What it is in words, for messages.
    pub fn words(self) -> &'static str {
        match self {
            Printed::Od => "a dump of od",
            Printed::Xxd => "a dump of xxd",
            Printed::Hexdump => "a dump of hexdump -C",
            Printed::Tcpdump => "a dump of tcpdump",
            Printed::Wireshark => "a dump of Wireshark",
            Printed::Gdb => "a dump of gdb",
            Printed::Buffer => "a Buffer of Node.js",
            Printed::Psql => "a result of psql",
            Printed::Array => "an array of bytes",
            Printed::Escapes => "a string with escapes",
            Printed::QuotedHex => "hex in quotes",
        }
    }
}

/// What a text of bytes is, and the bytes, at least one; `None` for any other text. A byte order
/// mark may stand before it.
///
/// ```rust
/// use cbor_inputs::{Printed, printed_bytes};
///
/// let (printed, bytes) = printed_bytes(alloc, b"uint8_t m[] = {0x81, 0x05};")?.unwrap();
/// assert_eq!(rt; printed, Printed::Array);
/// assert_eq!(rt; bytes.as_slice(), b"\x81\x05".as_slice());
/// ```
pub fn printed_bytes(alloc: Global, text: &[u8]) -> Result<Option<(Printed, Vec<u8>)>, AllocError> {
    if read(text, &mut Sink::counting(0)).is_none() {
        return Ok(None);
    }
    let mut sink = Sink::keeping(alloc);
    match read(text, &mut sink) {
        Some(printed) => Ok(Some((printed, sink.bytes()?))),
        None => Ok(None),
    }
}

/// The place in a text of `printed_bytes` where the byte of this number is; the text's length for
/// a number past the last.
pub fn place_of_printed(text: &[u8], byte: usize) -> usize {
    let mut sink = Sink::counting(byte);
    let _ = read(text, &mut sink);
    match sink.place {
        Some(place) => place.saturating_add(mark_len(text)),
        None => text.len(),
    }
}

/// What a text of bytes is. The bytes go to the sink, which may have others if it is none.
fn read(text: &[u8], sink: &mut Sink) -> Option<Printed> {
    let text = unmarked(text);
    if let Some(printed) = read_dump(text, sink) {
        return Some(printed);
    }
    sink.clear();
    if let Some(rest) = text.strip_prefix(b"<Buffer ") {
        return read_buffer(rest, sink);
    }
    if read_rows(text, sink) {
        return Some(Printed::Psql);
    }
    sink.clear();
    read_code(text, sink)
}

/// Reads what follows `<Buffer `.
fn read_buffer(rest: &[u8], sink: &mut Sink) -> Option<Printed> {
    let digits = rest.trim_ascii_end().strip_suffix(b">")?;
    let before = b"<Buffer ".len();
    if push_pairs(digits, before, sink) {
        Some(Printed::Buffer)
    } else {
        None
    }
}

/// Reads the rows of one column: its name, a line of dashes, the values, and how many there are.
/// Returns whether that is all.
fn read_rows(text: &[u8], sink: &mut Sink) -> bool {
    let mut begins = 0usize;
    for (index, line) in text.split(|byte| *byte == b'\n').enumerate() {
        let row = line.trim_ascii();
        let is_row = match (index, row) {
            (0, _) => true,
            (1, _) => row.len() > 2 && row.iter().all(|byte| *byte == b'-'),
            (_, [] | [b'(', .., b')']) => true,
            _ => push_row(line, begins, sink),
        };
        if !is_row {
            return false;
        }
        begins = begins.saturating_add(line.len()).saturating_add(1);
    }
    sink.count > 0
}

/// Reads a row, which begins at this place: a blank, `\x` and pairs of digits.
fn push_row(line: &[u8], begins: usize, sink: &mut Sink) -> bool {
    match line.strip_prefix(b" \\x") {
        Some(digits) => push_pairs(digits, begins.saturating_add(3), sink),
        None => false,
    }
}

/// Reads pairs of hex digits, which may have blanks between them, at this place of the text.
/// Returns whether there is nothing else.
fn push_pairs(digits: &[u8], begins: usize, sink: &mut Sink) -> bool {
    let mut from = 0usize;
    for _ in 0..u64::MAX {
        match next_byte(digits, from) {
            Some((byte, at)) => {
                sink.push(byte, begins.saturating_add(at));
                from = at.saturating_add(2);
            }
            None => break,
        }
    }
    let rest = digits.get(from..).unwrap_or(b"");
    sink.count > 0 && rest.trim_ascii().is_empty()
}
