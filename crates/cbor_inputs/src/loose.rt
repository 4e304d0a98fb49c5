//! Decodes hex as people paste it: pairs of digits, also with blanks, commas, `0x`, `\x`, and `:`
//! between pairs, and with the comments of EDN, C, assemblers and SQL. `place_of_digit` finds a
//! digit in such a text.
ghost use Rattle.std.specs.Prelude.{◌≡◌, ◌≢◌, ◌≤◌, ℕ, List, [], ◌∷◌, length, IfOk, IfErr, Ok};
ghost use Rattle.std.specs.Prelude.{if◌then◌else◌};
ghost use Rattle.hex.specs.Hex.{decode_of};
ghost use Rattle.cbor_inputs.specs.Loose.{turn_of, loose, unended};
ghost use Rattle.cbor_inputs.specs.Loose.{plain_turn, begins_line_comment, is_gap};
ghost use Rattle.cbor_inputs.specs.Texts.{unmarked};

use crate::text::{byte_at, mark_len, unmarked};
use hex::FromHexError;
use std::alloc::{AllocError, Global};

/// Where a text of hex is, before a character.
#[derive(Clone, Copy, PartialEq, Eq, Debug)]
pub(crate) enum Mode {
    /// A character that is kept does not come right before.
    Apart,
    /// The first digit of a byte comes right before. What follows is kept, whatever it is: no byte
    /// is one digit, and none has a blank or the like between its digits.
    Half,
    /// The second digit of a byte comes right before.
    Beside,
    /// In a comment up to the end of the line.
    Comment,
    /// In a comment up to the next `/`.
    Slashes,
    /// Before the `*` of `/*`.
    Opening,
    /// In a comment up to `*/`.
    Block,
    /// Before the `x` of `0x` or `\x`, or the `/` of `*/`.
    Prefix,
}

/// Why a text is not hex.
#[derive(Clone, Copy, PartialEq, Eq, Debug)]
pub enum HexFault {
    /// The character at this place of the text is not a digit; at its end, a comment is open.
    Digit(usize),
    /// The digit at this place of the text has no other beside it.
    Odd(usize),
}

impl Mode {
    /// Whether a character is kept, before this next one, and where the text is after it.
    fn turn(self, byte: u8, next: u8) -> (bool, Mode)
        ensures { result ≡ turn_of self byte next }
    {
        match self {
            Mode::Apart => plain_turn(false, byte, next),
            Mode::Beside => plain_turn(true, byte, next),
            Mode::Half => (true, Mode::Beside),
            Mode::Comment if byte != b'\n' => (false, Mode::Comment),
            Mode::Slashes if byte != b'/' => (false, Mode::Slashes),
            Mode::Opening => (false, Mode::Block),
            Mode::Block if byte == b'*' && next == b'/' => (false, Mode::Prefix),
            Mode::Block => (false, Mode::Block),
            Mode::Comment | Mode::Slashes | Mode::Prefix => (false, Mode::Apart),
        }
    }

    /// What is kept at the end of a text: a `/` of a comment that does not end.
    fn is_open(self) -> bool
        ensures { unended self ≡ if result then 47 ∷ [] else [] }
    {
        matches!(self, Mode::Slashes | Mode::Opening | Mode::Block)
    }
}

/// Whether a character outside of comments and prefixes is kept, before this next one, and where
/// the text is after it. A digit may be right before.
fn plain_turn(beside: bool, byte: u8, next: u8) -> (bool, Mode)
    ensures { result ≡ plain_turn beside byte next }
{
    if is_gap(byte) {
        return (false, Mode::Apart);
    }
    if begins_line_comment(beside, byte, next) {
        return (false, Mode::Comment);
    }
    if byte == b'/' && !beside {
        let mode = if next == b'*' {
            Mode::Opening
        } else {
            Mode::Slashes
        };
        return (false, mode);
    }
    if byte == b'\\' && next == b'\\' {
        return (false, Mode::Apart);
    }
    if next == b'x' && (byte == b'\\' || (byte == b'0' && !beside)) {
        return (false, Mode::Prefix);
    }
    if byte == b':' && beside && next.is_ascii_hexdigit() {
        return (false, Mode::Apart);
    }
    (true, Mode::Half)
}

/// Whether a character begins a comment up to the end of the line: `#` anywhere, `//` and `--`
/// where no digit is right before, and so `;`, which may also stand before a blank or a line end.
fn begins_line_comment(beside: bool, byte: u8, next: u8) -> bool
    ensures { result ≡ begins_line_comment beside byte next }
{
    match byte {
        b'#' => true,
        b';' => !beside || is_gap(next) || next == 0,
        b'/' | b'-' => !beside && next == byte,
        _ => false,
    }
}

/// Whether a byte is a blank or a comma or ends a line.
fn is_gap(byte: u8) -> bool
    ensures { result ≡ is_gap byte }
{
    byte == b' ' || byte == b'\t' || byte == b'\r' || byte == b'\n' || byte == b','
}

/// What is kept of a text.
fn kept(alloc: Global, text: &[u8]) -> Result<Vec<u8>, AllocError>
    ensures { IfOk result (λ digits. digits.items ≡ loose Mode.Apart text.now) }
{
    let mut digits = Vec::with_capacity(alloc, text.len() / 2)?;
    let mut mode = Mode::Apart;
    let mut at = 0;
    'text: while at < text.len() {
        let byte = text[at];
        let (keeps, after) = mode.turn(byte, byte_at(text, at + 1));
        if keeps {
            digits.push(byte)?;
        }
        mode = after;
        at += 1;
    }
    if mode.is_open() {
        digits.push(b'/')?;
    }
    Ok(digits)
}

/// The place in the text of the character that is kept after `count` others, or the text's length.
pub(crate) fn place_of_digit(text: &[u8], count: usize) -> usize
    ensures { result ≤ length text.now }
{
    let mut mode = Mode::Apart;
    let mut left = count;
    let mut at = mark_len(text);
    'text: while at < text.len() {
        let (keeps, after) = mode.turn(text[at], byte_at(text, at + 1));
        if keeps {
            if left == 0 {
                return at;
            }
            left -= 1;
        }
        mode = after;
        at += 1;
    }
    at
}

/// The bytes of a text in hex, which may have a byte order mark before it, or why it is none.
pub(crate) fn bytes_of_hex(
    alloc: Global,
    text: &[u8],
) -> Result<Result<Vec<u8>, HexFault>, AllocError>
    ensures ok { IfOk result (λ found. IfOk found (λ bytes.
        decode_of (loose Mode.Apart (unmarked text.now)) ≡ Ok bytes.items)) }
    ensures refused { IfOk result (λ found. IfErr found (λ _. (b : List ℕ)
        → decode_of (loose Mode.Apart (unmarked text.now)) ≢ Ok b)) }
{
    let digits = kept(alloc, unmarked(text))?;
    let wrong = first_wrong(&digits);
    match hex::decode(alloc, digits) {
        Ok(bytes) => Ok(Ok(bytes)),
        Err(FromHexError::OutOfMemory) => Err(AllocError),
        Err(_) => Ok(Err(fault_of(text, wrong))),
    }
}

/// The place of the first character that is not a digit, or the number of characters.
fn first_wrong(digits: &[u8]) -> usize {
    let mut at = 0;
    'digits: while at < digits.len() && digits[at].is_ascii_hexdigit() {
        at += 1;
    }
    at
}

/// Why a text is not hex, if only this many of its first kept characters are digits. A digit has no
/// other beside it if the text ends there, or if what may stand between bytes follows it.
fn fault_of(text: &[u8], count: usize) -> HexFault {
    let at = place_of_digit(text, count);
    let ends = match text.get(at) {
        Some(byte) => is_gap(*byte) || matches!(*byte, b'#' | b':' | b';' | b'/' | b'\\'),
        None => true,
    };
    if ends && count % 2 == 1 {
        HexFault::Odd(place_of_digit(text, count - 1))
    } else {
        HexFault::Digit(at)
    }
}
