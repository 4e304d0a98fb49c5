//! Reads bytes in quotes: strings with escapes, side by side, and hex.

use super::code::{Before, take_rest};
use super::cursor::Code;
use super::line::value_of;
use super::sink::Sink;
use super::{Printed, push_pairs};

/// Prefixes of a string that is hex: of SQL, and of PostgreSQL for `E'\\x82'`.
static PREFIXES: [&[u8]; 3] = [b"E", b"X", b"x"];

/// Calls whose argument is a string of hex.
static CALLS: [&[u8]; 7] = [
    b"decode_hex",
    b"fromhex",
    b"from_hex",
    b"hex",
    b"hexToBytes",
    b"parseHex",
    b"unhexlify",
];

/// What else says that a string is hex, behind it: in Node.js, SQL and PostgreSQL.
static BEHIND: [&[u8]; 5] = [b", 'hex'", b", \"hex\"", b",'hex'", b",\"hex\"", b"::bytea"];

/// Reads bytes in quotes, from the first quote on, and what may follow them.
pub(super) fn read_quoted(cursor: Code, before: Before, sink: &mut Sink) -> Option<Printed> {
    if read_hex(cursor, before, sink) {
        return Some(Printed::QuotedHex);
    }
    sink.clear();
    if read_strings(cursor, before, sink) {
        Some(Printed::Escapes)
    } else {
        None
    }
}

/// Reads hex in quotes, if what is before or behind it says that it is hex.
fn read_hex(mut cursor: Code, before: Before, sink: &mut Sink) -> bool {
    let quote = cursor.peek();
    let mut says = match before.sign {
        b'(' => CALLS.contains(&before.word),
        _ => before.says_word(cursor.at) && PREFIXES.contains(&before.word),
    };
    let may_be_plain = quote == b'\'' && !before.says_bytes(cursor.at);
    cursor.pass(1);
    let begins = cursor.at;
    let rest = cursor.rest();
    let len = rest.iter().take_while(|byte| **byte != quote).count();
    let content = rest.get(..len).unwrap_or(b"");
    cursor.pass(len.saturating_add(1));
    for sign in &BEHIND {
        says |= cursor.take(sign);
    }
    let digits = match content.strip_prefix(b"\\\\x") {
        Some(digits) => digits,
        None => content.strip_prefix(b"\\x").unwrap_or(content),
    };
    let prefix = content.len().saturating_sub(digits.len());
    // PostgreSQL writes bytes so: `'\x820102'`.
    says |= may_be_plain && prefix > 0 && digits.len() > 2;
    says && len < rest.len()
        && push_pairs(digits, begins.saturating_add(prefix), sink)
        && take_rest(&mut cursor, sink.count)
}

/// Reads strings, side by side or with `+` between them, which are bytes: `b` is before the first,
/// or one has an escape that neither JSON nor EDN has. A string in an array or a map is none.
fn read_strings(mut cursor: Code, before: Before, sink: &mut Sink) -> bool {
    let is_bytes = before.says_bytes(cursor.at);
    if !is_bytes && matches!(before.sign, b'[' | b',' | b':') {
        return false;
    }
    let mut has_escape = false;
    for _ in 0..u64::MAX {
        match read_string(&mut cursor, before.is_c, sink) {
            Some(escaped) => has_escape |= escaped,
            None => return false,
        }
        cursor.skip_space();
        let _ = cursor.take(b"+");
        cursor.skip_space();
        let _ = is_bytes && cursor.take(b"b");
        if !matches!(cursor.peek(), b'"' | b'\'') {
            break;
        }
    }
    (is_bytes || has_escape) && take_rest(&mut cursor, sink.count) && sink.count > 0
}

/// Reads a string. Returns whether it has an escape that JSON and EDN do not have.
fn read_string(cursor: &mut Code, is_c: bool, sink: &mut Sink) -> Option<bool> {
    let quote = cursor.peek();
    let mut has_escape = false;
    cursor.pass(1);
    for _ in 0..u64::MAX {
        let at = cursor.at;
        let byte = cursor.peek();
        if cursor.rest().is_empty() || byte.is_ascii_control() {
            return None;
        }
        cursor.pass(1);
        if byte == quote {
            break;
        }
        if byte == b'\\' {
            has_escape |= matches!(cursor.peek(), b'x' | b'0'..=b'7');
            sink.push(escaped(cursor, is_c)?, at);
        } else {
            sink.push(byte, at);
        }
    }
    Some(has_escape)
}

/// The byte of an escape, behind its `\`.
fn escaped(cursor: &mut Code, is_c: bool) -> Option<u8> {
    let byte = cursor.peek();
    if matches!(byte, b'0'..=b'7') {
        return octal(cursor);
    }
    cursor.pass(1);
    Some(match byte {
        b'x' => return hex(cursor, is_c),
        b'a' => 0x07,
        b'b' => 0x08,
        b't' => b'\t',
        b'n' => b'\n',
        b'v' => 0x0b,
        b'f' => 0x0c,
        b'r' => b'\r',
        b'e' => 0x1b,
        b'\\' | b'\'' | b'"' | b'?' => byte,
        _ => return None,
    })
}

/// The byte of one or two hex digits. In C all digits that follow count, so a third one is an
/// error: other languages read it as a character.
fn hex(cursor: &mut Code, is_c: bool) -> Option<u8> {
    let first = value_of(cursor.peek())?;
    cursor.pass(1);
    let Some(second) = value_of(cursor.peek()) else {
        return Some(first);
    };
    cursor.pass(1);
    if is_c && cursor.peek().is_ascii_hexdigit() {
        return None;
    }
    Some((first << 4) | second)
}

/// The byte of one to three digits in base 8.
fn octal(cursor: &mut Code) -> Option<u8> {
    let mut value = 0u16;
    for _ in 0..3 {
        match cursor.peek() {
            digit @ b'0'..=b'7' => value = (value << 3) | u16::from(digit & 7),
            _ => break,
        }
        cursor.pass(1);
    }
    u8::try_from(value).ok()
}
