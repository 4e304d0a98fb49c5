//! Reads bytes in the code of a program: goes through the declaration or the call before them.

use super::Printed;
use super::array::read_array;
use super::cursor::Code;
use super::quoted::read_quoted;
use super::sink::Sink;

/// How many words and signs are before the bytes at most.
const MOST_BEFORE: usize = 1024;

/// Words that say that numbers are bytes, in C, C#, Go, Java, JavaScript, Kotlin, Python, Rust,
/// Swift and Dart.
static TYPES: [&[u8]; 25] = [
    b"BYTE",
    b"Buffer",
    b"Byte",
    b"Int8Array",
    b"UINT8",
    b"UInt8",
    b"UInt8Array",
    b"Uint8Array",
    b"Uint8ClampedArray",
    b"Uint8List",
    b"byte",
    b"byteArrayOf",
    b"bytearray",
    b"bytes",
    b"char",
    b"i8",
    b"int8",
    b"int8_t",
    b"sbyte",
    b"u8",
    b"ubyteArrayOf",
    b"uchar",
    b"uint8",
    b"uint8_t",
    b"vec",
];

/// What stands before the bytes.
#[derive(Clone, Copy)]
pub(super) struct Before<'a> {
    /// The last word, except the `b` before a string of bytes.
    pub word: &'a [u8],
    /// Where it ends.
    word_end: usize,
    /// Where the last `b` ends.
    b_end: usize,
    /// The last sign, if it is behind the last word; or else 0.
    pub sign: u8,
    /// Whether there is neither a word nor a sign.
    is_empty: bool,
    /// Whether a word is a type of bytes.
    has_type: bool,
    /// Whether a word is a type of C, whose `\x` takes all digits that follow.
    pub is_c: bool,
}

impl<'a> Before<'a> {
    /// Adds a word, which ends at this place.
    fn add_word(&mut self, word: &'a [u8], end: usize) {
        if matches!(word, b"b") {
            self.b_end = end;
            return;
        }
        self.word = word;
        self.word_end = end;
        self.sign = 0;
        self.is_empty = false;
        self.has_type |= TYPES.iter().any(|name| *name == word);
        self.is_c |= matches!(word, b"char" | b"uint8_t" | b"uchar");
    }

    /// Whether the `b` of a string of bytes is right before this place.
    pub fn says_bytes(&self, at: usize) -> bool {
        at > 0 && self.b_end == at
    }

    /// Whether a word other than `b` is right before this place.
    pub fn says_word(&self, at: usize) -> bool {
        self.sign == 0 && self.word_end == at
    }

    /// Adds a sign.
    fn add_sign(&mut self, sign: u8) {
        self.sign = sign;
        self.is_empty = false;
    }

    /// Whether a bracket at this place may have bytes in it. Brackets without a declaration are
    /// JSON or EDN, except braces round hex, or behind `=`. A bracket right behind a word is an
    /// index, a size or a call, but for the calls `of(..)` and `byteArrayOf(..)`.
    fn declares(&self, cursor: &Code) -> bool {
        if cursor.peek() == b'{' {
            let mut inner = *cursor;
            inner.pass(1);
            inner.skip_space();
            let is_hex = inner.take(b"0x");
            return self.has_type || self.sign == b'=' || (self.is_empty && is_hex);
        }
        self.has_type
            && (!self.says_word(cursor.at)
                || self.word.ends_with(b"Of")
                || matches!(self.word, b"of"))
    }
}

/// Whether a declaration or a call may have a sign, outside of strings and comments. `/` is not
/// among them: it begins a comment of EDN.
fn is_sign(byte: u8) -> bool {
    matches!(
        byte,
        b'[' | b']'
            | b'('
            | b')'
            | b'='
            | b'<'
            | b'>'
            | b','
            | b';'
            | b':'
            | b'.'
            | b'*'
            | b'&'
            | b'!'
            | b'@'
    )
}

/// Reads bytes in code: the first array of bytes or the first strings, with what may be before and
/// behind them.
pub(super) fn read_code(text: &[u8], sink: &mut Sink) -> Option<Printed> {
    let mut cursor = Code::new(text);
    let mut before = Before {
        word: b"",
        word_end: 0,
        b_end: 0,
        sign: 0,
        is_empty: true,
        has_type: false,
        is_c: false,
    };
    for _ in 0..MOST_BEFORE {
        cursor.skip_space();
        // The type of bytes in Python's `array('B', [..])`.
        before.has_type |= cursor.take(b"'B'");
        let sign = cursor.peek();
        if sign == b'"' || sign == b'\'' {
            return read_quoted(cursor, before, sink);
        }
        if matches!(sign, b'{' | b'[' | b'(') && before.declares(&cursor) {
            let mut inner = cursor;
            if read_array(&mut inner, sink) {
                return Some(Printed::Array);
            }
            sink.clear();
        }
        let word = cursor.word();
        if !word.is_empty() {
            before.add_word(word, cursor.at);
        } else if is_sign(sign) {
            before.add_sign(sign);
            cursor.pass(1);
        } else {
            return None;
        }
    }
    None
}

/// Takes what may follow the bytes: closing brackets, `;` and `,`, and the length that `xxd -i`
/// declares. Returns whether that is all, and the length is that number.
pub(super) fn take_rest(cursor: &mut Code, count: usize) -> bool {
    for _ in 0..u64::MAX {
        cursor.skip_space();
        match cursor.peek() {
            b')' | b']' | b'}' | b';' | b',' => cursor.pass(1),
            _ => break,
        }
    }
    cursor.rest().is_empty() || take_length(cursor, count)
}

/// Takes the declaration of the length: `unsigned int m_len = 3;`.
fn take_length(cursor: &mut Code, count: usize) -> bool {
    if !cursor.take(b"unsigned int ") {
        return false;
    }
    let _ = cursor.word();
    cursor.skip_space();
    let is_set = cursor.take(b"=");
    cursor.skip_space();
    let mut length = 0usize;
    for digit in cursor.word() {
        let value = usize::from(digit.wrapping_sub(b'0'));
        length = length.saturating_mul(10).saturating_add(value);
    }
    is_set && length == count && cursor.take(b";") && cursor.rest().trim_ascii().is_empty()
}
