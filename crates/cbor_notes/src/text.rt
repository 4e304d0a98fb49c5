//! Writes bytes between quotes, texts with escapes, hex digits, and numbers in groups of three
//! digits, as comments show them.

ghost use Rattle.std.specs.Prelude.{◌≡◌, ◌≤◌, ◌<◌, ◌+◌, ◌*◌, [], ◌∷◌, ◌++◌, length, take, IfOk};
ghost use Rattle.std.specs.Prelude.{OnOk, OnErr, flat_map};
ghost use Rattle.std.specs.List.{list_any};
ghost use Rattle.std.specs.String.{string_bytes};
ghost use Rattle.std.specs.String.Boundary.{IsSplitPoint};
ghost use Rattle.std.specs.Str.{IsAscii};
ghost use Rattle.std.specs.Prelude.{codes, false};
ghost use Rattle.std.specs.Fmt.{digit_glyph, digits};
ghost use Rattle.hex.specs.Hex.{encode_lower};
ghost use Rattle.cbor_tokens.specs.Appends.{AppendsText};
ghost use Rattle.cbor_notes.specs.Text as spec;
ghost use Rattle.cbor_notes.specs.Views.{begins_escape};

use crate::ascii_buffer::AsciiBuffer;
use cbor_tokens::push_hex;
use std::alloc::{AllocError, Global};

/// Returns `bytes` between quotes, as in `"\x00A\n"`.
///
/// A tab, a carriage return and a line feed are `\t`, `\r` and `\n`. `'`, `"` and `\` have a
/// backslash before them. The other bytes from `0x20` to `0x7e` are unchanged. Any other byte is
/// `\x` and two hex digits in lower case. The only error is out of memory.
///
/// ```rust
/// use cbor_notes::quoted_bytes;
///
/// let text = quoted_bytes(alloc, b"\x00A\n")?;
/// assert_eq!(rt; text.as_str(), "\"\\x00A\\n\"");
/// ```
pub fn quoted_bytes(alloc: Global, bytes: &[u8]) -> Result<String, AllocError>
    ensures text { IfOk result (λ text. string_bytes text ≡ spec.quoted_bytes bytes.now) }
{
    // Enough if each byte is written as it is.
    let mut text = String::with_capacity(alloc, bytes.len().saturating_add(2))?;
    push_quoted_bytes(&mut text, bytes)?;
    Ok(text)
}

/// Appends the text of [`quoted_bytes`] to `text`. The only error is out of memory, and after it
/// `text` is unchanged.
///
/// ```rust
/// use cbor_notes::push_quoted_bytes;
///
/// let mut text = String::from_str(alloc, "is ")?;
/// push_quoted_bytes(&mut text, b"it's")?;
/// assert_eq!(rt; text.as_str(), "is \"it\\'s\"");
/// ```
pub fn push_quoted_bytes(text: &mut String, bytes: &[u8]) -> Result<(), AllocError>
    ensures text { OnOk result
        (string_bytes text.new ≡ string_bytes text.old ++ spec.quoted_bytes bytes.now) }
    ensures unchanged { OnErr result (string_bytes text.new ≡ string_bytes text.old) }
{
    let len = text.len();
    let answer = write_quoted_bytes(text, bytes);
    cut_after_error(text, len, answer)
}

/// Returns the result of an append to `text`. After an error it cuts `text` back to its first `len`
/// bytes.
pub(crate) fn cut_after_error(
    text: &mut String,
    len: usize,
    answer: Result<(), AllocError>,
) -> Result<(), AllocError>
    requires { OnErr answer (IsSplitPoint (string_bytes text.old) len) }
    ensures answer { result ≡ answer }
    ensures kept { OnOk answer (string_bytes text.new ≡ string_bytes text.old) }
    ensures cut { OnErr answer (string_bytes text.new ≡ take len (string_bytes text.old)) }
{
    if answer.is_err() {
        text.truncate(len);
    }
    answer
}

/// As `push_quoted_bytes`, but after an error `text` may end with a part of the output.
fn write_quoted_bytes(text: &mut String, bytes: &[u8]) -> Result<(), AllocError>
    ensures { AppendsText result text.old text.new (spec.quoted_bytes bytes.now) }
{
    text.push('"')?;
    let mut rest = bytes;
    'pieces: while !rest.is_empty() {
        let (piece, after) = rest.split_at(rest.len().min(FEW));
        push_escaped_bytes(text, piece)?;
        rest = after;
    }
    text.push('"')
}

/// How many bytes are escaped at once.
const FEW: usize = 16;

/// Appends a few bytes, each of them escaped, all at once.
fn push_escaped_bytes(text: &mut String, piece: &[u8]) -> Result<(), AllocError>
    requires { length piece.now ≤ FEW }
    ensures text { OnOk result
        (string_bytes text.new ≡ string_bytes text.old ++ flat_map spec.escaped_byte piece.now) }
    ensures unchanged { OnErr result (string_bytes text.new ≡ string_bytes text.old) }
{
    let mut escaped = AsciiBuffer::new();
    for byte in piece {
        put_escaped_byte(&mut escaped, *byte);
    }
    text.push_str(escaped.as_str())
}

fn put_escaped_byte(out: &mut AsciiBuffer, byte: u8)
    requires { length out.old + 4 ≤ 96 }
    ensures text { out.new ≡ out.old ++ spec.escaped_byte byte }
    ensures len { length out.new ≤ length out.old + 4 }
{
    match byte {
        b'\t' => put_pair(out, b'\\', b't'),
        b'\r' => put_pair(out, b'\\', b'r'),
        b'\n' => put_pair(out, b'\\', b'n'),
        b'\'' | b'"' | b'\\' => put_pair(out, b'\\', byte),
        b' '..=b'~' => out.push(byte),
        _ => {
            put_pair(out, b'\\', b'x');
            out.push_hex(byte);
        }
    }
}

/// Appends two characters.
fn put_pair(out: &mut AsciiBuffer, first: u8, second: u8)
    requires room { length out.old + 2 ≤ 96 }
    requires first { first < 128 }
    requires second { second < 128 }
    ensures { out.new ≡ out.old ++ first ∷ second ∷ [] }
{
    out.push(first);
    out.push(second);
}

/// Appends the hex digits of at most 32 bytes to `text` as [`push_hex`] does, with a blank after
/// those of the first byte if more follow. The only error is out of memory, and after it `text` is
/// unchanged.
///
/// ```rust
/// use cbor_notes::push_spaced_hex;
///
/// let mut text = String::new(alloc);
/// push_spaced_hex(&mut text, b"\x19\x01\xf4")?;
/// assert_eq!(rt; text.as_str(), "19 01f4");
/// ```
pub fn push_spaced_hex(text: &mut String, bytes: &[u8]) -> Result<(), AllocError>
    requires { length bytes.now ≤ 32 }
    ensures text { OnOk result (string_bytes text.new ≡ string_bytes text.old
        ++ spec.spaced_hex bytes.now) }
    ensures unchanged { OnErr result (string_bytes text.new ≡ string_bytes text.old) }
{
    if bytes.len() <= 1 {
        return push_hex(text, bytes);
    }
    let mut digits = AsciiBuffer::new();
    put_hex(&mut digits, &bytes[..1]);
    digits.push(b' ');
    put_hex(&mut digits, &bytes[1..]);
    text.push_str(digits.as_str())
}

fn put_hex(out: &mut AsciiBuffer, bytes: &[u8])
    requires { length out.old + 2 * length bytes.now ≤ 96 }
    ensures digits { out.new ≡ out.old ++ encode_lower bytes.now }
    ensures len { length out.new ≡ length out.old + 2 * length bytes.now }
{
    for byte in bytes {
        out.push_hex(*byte);
    }
}

/// Appends the two hex digits of `byte` to `text`, in lower case.
pub(crate) fn push_hex_byte(text: &mut String, byte: u8) -> Result<(), AllocError>
    ensures { AppendsText result text.old text.new (encode_lower (byte ∷ [])) }
{
    let mut digits = [0; 2];
    hex::encode_to_slice([byte], &mut digits).unwrap();
    text.push(char::from(digits[0]))?;
    text.push(char::from(digits[1]))
}

/// Returns `text` with some of its characters escaped. No quotes are added.
///
/// `"` and `\` have a backslash before them. A tab, a carriage return and a line feed are `\t`,
/// `\r` and `\n`. The other characters of U+0000 to U+001F and U+007F to U+009F are `\u{h}`, where
/// `h` is hex digits in lower case without a leading zero. The only error is out of memory.
///
/// ```rust
/// use cbor_notes::escaped_text;
///
/// let text = escaped_text(alloc, "say \"hi\"\n")?;
/// assert_eq!(rt; text.as_str(), "say \\\"hi\\\"\\n");
/// ```
pub fn escaped_text(alloc: Global, text: &str) -> Result<String, AllocError>
    ensures text { IfOk result (λ escaped. string_bytes escaped ≡ spec.escaped_text text.now) }
{
    let mut escaped = String::with_capacity(alloc, text.len())?;
    push_escaped_text(&mut escaped, text)?;
    Ok(escaped)
}

/// Appends the text of [`escaped_text`] to `escaped`. The only error is out of memory, and after it
/// `escaped` is unchanged.
///
/// ```rust
/// use cbor_notes::push_escaped_text;
///
/// let mut text = String::from_str(alloc, "C:")?;
/// push_escaped_text(&mut text, "\\temp")?;
/// assert_eq!(rt; text.as_str(), "C:\\\\temp");
/// ```
#[tactic(auto, using(crate::proofs::texts::Unescaped::unescaped_text))]
pub fn push_escaped_text(escaped: &mut String, text: &str) -> Result<(), AllocError>
    ensures text { OnOk result
        (string_bytes escaped.new ≡ string_bytes escaped.old ++ spec.escaped_text text.now) }
    ensures unchanged { OnErr result (string_bytes escaped.new ≡ string_bytes escaped.old) }
{
    if !may_have_control_quote_or_backslash(text) {
        return escaped.push_str(text);
    }
    let len = escaped.len();
    let answer = write_escaped_text(escaped, text);
    cut_after_error(escaped, len, answer)
}

/// Whether the text may have a character that is escaped: a control character, `"` or `\`.
/// The loop always runs to the end of the text, so that the compiler can test many bytes at once.
fn may_have_control_quote_or_backslash(text: &str) -> bool
    ensures { result ≡ list_any begins_escape text.now }
{
    let mut found = 0;
    'bytes: for byte in text.as_bytes() {
        found = u8::from(may_begin_escape(*byte)).max(found);
    }
    found > 0
}

/// Whether a character that begins with this byte may be escaped: `0xc2` begins U+0080 to U+00BF.
fn may_begin_escape(byte: u8) -> bool
    ensures { result ≡ begins_escape byte }
{
    byte < b' ' || byte == b'"' || byte == b'\\' || byte == 0x7f || byte == 0xc2
}

/// As `push_escaped_text`, but after an error `escaped` may end with a part of the output.
fn write_escaped_text(escaped: &mut String, text: &str) -> Result<(), AllocError>
    ensures { AppendsText result escaped.old escaped.new (spec.escaped_text text.now) }
{
    for character in text.chars() {
        push_escaped_char(escaped, character)?;
    }
    Ok(())
}

fn push_escaped_char(text: &mut String, character: char) -> Result<(), AllocError>
    ensures { AppendsText result text.old text.new (spec.escaped_char character) }
{
    match character {
        '\t' => text.push_str("\\t"),
        '\r' => text.push_str("\\r"),
        '\n' => text.push_str("\\n"),
        '"' | '\\' => {
            text.push('\\')?;
            text.push(character)
        }
        '\0'..='\u{1f}' | '\u{7f}'..='\u{9f}' => push_code(text, u32::from(character) as u8),
        _ => text.push(character),
    }
}

/// Appends the escape `\u{h}` of a character below U+0100, with its code in hex digits.
fn push_code(text: &mut String, code: u8) -> Result<(), AllocError>
    ensures { AppendsText result text.old text.new
        (codes "\\u{" ++ digits 16 false code ++ codes "}") }
{
    text.push_str("\\u{")?;
    if code >= 16 {
        text.push(hex_digit(code / 16))?;
    }
    text.push(hex_digit(code % 16))?;
    text.push('}')
}

/// The hex digit of a number below 16, in lower case.
fn hex_digit(number: u8) -> char
    requires { number < 16 }
    ensures digit { result ≡ digit_glyph false number }
    ensures ascii { result < 128 }
{
    char::from(if number < 10 {
        b'0' + number
    } else {
        b'a' + (number - 10)
    })
}

/// Returns `number` in decimal digits, in groups of three from the right with `,` between them, and
/// with `-` before it if `negative` is set: `999`, `1,000`, `-1,234,567`. The only error is out of
/// memory.
///
/// ```rust
/// use cbor_notes::grouped;
///
/// let text = grouped(alloc, 1_234_567, true)?;
/// assert_eq!(rt; text.as_str(), "-1,234,567");
/// ```
pub fn grouped(alloc: Global, number: u128, negative: bool) -> Result<String, AllocError>
    ensures text { IfOk result (λ text. string_bytes text ≡ spec.grouped number negative) }
    // From the right, each group has three digits.
    ensures by_three { IfOk result
        (λ text. spec.IsGroupedNumber number negative (string_bytes text)) }
{
    let mut text = String::new(alloc);
    push_grouped(&mut text, number, negative)?;
    Ok(text)
}

/// Appends the text of [`grouped`] to `text`. The only error is out of memory, and after it `text`
/// is unchanged.
///
/// ```rust
/// use cbor_notes::push_grouped;
///
/// let mut text = String::from_str(alloc, "day ")?;
/// push_grouped(&mut text, 10_676, true)?;
/// assert_eq!(rt; text.as_str(), "day -10,676");
/// ```
pub fn push_grouped(text: &mut String, number: u128, negative: bool) -> Result<(), AllocError>
    ensures text { OnOk result
        (string_bytes text.new ≡ string_bytes text.old ++ spec.grouped number negative) }
    ensures unchanged { OnErr result (string_bytes text.new ≡ string_bytes text.old) }
{
    let mut grouped = AsciiBuffer::new();
    if negative {
        grouped.push(b'-');
    }
    let mut digits = itoa::Buffer::new();
    put_in_groups(&mut grouped, digits.format(number).as_bytes());
    text.push_str(grouped.as_str())
}

fn put_in_groups(out: &mut AsciiBuffer, digits: &[u8])
    requires ascii { IsAscii digits.now }
    requires room { length out.old + 2 * length digits.now ≤ 96 }
    ensures { out.new ≡ out.old ++ spec.in_groups digits.now }
{
    for (place, digit) in digits.iter().enumerate() {
        out.push(*digit);
        let after = digits.len() - place - 1;
        if after > 0 && after % 3 == 0 {
            out.push(b',');
        }
    }
}
