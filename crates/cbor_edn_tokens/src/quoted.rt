//! Reads the content of a quoted string of EDN up to the closing quote, and decodes escapes such as
//! `\n` and `\u00e9`.
ghost use Rattle.std.specs.Prelude.{◌≡◌, ◌<◌, ◌≤◌, ◌^◌, ◌++◌, true, length, take, drop, IfOk};
ghost use Rattle.std.specs.Prelude.{IfSome};
ghost use Rattle.std.specs.Prelude.{option_map};
ghost use Rattle.cbor_tokens.specs.Token.{is_special};
ghost use Rattle.cbor_edn_grammar.specs.Reading.{Gives, TurnGives};
ghost use Rattle.cbor_edn_grammar.specs.Quoted.{two_hex, four_hex, braced};
ghost use Rattle.cbor_edn_grammar.specs.Quoted.{second_half, unicode_escape, escaped, escape};
ghost use Rattle.cbor_edn_grammar.specs.Quoted.{plain_len, content_turn, quoted, is_first_half};
ghost use Rattle.cbor_edn_grammar.specs.Quoted.{is_second_half};

use crate::cursor::{Cursor, after_byte, after_bytes};
use cbor_edn_grammar::error::{Expected, Stop};
use std::alloc::{AllocError, Global};

/// The number of the two hex digits at the front, and the text after them.
fn two_hex(text: &[u8]) -> Option<(u32, &[u8])>
    ensures gives { option_map (λ x. (x.0, x.1.now)) result ≡ two_hex text.now }
    ensures small { IfSome result (λ x. x.0 < 2 ^ 8) }
    ensures shorter { IfSome result (λ x. length x.1.now < length text.now) }
{
    let [high, low, rest @ ..] = text else {
        return None;
    };
    let high = char::from(*high).to_digit(16)?;
    let low = char::from(*low).to_digit(16)?;
    Some((high * 16 + low, rest))
}

/// The number of the four hex digits at the front, and the text after them.
fn four_hex(text: &[u8]) -> Option<(u32, &[u8])>
    ensures gives { option_map (λ x. (x.0, x.1.now)) result ≡ four_hex text.now }
    ensures small { IfSome result (λ x. x.0 < 2 ^ 16) }
    ensures shorter { IfSome result (λ x. length x.1.now < length text.now) }
{
    let (high, after) = two_hex(text)?;
    let (low, rest) = two_hex(after)?;
    Some((high * 256 + low, rest))
}

/// The number of the hex digits up to a `}`, at most `10ffff`, and the text after it.
fn braced(text: &[u8]) -> Option<(u32, &[u8])>
    ensures gives { option_map (λ x. (x.0, x.1.now)) result ≡ braced text.now }
    ensures shorter { IfSome result (λ x. length x.1.now < length text.now) }
{
    if let [b'}', ..] = text {
        return None;
    }
    let mut value = 0;
    let mut rest = text;
    'digits: while let [first, after @ ..] = rest {
        if *first == b'}' {
            return Some((value, after));
        }
        value = value * 16 + char::from(*first).to_digit(16)?;
        if value >= 0x11_0000 {
            return None;
        }
        rest = after;
    }
    None
}

/// Whether the number is a high surrogate.
fn is_first_half(number: u32) -> bool
    ensures { result ≡ is_first_half number }
{
    number >= 0xd800 && number < 0xdc00
}

/// Whether the number is a low surrogate.
fn is_second_half(number: u32) -> bool
    ensures { result ≡ is_second_half number }
{
    number >= 0xdc00 && number < 0xe000
}

/// The character of a surrogate pair, whose first half was read, and the text after it.
fn second_half(first: u32, text: &[u8]) -> Option<(char, &[u8])>
    requires { is_first_half first ≡ true }
    ensures gives { option_map (λ x. (x.0, x.1.now)) result ≡ second_half first text.now }
    ensures shorter { IfSome result (λ x. length x.1.now < length text.now) }
{
    let digits = after_bytes(text, b"\\u")?;
    let (second, rest) = four_hex(digits)?;
    if !is_second_half(second) {
        return None;
    }
    let both = 0x1_0000 + (first - 0xd800) * 0x400 + (second - 0xdc00);
    Some((char::from_u32(both)?, rest))
}

/// The character of an escape after its `\u`, and the text after it.
fn unicode_escape(text: &[u8]) -> Option<(char, &[u8])>
    ensures gives { option_map (λ x. (x.0, x.1.now)) result ≡ unicode_escape text.now }
    ensures shorter { IfSome result (λ x. length x.1.now < length text.now) }
{
    if let [b'{', digits @ ..] = text {
        let (number, rest) = braced(digits)?;
        return Some((char::from_u32(number)?, rest));
    }
    let (number, rest) = four_hex(text)?;
    if is_first_half(number) {
        second_half(number, rest)
    } else {
        Some((char::from_u32(number)?, rest))
    }
}

/// The character that a letter after a `\` stands for.
fn escaped(letter: u8, quote: u8) -> Option<char>
    ensures { result ≡ escaped quote letter }
{
    match letter {
        b'"' => Some('"'),
        b'\\' => Some('\\'),
        b'/' => Some('/'),
        b'\'' if quote == b'\'' => Some('\''),
        b'b' => Some('\u{8}'),
        b'f' => Some('\u{c}'),
        b'n' => Some('\n'),
        b'r' => Some('\r'),
        b't' => Some('\t'),
        _ => None,
    }
}

/// The character of an escape after its `\`, and the text after it.
fn escape(text: &[u8], quote: u8) -> Option<(char, &[u8])>
    ensures gives { option_map (λ x. (x.0, x.1.now)) result ≡ escape quote text.now }
    ensures shorter { IfSome result (λ x. length x.1.now < length text.now) }
{
    match text {
        [b'u', rest @ ..] => unicode_escape(rest),
        [letter, rest @ ..] => Some((escaped(*letter, quote)?, rest)),
        [] => None,
    }
}

/// The error for an invalid escape, by what follows its `\`.
fn no_escape(text: &[u8]) -> Expected {
    let [b'u', digits @ ..] = text else {
        return Expected::Escape;
    };
    match four_hex(digits) {
        Some((number, _)) if is_first_half(number) => Expected::SecondHalf {
            first: number as u16,
        },
        Some((number, _)) if is_second_half(number) => Expected::FirstHalf {
            second: number as u16,
        },
        _ => Expected::Escape,
    }
}

/// Whether a byte is the quote or a `\`.
fn is_special(quote: u8, byte: u8) -> bool
    ensures { result ≡ is_special quote byte }
{
    byte == quote || byte == b'\\'
}

/// How many bytes come before the first quote or `\`.
fn plain_len(text: &[u8], quote: u8) -> usize
    ensures same { result ≡ plain_len quote text.now }
    ensures within { result ≤ length text.now }
{
    text.iter()
        .position(move |byte| is_special(quote, *byte))
        .unwrap_or(text.len())
}

/// Adds one byte of content, or the character of an escape. Returns false at the closing quote.
fn content_turn(content: &mut Vec<u8>, text: &mut Cursor<'_>, quote: u8) -> Result<bool, Stop>
    ensures gives { TurnGives result content.old.items content.new.items text.new
        (content_turn quote text.old) }
    ensures within { length text.new ≤ length text.old }
    ensures shorter { IfOk result (λ _. length text.new < length text.old) }
{
    match text.rest() {
        [first, rest @ ..] if *first == quote => {
            *text = Cursor::new(rest);
            Ok(false)
        }
        [b'\\', after @ ..] => {
            let Some((character, rest)) = escape(after, quote) else {
                return Err(Stop::At(no_escape(after)));
            };
            let mut buffer = [0; 4];
            content.extend_from_slice(character.encode_utf8(&mut buffer).as_bytes())?;
            *text = Cursor::new(rest);
            Ok(true)
        }
        [first, rest @ ..] => {
            content.push(*first)?;
            *text = Cursor::new(rest);
            Ok(true)
        }
        [] => Err(Stop::At(Expected::Quote)),
    }
}

/// Adds the bytes before the first quote or backslash at once. Byte by byte, a text takes twice as
/// long.
fn push_plain(content: &mut Vec<u8>, text: &mut Cursor<'_>, quote: u8) -> Result<(), AllocError>
    ensures content { IfOk result (λ _. content.new.items
        ≡ content.old.items ++ take (plain_len quote text.old) text.old) }
    ensures rest { text.new ≡ drop (plain_len quote text.old) text.old }
    ensures within { length text.new ≤ length text.old }
{
    let (plain, rest) = text.rest().split_at(plain_len(text.rest(), quote));
    *text = Cursor::new(rest);
    content.extend_from_slice(plain)
}

/// Reads the content up to the closing quote, and decodes its escapes.
pub fn read_quoted(alloc: Global, text: &mut Cursor<'_>, quote: u8) -> Result<Vec<u8>, Stop>
    ensures gives { Gives (λ x. (x.items, text.new)) result (quoted quote text.old) }
    ensures within { length text.new ≤ length text.old }
    ensures shorter { IfOk result (λ _. length text.new < length text.old) }
{
    let mut content = Vec::new(alloc);
    'content: loop {
        push_plain(&mut content, text, quote)?;
        let more = content_turn(&mut content, text, quote)?;
        if !more {
            return Ok(content);
        }
    }
}
