//! Tests whether a text has no hidden characters, such as control characters (`is_shown`), and
//! escapes them, except line feeds (`push_shown`).
#![tactic(auto, using(crate::proofs::texts::Appending::appending_steps))]

ghost use Rattle.std.specs.Prelude.{◌≡◌, ◌↔◌, ℕ, ◌+◌, ◌<◌, ◌≤◌, true, IsTrue, slice_index, length};
ghost use Rattle.cbor_tokens.specs.Hidden.{Hides, NeverHides, IsShown};
ghost use Rattle.cbor_tokens.specs.Hidden.{HidesNone, ShownBetween};
ghost use Rattle.cbor_tokens.specs.Appends.{AppendsText};
ghost use Rattle.cbor_tokens.specs.Escapes.{shown_text, shown_char};

use crate::escapes::is_hidden;
use crate::hex_digits::push_hex;
use std::alloc::AllocError;

/// Whether three bytes of UTF-8 begin with a hidden character: a control character (except a line
/// feed, if `lines` is set), U+061C, U+200E, U+200F, U+2028 to U+202E, U+2066 to U+2069, or U+FEFF.
fn hides(lines: bool, a: u8, b: u8, c: u8) -> bool
    ensures { IsTrue result ↔ Hides lines a b c }
{
    if a < 32 {
        return !(lines && a == 10);
    }
    match a {
        127 => true,
        0xc2 => b < 0xa0,
        0xd8 => b == 0x9c,
        0xe2 if b == 0x80 => (0x8e <= c && c <= 0x8f) || (0xa8 <= c && c <= 0xae),
        0xe2 => b == 0x81 && 0xa6 <= c && c <= 0xa9,
        0xef => b == 0xbb && c == 0xbf,
        _ => false,
    }
}

/// The byte at a place, or 0 past the end.
fn byte_at(text: &[u8], at: usize) -> u8
    ensures { result ≡ slice_index text.now at }
{
    match text.get(at) {
        Some(byte) => *byte,
        None => 0,
    }
}

/// Whether no hidden character begins with this byte, whatever follows. It has no branch, for
/// `is_harmless`.
fn never_hides(lines: bool, a: u8) -> bool
    ensures { IsTrue result → NeverHides lines a }
{
    let plain = (a != 127) & (a != 0xc2) & (a != 0xd8) & (a != 0xe2) & (a != 0xef);
    ((a >= 32) | (lines & (a == 10))) & plain
}

/// Whether no byte between these places of a text can begin a hidden character. The loop has one
/// exit, so the compiler tests many bytes at once: a byte takes less than one instruction. Testing
/// each byte with the two after it takes some twenty.
fn is_harmless(lines: bool, text: &[u8], from: usize, to: usize) -> bool
    requires { to ≤ length text.now }
    ensures { IsTrue result → HidesNone lines text.now from to }
{
    let mut harmless = true;
    let mut at = from;
    'bytes: while at < to {
        harmless &= never_hides(lines, text[at]);
        at += 1;
    }
    harmless
}

/// Whether no hidden character begins between these places of a text.
fn is_shown_between(lines: bool, text: &[u8], from: usize, to: usize) -> bool
    requires { to ≤ length text.now }
    ensures { IsTrue result ↔ ShownBetween lines text.now from to }
{
    if is_harmless(lines, text, from, to) {
        return true;
    }
    let mut at = from;
    'bytes: while at < to {
        let (b, c) = (byte_at(text, at + 1), byte_at(text, at + 2));
        if hides(lines, text[at], b, c) {
            return false;
        }
        at += 1;
    }
    true
}

/// How many bytes of a text are tested together.
const BLOCK: usize = 256;

/// Whether a text has no hidden character: no control character, none that ends a line or changes
/// the direction of the text, and no byte order mark. If `lines` is set, line feeds are allowed.
///
/// ```rust
/// use cbor_tokens::is_shown;
///
/// assert!(rt; is_shown(true, b"two\nlines"));
/// assert!(rt; !is_shown(false, b"two\nlines"));
/// ```
pub fn is_shown(lines: bool, text: &[u8]) -> bool
    ensures { IsTrue result ↔ IsShown lines text.now }
{
    let mut at = 0;
    'parts: while at < text.len() {
        let end = text.len().min(at + BLOCK);
        if !is_shown_between(lines, text, at, end) {
            return false;
        }
        at = end;
    }
    true
}

/// Appends lines of text, and escapes each hidden character except line feeds, as in `\u{202e}`.
///
/// ```rust
/// use cbor_tokens::push_shown;
///
/// let mut out = String::new(alloc);
/// push_shown(&mut out, "a\u{202e}b\n")?;
/// assert_eq!(rt; out.as_str(), "a\\u{202e}b\n");
/// ```
pub fn push_shown(out: &mut String, text: &str) -> Result<(), AllocError>
    ensures { AppendsText result out.old out.new (shown_text text.now) }
{
    for character in text.chars() {
        push_shown_char(out, character)?;
    }
    Ok(())
}

fn push_shown_char(out: &mut String, character: char) -> Result<(), AllocError>
    ensures { AppendsText result out.old out.new (shown_char character) }
{
    if character == '\n' || !is_hidden(character) {
        return out.push(character);
    }
    let unit = u32::from(character) as u16;
    out.push_str("\\u{")?;
    push_hex(out, &unit.to_be_bytes())?;
    out.push('}')
}
