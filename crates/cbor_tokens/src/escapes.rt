//! Escapes texts for the quotes of JSON and EDN: the quote, the backslash, and each hidden
//! character. A hidden character is a control character, ends a line, changes the direction of a
//! text, or is the byte order mark. [`is_shown`] tests whether a text has none, and [`push_shown`]
//! escapes them in lines of text, except line feeds.
//!
//! ```rust
//! use cbor_tokens::push_escaped;
//!
//! let mut out = String::new(alloc);
//! push_escaped(&mut out, "a\"b\n")?;
//! assert_eq!(rt; out.as_str(), "a\\\"b\\n");
//! ```
#![tactic(auto, using(crate::proofs::texts::Appending::appending_steps))]

ghost use Rattle.std.specs.Prelude.{◌≡◌};
ghost use Rattle.std.specs.List.{list_any};
ghost use Rattle.cbor_tokens.specs.Appends.{AppendsText};
ghost use Rattle.cbor_tokens.specs.Escapes.{escaped_text, escaped_char, unit_escape};
ghost use Rattle.cbor_tokens.specs.Escapes.{begins_escape, is_hidden as hides};

mod hidden;

use crate::hex_digits::push_hex;
pub use hidden::{is_shown, push_shown};
use std::alloc::AllocError;

/// Appends a text in which each character that needs it is escaped. Most texts have none.
pub fn push_escaped(out: &mut String, text: &str) -> Result<(), AllocError>
    ensures { AppendsText result out.old out.new (escaped_text text.now) }
{
    if !may_have_escapes(text) {
        return out.push_str(text);
    }
    push_escaped_chars(out, text)
}

/// Whether the text may have a character that needs an escape. It tests the text to its end, so
/// that the compiler takes many bytes at once.
fn may_have_escapes(text: &str) -> bool
    ensures { result ≡ list_any begins_escape text.now }
{
    let mut found = 0;
    'bytes: for byte in text.as_bytes() {
        found = u8::from(may_begin_escape(*byte)).max(found);
    }
    found > 0
}

/// Whether a character that begins with this byte may be escaped.
fn may_begin_escape(byte: u8) -> bool
    ensures { result ≡ begins_escape byte }
{
    byte <= 31
        || byte == b'"'
        || byte == b'\\'
        || byte == 0x7f
        || byte == 0xc2
        || byte == 0xd8
        || byte == 0xe2
        || byte == 0xef
}

/// The same as `push_escaped`, character by character.
fn push_escaped_chars(out: &mut String, text: &str) -> Result<(), AllocError>
    ensures { AppendsText result out.old out.new (escaped_text text.now) }
{
    for character in text.chars() {
        push_escaped_char(out, character)?;
    }
    Ok(())
}

/// Whether a character is hidden: a control character, one that ends a line or changes the
/// direction of a text, or the byte order mark.
fn is_hidden(character: char) -> bool
    ensures { result ≡ hides character }
{
    matches!(
        character,
        '\0'..='\u{1f}'
            | '\u{7f}'..='\u{9f}'
            | '\u{61c}'
            | '\u{200e}'
            | '\u{200f}'
            | '\u{2028}'..='\u{202e}'
            | '\u{2066}'..='\u{2069}'
            | '\u{feff}'
    )
}

fn push_escaped_char(out: &mut String, character: char) -> Result<(), AllocError>
    ensures { AppendsText result out.old out.new (escaped_char character) }
{
    match character {
        '"' => out.push_str("\\\""),
        '\\' => out.push_str("\\\\"),
        '\n' => out.push_str("\\n"),
        '\r' => out.push_str("\\r"),
        '\t' => out.push_str("\\t"),
        '\u{8}' => out.push_str("\\b"),
        '\u{c}' => out.push_str("\\f"),
        _ if is_hidden(character) => push_unit(out, u32::from(character) as u16),
        _ => out.push(character),
    }
}

/// Writes a character below U+10000 as `\u` and four hex digits.
fn push_unit(out: &mut String, unit: u16) -> Result<(), AllocError>
    ensures { AppendsText result out.old out.new (unit_escape unit) }
{
    out.push_str("\\u")?;
    push_hex(out, &unit.to_be_bytes())
}
