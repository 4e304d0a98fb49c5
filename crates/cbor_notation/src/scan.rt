//! Skips blanks, a given byte or word, and the end of a list in notation, and reads the width of a
//! container's count. The functions that skip take a text and return the text after what they skip.
ghost use Rattle.std.specs.Prelude.{◌≡◌, ◌⊎◌, ◌<◌, ◌≤◌, length, position, not, IfOk, IfSome};
ghost use Rattle.std.specs.Prelude.{option_map};
ghost use Rattle.cbor_tokens.specs.Token.{is_whitespace};
ghost use Rattle.cbor_grammar.specs.Reading.{Gives};
ghost use Rattle.cbor_notation.specs.mirror.NotationReading.{or_refused, skip_blank, after_byte};
ghost use Rattle.cbor_notation.specs.mirror.NotationReading.{after_word, after_space, after_end};
ghost use Rattle.cbor_notation.specs.mirror.NotationReading.{read_length};

use cbor_grammar::{Error, IntegerWidth, Result};

/// Whether a byte is a space, a tab, a line feed or a carriage return. Most bytes of a text are
/// above all of these, so one comparison excludes them.
fn is_whitespace(byte: u8) -> bool
    ensures { result ≡ is_whitespace byte }
{
    byte <= b' ' && matches!(byte, b' ' | b'\t' | b'\n' | b'\r')
}

/// The text after the longest blank at its front.
pub fn after_blank(text: &[u8]) -> &[u8]
    ensures gives { result.now ≡ skip_blank text.now }
    ensures shorter { length result.now ≤ length text.now }
{
    &text[cbor_tokens::blank_len(text)..]
}

/// The text after this byte, or `None` if the text does not begin with it.
pub fn after_byte(text: &[u8], byte: u8) -> Option<&[u8]>
    ensures gives { option_map (λ x. x.now) result ≡ after_byte byte text.now }
    ensures shorter { IfSome result (λ x. length x.now < length text.now) }
{
    match text {
        [first, rest @ ..] if *first == byte => Some(rest),
        _ => None,
    }
}

/// The text after this byte, or an error if the text does not begin with it.
pub fn expect_byte(text: &[u8], byte: u8) -> Result<&[u8]>
    ensures gives { Gives (λ x. x.now) result (or_refused (after_byte byte text.now)) }
    ensures shorter { IfOk result (λ x. length x.now < length text.now) }
{
    after_byte(text, byte).ok_or(Error::Notation)
}

/// The text after this word, or `None` if the text does not begin with it.
pub fn after_word<'a>(text: &'a [u8], word: &[u8]) -> Option<&'a [u8]>
    ensures gives { option_map (λ x. x.now) result ≡ after_word word.now text.now }
    ensures shorter { IfSome result (λ x. length x.now ≤ length text.now) }
{
    if text.starts_with(word) {
        Some(&text[word.len()..])
    } else {
        None
    }
}

/// How many bytes of whitespace come first, or `None` if no other byte follows them.
pub fn whitespace_len(text: &[u8]) -> Option<usize>
    ensures { result ≡ position (λ b. not (is_whitespace b)) text.now }
{
    text.iter().position(|byte| !is_whitespace(*byte))
}

/// The text after whitespace and the closing byte of a list, or `None` if it does not begin with
/// both.
pub fn after_space(text: &[u8], close: u8) -> Option<&[u8]>
    ensures gives { option_map (λ x. x.now) result ≡ after_space close text.now }
    ensures shorter { IfSome result (λ x. length x.now < length text.now) }
{
    let spaces = whitespace_len(text)?;
    if spaces == 0 {
        return None;
    }
    after_byte(&text[spaces..], close)
}

/// The text after the end of a list, or `None` if the list does not end here. The end is the
/// closing byte, or a trailing comma, whitespace and the closing byte.
pub fn after_end(text: &[u8], close: u8) -> Option<&[u8]>
    ensures gives { option_map (λ x. x.now) result ≡ after_end close text.now }
    ensures shorter { IfSome result (λ x. length x.now < length text.now) }
{
    match text {
        [b',', rest @ ..] => after_space(rest, close),
        _ => after_byte(text, close),
    }
}

/// The width of a container's count, and the text after it. The width is unstated, or `None` after
/// `_`.
pub fn read_length(text: &[u8]) -> (Option<IntegerWidth>, &[u8])
    ensures gives { let answer = read_length text.now in
        (result.0 ≡ answer.0) × (result.1.now ≡ answer.1) }
    ensures unstated { (result.0 ≡ None) ⊎ (result.0 ≡ Some IntegerWidth.Unknown) }
    ensures shorter { length result.1.now ≤ length text.now }
{
    match after_byte(text, b'_') {
        Some(rest) => (None, rest),
        None => (Some(IntegerWidth::Unknown), text),
    }
}
