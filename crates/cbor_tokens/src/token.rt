//! Finds blanks in diagnostic notation: whitespace and comments. The file `number.rt` reads
//! numbers, and `content.rt` reads text and digits between quotes. Each call takes the longest
//! token at the front of a text, or at a place in it.
//!
//! A text is given as bytes of UTF-8. The caller decides what a token means.

mod content;
mod number;

ghost use Rattle.std.specs.Prelude.{◌≡◌, ◌==◌, ◌<◌, ◌≤◌, drop, length, position, slice_range, true};
ghost use Rattle.std.specs.Prelude.{IfNone, IfSome};
ghost use Rattle.cbor_tokens.specs.Ascii.{slash};
ghost use Rattle.cbor_tokens.specs.Token.{Blank, IsLongest, is_whitespace};
ghost use Rattle.cbor_tokens.specs.TokenReading.{after_blank};

pub use content::{digits_at, digits_front, quoted_at, quoted_front};
pub use number::{number_at, number_front};

/// Returns the end of the longest blank from `at` on. `at` is at most the length of `text`.
///
/// A blank is any run, possibly empty, of whitespace (space, tab, line feed, carriage return) and
/// comments. A comment is `/`, any bytes but `/`, and `/`. A `/` that no other `/` follows is not
/// part of a blank.
///
/// ```rust
/// use cbor_notes::blank_end;
///
/// assert_eq!(rt; blank_end(b" /two/ 2", 0), 7);
/// ```
pub fn blank_end(text: &[u8], at: usize) -> usize
    requires { at ≤ length text.now }
    ensures within { (at ≤ result) × (result ≤ length text.now) }
    ensures longest { IsLongest (Blank true) (slice_range text.now at result)
        (drop result text.now) }
{
    let (_, rest) = text.split_at(at);
    at + blank_len(rest)
}

/// Returns the length of the longest blank at the front. [`blank_end`] says what a blank is.
///
/// ```rust
/// use cbor_notes::blank_len;
///
/// assert_eq!(rt; blank_len(b" /two/ 2"), 7);
/// ```
pub fn blank_len(text: &[u8]) -> usize
    ensures within { result ≤ length text.now }
    ensures rest { drop result text.now ≡ after_blank true text.now }
{
    text.len() - after_blank(text, true).len()
}

/// The text after the longest blank at its front. Comments are blank if `comments` is set.
pub(crate) fn after_blank(text: &[u8], comments: bool) -> &[u8]
    ensures gives { result.now ≡ after_blank comments text.now }
    ensures within { length result.now ≤ length text.now }
{
    let mut rest = text;
    'pieces: while let Some(after) = after_piece(rest, comments) {
        rest = after;
    }
    rest
}

/// The text after the whitespace or the comment at its front, if it begins with one.
fn after_piece(text: &[u8], comments: bool) -> Option<&[u8]>
    ensures found { IfSome result (λ rest.
        after_blank comments rest.now ≡ after_blank comments text.now) }
    ensures shorter { IfSome result (λ rest. length rest.now < length text.now) }
    ensures none { IfNone result (text.now ≡ after_blank comments text.now) }
{
    match text {
        [byte, rest @ ..] if is_whitespace(*byte) => Some(rest),
        [b'/', rest @ ..] if comments => {
            let words = words_len(rest)?;
            let (_, after) = rest.split_at(words + 1);
            Some(after)
        }
        _ => None,
    }
}

/// How many bytes come before the `/` that closes a comment, or `None` if there is no such `/`.
fn words_len(text: &[u8]) -> Option<usize>
    ensures { result ≡ position (λ b. b == slash) text.now }
{
    text.iter().position(|byte| *byte == b'/')
}

/// Whether a byte is a space, a tab, a line feed or a carriage return. Most bytes of a text are
/// above all of these, so one comparison decides.
pub(crate) fn is_whitespace(byte: u8) -> bool
    ensures { result ≡ is_whitespace byte }
{
    byte <= b' ' && matches!(byte, b' ' | b'\t' | b'\n' | b'\r')
}
