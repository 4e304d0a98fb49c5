//! Reads the content between quotes in diagnostic notation: text with escapes, and digits with
//! blanks.

ghost use Rattle.std.specs.Prelude.{◌≡◌, ◌≢◌, ◌⊎◌, ◌++◌, ◌∷◌, ◌<◌, ◌≤◌, List, [], ℕ, drop, length};
ghost use Rattle.std.specs.Prelude.{true, false, not, IfNone, IfOk, IfSome, IsSomeAnd};
ghost use Rattle.std.specs.Prelude.{slice_index, IsTrue, None, Some};
ghost use Rattle.std.specs.List.{position_or_len};
ghost use Rattle.cbor_tokens.specs.Token.{DigitsBetween, in_quotes, is_digit, is_special};
ghost use Rattle.cbor_tokens.specs.TokenReading.{digits_in, digits_of, unquoted, with_front};

use super::{after_blank, is_whitespace};
use std::alloc::{AllocError, Global};

/// Returns the content from `at` up to the closing `quote`, which is `'` or `"`, and the place
/// after that quote. `at` is at most the length of `text`.
///
/// In the content, the quote and `\` have a `\` before them. Any other byte is itself, line ends
/// included. Returns `None` if the text ends before a closing quote, or if a `\` is before any
/// other byte. The only error is `AllocError`.
///
/// ```rust
/// use cbor_notes::quoted_at;
///
/// let found = quoted_at(alloc, br#""\"\\", 1"#, 1, b'"')?;
/// let (content, end) = found.unwrap_or((Vec::new(alloc), 0));
/// assert_eq!(rt; content.as_slice(), b"\"\\".as_slice());
/// assert_eq!(rt; end, 6);
/// ```
pub fn quoted_at(
    alloc: Global,
    text: &[u8],
    at: usize,
    quote: u8,
) -> Result<Option<(Vec<u8>, usize)>, AllocError>
    requires within { at ≤ length text.now }
    requires quote { (quote ≡ 34) ⊎ (quote ≡ 39) }
    ensures found { IfOk result (λ found. IfSome found (λ answer. (answer.1 ≤ length text.now)
        × (drop at text.now ≡ in_quotes quote answer.0.items ++ quote ∷ drop answer.1 text.now))) }
    ensures none { IfOk result (λ found. IfNone found ((content rest : List ℕ)
        → drop at text.now ≢ in_quotes quote content ++ quote ∷ rest)) }
    // The content and its end are determined.
    ensures only { (content rest : List ℕ)
        → drop at text.now ≡ in_quotes quote content ++ quote ∷ rest
        → IfOk result (λ found. IsSomeAnd found (λ answer.
        (answer.0.items ≡ content) × (drop answer.1 text.now ≡ rest))) }
{
    let (_, rest) = text.split_at(at);
    match quoted_front(alloc, rest, quote)? {
        Some((content, len)) => Ok(Some((content, at + len))),
        None => Ok(None),
    }
}

/// Returns the content at the front up to the closing `quote`, as [`quoted_at`] does, and how many
/// bytes of the text both take.
///
/// ```rust
/// use cbor_notes::quoted_front;
///
/// let found = quoted_front(alloc, br"it\'s', 1", b'\'')?;
/// let (content, len) = found.unwrap_or((Vec::new(alloc), 0));
/// assert_eq!(rt; content.as_slice(), b"it's".as_slice());
/// assert_eq!(rt; len, 6);
/// ```
///
/// [`quoted_at`]: crate::quoted_at
pub fn quoted_front(
    alloc: Global,
    text: &[u8],
    quote: u8,
) -> Result<Option<(Vec<u8>, usize)>, AllocError>
    ensures within { IfOk result (λ found. IfSome found
        (λ answer. (0 < answer.1) × (answer.1 ≤ length text.now))) }
    ensures found { IfOk result (λ found. IfSome found
        (λ answer. unquoted quote false text.now ≡ Some (answer.0.items, drop answer.1 text.now))) }
    ensures none { IfOk result (λ found. IfNone found (unquoted quote false text.now ≡ None)) }
{
    let mut content = Vec::new(alloc);
    let mut rest = text;
    'pieces: while let Some((piece, special, after)) = split_plain(rest, quote) {
        content.extend_from_slice(piece)?;
        if special == quote {
            return Ok(Some((content, text.len() - after.len())));
        }
        let Some((byte, after)) = read_escape(after, quote) else {
            return Ok(None);
        };
        content.push(byte)?;
        rest = after;
    }
    Ok(None)
}

/// Returns the digits from `at` up to the closing `'`, without the blanks around and between them,
/// and the place after that quote. `at` is at most the length of `text`.
///
/// Blanks are those of `blank_end` if `comments` is set, and only whitespace otherwise. A `'` in a
/// comment closes nothing. Any byte except whitespace and `'` counts as a digit; but if `comments`
/// is set, `/` always opens a comment. The caller checks which digits a notation has.
///
/// Returns `None` if there is no closing quote, if a comment is not closed, or if there are blanks
/// but no digits. The only error is `AllocError`.
///
/// ```rust
/// use cbor_notes::digits_at;
///
/// let found = digits_at(alloc, b"h'48 65 /l/ 6c', 1", 2, true)?;
/// let (digits, end) = found.unwrap_or((Vec::new(alloc), 0));
/// assert_eq!(rt; digits.as_slice(), b"48656c".as_slice());
/// assert_eq!(rt; end, 15);
/// ```
pub fn digits_at(
    alloc: Global,
    text: &[u8],
    at: usize,
    comments: bool,
) -> Result<Option<(Vec<u8>, usize)>, AllocError>
    requires { at ≤ length text.now }
    ensures found { IfOk result (λ found. IfSome found (λ answer. (answer.1 ≤ length text.now)
        × ((content : List ℕ) × (drop at text.now ≡ content ++ 39 ∷ drop answer.1 text.now)
        × DigitsBetween comments content answer.0.items))) }
    ensures none { IfOk result (λ found. IfNone found ((content digits rest : List ℕ)
        → drop at text.now ≡ content ++ 39 ∷ rest → ¬ (DigitsBetween comments content digits))) }
    // The digits and their end are determined.
    ensures only { (content digits rest : List ℕ)
        → drop at text.now ≡ content ++ 39 ∷ rest → DigitsBetween comments content digits
        → IfOk result (λ found. IsSomeAnd found (λ answer.
        (answer.0.items ≡ digits) × (drop answer.1 text.now ≡ rest))) }
{
    let (_, rest) = text.split_at(at);
    match digits_front(alloc, rest, comments)? {
        Some((digits, len)) => Ok(Some((digits, at + len))),
        None => Ok(None),
    }
}

/// Returns the digits at the front up to the closing `'`, as [`digits_at`] does, and how many bytes
/// of the text both take.
///
/// ```rust
/// use cbor_notes::digits_front;
///
/// let found = digits_front(alloc, b"48 /i/ 69', 1", true)?;
/// let (digits, len) = found.unwrap_or((Vec::new(alloc), 0));
/// assert_eq!(rt; digits.as_slice(), b"4869".as_slice());
/// assert_eq!(rt; len, 10);
/// ```
///
/// [`digits_at`]: crate::digits_at
pub fn digits_front(
    alloc: Global,
    text: &[u8],
    comments: bool,
) -> Result<Option<(Vec<u8>, usize)>, AllocError>
    ensures within { IfOk result (λ found. IfSome found
        (λ answer. (0 < answer.1) × (answer.1 ≤ length text.now))) }
    ensures found { IfOk result (λ found. IfSome found
        (λ answer. digits_of comments text.now ≡ Some (answer.0.items, drop answer.1 text.now))) }
    ensures none { IfOk result (λ found. IfNone found (digits_of comments text.now ≡ None)) }
{
    let mut digits = Vec::new(alloc);
    let mut rest = after_blank(text, comments);
    'runs: while let Some((run, after)) = split_run(rest, comments) {
        digits.extend_from_slice(run)?;
        rest = after_blank(after, comments);
    }
    let Some(after) = after_quote(rest) else {
        return Ok(None);
    };
    // Blanks alone.
    if digits.is_empty() && rest.len() < text.len() {
        return Ok(None);
    }
    Ok(Some((digits, text.len() - after.len())))
}

/// The bytes before the first quote or `\`, that byte, and the text after it; `None` if neither is
/// there.
fn split_plain(text: &[u8], quote: u8) -> Option<(&[u8], u8, &[u8])>
    ensures found { IfSome result (λ x. unquoted quote false text.now
        ≡ with_front x.0.now (unquoted quote false (x.1 ∷ x.2.now))) }
    ensures special { IfSome result (λ x. IsTrue (is_special quote x.1)) }
    ensures shorter { IfSome result (λ x. length x.2.now < length text.now) }
    ensures none { IfNone result (unquoted quote false text.now ≡ None) }
{
    let (piece, rest) = text.split_at(plain_len(text, quote));
    match rest {
        [special, after @ ..] => Some((piece, *special, after)),
        [] => None,
    }
}

/// The byte after a `\`, and the text after it, if it may be escaped.
fn read_escape(text: &[u8], quote: u8) -> Option<(u8, &[u8])>
    ensures found { IfSome result (λ x. unquoted quote true text.now
        ≡ with_front (x.0 ∷ []) (unquoted quote false x.1.now)) }
    ensures shorter { IfSome result (λ x. length x.1.now < length text.now) }
    ensures none { IfNone result (unquoted quote true text.now ≡ None) }
{
    match text {
        [byte, rest @ ..] if is_special(quote, *byte) => Some((*byte, rest)),
        _ => None,
    }
}

/// How many bytes come before the first quote or `\`.
fn plain_len(text: &[u8], quote: u8) -> usize
    ensures first { result ≡ position_or_len (is_special quote) text.now }
    ensures within { result ≤ length text.now }
{
    text.iter()
        .position(move |byte| is_special(quote, *byte))
        .unwrap_or(text.len())
}

/// Whether a byte is the quote or a `\`.
fn is_special(quote: u8, byte: u8) -> bool
    ensures { result ≡ is_special quote byte }
{
    byte == quote || byte == b'\\'
}

/// The digits at the front and the text after them, if there are any.
fn split_run(text: &[u8], comments: bool) -> Option<(&[u8], &[u8])>
    ensures found { IfSome result (λ x. digits_in comments false text.now
        ≡ with_front x.0.now (digits_in comments false x.1.now)) }
    ensures shorter { IfSome result (λ x. length x.1.now < length text.now) }
    ensures none { IfNone result
        (position_or_len (λ b. not (is_digit comments b)) text.now ≡ 0) }
{
    let (run, after) = text.split_at(run_len(text, comments));
    if run.is_empty() {
        None
    } else {
        Some((run, after))
    }
}

/// The text after a `'` at the front.
fn after_quote(text: &[u8]) -> Option<&[u8]>
    ensures found { IfSome result (λ after. text.now ≡ 39 ∷ after.now) }
    ensures shorter { IfSome result (λ after. length after.now < length text.now) }
    ensures none { IfNone result (0 < length text.now → slice_index text.now 0 ≢ 39) }
{
    match text {
        [b'\'', after @ ..] => Some(after),
        _ => None,
    }
}

/// How many digits come first.
fn run_len(text: &[u8], comments: bool) -> usize
    ensures first { result ≡ position_or_len (λ b. not (is_digit comments b)) text.now }
    ensures within { result ≤ length text.now }
{
    text.iter()
        .position(move |byte| !is_digit(comments, *byte))
        .unwrap_or(text.len())
}

/// Whether a byte may be a digit: neither whitespace nor `'`, nor `/` where comments are allowed.
fn is_digit(comments: bool, byte: u8) -> bool
    ensures { result ≡ is_digit comments byte }
{
    !(is_whitespace(byte) || byte == b'\'' || (comments && byte == b'/'))
}
