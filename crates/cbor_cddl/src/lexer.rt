//! Splits a CDDL text into tokens, such as names, numbers, strings and brackets.

use crate::fault::{Fault, FaultKind};
use crate::schema::Span;
use std::alloc::Global;

/// What a token is.
#[derive(Clone, Copy, PartialEq, Eq)]
pub(crate) enum TokenKind {
    /// A name, also of a socket.
    Name,
    /// An integer or a float.
    Number,
    /// `".."`
    Text,
    /// `'..'`
    Bytes,
    /// `h'..'`
    Hex,
    /// `b64'..'`
    Base64,
    /// `.size` and its like.
    Control,
    /// `#`, with the major type and the number behind it; `#6.` before a `<`.
    Hash,
    Assign,
    AssignType,
    AssignGroup,
    Slash,
    TwoSlashes,
    Comma,
    OpenParen,
    CloseParen,
    OpenBrace,
    CloseBrace,
    OpenBracket,
    CloseBracket,
    Less,
    Greater,
    Colon,
    Caret,
    Arrow,
    Tilde,
    Ampersand,
    Question,
    Star,
    Plus,
    /// `..`
    Range,
    /// `...`
    RangeBelow,
    End,
}

/// A token, and where it is.
#[derive(Clone, Copy)]
pub(crate) struct Token {
    pub(crate) kind: TokenKind,
    pub(crate) span: Span,
}

/// The byte at a place, or 0 past the end.
pub(crate) fn byte_at(text: &[u8], at: usize) -> u8 {
    match text.get(at) {
        Some(byte) => *byte,
        None => 0,
    }
}

/// The place of the first byte from `at` on that is no blank and in no comment.
fn after_blanks(text: &[u8], at: usize) -> usize {
    let mut in_comment = false;
    for place in at..text.len() {
        match byte_at(text, place) {
            b'\n' => in_comment = false,
            b' ' | b'\t' | b'\r' => {}
            b';' => in_comment = true,
            _ if in_comment => {}
            _ => return place,
        }
    }
    text.len()
}

/// Whether a name may begin with this byte.
fn is_alpha(byte: u8) -> bool {
    byte.is_ascii_alphabetic() || byte == b'@' || byte == b'_' || byte == b'$'
}

/// The end of the name that begins at `at`. A name does not end with `-` or `.`.
fn name_end(text: &[u8], at: usize) -> usize {
    let mut end = at.saturating_add(1);
    for place in at.saturating_add(1)..text.len() {
        let byte = byte_at(text, place);
        if is_alpha(byte) || byte.is_ascii_digit() {
            end = place.saturating_add(1);
        } else if byte != b'-' && byte != b'.' {
            break;
        }
    }
    end
}

/// The value of a hex digit; 16 for any other byte.
pub(crate) fn digit_of(byte: u8) -> u8 {
    match byte {
        b'0'..=b'9' => byte - b'0',
        b'a'..=b'f' => byte - b'a' + 10,
        b'A'..=b'F' => byte - b'A' + 10,
        _ => 16,
    }
}

/// The end of the digits of this base from `at` on.
fn digits_end(text: &[u8], at: usize, base: u8) -> usize {
    for place in at..text.len() {
        if digit_of(byte_at(text, place)) >= base {
            return place;
        }
    }
    text.len().max(at)
}

/// The end of `mark`, an optional sign and digits, if these are at `at`; otherwise `at`.
fn exponent_end(text: &[u8], at: usize, mark: u8) -> usize {
    if byte_at(text, at) | 0x20 != mark {
        return at;
    }
    let sign = at.saturating_add(1);
    let first = match byte_at(text, sign) {
        b'+' | b'-' => sign.saturating_add(1),
        _ => sign,
    };
    let end = digits_end(text, first, 10);
    if end == first { at } else { end }
}

/// The end of a point and digits of this base, if these are at `at`; otherwise `at`.
fn fraction_end(text: &[u8], at: usize, base: u8) -> usize {
    let first = at.saturating_add(1);
    let end = digits_end(text, first, base);
    if byte_at(text, at) == b'.' && end > first {
        end
    } else {
        at
    }
}

/// The end of the number that begins at `at`, with its sign.
fn number_end(text: &[u8], at: usize) -> usize {
    let first = match byte_at(text, at) {
        b'-' => at.saturating_add(1),
        _ => at,
    };
    let digits = first.saturating_add(2);
    let mark = byte_at(text, first.saturating_add(1));
    match (byte_at(text, first), mark) {
        (b'0', b'x') => {
            let whole = digits_end(text, digits, 16);
            let fraction = fraction_end(text, whole, 16);
            let end = exponent_end(text, fraction, b'p');
            if end > fraction { end } else { whole }
        }
        (b'0', b'b') => digits_end(text, digits, 2),
        _ => {
            let whole = digits_end(text, first, 10);
            exponent_end(text, fraction_end(text, whole, 10), b'e')
        }
    }
}

/// The end of the string whose opening quote is at `at`, or `None` if it has no closing one. A text
/// is on one line.
fn string_end(text: &[u8], at: usize) -> Option<usize> {
    let quote = byte_at(text, at);
    let mut escaped = false;
    for place in at.saturating_add(1)..text.len() {
        let byte = byte_at(text, place);
        if escaped {
            escaped = false;
        } else if byte == quote {
            return Some(place.saturating_add(1));
        } else if byte < b' ' && quote == b'"' {
            return None;
        } else {
            escaped = byte == b'\\';
        }
    }
    None
}

/// The end of the head that begins with the `#` at `at`.
fn head_end(text: &[u8], at: usize) -> usize {
    let major = at.saturating_add(1);
    if !byte_at(text, major).is_ascii_digit() {
        return major;
    }
    let point = at.saturating_add(2);
    if byte_at(text, point) != b'.' {
        return point;
    }
    let number = at.saturating_add(3);
    match (
        byte_at(text, number),
        byte_at(text, number.saturating_add(1)),
    ) {
        (b'<', _) => number,
        (b'0', b'x' | b'b') | (b'1'..=b'9', _) => number_end_unsigned(text, number),
        (b'0', _) => number.saturating_add(1),
        _ => point,
    }
}

/// The end of the integer without a sign that begins at `at`.
fn number_end_unsigned(text: &[u8], at: usize) -> usize {
    let digits = at.saturating_add(2);
    match byte_at(text, at.saturating_add(1)) {
        b'x' => digits_end(text, digits, 16),
        b'b' => digits_end(text, digits, 2),
        _ => digits_end(text, at, 10),
    }
}

/// The sign that begins with these three bytes, and how many bytes it has.
fn sign_of(first: u8, second: u8, third: u8) -> Option<(TokenKind, usize)> {
    let sign = match (first, second, third) {
        (b'/', b'/', b'=') => (TokenKind::AssignGroup, 3),
        (b'/', b'/', _) => (TokenKind::TwoSlashes, 2),
        (b'/', b'=', _) => (TokenKind::AssignType, 2),
        (b'=', b'>', _) => (TokenKind::Arrow, 2),
        (b'.', b'.', b'.') => (TokenKind::RangeBelow, 3),
        (b'.', b'.', _) => (TokenKind::Range, 2),
        _ => (one_byte_sign(first)?, 1),
    };
    Some(sign)
}

/// The sign that is this byte.
fn one_byte_sign(byte: u8) -> Option<TokenKind> {
    match byte {
        b'/' => Some(TokenKind::Slash),
        b'=' => Some(TokenKind::Assign),
        b',' => Some(TokenKind::Comma),
        b'(' => Some(TokenKind::OpenParen),
        b')' => Some(TokenKind::CloseParen),
        b'{' => Some(TokenKind::OpenBrace),
        b'}' => Some(TokenKind::CloseBrace),
        b'[' => Some(TokenKind::OpenBracket),
        b']' => Some(TokenKind::CloseBracket),
        b'<' => Some(TokenKind::Less),
        b'>' => Some(TokenKind::Greater),
        _ => one_byte_mark(byte),
    }
}

/// The mark that is this byte.
fn one_byte_mark(byte: u8) -> Option<TokenKind> {
    match byte {
        b':' => Some(TokenKind::Colon),
        b'^' => Some(TokenKind::Caret),
        b'~' => Some(TokenKind::Tilde),
        b'&' => Some(TokenKind::Ampersand),
        b'?' => Some(TokenKind::Question),
        b'*' => Some(TokenKind::Star),
        b'+' => Some(TokenKind::Plus),
        _ => None,
    }
}

/// The string whose quote is at `quote`, with its prefix from `at` on.
fn string_token(text: &[u8], at: usize, quote: usize, kind: TokenKind) -> Result<Token, Fault> {
    match string_end(text, quote) {
        Some(end) => Ok(Token {
            kind,
            span: Span { start: at, end },
        }),
        None => {
            let end = quote.saturating_add(1);
            Err(Fault::new(Span { start: at, end }, FaultKind::OpenString))
        }
    }
}

/// The end of the character at `at`.
fn char_end(text: &[u8], at: usize) -> usize {
    for place in at.saturating_add(1)..text.len() {
        if byte_at(text, place) & 0xc0 != 0x80 {
            return place;
        }
    }
    text.len()
}

/// The token that begins with no quote.
fn plain_token(text: &[u8], at: usize) -> Result<Token, Fault> {
    let first = byte_at(text, at);
    let second = byte_at(text, at.saturating_add(1));
    let third = byte_at(text, at.saturating_add(2));
    let (kind, end) = if is_alpha(first) {
        (TokenKind::Name, name_end(text, at))
    } else if first.is_ascii_digit() || (first == b'-' && second.is_ascii_digit()) {
        (TokenKind::Number, number_end(text, at))
    } else if first == b'#' {
        (TokenKind::Hash, head_end(text, at))
    } else if first == b'.' && is_alpha(second) {
        (TokenKind::Control, name_end(text, at.saturating_add(1)))
    } else if let Some((kind, len)) = sign_of(first, second, third) {
        (kind, at.saturating_add(len))
    } else {
        let end = char_end(text, at);
        return Err(Fault::new(Span { start: at, end }, FaultKind::Character));
    };
    let span = Span { start: at, end };
    Ok(Token { kind, span })
}

/// The token at `at`, which is no blank.
fn token_at(text: &[u8], at: usize) -> Result<Token, Fault> {
    let rest = text.get(at..).unwrap_or(b"");
    match rest {
        [b'"', ..] => string_token(text, at, at, TokenKind::Text),
        [b'\'', ..] => string_token(text, at, at, TokenKind::Bytes),
        [b'h', b'\'', ..] => string_token(text, at, at.saturating_add(1), TokenKind::Hex),
        [b'b', b'6', b'4', b'\'', ..] => {
            string_token(text, at, at.saturating_add(3), TokenKind::Base64)
        }
        _ => plain_token(text, at),
    }
}

/// The tokens of a text from the byte `start` on. The last one is its end.
pub(crate) fn tokens_of(alloc: Global, text: &[u8], start: usize) -> Result<Vec<Token>, Fault> {
    let mut tokens = Vec::new(alloc);
    let mut at = start;
    for _ in 0..text.len() {
        at = after_blanks(text, at);
        if at >= text.len() {
            break;
        }
        let token = token_at(text, at)?;
        at = token.span.end;
        tokens.push(token)?;
    }
    tokens.push(Token {
        kind: TokenKind::End,
        span: Span {
            start: text.len(),
            end: text.len(),
        },
    })?;
    Ok(tokens)
}
