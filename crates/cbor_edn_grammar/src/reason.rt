//! Makes the error `Expected::Item` more precise: finds why no item begins at a place, from the
//! text before and after it.

use crate::error::Expected;
use crate::literal::Literal;
use crate::word::word_len;
use std::str;

impl Expected {
    /// Makes the error `Expected::Item` more precise: returns why no item begins between `before`
    /// and `rest`. Any other error is returned unchanged.
    pub fn between(self, before: &[u8], rest: &[u8]) -> Expected {
        if self != Expected::Item {
            return self;
        }
        let (word, after) = rest.split_at(word_len(rest));
        match rest {
            _ if !word.is_empty() => no_item(word, after),
            [] | [b',' | b')' | b']' | b'}' | b'>', ..] => missing(before, rest),
            [b'/', ..] => Expected::CommentEnd,
            _ => Expected::ItemStart,
        }
    }
}

/// Why `word`, which `after` follows, is not an item.
fn no_item(word: &[u8], after: &[u8]) -> Expected {
    if let [b'"', ..] = after {
        return if is_prefix(word) {
            Expected::Apostrophes
        } else {
            Expected::Prefix
        };
    }
    match str::from_utf8(word).ok().and_then(Literal::of) {
        Some(literal) => Expected::Literal(literal),
        None => Expected::Quotes,
    }
}

/// Whether a word is a known prefix, such as `h` in `h'01'`.
fn is_prefix(word: &[u8]) -> bool {
    PREFIXES.into_iter().any(|prefix| prefix.as_bytes() == word)
}

/// The known prefixes.
const PREFIXES: [&str; 9] = ["h", "b64", "b32", "h32", "dt", "DT", "ip", "IP", "float"];

/// What is missing between `before` and `rest`. `rest` is empty, or begins with a comma or with
/// what closes a list.
fn missing(before: &[u8], rest: &[u8]) -> Expected {
    match (before.trim_ascii_end(), rest) {
        ([.., b':'], _) => Expected::Value,
        ([.., b'('], _) => Expected::TagContent,
        (_, [b',', ..]) => Expected::FewerCommas,
        _ => Expected::Item,
    }
}
