//! `Message`: the message of an error in an EDN text. It can repeat the word at the place of the
//! error, and the content of the quotes after this word, if they are short and printable ASCII.
ghost use Rattle.std.specs.Prelude.{IfSome, ◌≡◌, true};
ghost use Rattle.std.specs.List.{list_all};
ghost use Rattle.cbor_edn_grammar.specs.Expectations.{is_printing};

use crate::error::Expected;
use crate::word::word_len;
use std::{fmt, str};

/// The length in bytes of the longest word, and of the longest content, that a message repeats.
const LONGEST: usize = 64;

/// Whether a byte is a printable ASCII character.
fn is_printing(byte: u8) -> bool
    ensures { result ≡ is_printing byte }
{
    byte >= b' ' && byte <= b'~'
}

/// Whether all bytes are printable ASCII characters.
fn are_printing(bytes: &[u8]) -> bool
    ensures { result ≡ list_all is_printing bytes.now }
{
    bytes.iter().all(|byte| is_printing(*byte))
}

/// The bytes as a text, if a message may repeat them: if they are few, and all printable.
fn shown(bytes: &[u8]) -> Option<&str>
    ensures { IfSome result (λ text. list_all is_printing text.now ≡ true) }
{
    if bytes.len() > LONGEST || !are_printing(bytes) {
        return None;
    }
    match str::from_utf8(bytes) {
        Ok(text) => Some(text),
        Err(_) => None,
    }
}

/// The word at the front of a text, if a message may repeat it.
fn word_of(rest: &[u8]) -> Option<&str>
    ensures { IfSome result (λ text. list_all is_printing text.now ≡ true) }
{
    let len = word_len(rest);
    match &rest[len..] {
        // The name goes on, with what is in no word.
        [128..=255, ..] | [b'-', ..] => None,
        _ => shown(&rest[..len]),
    }
}

/// What is between the quotes after the word at the front of a text, if a message may repeat it.
fn content_of(rest: &[u8]) -> Option<&str>
    ensures { IfSome result (λ text. list_all is_printing text.now ≡ true) }
{
    let [b'"', content @ ..] = &rest[word_len(rest)..] else {
        return None;
    };
    let len = content.iter().position(|byte| *byte == b'"')?;
    shown(&content[..len])
}

/// The message of an error in a text.
#[derive(Clone, Copy)]
pub struct Message<'a> {
    expected: Expected,
    /// The word at the place of the error.
    word: Option<&'a str>,
    /// The content of the quotes after that word.
    content: Option<&'a str>,
}

impl Expected {
    /// Returns the message of an error in a text. `rest` is the text from the place of the error
    /// on. The message repeats only printable ASCII characters of it.
    pub fn in_text(self, rest: &[u8]) -> Message<'_>
        ensures word { IfSome result.word (λ text. list_all is_printing text.now ≡ true) }
        ensures content { IfSome result.content (λ text. list_all is_printing text.now ≡ true) }
    {
        Message {
            expected: self,
            word: word_of(rest),
            content: content_of(rest),
        }
    }
}

impl<'a> fmt::Display for Message<'a> {
    fn fmt<W: fmt::Write>(&self, f: &mut fmt::Formatter<W>) -> fmt::Result {
        match (self.expected, self.word) {
            (Expected::Prefix, Some(word)) => {
                write!(f, "no prefix {word}'..' is known; {PREFIXES} are")
            }
            (Expected::Quotes, Some(word)) => write!(f, "{}: \"{word}\"", self.expected),
            (Expected::Apostrophes, Some(word)) => {
                let content = self.content.unwrap_or("..");
                write!(f, "write {word}'{content}', with apostrophes")
            }
            _ => write!(f, "{}", self.expected),
        }
    }
}

/// The known prefixes.
const PREFIXES: &str = "h, b64, b32, h32, dt, DT, ip, IP and float";
