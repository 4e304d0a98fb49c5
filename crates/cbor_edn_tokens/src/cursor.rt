//! `Cursor`: the part of an EDN text that is still to be read. Its functions skip blanks, and take
//! bytes and words from the front.
//!
//! A function that reads at a cursor moves it past what it read. After an error, the cursor is at
//! the place of the error.
ghost use Rattle.std.specs.Prelude.{◌≡◌, ◌+◌, ◌<◌, ◌≤◌, ◌↔◌, length, option_map, take, IfOk};
ghost use Rattle.std.specs.Prelude.{IfSome};
ghost use Rattle.std.specs.Prelude.{IsTrue, []};
ghost use Rattle.cbor_notation.specs.mirror.Cursor.{Takes};
ghost use Rattle.cbor_edn_grammar.specs.Reading.{Gives, after_byte, after_bytes};
ghost use Rattle.cbor_edn_grammar.specs.Blank.{skip_blank};
ghost use Rattle.cbor_edn_grammar.specs.Word.{word_of, after_word};

use crate::blank::after_blank;
use cbor_edn_grammar::error::{Expected, Stop};
use cbor_edn_grammar::word::word_len;
use std::marker::Model;

/// The text after its first byte, if that is `byte`.
pub fn after_byte(text: &[u8], byte: u8) -> Option<&[u8]>
    ensures gives { option_map (λ x. x.now) result ≡ after_byte byte text.now }
    ensures shorter { IfSome result (λ x. length x.now < length text.now) }
{
    match text {
        [first, rest @ ..] if *first == byte => Some(rest),
        _ => None,
    }
}

/// The text after `bytes`, if it begins with them.
pub fn after_bytes<'a>(text: &'a [u8], bytes: &[u8]) -> Option<&'a [u8]>
    ensures gives { option_map (λ x. x.now) result ≡ after_bytes bytes.now text.now }
    ensures shorter { IfSome result (λ x. length x.now + length bytes.now ≡ length text.now) }
{
    if text.starts_with(bytes) {
        Some(&text[bytes.len()..])
    } else {
        None
    }
}

/// The text that is still to be read. In clauses its value is the bytes of that text.
#[derive(Drop)]
pub struct Cursor<'a> {
    rest: &'a [u8],
}

impl<'a> Model for Cursor<'a> {
    ghost use Rattle.std.specs.Prelude.{ℕ, List};

    ghost Value = { List ℕ };

    ghost view = { λ cursor. cursor.rest.now };
}

impl<'a> Cursor<'a> {
    /// A cursor at the front of a text.
    pub fn new(text: &'a [u8]) -> Cursor<'a>
        ensures { result ≡ text.now }
    {
        Cursor { rest: text }
    }

    /// The text that is still to be read.
    pub fn rest(&self) -> &'a [u8]
        ensures { result.now ≡ self.now }
    {
        self.rest
    }

    /// Passes the longest blank at the front.
    pub fn skip_blank(&mut self)
        ensures rest { self.new ≡ skip_blank self.old }
        ensures within { length self.new ≤ length self.old }
    {
        self.rest = after_blank(self.rest, true);
    }

    /// Takes this byte if it is next, and returns whether it was.
    pub fn take_byte(&mut self, byte: u8) -> bool
        ensures takes { Takes result self.old self.new (after_byte byte self.old) }
        ensures within { length self.new ≤ length self.old }
    {
        match after_byte(self.rest, byte) {
            Some(rest) => {
                self.rest = rest;
                true
            }
            None => false,
        }
    }

    /// Takes this byte. If it is not next, the error is `expected`.
    pub fn expect_byte(&mut self, byte: u8, expected: Expected) -> Result<(), Stop>
        ensures gives { Gives (λ _. self.new) result (after_byte byte self.old) }
        ensures within { length self.new ≤ length self.old }
        ensures shorter { IfOk result (λ _. length self.new < length self.old) }
    {
        match after_byte(self.rest, byte) {
            Some(rest) => {
                self.rest = rest;
                Ok(())
            }
            None => Err(Stop::At(expected)),
        }
    }

    /// The word at the front.
    pub fn word(&self) -> &'a [u8]
        ensures word { result.now ≡ word_of self.now }
        ensures within { length result.now ≤ length self.now }
    {
        &self.rest[..word_len(self.rest)]
    }

    /// The word at the front, and a cursor behind it.
    pub fn split_word(&self) -> (&'a [u8], Cursor<'a>)
        ensures word { result.0.now ≡ word_of self.now }
        ensures rest { result.1 ≡ after_word self.now }
        ensures within { length result.1 + length (word_of self.now) ≡ length self.now }
    {
        let (word, rest) = self.rest.split_at(word_len(self.rest));
        (word, Cursor::new(rest))
    }

    /// Passes the word at the front.
    pub fn skip_word(&mut self)
        ensures rest { self.new ≡ after_word self.old }
        ensures within { length self.new + length (word_of self.old) ≡ length self.old }
    {
        self.rest = &self.rest[word_len(self.rest)..];
    }
}
