//! `Cursor`: the part of a notation text that is still to be read. Its methods take tokens from the
//! front.
ghost use Rattle.std.specs.Prelude.{◌≡◌, ◌⊎◌, ◌↔◌, ◌<◌, ◌≤◌, length, None, Some, IfOk, [], IsTrue};
ghost use Rattle.cbor_grammar.specs.Reading.{Gives};
ghost use Rattle.cbor_notation.specs.mirror.Cursor.{Takes, TakesComma};
ghost use Rattle.cbor_notation.specs.mirror.NotationReading.{or_refused, skip_blank, after_byte};
ghost use Rattle.cbor_notation.specs.mirror.NotationReading.{after_word, after_end, rest_of};
ghost use Rattle.cbor_notation.specs.mirror.NotationReading.{first_start, read_length};

use crate::scan::{after_blank, after_byte, after_end, after_space, after_word, read_length};
use crate::start::Start;
use cbor_grammar::{Error, IntegerWidth, Result};
use std::marker::Model;

/// The text that is still to be read. A clause sees its bytes.
#[derive(Drop)]
pub struct Cursor<'a> {
    rest: &'a [u8],
}

impl<'a> Model for Cursor<'a> {
    ghost use Rattle.std.specs.Prelude.{ℕ, List};

    ghost Value = { List ℕ };

    ghost view = { λ cursor. cursor.rest.now };
}

impl<'a> Cursor<'a> {
    /// A cursor at the front of a text.
    #[inline(always)]
    pub fn new(text: &'a [u8]) -> Cursor<'a>
        ensures { result ≡ text.now }
    {
        Cursor { rest: text }
    }

    /// The text that is still to be read.
    #[inline(always)]
    pub fn rest(&self) -> &'a [u8]
        ensures { result.now ≡ self.now }
    {
        self.rest
    }

    /// Whether nothing is left.
    #[inline(always)]
    pub fn is_empty(&self) -> bool
        ensures { IsTrue result ↔ (self.now ≡ []) }
    {
        self.rest.is_empty()
    }

    /// What the text begins with.
    #[inline(always)]
    pub fn start(&self) -> Start
        ensures { result ≡ first_start self.now }
    {
        let (start, _) = Start::split(self.rest);
        start
    }

    /// Skips the first byte, if there is one.
    #[inline(always)]
    pub fn skip_byte(&mut self)
        ensures rest { self.new ≡ rest_of self.old }
        ensures shorter { length self.new ≤ length self.old }
    {
        let (_, rest) = Start::split(self.rest);
        self.rest = rest;
    }

    /// Skips the longest blank at the front. Most often there is none, which the first byte shows.
    #[inline(always)]
    #[tactic(auto, using(crate::proofs::notation::Cursors::no_blank))]
    pub fn skip_blank(&mut self)
        ensures rest { self.new ≡ skip_blank self.old }
        ensures shorter { length self.new ≤ length self.old }
    {
        if let [first, ..] = self.rest {
            if *first <= b' ' || *first == b'/' {
                self.rest = after_blank(self.rest);
            }
        }
    }

    /// Takes this byte, if it is next.
    #[inline(always)]
    pub fn take_byte(&mut self, byte: u8) -> bool
        ensures takes { Takes result self.old self.new (after_byte byte self.old) }
        ensures shorter { length self.new ≤ length self.old }
    {
        match after_byte(self.rest, byte) {
            Some(rest) => {
                self.rest = rest;
                true
            }
            None => false,
        }
    }

    /// Takes this byte; returns an error if it is not next.
    #[inline(always)]
    pub fn expect_byte(&mut self, byte: u8) -> Result<()>
        ensures gives { Gives (λ _. self.new) result (or_refused (after_byte byte self.old)) }
        ensures shorter { IfOk result (λ _. length self.new < length self.old) }
    {
        match after_byte(self.rest, byte) {
            Some(rest) => {
                self.rest = rest;
                Ok(())
            }
            None => Err(Error::Notation),
        }
    }

    /// Takes this word, if it is next.
    #[inline(always)]
    pub fn take_word(&mut self, word: &[u8]) -> bool
        ensures takes { Takes result self.old self.new (after_word word.now self.old) }
        ensures shorter { length self.new ≤ length self.old }
    {
        match after_word(self.rest, word) {
            Some(rest) => {
                self.rest = rest;
                true
            }
            None => false,
        }
    }

    /// Takes the end of a list, if it is next: its closing byte, or a trailing comma, whitespace
    /// and the closing byte.
    #[inline(always)]
    pub fn take_end(&mut self, close: u8) -> bool
        ensures takes { Takes result self.old self.new (after_end close self.old) }
        ensures shorter { length self.new ≤ length self.old }
    {
        match after_end(self.rest, close) {
            Some(rest) => {
                self.rest = rest;
                true
            }
            None => false,
        }
    }

    /// Takes the comma before a further member of a list and returns true, or takes the end of the
    /// list and returns false.
    #[inline(always)]
    #[tactic(auto, using(crate::proofs::notation::Cursors::no_space))]
    pub fn take_comma(&mut self, close: u8) -> Result<bool>
        ensures takes { TakesComma result close self.old self.new }
        ensures shorter { IfOk result (λ _. length self.new < length self.old) }
    {
        match self.rest {
            [b',', rest @ ..] => {
                // Most often no whitespace follows, which the next byte shows.
                if let [first, ..] = rest {
                    if *first <= b' ' {
                        if let Some(end) = after_space(rest, close) {
                            self.rest = end;
                            return Ok(false);
                        }
                    }
                }
                self.rest = rest;
                Ok(true)
            }
            [first, rest @ ..] if *first == close => {
                self.rest = rest;
                Ok(false)
            }
            _ => Err(Error::Notation),
        }
    }

    /// The width of a container's count: unstated, or none after `_`.
    #[inline(always)]
    pub fn take_length(&mut self) -> Option<IntegerWidth>
        ensures width { result ≡ (read_length self.old).0 }
        ensures rest { self.new ≡ (read_length self.old).1 }
        ensures unstated { (result ≡ None) ⊎ (result ≡ Some IntegerWidth.Unknown) }
        ensures shorter { length self.new ≤ length self.old }
    {
        let (width, rest) = read_length(self.rest);
        self.rest = rest;
        width
    }
}
