//! `AsciiBuffer`: collects up to 96 ASCII characters, so that a caller can append them to a text
//! all at once.
ghost use Rattle.std.specs.Prelude.{◌≡◌, ◌≤◌, ◌<◌, ◌+◌, [], ◌∷◌, ◌++◌, ℕ, List, length, take};
ghost use Rattle.std.specs.Str.{IsAscii};
ghost use Rattle.hex.specs.Hex.{encode_lower};

use std::marker::Model;

/// The most characters that a buffer holds.
pub(crate) const ROOM: usize = 96;

const DIGITS: [u8; 16] = *b"0123456789abcdef";

/// ASCII characters that are collected here and then appended to a text at once. One append takes
/// as long as writing some ten characters here.
#[derive(Drop)]
pub(crate) struct AsciiBuffer {
    bytes: [u8; ROOM],
    len: usize,
}

impl Model for AsciiBuffer {
    ghost Value = { List ℕ };

    ghost view = { λ b. take b.len b.bytes };

    ghost invariant = { λ b. (b.len ≤ 96) × IsAscii (take b.len b.bytes) };
}

impl AsciiBuffer {
    /// Returns an empty buffer.
    pub(crate) fn new() -> AsciiBuffer
        ensures { result ≡ [] }
    {
        AsciiBuffer {
            bytes: [0; ROOM],
            len: 0,
        }
    }

    /// Appends a character.
    #[inline]
    pub(crate) fn push(&mut self, byte: u8)
        requires ascii { byte < 128 }
        requires room { length self.old < 96 }
        ensures { self.new ≡ self.old ++ byte ∷ [] }
    {
        self.bytes[self.len] = byte;
        self.len += 1;
    }

    /// Appends the two hex digits of a byte, in lower case.
    #[inline]
    pub(crate) fn push_hex(&mut self, byte: u8)
        requires { length self.old + 2 ≤ 96 }
        ensures { self.new ≡ self.old ++ encode_lower (byte ∷ []) }
    {
        self.push(DIGITS[usize::from(byte / 16)]);
        self.push(DIGITS[usize::from(byte % 16)]);
    }

    /// Returns the characters as a text.
    #[inline]
    pub(crate) fn as_str(&self) -> &str
        ensures { result.now ≡ self.now }
    {
        // ASCII needs no test of UTF-8.
        unsafe { str::from_utf8_unchecked(&self.bytes[..self.len]) }
    }
}
