//! `Held`: the few bytes that a `Scanner` keeps from one piece to the next: the front of a head or
//! of a character that is not complete.
ghost use Rattle.std.specs.Prelude.{◌≡◌, ◌<◌, ◌≤◌, [], ◌∷◌, ◌++◌, length};

use std::marker::Model;

/// The length of the longest head.
const LONGEST_HEAD: usize = 9;

/// A few bytes: the front of a head or a character that is not complete.
#[derive(Drop)]
pub(super) struct Held {
    bytes: [u8; LONGEST_HEAD],
    len: usize,
}

impl Model for Held {
    ghost use Rattle.std.specs.Prelude.{◌≡◌, ◌≤◌, ℕ, List, length, take};

    ghost Value = { List ℕ };

    ghost view = { λ h. take h.len h.bytes };

    ghost invariant = { λ h. (h.len ≤ 9) × (length h.bytes ≡ 9) };
}

impl Held {
    /// No bytes.
    pub(super) fn empty() -> Held
        ensures { result ≡ [] }
    {
        Held {
            bytes: [0; LONGEST_HEAD],
            len: 0,
        }
    }

    /// A copy of these bytes.
    pub(super) fn new(bytes: &[u8]) -> Held
        requires { length bytes.now ≤ 9 }
        ensures { result ≡ bytes.now }
    {
        let mut held = Held::empty();
        for byte in bytes {
            held.push(*byte);
        }
        held
    }

    /// Adds a byte at the end.
    pub(super) fn push(&mut self, byte: u8)
        requires { length self.old < 9 }
        ensures { self.new ≡ self.old ++ byte ∷ [] }
    {
        self.bytes[self.len] = byte;
        self.len += 1;
    }

    /// The same bytes, and one more.
    pub(super) fn with(&self, byte: u8) -> Held
        requires { length self.now < 9 }
        ensures { result ≡ self.now ++ byte ∷ [] }
    {
        let mut longer = Held::new(self.as_slice());
        longer.push(byte);
        longer
    }

    /// How many bytes there are.
    pub(super) fn len(&self) -> usize
        ensures { result ≡ length self.now }
    {
        self.len
    }

    /// The bytes.
    pub(super) fn as_slice(&self) -> &[u8]
        ensures { result.now ≡ self.now }
    {
        &self.bytes[..self.len]
    }
}
