//! `Turns`: counts the steps of a reader. With this count, the contract of `parse_bytes_counted`
//! states that its work is linear.
ghost use Rattle.std.specs.Prelude.{◌≡◌, ℕ, ◌+◌, ◌<◌, ◌^◌};

use std::marker::Model;

/// Counts the turns of [`parse_bytes_counted`]. A turn reads a head, with the content of a string,
/// reads a chunk or a break, or closes a container that is complete.
///
/// [`parse_bytes_counted`]: cbor_diag::parse_bytes_counted
#[derive(Drop)]
pub struct Turns {
    count: u128,
}

impl Model for Turns {
    ghost Value = { ℕ };

    ghost view = { λ t. t.count };
}

impl Turns {
    /// Returns a count of no turns.
    pub fn new() -> Turns
        ensures { result ≡ 0 }
    {
        Turns { count: 0 }
    }

    /// Returns the number of turns that were counted.
    pub fn count(&self) -> u128
        ensures { result ≡ self.now }
    {
        self.count
    }

    /// Counts one more turn.
    pub fn rise(&mut self)
        requires { self.old < 2 ^ 127 }
        ensures { self.new ≡ self.old + 1 }
    {
        self.count += 1;
    }
}
