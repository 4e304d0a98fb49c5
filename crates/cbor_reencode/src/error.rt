//! `ReencodeError`: why bytes cannot be re-encoded by rules.
ghost use Rattle.std.specs.Prelude.{◌≡◌};
ghost use Rattle.cbor_reencode.specs.declared.error.ReencodeError.TheVariants.{Memory};

use cbor_rules::Violation;
use std::alloc::{AllocError, AllocFailed};

/// Why bytes cannot be re-encoded.
#[derive(Clone, Copy, PartialEq, Eq, Debug)]
pub enum ReencodeError {
    /// An allocation failed.
    Memory,
    /// The bytes are not a sequence of RFC 8949 items, or they violate a rule that re-encoding
    /// cannot repair: a tag or a simple value that the rules do not allow, a level that is too
    /// deep, a text that is not in NFC, or a key that stands twice with the same bytes.
    Violation(Violation),
    /// Two keys of a map are equal: they are encoded to the same bytes, by `Rules::CORE` or by
    /// these rules. The fields are the byte offsets of the two keys.
    KeyTwice { first: usize, second: usize },
    /// The re-encoded items violate a rule, at this place in the result. Either the chunks of a
    /// text are in NFC and the joined text is not, or keys become equal where keys have no order.
    Written(Violation),
}

impl From<AllocError> for ReencodeError {
    ghost from_gives = { λ _ e. e ≡ Memory };

    fn from(_refused: AllocError) -> ReencodeError {
        ReencodeError::Memory
    }
}

impl<T: Drop> From<AllocFailed<T>> for ReencodeError {
    ghost from_gives = { λ _ e. e ≡ Memory };

    fn from(_refused: AllocFailed<T>) -> ReencodeError {
        ReencodeError::Memory
    }
}
