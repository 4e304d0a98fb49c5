//! `Error`: why a call failed: bytes, hex or notation do not encode an item, or an allocation
//! failed. Each error has a text and a number.
ghost use Rattle.std.specs.Prelude.{◌≡◌, Some};
ghost use Rattle.cbor_grammar.specs.Refusals.{text_of, number_of};
ghost use Rattle.cbor_grammar.specs.declared.error.Error.TheVariants.{Memory};

use std::alloc::{AllocError, AllocFailed};
use std::fmt;

/// Why a call failed.
///
/// For bytes, it is the first error from the left. For hex, `OddHex` comes before `BadHex`, and
/// both come before the errors of the bytes. An error carries no place; [`extent`] reports the
/// place of an error in bytes.
///
/// [`extent`]: cbor_diag::extent
#[derive(Clone, Copy, PartialEq, Eq, Debug)]
pub enum Error {
    /// An allocation failed.
    Memory,
    /// The bytes end before the item does.
    CutShort,
    /// A head that cannot be in its place: reserved additional information, an indefinite length of
    /// a major type that has none, a break that ends nothing, or a wrong chunk (RFC 7049 sections
    /// 2.1 to 2.3).
    Head,
    /// The bytes of a text string, or of one of its chunks, are not UTF-8 (RFC 7049 section 2.1).
    Utf8,
    /// An item is deeper than level 128; the outermost item is at level 1.
    TooDeep,
    /// Bytes follow the item.
    Remaining,
    /// The number of hex digits is odd.
    OddHex,
    /// A character that is not a hex digit, where one is expected.
    BadHex,
    /// The text is not diagnostic notation (RFC 7049 section 6).
    Notation,
    /// A number is too large for the width written after it.
    PastWidth,
}

/// The result of a call that may fail.
pub type Result<T> = std::result::Result<T, Error>;

impl Error {
    /// Returns what is wrong, in a few words without a full stop.
    pub fn text(&self) -> &'static str
        ensures { result.now ≡ text_of self.now }
    {
        match self {
            Error::Memory => "out of memory",
            Error::CutShort => "the item is cut short",
            Error::Head => "no item can have this head",
            Error::Utf8 => "a text is not UTF-8",
            Error::TooDeep => "nested deeper than 128 levels",
            Error::Remaining => "bytes remain after the item",
            Error::OddHex => "an odd number of hex digits",
            Error::BadHex => "not a hex digit",
            Error::Notation => "not diagnostic notation",
            Error::PastWidth => "a number does not fit its width",
        }
    }

    /// Returns the number of the error, from 1 for `Memory` to 10 for `PastWidth`, in the order of
    /// the variants.
    pub fn number(&self) -> u8
        ensures { result ≡ number_of self.now }
    {
        match self {
            Error::Memory => 1,
            Error::CutShort => 2,
            Error::Head => 3,
            Error::Utf8 => 4,
            Error::TooDeep => 5,
            Error::Remaining => 6,
            Error::OddHex => 7,
            Error::BadHex => 8,
            Error::Notation => 9,
            Error::PastWidth => 10,
        }
    }
}

impl fmt::Display for Error {
    ghost output = { λ e. Some (text_of e) };

    fn fmt<W: fmt::Write>(&self, f: &mut fmt::Formatter<W>) -> fmt::Result {
        f.write_str(self.text())
    }
}

impl From<AllocError> for Error {
    ghost from_gives = { λ _ e. e ≡ Memory };

    fn from(_refused: AllocError) -> Error {
        Error::Memory
    }
}

impl<T: Drop> From<AllocFailed<T>> for Error {
    ghost from_gives = { λ _ e. e ≡ Memory };

    fn from(_refused: AllocFailed<T>) -> Error {
        Error::Memory
    }
}
