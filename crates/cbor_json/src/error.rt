//! `JsonError`: why bytes are not written as JSON. They encode no item, two keys of a map become
//! the same (`Clash`), JSON does not keep something (`Loss`), or memory ran out.

use cbor_grammar::Error;
use std::alloc::AllocError;
use std::fmt;

/// Where two keys of a map are that become the same in JSON, as `1` and `"1"`.
#[derive(Clone, Copy, PartialEq, Eq, Debug)]
pub struct Clash {
    /// The first byte of the first of the two.
    pub first: usize,
    /// The first byte of the second.
    pub second: usize,
}

/// What JSON does not keep.
#[derive(Clone, Copy, PartialEq, Eq, Debug)]
pub enum LossKind {
    /// A tag.
    Tag,
    /// NaN or an infinity.
    NotFinite,
    /// Undefined, or another simple value that is none of false, true and null.
    Simple,
    /// A byte string.
    Bytes,
    /// A key that is no text.
    Key,
}

impl LossKind {
    /// The error in words.
    pub const fn text(self) -> &'static str {
        match self {
            LossKind::Tag => "JSON keeps no tag",
            LossKind::NotFinite => "JSON keeps no NaN and no infinity",
            LossKind::Simple => "JSON keeps no simple value but false, true and null",
            LossKind::Bytes => "JSON keeps no byte string",
            LossKind::Key => "JSON keeps no key that is no text",
        }
    }
}

/// Something that JSON does not keep.
#[derive(Clone, Copy, PartialEq, Eq, Debug)]
pub struct Loss {
    /// Its first byte.
    pub place: usize,
    /// What it is.
    pub kind: LossKind,
}

/// Why bytes are not written as JSON.
#[derive(Clone, Copy, PartialEq, Eq, Debug)]
pub enum JsonError {
    /// The bytes are not an item, or memory ran out.
    Cbor(Error),
    /// In a strict style, the first thing from the left that JSON does not keep.
    NotKept(Loss),
    /// Two keys of a map become the same.
    SameKeys(Clash),
}

impl From<Error> for JsonError {
    ghost use Rattle.std.specs.Prelude.{◌≡◌};
    ghost use Rattle.cbor_json.specs.declared.error.JsonError.TheVariants.{Cbor};

    ghost from_gives = { λ e x. x ≡ Cbor e };

    fn from(error: Error) -> JsonError {
        JsonError::Cbor(error)
    }
}

impl From<AllocError> for JsonError {
    ghost use Rattle.std.specs.Prelude.{◌≡◌};
    ghost use Rattle.cbor_grammar.specs.declared.error.Error.TheVariants.{Memory};
    ghost use Rattle.cbor_json.specs.declared.error.JsonError.TheVariants.{Cbor};

    ghost from_gives = { λ _ x. x ≡ Cbor Memory };

    fn from(_refused: AllocError) -> JsonError {
        JsonError::Cbor(Error::Memory)
    }
}

impl fmt::Display for JsonError {
    fn fmt<W: fmt::Write>(&self, f: &mut fmt::Formatter<W>) -> Result<(), fmt::Error> {
        match self {
            JsonError::Cbor(error) => error.fmt(f),
            JsonError::NotKept(loss) => f.write_str(loss.kind.text()),
            JsonError::SameKeys(_) => f.write_str("two keys of a map become the same in JSON"),
        }
    }
}
