//! `Opening`: what a piece of an EDN string begins with: `"`, `'`, `<<` or a prefix such as `h'`.
//! `Base`: the base of digits, which the prefix states.
ghost use Rattle.std.specs.Prelude.{◌≡◌};
ghost use Rattle.cbor_edn_grammar.specs.Strings.{kind_of};
ghost use Rattle.cbor_edn_grammar.specs.Digits.{slashes_in};

use cbor_grammar::strings::StringKind;

/// What a piece of a string begins with.
#[derive(Clone, Copy)]
pub enum Opening {
    /// `"`, of a text.
    Quote,
    /// `'`, of the bytes of a text.
    Apostrophe,
    /// `<<`, of the bytes of items.
    Angles,
    /// A prefix and `'`, of digits.
    Digits(Base),
}

impl Opening {
    /// The kind of a string whose first piece has this opening.
    pub fn kind(self) -> StringKind
        ensures { result ≡ kind_of self }
    {
        match self {
            Opening::Quote => StringKind::Text,
            _ => StringKind::Bytes,
        }
    }
}

/// The base of digits between apostrophes, which the prefix before them states.
#[derive(Clone, Copy)]
pub enum Base {
    /// `h`: base 16, in upper or lower case.
    Hex,
    /// `b64`: base 64 in either alphabet, with or without padding.
    Base64,
    /// `b32`: base 32, with or without padding.
    Base32,
    /// `h32`: base 32 with the extended hex alphabet, with or without padding.
    Base32Hex,
}

impl Base {
    /// Whether slashes begin comments. In base 64 they are digits.
    pub fn slashes(self) -> bool
        ensures { result ≡ slashes_in self }
    {
        !matches!(self, Base::Base64)
    }
}
