//! `EdnError`: why reading EDN failed, and at which byte. `Expected`: what EDN requires there, with
//! the message in words. `Stop`: why a function that reads at a cursor stops.
ghost use Rattle.std.specs.Prelude.{◌≡◌};
ghost use Rattle.cbor_edn_grammar.specs.Expectations.{text_of, words_of};
ghost use Rattle.cbor_edn_grammar.specs.declared.error.Stop.TheVariants.{Memory};

use crate::close::Close;
use crate::literal::Literal;
use cbor_floats::half_value;
use ryu::Buffer;
use std::alloc::{AllocError, AllocFailed};
use std::fmt;

/// What EDN requires at the place of an error.
#[derive(Clone, Copy, PartialEq, Eq, Debug)]
pub enum Expected {
    /// An item: none begins here.
    Item,
    /// A character that an item begins with.
    ItemStart,
    /// An item, and not another comma.
    FewerCommas,
    /// The value of a key, after the colon.
    Value,
    /// The content of a tag, between its parentheses.
    TagContent,
    /// The end of a comment that began here.
    CommentEnd,
    /// A word in the spelling of EDN.
    Literal(Literal),
    /// Quotes around a text: the word here is not an item.
    Quotes,
    /// Apostrophes after a prefix, instead of quotes.
    Apostrophes,
    /// One item: the text has more than one.
    OneItem,
    /// A number, with or without a width indicator.
    Number,
    /// An unsigned number, before the parenthesis of a tag.
    TagNumber,
    /// A number that fits 64 bits, before the parenthesis of a tag.
    LargestTag,
    /// A number from 0 to 23 or from 32 to 255, for a simple value.
    SimpleNumber,
    /// An opening parenthesis, after `simple`.
    SimpleParenthesis,
    /// A number instead of an ellipsis: an ellipsis has no bytes.
    NoEllipsis,
    /// A known prefix before an apostrophe.
    Prefix,
    /// A width that the number fits.
    FittingWidth,
    /// One of the indicators `_i`, `_0`, `_1`, `_2` and `_3`, or `_` alone.
    Indicator,
    /// A number that a 16-bit float can represent.
    Half {
        /// The bits of the nearest 16-bit float.
        nearest: u16,
    },
    /// A number that is not past the largest 16-bit float.
    LargestHalf,
    /// A number that is not past the largest 32-bit float.
    LargestSingle,
    /// A number that is not past the largest 64-bit float.
    LargestDouble,
    /// One of the width indicators of a float, `_1`, `_2` and `_3`.
    FloatIndicator,
    /// An exponent between -2^20 and 2^20, in a hexadecimal float.
    HexExponent,
    /// The bits of a float, as 4, 8 or 16 hex digits.
    FloatBits,
    /// A date with a time of day and an offset.
    Date,
    /// A moment from 1970 on, or an earlier one without a fraction of a second.
    LaterDate,
    /// A network address.
    Address,
    /// The length of a prefix in bits, after a network address and a slash.
    PrefixLength,
    /// A network address whose bits after the prefix are all 0.
    ClearBits,
    /// A blank, after the width indicator of a count.
    BlankAfterWidth,
    /// A blank, or what closes the list, after `_`.
    BlankAfterUnderscore,
    /// `_`, after the opening parenthesis of a string in chunks.
    Underscore,
    /// A string.
    String,
    /// A chunk: a definite-length string of the same kind as the chunks before it.
    Chunk,
    /// No content between quotes that `_` follows.
    NoContent,
    /// A closing quote.
    Quote,
    /// A JSON escape.
    Escape,
    /// The escape of a low surrogate, after that of a high surrogate.
    SecondHalf {
        /// The high surrogate.
        first: u16,
    },
    /// The escape of a high surrogate, before that of a low surrogate.
    FirstHalf {
        /// The low surrogate.
        second: u16,
    },
    /// A digit that may be here in the encoding of a byte string.
    Digit,
    /// More digits: those up to here do not encode whole bytes.
    MoreDigits,
    /// UTF-8, for a text.
    Utf8,
    /// `+` or a comma, between two strings.
    PlusOrComma,
    /// A comma or what closes the list.
    CommaOrClose(Close),
    /// A colon, after a key.
    Colon,
    /// A closing parenthesis.
    Parenthesis,
    /// At most 128 levels of nesting.
    Levels,
}

impl Expected {
    /// Returns what is wrong, in a few words without a full stop. `Display` also writes the values
    /// that the error holds.
    pub fn text(&self) -> &'static str
        ensures { result.now ≡ text_of self.now }
    {
        match self {
            Expected::Item => "an item is expected",
            Expected::ItemStart => "no item begins with this character",
            Expected::FewerCommas => "a comma too many",
            Expected::Value => "a value has to follow the colon",
            Expected::TagContent => "a tag needs an item in its parentheses",
            Expected::CommentEnd => "the comment is not closed: write / or */ at its end",
            Expected::Literal(literal) => literal.advice(),
            Expected::Quotes => "a text needs quotes",
            Expected::Apostrophes => "write apostrophes after the prefix, as in h'01'",
            Expected::OneItem => "one item is expected",
            Expected::Number => "not a number",
            Expected::TagNumber => "the number of a tag is a number from 0 on",
            Expected::LargestTag => "a tag is at most 18446744073709551615",
            Expected::SimpleNumber => "a simple value has a number from 0 to 23 or from 32 to 255",
            Expected::SimpleParenthesis => "( has to follow simple",
            Expected::NoEllipsis => "an ellipsis has no bytes",
            Expected::Prefix => {
                "no such prefix is known; h, b64, b32, h32, dt, DT, ip, IP and float are"
            },
            Expected::FittingWidth => "the number does not fit the width that is stated",
            Expected::Indicator => "an indicator is _i, _0, _1, _2 or _3",
            Expected::Half { .. } => "no float of 16 bits is the number",
            Expected::LargestHalf => "the largest float of 16 bits is 65504.0",
            Expected::LargestSingle => "the largest float of 32 bits is 3.4028234663852886e38",
            Expected::LargestDouble => "the largest float of 64 bits is 1.7976931348623157e308",
            Expected::FloatIndicator => "an indicator of a float is _1, _2 or _3",
            Expected::HexExponent => "the exponent is past those of floats of 64 bits",
            Expected::FloatBits => "the bits of a float are 4, 8 or 16 digits",
            Expected::Date => "a date with a time is written as in 2026-01-02T03:04:05Z",
            Expected::LaterDate => "a fraction of a second before 1970 is not read",
            Expected::Address => "an address is written as in 192.0.2.1 or 2001:db8::1",
            Expected::PrefixLength => "a prefix has up to 32 bits, or 128 of an IPv6 address",
            Expected::ClearBits => "the address has a bit set after the prefix",
            Expected::BlankAfterWidth => {
                "a blank has to follow: [_1 ] is an empty array, and [_ 1] one of indefinite length"
            },
            Expected::BlankAfterUnderscore => "a blank, or what closes the list, has to follow _",
            Expected::Underscore => {
                "_ and a blank have to follow the parenthesis of a string in chunks"
            },
            Expected::String => "a string is expected",
            Expected::Chunk => {
                "a chunk is a string of definite length of the kind of the first"
            },
            Expected::NoContent => "only an empty string may have _ after it",
            Expected::Quote => "the closing quote is missing",
            Expected::Escape => "not an escape of a character",
            Expected::SecondHalf { .. } => {
                "half of a character: \\udc00 to \\udfff has to follow"
            },
            Expected::FirstHalf { .. } => {
                "half of a character: \\ud800 to \\udbff has to come before"
            },
            Expected::Digit => "not a digit that can be here",
            Expected::MoreDigits => "a digit is missing",
            Expected::Utf8 => "the bytes of the text are not UTF-8",
            Expected::PlusOrComma => {
                "two strings side by side: write + to join them, or a comma between"
            },
            Expected::CommaOrClose(close) => close.missing(),
            Expected::Colon => "a colon has to follow the key",
            Expected::Parenthesis => "a closing parenthesis is expected",
            Expected::Levels => "nested deeper than 128 levels",
        }
    }
}

impl fmt::Display for Expected {
    ghost output = { words_of };

    fn fmt<W: fmt::Write>(&self, f: &mut fmt::Formatter<W>) -> fmt::Result {
        match self {
            Expected::Half { nearest } => {
                f.write_str(self.text())?;
                f.write_str("; the nearest is ")?;
                write_half(*nearest, f)
            }
            Expected::SecondHalf { first } => {
                let text = self.text();
                write!(f, "{text} \\u{first:04x}")
            }
            Expected::FirstHalf { second } => {
                let text = self.text();
                write!(f, "{text} \\u{second:04x}")
            }
            _ => f.write_str(self.text()),
        }
    }
}

/// Writes the value of a 16-bit float, if it is finite.
fn write_half<W: fmt::Write>(bits: u16, f: &mut fmt::Formatter<W>) -> fmt::Result {
    let x = half_value(bits);
    if x.is_finite() {
        f.write_str(Buffer::new().format_finite(x))
    } else {
        Ok(())
    }
}

/// Why reading EDN failed.
#[derive(Clone, Copy, PartialEq, Eq, Debug)]
pub enum EdnError {
    /// An allocation failed.
    Memory,
    /// The text is not EDN.
    Wrong {
        /// The byte offset of the error.
        place: usize,
        /// What is expected there.
        expected: Expected,
    },
}

/// Why a reading function stops. Its cursor is at the place of the error.
#[derive(Clone, Copy, PartialEq, Eq, Debug)]
pub enum Stop {
    /// An allocation failed.
    Memory,
    /// The text is not EDN.
    At(Expected),
}

impl From<AllocError> for Stop {
    ghost from_gives = { λ _ e. e ≡ Memory };

    fn from(_refused: AllocError) -> Stop {
        Stop::Memory
    }
}

impl<T: Drop> From<AllocFailed<T>> for Stop {
    ghost from_gives = { λ _ e. e ≡ Memory };

    fn from(_refused: AllocFailed<T>) -> Stop {
        Stop::Memory
    }
}
