//! Finds the first wrong or missing digit between apostrophes in EDN, as in `h'0'`, and returns
//! what is expected there.
ghost use Rattle.std.specs.Prelude.{◌≤◌, length};

use crate::blank::after_blank;
use crate::digits::find_apostrophe;
use cbor_edn_grammar::error::Expected;
use cbor_edn_grammar::opening::Base;

/// Digits that an encoding of bytes may begin with.
#[derive(Drop)]
struct Front {
    base: Base,
    /// How many there are, without the padding.
    digits: usize,
    /// The value of the last one.
    last: u8,
    /// How many characters of padding follow them.
    padding: usize,
    /// Whether they are in the URL-safe alphabet of base 64, once that is known.
    url_safe: Option<bool>,
}

/// The value of a digit.
fn value_of(base: Base, digit: u8) -> Option<u8> {
    match (base, digit) {
        (Base::Hex, digit) => match char::from(digit).to_digit(16) {
            Some(value) => Some(value as u8),
            None => None,
        },
        (Base::Base64 | Base::Base32, b'A'..=b'Z') => Some(digit - b'A'),
        (Base::Base64, b'a'..=b'z') => Some(digit - b'a' + 26),
        (Base::Base64, b'0'..=b'9') => Some(digit - b'0' + 52),
        (Base::Base64, b'+' | b'-') => Some(62),
        (Base::Base64, b'/' | b'_') => Some(63),
        (Base::Base32, b'2'..=b'7') => Some(digit - b'2' + 26),
        (Base::Base32Hex, b'0'..=b'9') => Some(digit - b'0'),
        (Base::Base32Hex, b'A'..=b'V') => Some(digit - b'A' + 10),
        _ => None,
    }
}

/// True for a digit of the URL-safe alphabet of base 64 alone, and false for one of the standard
/// alphabet alone.
fn alphabet_of(base: Base, digit: u8) -> Option<bool> {
    match (base, digit) {
        (Base::Base64, b'+' | b'/') => Some(false),
        (Base::Base64, b'-' | b'_') => Some(true),
        _ => None,
    }
}

impl Front {
    /// The bits of the last digit that belong to no byte and have to be 0. `None` if no encoding
    /// has this many digits.
    fn spare_bits(&self) -> Option<u8> {
        match (self.base, self.digits % 8) {
            (_, 0) => Some(0),
            (Base::Hex, 2 | 4 | 6) | (Base::Base64, 4) => Some(0),
            (Base::Base64, 2 | 6) => Some(0b1111),
            (Base::Base64, 3 | 7) => Some(0b11),
            (Base::Base32 | Base::Base32Hex, 2) => Some(0b11),
            (Base::Base32 | Base::Base32Hex, 4) => Some(0b1111),
            (Base::Base32 | Base::Base32Hex, 5) => Some(0b1),
            (Base::Base32 | Base::Base32Hex, 7) => Some(0b111),
            _ => None,
        }
    }

    /// How many characters of padding these digits may have.
    fn most_padding(&self) -> usize {
        let Some(bits) = self.spare_bits() else {
            return 0;
        };
        if self.last & bits != 0 {
            return 0;
        }
        match self.base {
            Base::Hex => 0,
            Base::Base64 => (4 - self.digits % 4) % 4,
            Base::Base32 | Base::Base32Hex => (8 - self.digits % 8) % 8,
        }
    }

    /// Takes a further digit, if an encoding may go on with it.
    fn take(&mut self, digit: u8) -> bool {
        if digit == b'=' {
            self.padding = self.padding.saturating_add(1);
            return self.padding <= self.most_padding();
        }
        let alphabet = alphabet_of(self.base, digit);
        if self.padding > 0 || alphabet.is_some_and(|new| self.url_safe == Some(!new)) {
            return false;
        }
        let Some(value) = value_of(self.base, digit) else {
            return false;
        };
        self.url_safe = alphabet.or(self.url_safe);
        self.last = value;
        self.digits = self.digits.saturating_add(1);
        true
    }
}

/// The index of the first character that no encoding of bytes can have there, or the number of
/// characters if a digit is missing at the end.
fn wrong_digit(content: &[u8], base: Base) -> usize
    ensures { result ≤ length content.now }
{
    let mut front = Front {
        base,
        digits: 0,
        last: 0,
        padding: 0,
        url_safe: None,
    };
    let mut rest = content;
    'digits: for _ in 0..content.len() {
        match after_blank(rest, base.slashes()) {
            [digit, after @ ..] if front.take(*digit) => rest = after,
            [] => break,
            wrong => return content.len().saturating_sub(wrong.len()),
        }
    }
    content.len()
}

/// Where the digits up to the next apostrophe do not encode bytes, and what is expected there.
pub(crate) fn digit_fault(text: &[u8], base: Base) -> (usize, Expected)
    ensures { result.0 ≤ length text.now }
{
    match find_apostrophe(text) {
        Some(end) => {
            let at = wrong_digit(&text[..end], base);
            if at < end {
                (at, Expected::Digit)
            } else {
                (end, Expected::MoreDigits)
            }
        }
        None => (text.len(), Expected::Quote),
    }
}
