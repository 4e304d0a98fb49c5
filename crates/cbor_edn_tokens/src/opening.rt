//! Reads the opening of a piece of an EDN string: `"`, `'`, `<<` or a prefix such as `h'`. Also
//! tests whether a string begins at the front of a text.
ghost use Rattle.std.specs.Prelude.{◌≡◌, ◌<◌, length, option_map, IfSome};
ghost use Rattle.cbor_edn_grammar.specs.Strings.{may_open, opening_of, begins_string};

use crate::cursor::after_bytes;
use cbor_edn_grammar::opening::{Base, Opening};

/// Whether an opening may begin with this byte. This check rules out most items but strings.
fn may_open(first: u8) -> bool
    ensures { result ≡ may_open first }
{
    matches!(first, b'"' | b'\'' | b'<' | b'h' | b'b')
}

/// The opening of a piece at the front, and the text after it.
#[tactic(auto, unfolding(cbor_edn_grammar::specs::Strings::opening_of))]
pub fn opening_at(text: &[u8]) -> Option<(Opening, &[u8])>
    ensures gives { option_map (λ x. (x.0, x.1.now)) result ≡ opening_of text.now }
    ensures shorter { IfSome result (λ x. length x.1.now < length text.now) }
{
    let [first, ..] = text else {
        return None;
    };
    if !may_open(*first) {
        None
    } else if let Some(rest) = after_bytes(text, b"\"") {
        Some((Opening::Quote, rest))
    } else if let Some(rest) = after_bytes(text, b"'") {
        Some((Opening::Apostrophe, rest))
    } else if let Some(rest) = after_bytes(text, b"<<") {
        Some((Opening::Angles, rest))
    } else if let Some(rest) = after_bytes(text, b"h'") {
        Some((Opening::Digits(Base::Hex), rest))
    } else if let Some(rest) = after_bytes(text, b"b64'") {
        Some((Opening::Digits(Base::Base64), rest))
    } else if let Some(rest) = after_bytes(text, b"b32'") {
        Some((Opening::Digits(Base::Base32), rest))
    } else if let Some(rest) = after_bytes(text, b"h32'") {
        Some((Opening::Digits(Base::Base32Hex), rest))
    } else {
        None
    }
}

/// Whether a string begins here.
pub fn begins_string(text: &[u8]) -> bool
    ensures { result ≡ begins_string text.now }
{
    opening_at(text).is_some()
}
