//! Finds places in hex with comments: the first wrong digit (`hex_fault`), and the digits of byte
//! `n` (`hex_place`). It allocates nothing.
ghost use Rattle.std.specs.Prelude.{◌≡◌, ◌≢◌, ◌<◌, ◌≤◌, ◌+◌, ◌*◌, [], ◌∷◌, length, take, drop};
ghost use Rattle.std.specs.Prelude.{slice_index};
ghost use Rattle.std.specs.Prelude.{false, None, IfSome, ◌↔◌};
ghost use Rattle.std.specs.List.{AllPass};
ghost use Rattle.hex.specs.Hex.{is_hex_digit};
ghost use Rattle.cbor_tokens.specs.Uncommented.{uncommented};
ghost use Rattle.cbor_grammar.specs.HexText.{IsKeptAt, IsKeptByte, AreHexDigits, IsHexFault};
ghost use Rattle.cbor_grammar.specs.mirror.HexPlaces.{Keeps};

use super::after_line;
use cbor_grammar::Error;

/// The text after the line feed at the front, or `None` if there is none.
fn after_feed(text: &[u8]) -> Option<&[u8]>
    ensures some { IfSome result (λ rest. text.now ≡ 10 ∷ rest.now) }
    ensures none { result ≡ None → slice_index text.now 0 ≢ 10 }
{
    match text {
        [b'\n', rest @ ..] => Some(rest),
        _ => None,
    }
}

/// The text after a space, the end of a line or a comment at the front, or `None` if the first byte
/// is kept.
fn after_dropped(text: &[u8]) -> Option<&[u8]>
    ensures over { IfSome result (λ rest. Keeps text.now rest.now []) }
    ensures shorter { IfSome result (λ rest. length rest.now < length text.now) }
    ensures kept { result ≡ None → 0 < length text.now
        → Keeps text.now (drop 1 text.now) (slice_index text.now 0 ∷ []) }
{
    let [first, rest @ ..] = text else {
        return None;
    };
    match *first {
        b' ' => Some(rest),
        b'\n' => Some(rest),
        b'#' => Some(after_line(rest)),
        b'\r' => after_feed(rest),
        _ => None,
    }
}

/// The text after the bytes at the front that are not kept.
#[tactic(auto, using(cbor_grammar::proofs::hex::Kept::kept_steps))]
fn at_kept(text: &[u8]) -> &[u8]
    ensures over { Keeps text.now result.now [] }
    ensures kept { 0 < length result.now
        → Keeps result.now (drop 1 result.now) (slice_index result.now 0 ∷ []) }
{
    let mut rest = text;
    'dropped: while let Some(after) = after_dropped(rest) {
        rest = after;
    }
    rest
}

/// How many bytes are kept.
fn kept_count(text: &[u8]) -> usize
    ensures { result ≡ length (uncommented text.now) }
{
    let mut rest = at_kept(text);
    let mut count = 0;
    'kept: while let [_, after @ ..] = rest {
        rest = at_kept(after);
        count += 1;
    }
    count
}

/// The place of kept byte `n`, counted from 0.
fn kept_place(text: &[u8], n: usize) -> Option<usize>
    ensures some { IfSome result (λ place. IsKeptByte text.now n place) }
    ensures none { (result ≡ None) ↔ (length (uncommented text.now) ≤ n) }
{
    let mut rest = at_kept(text);
    let mut before = 0;
    'kept: while let [_, after @ ..] = rest {
        if before == n {
            return Some(text.len() - rest.len());
        }
        rest = at_kept(after);
        before += 1;
    }
    None
}

/// The place of the first kept byte that is not a digit.
fn bad_place(text: &[u8]) -> Option<usize>
    ensures kept { IfSome result (λ place. IsKeptAt text.now place) }
    ensures bad { IfSome result (λ place. is_hex_digit (slice_index text.now place) ≡ false) }
    ensures before { IfSome result
        (λ place. AllPass is_hex_digit (uncommented (take place text.now))) }
    ensures none { result ≡ None → AllPass is_hex_digit (uncommented text.now) }
{
    let mut rest = at_kept(text);
    'kept: while let [byte, after @ ..] = rest {
        if !byte.is_ascii_hexdigit() {
            return Some(text.len() - rest.len());
        }
        rest = at_kept(after);
    }
    None
}

/// Finds where the digits of hex with comments are wrong. Returns the error that [`parse_hex`]
/// returns for them, and the number of bytes before the wrong place. It allocates nothing.
///
/// All bytes are kept except spaces, ends of lines and comments. The error is `OddHex` if the
/// number of kept bytes is odd, and otherwise `BadHex` if one of them is not a hex digit. The place
/// is that of the first kept byte that is not a digit, or else that of the last digit. Returns
/// `None` if the kept bytes are an even number of digits. They may still not encode an item;
/// [`extent`] finds where.
///
/// ```rust
/// use cbor_diag::{Error, hex_fault};
///
/// assert_eq!(rt; hex_fault("82 01 # one\n0x"), Some((Error::BadHex, 13)));
/// assert_eq!(rt; hex_fault("82 01 0 # half"), Some((Error::OddHex, 6)));
/// assert_eq!(rt; hex_fault("82 01 # one"), None);
/// ```
///
/// [`extent`]: crate::extent
/// [`parse_hex`]: cbor_diag::parse_hex
pub fn hex_fault(hex: &str) -> Option<(Error, usize)>
    // The error and its place, or none if and only if the kept bytes are digits of complete bytes.
    ensures fault { IfSome result (λ x. IsHexFault hex.now x.0 x.1) }
    ensures none { (result ≡ None) ↔ AreHexDigits hex.now }
{
    let text = hex.as_bytes();
    let count = kept_count(text);
    match bad_place(text) {
        Some(place) if count % 2 == 1 => Some((Error::OddHex, place)),
        Some(place) => Some((Error::BadHex, place)),
        None if count % 2 == 1 => {
            let place = kept_place(text, count - 1)?;
            Some((Error::OddHex, place))
        }
        None => None,
    }
}

/// Finds where the digits of byte `n` are in hex with comments: the number of bytes of the text
/// before its first digit. The first byte is number 0. It allocates nothing.
///
/// Returns `None` if fewer than two kept bytes follow those of the bytes before byte `n`. Together
/// with [`extent`] it shows the place of an error in the text.
///
/// ```rust
/// use cbor_diag::hex_place;
///
/// // The byte 02 is number 2.
/// assert_eq!(rt; hex_place("82 01 # one\n02 # two", 2), Some(12));
/// assert_eq!(rt; hex_place("82 01 # one\n02 # two", 3), None);
/// ```
///
/// [`extent`]: crate::extent
pub fn hex_place(hex: &str, n: usize) -> Option<usize>
    // The place of the kept byte that is the first digit, or none if and only if the two are not
    // there.
    ensures some { IfSome result (λ place. IsKeptByte hex.now (2 * n) place) }
    ensures none { (result ≡ None) ↔ (length (uncommented hex.now) < 2 * n + 2) }
{
    let text = hex.as_bytes();
    if n >= kept_count(text) / 2 {
        return None;
    }
    kept_place(text, 2 * n)
}
