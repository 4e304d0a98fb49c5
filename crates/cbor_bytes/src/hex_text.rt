//! Decodes hex with spaces and comments to bytes (`hex_bytes`). The bytes need not encode an item.
//! `hex_text/place.rt` finds the first wrong digit of such a text, and the digits of a byte.
//!
//! The text is read once, line by line. Spaces and comments are skipped, and the rest is gathered
//! and then decoded.
mod place;

ghost use Rattle.std.specs.Prelude.{◌≡◌, ◌≢◌, ◌<◌, ◌≤◌, ◌++◌, ◌%◌, ◌⊎◌, ◌==◌, length, take, drop};
ghost use Rattle.std.specs.Prelude.{slice_index, IfOk, IfErr, OnOk, Ok};
ghost use Rattle.std.specs.List.{AllPass, after_first};
ghost use Rattle.std.specs.Str.Lines.{strip_carriage_return};
ghost use Rattle.hex.specs.Hex.{decode_of, is_hex_digit};
ghost use Rattle.cbor_grammar.specs.Answer.{RefusedSo};
ghost use Rattle.cbor_tokens.specs.Uncommented.{unspaced, uncommented};
ghost use Rattle.cbor_grammar.specs.HexText.{IsHexRefused};

use cbor_grammar::Error;
use cbor_tokens::decode_hex;
use memchr::{memchr, memchr2};
pub use place::{hex_fault, hex_place};
use std::alloc::{AllocError, Global};

/// The part of the first line before its `#` or its end, and the text after that line.
fn cut_line(text: &[u8]) -> (&[u8], &[u8])
    ensures kept { uncommented text.now ≡ unspaced result.0.now ++ uncommented result.1.now }
    ensures shorter { 0 < length text.now → length result.1.now < length text.now }
{
    match memchr2(b'#', b'\n', text) {
        None => (text, &text[text.len()..]),
        Some(end) if text[end] == b'#' => (&text[..end], after_line(&text[end..])),
        Some(end) => (without_return(&text[..end]), &text[end + 1..]),
    }
}

/// The text after the first line feed.
fn after_line(text: &[u8]) -> &[u8]
    ensures { result.now ≡ after_first (λ b. b == 10) text.now }
{
    match memchr(b'\n', text) {
        Some(end) => &text[end + 1..],
        None => &text[text.len()..],
    }
}

/// A line that ends at a line feed, without the carriage return before that, if there is one.
fn without_return(line: &[u8]) -> &[u8]
    ensures { result.now ≡ strip_carriage_return line.now }
{
    match line.last() {
        Some(b'\r') => &line[..line.len() - 1],
        _ => line,
    }
}

/// The text after the spaces at the front.
#[tactic(auto, using(cbor_grammar::proofs::hex::Lines::space_here))]
fn after_spaces(line: &[u8]) -> &[u8]
    ensures same { unspaced result.now ≡ unspaced line.now }
    ensures no_space { 0 < length result.now → slice_index result.now 0 ≢ 32 }
    ensures longer { length result.now ≤ length line.now }
{
    let near = after_eights(line);
    let mut at = 0;
    'spaces: while at < near.len() && near[at] == b' ' {
        at += 1;
    }
    &near[at..]
}

/// The text after the spaces at the front, eight at a time: most lines of a dump have that many.
#[tactic(auto, using(cbor_grammar::proofs::hex::Lines::eight_spaces))]
fn after_eights(line: &[u8]) -> &[u8]
    ensures same { unspaced result.now ≡ unspaced line.now }
    ensures longer { length result.now ≤ length line.now }
{
    let mut rest = line;
    'eights: while let Some(after) = rest.strip_prefix(b"        ") {
        rest = after;
    }
    rest
}

/// The place of the first space, or the end of the line. It tests single bytes, since most digits
/// are in short runs.
#[tactic(auto, using(cbor_grammar::proofs::hex::Lines::front_kept))]
fn first_space(line: &[u8]) -> usize
    ensures within { result ≤ length line.now }
    ensures moves { 0 < length line.now → slice_index line.now 0 ≢ 32 → 0 < result }
    ensures kept { unspaced line.now ≡ take result line.now ++ unspaced (drop result line.now) }
{
    let mut end = 0;
    'digits: while end < line.len() && line[end] != b' ' {
        end += 1;
    }
    end
}

/// Writes the bytes of a line that are not spaces.
fn push_unspaced(out: &mut Vec<u8>, line: &[u8]) -> Result<(), AllocError>
    ensures { OnOk result (out.new.items ≡ out.old.items ++ unspaced line.now) }
{
    let mut rest = after_spaces(line);
    'runs: while !rest.is_empty() {
        let end = first_space(rest);
        out.extend_from_slice(&rest[..end])?;
        rest = after_spaces(&rest[end..]);
    }
    Ok(())
}

/// The kept bytes of all lines. Decoding finds out whether they are hex digits. At first, memory is
/// reserved for a fourth of the text: most dumps keep less.
pub fn uncommented(alloc: Global, text: &str) -> Result<Vec<u8>, AllocError>
    ensures { IfOk result (λ digits. digits.items ≡ uncommented text.now) }
{
    let mut digits = Vec::with_capacity(alloc, text.len() / 4)?;
    let mut rest = text.as_bytes();
    'lines: while !rest.is_empty() {
        let (line, after) = cut_line(rest);
        push_unspaced(&mut digits, line)?;
        rest = after;
    }
    Ok(digits)
}

/// Decodes hex digits, two of either case for each byte. Returns `OddHex` if their number is odd,
/// and otherwise `BadHex` if a byte is not a digit.
pub fn decode(alloc: Global, digits: Vec<u8>) -> cbor_grammar::Result<Vec<u8>>
    ensures bytes { IfOk result (λ bytes. decode_of digits.items ≡ Ok bytes.items) }
    ensures refused { IfErr result (λ e. (e ≡ Error.Memory)
        ⊎ (e ≡ Error.OddHex) × (length digits.items % 2 ≡ 1)
        ⊎ (e ≡ Error.BadHex) × (length digits.items % 2 ≡ 0)
        × ¬ (AllPass is_hex_digit digits.items)) }
{
    match decode_hex(alloc, &digits)? {
        Some(bytes) => Ok(bytes),
        None if digits.len() % 2 == 1 => Err(Error::OddHex),
        None => Err(Error::BadHex),
    }
}

/// Decodes hex with comments, by the rules of [`parse_hex`]: two digits, of either case, for each
/// byte. The bytes need not encode an item; [`extent`] reports how they begin.
///
/// All bytes of the text are kept except spaces, ends of lines and comments. Returns `OddHex` if
/// the number of kept bytes is odd, and otherwise `BadHex` if one of them is not a hex digit.
/// Returns `Memory` if an allocation fails.
///
/// ```rust
/// use cbor_diag::hex_bytes;
///
/// let bytes = hex_bytes(alloc, "82 01 # one of two")?;
/// assert_eq!(rt; bytes.as_slice(), b"\x82\x01".as_slice());
/// ```
///
/// [`extent`]: crate::extent
pub fn hex_bytes(alloc: Global, hex: &str) -> cbor_grammar::Result<Vec<u8>>
    ensures bytes { IfOk result (λ bytes. decode_of (uncommented hex.now) ≡ Ok bytes.items) }
    ensures refused { RefusedSo result
        (λ e. ((e ≡ Error.OddHex) ⊎ (e ≡ Error.BadHex)) × IsHexRefused hex.now e) }
{
    let digits = uncommented(alloc, hex)?;
    decode(alloc, digits)
}
