//! Writes the first eight elements of a typed array (RFC 8746, section 2) as the text of a note.

ghost use Rattle.std.specs.Prelude.{◌≡◌, ◌++◌, ◌*◌, ◌^◌, ◌<◌, ◌≤◌, ◌%◌, List, ℕ, length, take};
ghost use Rattle.std.specs.Prelude.{Some, reverse, option_map, IfOk, OnOk};
ghost use Rattle.std.specs.Int.{IsInRange};
ghost use Rattle.std.specs.String.{string_bytes};
ghost use Rattle.cbor_notes.specs.Element.{is_little_endian as is_lowest_first};
ghost use Rattle.cbor_edn_writer.specs.Elements as spec;
ghost use Rattle.cbor_edn_writer.specs.Elements.{IsElementText, IsElementsNote, MoreElements};

use cbor_floats::{EncodedFloat, push_number};
use cbor_notes::{big_endian_number, element_size};
use std::alloc::{AllocError, Global};

/// The most elements that a note shows after the first one.
const MOST_MORE: usize = 7;

/// The most bytes of an element that a note shows. Floats of 128 bits have more.
const MOST_BYTES: usize = 8;

/// The elements of a typed array.
#[derive(Clone, Copy)]
struct Elements {
    /// The tag of the array, which says what they are.
    tag: u64,
    /// The number of bytes of each.
    size: usize,
}

/// The text of the first eight elements of the typed array with this tag and these bytes, with `..`
/// in place of further ones. `None` for another tag, for floats of 128 bits, for no bytes, and for
/// bytes that do not divide into elements. The only error is out of memory.
pub(super) fn elements_text(
    alloc: Global,
    tag: u64,
    bytes: &[u8],
) -> Result<Option<String>, AllocError>
    ensures { IfOk result (λ found. IsElementsNote tag bytes.now (option_map string_bytes found)) }
{
    let Some(size) = shown_size(tag) else {
        return Ok(None);
    };
    if bytes.is_empty() || bytes.len() % size != 0 {
        return Ok(None);
    }
    let mut text = String::new(alloc);
    let (first, rest) = bytes.split_at(size);
    push_element(&mut text, tag, first)?;
    push_more(&mut text, Elements { tag, size }, rest, MOST_MORE)?;
    Ok(Some(text))
}

/// The bytes of an element of the typed array with this tag, if a note shows such elements.
fn shown_size(tag: u64) -> Option<usize>
    ensures { result ≡ spec.shown_size tag }
{
    match element_size(tag) {
        Some(size) if size <= MOST_BYTES => Some(size),
        _ => None,
    }
}

/// Appends the elements that these bytes are, each after a comma: at most `left` of them, and `..`
/// in place of further ones.
fn push_more(text: &mut String, of: Elements, bytes: &[u8], left: usize) -> Result<(), AllocError>
    requires shown { spec.shown_size of.tag ≡ Some of.size }
    requires whole { length bytes.now % of.size ≡ 0 }
    ensures { OnOk result ((more : List ℕ) × MoreElements of.tag left bytes.now more
        × (string_bytes text.new ≡ string_bytes text.old ++ more)) }
{
    if bytes.is_empty() {
        return Ok(());
    }
    text.push_str(", ")?;
    if left == 0 {
        return text.push_str("..");
    }
    let (element, rest) = bytes.split_at(of.size);
    push_element(text, of.tag, element)?;
    push_more(text, of, rest, left - 1)
}

/// Appends an element of the typed array with this tag, from its bytes.
fn push_element(text: &mut String, tag: u64, bytes: &[u8]) -> Result<(), AllocError>
    requires { spec.shown_size tag ≡ Some (length bytes.now) }
    ensures { OnOk result ((element : List ℕ) × IsElementText tag bytes.now element
        × (string_bytes text.new ≡ string_bytes text.old ++ element)) }
{
    let number = number_of(tag, bytes);
    match tag {
        64..=71 => write!(text, "{number}"),
        72..=79 => push_signed(text, bytes.len(), number),
        _ => push_number(text, float_of(bytes.len(), number).value()),
    }
}

/// The number that the bytes of an element encode, in the order of the tag.
fn number_of(tag: u64, bytes: &[u8]) -> u64
    requires { length bytes.now ≤ 8 }
    ensures value { result ≡ spec.number_of tag bytes.now }
    ensures bound { result < 2 ^ (8 * length bytes.now) }
{
    if is_little_endian(tag) {
        let wide = reversed(bytes);
        big_endian_number(&wide[..bytes.len()]) as u64
    } else {
        big_endian_number(bytes) as u64
    }
}

/// Whether the elements of the typed array with this tag begin with their lowest byte.
fn is_little_endian(tag: u64) -> bool
    ensures { result ≡ is_lowest_first tag }
{
    tag / 4 % 2 == 1
}

/// The bytes in reverse, and then zeros up to eight bytes.
fn reversed(bytes: &[u8]) -> [u8; 8]
    requires { length bytes.now ≤ 8 }
    ensures { take (length bytes.now) result ≡ reverse bytes.now }
{
    let mut wide = [0; 8];
    let front = &mut wide[..bytes.len()];
    front.copy_from_slice(bytes);
    front.reverse();
    wide
}

/// Appends a number of that many bytes in two's complement. It is negative from half of its range
/// on.
fn push_signed(text: &mut String, size: usize, number: u64) -> Result<(), AllocError>
    requires size { IsInRange 1 8 size }
    requires bound { number < 2 ^ (8 * size) }
    ensures { OnOk result
        (string_bytes text.new ≡ string_bytes text.old ++ spec.signed_text size number) }
{
    let half = 1u64 << (8 * size - 1);
    if number < half {
        return write!(text, "{number}");
    }
    let amount = half - (number - half);
    write!(text, "-{amount}")
}

/// The float of that many bytes with these bits.
fn float_of(size: usize, bits: u64) -> EncodedFloat
    requires { bits < 2 ^ (8 * size) }
    ensures { result ≡ spec.float_of size bits }
{
    match size {
        2 => EncodedFloat::Half(bits as u16),
        4 => EncodedFloat::Single(bits as u32),
        _ => EncodedFloat::Double(bits),
    }
}
