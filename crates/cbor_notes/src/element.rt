//! Writes elements of typed arrays as texts (RFC 8746, section 2), such as `unsigned(1,000)`.
//! `element_size` returns how many bytes an element has.
//! `big_endian_number` returns the number that bytes encode.

ghost use Rattle.std.specs.Prelude.{◌≡◌, [], ◌++◌, is_some, unwrap_or, ◌-◌, ◌<◌, ◌≤◌, ◌*◌, ◌^◌};
ghost use Rattle.std.specs.Prelude.{length, take, reverse, option_map, if◌then◌else◌, IfSome};
ghost use Rattle.std.specs.Prelude.{IfNone, IfOk, OnOk, OnErr, false, true};
ghost use Rattle.std.specs.Int.{IsInRange};
ghost use Rattle.std.specs.Int.Digits.{number_from_digits};
ghost use Rattle.std.specs.String.{string_bytes};
ghost use Rattle.cbor_tokens.specs.Appends.{AppendsText};
ghost use Rattle.cbor_notes.specs.Element as spec;
ghost use Rattle.cbor_notes.specs.Views.{kind_view};

use crate::text::{cut_after_error, push_grouped};
use cbor_tokens::push_hex;
use std::alloc::{AllocError, Global};

/// The kind of the elements of a typed array.
#[derive(Clone, Copy)]
enum Kind {
    Unsigned,
    Signed,
    Float,
}

/// How a typed array encodes an element.
#[derive(Clone, Copy)]
struct Element {
    kind: Kind,
    little_endian: bool,
    size: usize,
}

/// Returns the number of bytes of one element in the typed array of `tag` (RFC 8746, section 2): 1
/// to 16 for the tags 64 to 75 and 77 to 87, and `None` for every other tag.
///
/// ```rust
/// use cbor_notes::element_size;
///
/// // Tag 69: unsigned integers of 16 bits, little endian.
/// assert_eq!(rt; element_size(69), Some(2));
/// ```
pub fn element_size(tag: u64) -> Option<usize>
    ensures size { result ≡ spec.element_size tag }
{
    Some(Element::of_tag(tag)?.size)
}

/// Returns the text of one element in the typed array of `tag` (RFC 8746, section 2):
/// `unsigned(1,000)`, `signed(-1)` or `float(3c00)`. Numbers are grouped. The bits of a float are
/// in hex, the highest first, whatever the order of the bytes.
///
/// Returns `None` if `tag` is not the tag of a typed array, or if `bytes` is not as long as one
/// element. The only error is out of memory.
///
/// ```rust
/// use cbor_notes::element_text;
///
/// let element = element_text(alloc, 69, b"\x39\x30")?;
/// assert_eq!(rt; element.as_deref(), Some("unsigned(12,345)"));
/// ```
pub fn element_text(alloc: Global, tag: u64, bytes: &[u8]) -> Result<Option<String>, AllocError>
    ensures text { IfOk result
        (λ found. option_map string_bytes found ≡ spec.element_text tag bytes.now) }
{
    // No text of an element is longer.
    let mut text = String::with_capacity(alloc, 40)?;
    if push_element_text(&mut text, tag, bytes)? {
        Ok(Some(text))
    } else {
        Ok(None)
    }
}

/// Appends the text of [`element_text`] to `text`, and returns whether there is one. The only error
/// is out of memory, and after it `text` is unchanged.
///
/// ```rust
/// use cbor_notes::push_element_text;
///
/// let mut text = String::new(alloc);
/// assert!(rt; push_element_text(&mut text, 72, b"\xff")?);
/// assert_eq!(rt; text.as_str(), "signed(-1)");
/// ```
pub fn push_element_text(text: &mut String, tag: u64, bytes: &[u8]) -> Result<bool, AllocError>
    ensures some { IfOk result (λ some. some ≡ is_some (spec.element_text tag bytes.now)) }
    ensures text { OnOk result (string_bytes text.new
        ≡ string_bytes text.old ++ unwrap_or (spec.element_text tag bytes.now) []) }
    ensures unchanged { OnErr result (string_bytes text.new ≡ string_bytes text.old) }
{
    let Some(element) = Element::of_tag(tag) else {
        return Ok(false);
    };
    if bytes.len() != element.size {
        return Ok(false);
    }
    let ordered = element.ordered(bytes);
    let len = text.len();
    let answer = write_value_text(text, element.kind, &ordered[..bytes.len()]);
    cut_after_error(text, len, answer)?;
    Ok(true)
}

/// Appends the kind of an element and, between brackets, its value. The highest byte comes first.
/// After an error `text` may end with a part of it.
fn write_value_text(text: &mut String, kind: Kind, bytes: &[u8]) -> Result<(), AllocError>
    requires { IsInRange 1 16 (length bytes.now) }
    ensures { AppendsText result text.old text.new (spec.value_text (kind_view kind) bytes.now) }
{
    text.push_str(kind.word())?;
    text.push('(')?;
    push_value(text, kind, bytes)?;
    text.push(')')
}

impl Kind {
    /// The word for this kind.
    fn word(self) -> &'static str
        ensures word { result.now ≡ spec.word (kind_view self) }
    {
        match self {
            Kind::Unsigned => "unsigned",
            Kind::Signed => "signed",
            Kind::Float => "float",
        }
    }
}

impl Element {
    /// How the typed array of a tag encodes its elements.
    fn of_tag(tag: u64) -> Option<Element>
        ensures found { IfSome result (λ element. (spec.is_typed_array tag ≡ true)
            × (kind_view element.kind ≡ spec.kind tag)
            × (element.little_endian ≡ spec.is_little_endian tag)
            × (element.size ≡ spec.size tag)) }
        ensures none { IfNone result (spec.is_typed_array tag ≡ false) }
    {
        let (kind, little_endian) = match tag {
            64..=67 => (Kind::Unsigned, false),
            68..=71 => (Kind::Unsigned, true),
            72..=75 => (Kind::Signed, false),
            77..=79 => (Kind::Signed, true),
            80..=83 => (Kind::Float, false),
            84..=87 => (Kind::Float, true),
            _ => return None,
        };
        let exponent = match kind {
            Kind::Float => tag % 4 + 1,
            _ => tag % 4,
        };
        Some(Element {
            kind,
            little_endian,
            size: 1 << exponent,
        })
    }

    /// The bytes of an element, the highest first, and then zeros up to sixteen bytes.
    fn ordered(self, bytes: &[u8]) -> [u8; 16]
        requires { length bytes.now ≤ 16 }
        ensures { take (length bytes.now) result
            ≡ (if self.little_endian then reverse bytes.now else bytes.now) }
    {
        let mut wide = [0; 16];
        let start = &mut wide[..bytes.len()];
        start.copy_from_slice(bytes);
        if self.little_endian {
            start.reverse();
        }
        wide
    }
}

/// Appends an element, whose highest byte comes first. After an error `text` is unchanged.
fn push_value(text: &mut String, kind: Kind, bytes: &[u8]) -> Result<(), AllocError>
    requires { IsInRange 1 16 (length bytes.now) }
    ensures text { OnOk result
        (string_bytes text.new ≡ string_bytes text.old ++ spec.value (kind_view kind) bytes.now) }
    ensures unchanged { OnErr result (string_bytes text.new ≡ string_bytes text.old) }
{
    match kind {
        Kind::Unsigned => push_grouped(text, big_endian_number(bytes), false),
        Kind::Signed => push_signed(text, bytes),
        Kind::Float => push_hex(text, bytes),
    }
}

/// Returns the number that at most 16 bytes encode, the highest byte first. The number of no bytes
/// is 0. The number of `n` bytes is less than 256 to the power of `n`.
///
/// ```rust
/// use cbor_notes::big_endian_number;
///
/// assert_eq!(rt; big_endian_number(b"\x30\x39"), 12_345);
/// ```
pub fn big_endian_number(bytes: &[u8]) -> u128
    requires { length bytes.now ≤ 16 }
    ensures value { result ≡ number_from_digits 256 bytes.now }
    ensures bound { result < 2 ^ (8 * length bytes.now) }
{
    let mut number = 0;
    for byte in bytes {
        number = number * 256 + u128::from(*byte);
    }
    number
}

/// Appends a number in two's complement, grouped. It is negative from half of its range on. After
/// an error `text` is unchanged.
fn push_signed(text: &mut String, bytes: &[u8]) -> Result<(), AllocError>
    requires { IsInRange 1 16 (length bytes.now) }
    ensures text { OnOk result (string_bytes text.new ≡ string_bytes text.old
        ++ spec.signed_text (length bytes.now) (number_from_digits 256 bytes.now)) }
    ensures unchanged { OnErr result (string_bytes text.new ≡ string_bytes text.old) }
{
    let number = big_endian_number(bytes);
    let half = 1u128 << (8 * bytes.len() - 1);
    if number < half {
        push_grouped(text, number, false)
    } else {
        push_grouped(text, half - (number - half), true)
    }
}
