//! Re-encodes floats and big numbers to the one form that rules leave them: a float with an integer
//! value to that integer, a NaN to `f97e00`, and a big number to an integer if it fits, or else
//! without leading zeros.
ghost use Rattle.std.specs.Prelude.{◌≡◌, ◌≤◌, ◌^◌, ◌++◌, IfOk, MatchOption, option_map};
ghost use Rattle.cbor_grammar.specs.Head.{FitsStated, shortest};
ghost use Rattle.cbor_grammar.specs.Written.{encoded_head};
ghost use Rattle.cbor_grammar.specs.mirror.MajorNumber.{major_number};
ghost use Rattle.cbor_floats.specs.Preferred.{FitsWidth};
ghost use Rattle.cbor_reencode.specs.Reduction.{big_endian, sized, without_zeros};
ghost use Rattle.cbor_reencode.specs.mirror.Numbers.{big_content, tagged_bytes, plain};
ghost use Rattle.cbor_reencode.specs.mirror.Numbers.{FitsNumber};
ghost use Rattle.cbor_reencode.specs.mirror.Numbers.{IsNumber, number_bytes};

use crate::encoder::Encoder;
use crate::scalars::{push_content, push_encoded};
use cbor_bytes::head::read_head;
use cbor_bytes::write::push_head;
use cbor_floats::EncodedFloat;
use cbor_grammar::IntegerWidth;
use cbor_grammar::argument::Argument;
use cbor_grammar::head::ItemHead;
use cbor_grammar::major::Major;
use cbor_grammar::strings::StringKind;
use cbor_rules::{ViolationKind, reduced_violation};
use std::alloc::AllocError;

/// What is written for a float.
#[derive(Clone, Copy)]
pub enum Reduced {
    /// An integer.
    Unsigned(u64),
    /// The integer -1 minus this number.
    Negative(u64),
    /// A float in its width.
    Float(EncodedFloat),
}

/// The integer of this sign and magnitude. -0 is 0.
fn sized(below: bool, size: u64) -> Reduced
    ensures is { plain result ≡ sized below size }
    ensures fits { FitsNumber result }
{
    if below && size > 0 {
        Reduced::Negative(size - 1)
    } else {
        Reduced::Unsigned(size)
    }
}

/// The number of these big-endian bytes, if it fits 64 bits.
fn number_of(digits: &[u8]) -> Option<u64>
    ensures { MatchOption result (2 ^ 64 ≤ big_endian 0 digits.now)
        (λ n. n ≡ big_endian 0 digits.now) }
{
    let mut number = 0u64;
    for digit in digits {
        number = number.checked_mul(256)?.checked_add(u64::from(*digit))?;
    }
    Some(number)
}

/// The bytes without the zero bytes at their front.
fn without_zeros(digits: &[u8]) -> &[u8]
    ensures { result.now ≡ without_zeros digits.now }
{
    let mut rest = digits;
    'zeros: loop {
        match rest {
            [0, after @ ..] => rest = after,
            _ => return rest,
        }
    }
}

/// Writes a head in its shortest width.
fn push_shortest(out: &mut Vec<u8>, major: Major, number: u64) -> Result<(), AllocError>
    ensures { IfOk result (λ x. out.new.items ≡ out.old.items
        ++ encoded_head (major_number major) number (shortest number)) }
{
    push_head(out, major, number, IntegerWidth::shortest(number))
}

/// Writes a float, or the integer that it is.
pub fn push_reduced(out: &mut Vec<u8>, number: Reduced) -> Result<(), AllocError>
    requires { FitsNumber number }
    ensures { IfOk result (λ x. out.new.items ≡ out.old.items ++ number_bytes number) }
{
    match number {
        Reduced::Unsigned(number) => push_shortest(out, Major::Unsigned, number),
        Reduced::Negative(number) => push_shortest(out, Major::Negative, number),
        Reduced::Float(float) => push_encoded(out, float),
    }
}

impl Encoder {
    /// What the rules make of a float: the integer that it equals, the one NaN, or the float in its
    /// width.
    pub fn reduced(self, float: EncodedFloat) -> Reduced
        requires { FitsWidth float }
        ensures { IsNumber self.rules float result }
    {
        if !self.rules.reduced_floats {
            return Reduced::Float(self.float(float));
        }
        let Some(kind) = reduced_violation(float) else {
            return Reduced::Float(self.float(float));
        };
        match kind {
            ViolationKind::IntegerFloat { negative, size, .. } => sized(negative, size),
            // Another NaN.
            _ => Reduced::Float(EncodedFloat::Half(0x7e00)),
        }
    }

    /// The content of a big number with this tag, if its re-encoded item is a definite-length byte
    /// string.
    fn big_content(self, tag: u64, item: &[u8]) -> Option<&[u8]>
        ensures { option_map (λ x. x.now) result ≡ big_content self.rules tag item.now }
    {
        if self.rules.big_numbers && (tag == 2 || tag == 3) {
            match read_head(item) {
                Ok((ItemHead::String(StringKind::Bytes, Argument::Number(..)), content)) => {
                    Some(content)
                }
                _ => None,
            }
        } else {
            None
        }
    }

    /// Writes a tag and its re-encoded item, or the integer that both stand for.
    pub fn push_tagged_item(
        self,
        out: &mut Vec<u8>,
        tag: u64,
        width: IntegerWidth,
        item: &[u8],
    ) -> Result<(), AllocError>
        requires { FitsStated width tag }
        ensures { IfOk result (λ x. out.new.items
            ≡ out.old.items ++ tagged_bytes self.rules tag width item.now) }
    {
        let Some(content) = self.big_content(tag, item) else {
            self.push_tag(out, tag, width)?;
            out.extend_from_slice(item)?;
            return Ok(());
        };
        if let Some(number) = number_of(content) {
            let major = if tag == 3 {
                Major::Negative
            } else {
                Major::Unsigned
            };
            return push_shortest(out, major, number);
        }
        let digits = without_zeros(content);
        let width_of_length = IntegerWidth::shortest(digits.len() as u64);
        self.push_tag(out, tag, width)?;
        push_content(out, StringKind::Bytes, digits, width_of_length)
    }
}
