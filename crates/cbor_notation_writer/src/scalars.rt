//! Writes numbers, strings, floats and simple values in notation (RFC 7049 section 6). Each kind
//! has its own function, which is not inlined into the `match` on the kind of an item.
#![tactic(auto, using(cbor_tokens::proofs::texts::Appending::appending_steps))]

ghost use Rattle.std.specs.Prelude.{◌≡◌, ◌+◌, ◌++◌, codes};
ghost use Rattle.std.specs.Fmt.{decimal};
ghost use Rattle.std.specs.List.{list_any};
ghost use Rattle.cbor_tokens.specs.Appends.{AppendsText};
ghost use Rattle.cbor_grammar.specs.mirror.StringView.{bytes_of, kind_of};
ghost use Rattle.cbor_tokens.specs.Ascii.{quote};
ghost use Rattle.cbor_tokens.specs.Token.{in_quotes, is_special};
ghost use Rattle.cbor_grammar.specs.WellFormed.{FitsFloat};
ghost use Rattle.cbor_grammar.specs.NotationText.{indicator, number};
ghost use Rattle.cbor_grammar.specs.NotationText.{text, string_text, float_text, simple_text};

use cbor_bytes::quoted::push_quoted;
use cbor_grammar::encoding::Encoding;
use cbor_grammar::strings::StringContent;
use cbor_grammar::{FloatWidth, IntegerWidth, Simple};
use cbor_tokens::push_hex;
use std::alloc::AllocError;

/// Writes the encoding indicator of a number of this width.
fn push_indicator(out: &mut String, width: IntegerWidth) -> Result<(), AllocError>
    ensures { AppendsText result out.old out.new (indicator width) }
{
    let digit = match width {
        IntegerWidth::Unknown | IntegerWidth::Zero => return Ok(()),
        IntegerWidth::Eight => '0',
        IntegerWidth::Sixteen => '1',
        IntegerWidth::ThirtyTwo => '2',
        IntegerWidth::SixtyFour => '3',
    };
    out.push('_')?;
    out.push(digit)
}

/// Writes a number in decimal digits.
#[tactic(auto, using(crate::proofs::text::Scalars::decimal_steps))]
fn push_decimal(out: &mut String, value: u64) -> Result<(), AllocError>
    ensures { AppendsText result out.old out.new (decimal value) }
{
    if value < 10 {
        return out.push(char::from(b'0' + value as u8));
    }
    let mut digits = itoa::Buffer::new();
    out.push_str(digits.format(value))
}

/// Writes a number or a tag.
#[inline(never)]
pub fn push_number(out: &mut String, value: u64, width: IntegerWidth) -> Result<(), AllocError>
    ensures { AppendsText result out.old out.new (number value width) }
{
    push_decimal(out, value)?;
    push_indicator(out, width)
}

/// Writes a negative integer, given by the encoded number `n`: the integer is `-1 - n`.
#[inline(never)]
pub fn push_negative(out: &mut String, value: u64, width: IntegerWidth) -> Result<(), AllocError>
    ensures { AppendsText result out.old out.new (codes "-" ++ number (value + 1) width) }
{
    out.push('-')?;
    match value.checked_add(1) {
        Some(number) => push_number(out, number, width),
        None => {
            let mut digits = itoa::Buffer::new();
            out.push_str(digits.format(u128::from(value) + 1))?;
            push_indicator(out, width)
        }
    }
}

/// Writes a text between quotes, with a backslash before each quote and each backslash.
pub fn push_text(out: &mut String, content: &str) -> Result<(), AllocError>
    ensures { AppendsText result out.old out.new (text content.now) }
{
    out.push('"')?;
    push_escaped(out, content)?;
    out.push('"')
}

/// Writes a string of definite length.
pub(crate) fn push_string(
    out: &mut String,
    content: StringContent<'_>,
    encoding: Encoding,
) -> Result<(), AllocError>
    ensures { AppendsText result out.old out.new
        (string_text (kind_of content.entry) encoding (bytes_of content.entry)) }
{
    match content {
        StringContent::Bytes(bytes) => push_quoted(out, bytes, encoding),
        StringContent::Text(text) => push_text(out, text),
    }
}

/// Whether a backslash escapes any byte of the text. The loop always runs to the end of the text,
/// so that the compiler can test many bytes at once.
fn has_escaped(content: &str) -> bool
    ensures { result ≡ list_any (is_special quote) content.now }
{
    let mut found = 0;
    'bytes: for byte in content.as_bytes() {
        found = u8::from(is_escaped(*byte)).max(found);
    }
    found > 0
}

/// Whether a backslash escapes this byte in a text.
fn is_escaped(byte: u8) -> bool
    ensures { result ≡ is_special quote byte }
{
    byte == b'"' || byte == b'\\'
}

/// Writes a text with a backslash before each quote and each backslash. Most texts have none of
/// these.
#[tactic(auto, using(crate::proofs::text::Scalars::escaped_steps))]
fn push_escaped(out: &mut String, content: &str) -> Result<(), AllocError>
    ensures { AppendsText result out.old out.new (in_quotes quote content.now) }
{
    if !has_escaped(content) {
        return out.push_str(content);
    }
    let mut done = 0;
    'bytes: for (place, byte) in content.as_bytes().iter().enumerate() {
        if is_escaped(*byte) {
            out.push_str(&content[done..place])?;
            out.push('\\')?;
            done = place;
        }
    }
    out.push_str(&content[done..])
}

/// Writes a float by its bits, as hex digits of its width; an unstated width has 64 bits.
#[inline(never)]
pub fn push_float(out: &mut String, bits: u64, width: FloatWidth) -> Result<(), AllocError>
    requires { FitsFloat width bits }
    ensures { AppendsText result out.old out.new (float_text bits width) }
{
    out.push_str("float'")?;
    match width {
        FloatWidth::Sixteen => push_hex(out, &(bits as u16).to_be_bytes())?,
        FloatWidth::ThirtyTwo => push_hex(out, &(bits as u32).to_be_bytes())?,
        FloatWidth::Unknown | FloatWidth::SixtyFour => push_hex(out, &bits.to_be_bytes())?,
    }
    out.push('\'')
}

/// Writes a simple value, by its name if it has one.
#[inline(never)]
pub fn push_simple(out: &mut String, simple: Simple) -> Result<(), AllocError>
    ensures { AppendsText result out.old out.new (simple_text simple.0) }
{
    match simple {
        Simple::FALSE => out.push_str("false"),
        Simple::TRUE => out.push_str("true"),
        Simple::NULL => out.push_str("null"),
        Simple::UNDEFINED => out.push_str("undefined"),
        Simple(value) => {
            let mut digits = itoa::Buffer::new();
            out.push_str("simple(")?;
            out.push_str(digits.format(value))?;
            out.push(')')
        }
    }
}
