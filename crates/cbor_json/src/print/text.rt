//! Writes strings in JSON, as values and in keys: texts with escapes, and byte strings as digits or
//! as a big number. Also decides whether a byte string is written as the item in it.
#![tactic(auto, using(cbor_tokens::proofs::texts::Appending::appending_steps))]

ghost use Rattle.std.specs.Prelude.{◌≡◌, ◌+◌, ◌≤◌, false, None};
ghost use Rattle.hex.specs.Hex.{encode_upper};
ghost use Rattle.cbor_tokens.specs.Escapes.{escaped_text};
ghost use Rattle.cbor_grammar.specs.declared.encoding.Encoding.TheVariants.{Base16};
ghost use Rattle.cbor_grammar.specs.declared.strings.StringKind.TheVariants.{Bytes};
ghost use Rattle.cbor_grammar.specs.mirror.StringView.{kind_of, borrowed_chunk};
ghost use Rattle.cbor_grammar.specs.Embedded.{embedded_at};
ghost use Rattle.cbor_grammar.specs.NotationText.{quoted};
ghost use Rattle.cbor_grammar.specs.WellFormed.{deepest, levels_left};
ghost use Rattle.cbor_tokens.specs.Appends.{AppendsText};
ghost use Rattle.cbor_json.specs.JsonLeaves.{in_quotes, twice_escaped, edn_string, string_at};
ghost use Rattle.cbor_json.specs.JsonLeaves.{digits_in, value_digits, is_big_tag};
ghost use Rattle.cbor_json.specs.JsonLeaves.{part_at, content_at as content_there};
ghost use Rattle.cbor_json.specs.JsonLeaves.{but_sequence as no_sequence};
ghost use Rattle.cbor_json.specs.JsonLeaves.{is_value as is_value_role};
ghost use Rattle.cbor_json.specs.JsonLeaves.{is_big as is_big_number, BigText};
ghost use Rattle.cbor_json.specs.JsonLeaves.{is_negative_tag, StringAt};
ghost use Rattle.cbor_notation_writer.specs.Dialect.{Writes};

use crate::digits::decimal;
use crate::print::place::{JsonPlace, Role};
use base64::engine::general_purpose::{STANDARD, URL_SAFE_NO_PAD};
use cbor_bytes::quoted::push_quoted;
use cbor_bytes::skip::after_front;
use cbor_grammar::IntegerWidth;
use cbor_grammar::encoding::Encoding;
use cbor_grammar::layout::Content;
use cbor_grammar::strings::StringContent;
use cbor_inside::content_under;
use cbor_marks::Kind;
use cbor_tokens::{push_escaped, push_hex};
use std::alloc::{AllocError, Global};

/// Whether this is no key, and no part of one.
fn is_value(role: Role) -> bool
    ensures { result ≡ is_value_role role }
{
    match role {
        Role::Key | Role::InKey => false,
        Role::Value | Role::Named => true,
    }
}

/// The same, but bytes in place of a sequence of items, which is no value of JSON.
fn but_sequence(content: Content) -> Content
    ensures { result ≡ no_sequence content }
{
    match content {
        Content::Item => Content::Item,
        Content::Bytes | Content::Sequence => Content::Bytes,
    }
}

/// What the bytes of a byte string there are written as, if those that may be one item are.
pub(crate) fn content_at(place: &JsonPlace<'_>, bytes: &[u8]) -> Content
    ensures { result ≡ content_there place.now bytes.now }
{
    if place.style.embedded && is_value(place.role) {
        but_sequence(content_under(true, place.level, place.tag, bytes))
    } else {
        Content::Bytes
    }
}

/// Whether the bytes are one item of this level, all of them.
pub(crate) fn is_item(bytes: &[u8], level: u8) -> bool
    requires from { 1 ≤ level }
    requires to { level ≤ deepest + 1 }
    ensures { result ≡ false → embedded_at (levels_left level) bytes.now ≡ None }
{
    match after_front(bytes, level) {
        Some(rest) => rest.is_empty(),
        None => false,
    }
}

/// Whether the bytes right below this tag are a big number.
fn is_big_tag(tag: Option<u64>) -> bool
    ensures { result ≡ is_big_tag tag }
{
    matches!(tag, Some(2 | 3))
}

/// Whether they are a negative one.
fn is_negative_tag(tag: Option<u64>) -> bool
    ensures { result ≡ is_negative_tag tag }
{
    matches!(tag, Some(3))
}

/// Writes bytes as the digits that are asked for there.
fn push_digits(out: &mut String, bytes: &[u8], place: &JsonPlace<'_>) -> Result<(), AllocError>
    ensures { AppendsText result out.old out.new (digits_in place.now.encoding bytes.now) }
{
    match place.encoding {
        Encoding::Base16 => push_upper_hex(out, bytes, place.alloc),
        Encoding::Base64 => STANDARD.encode_string(bytes, out),
        Encoding::Base64Url => URL_SAFE_NO_PAD.encode_string(bytes, out),
    }
}

/// Writes bytes as hex digits with upper-case letters.
fn push_upper_hex(out: &mut String, bytes: &[u8], alloc: Global) -> Result<(), AllocError>
    ensures { AppendsText result out.old out.new (encode_upper bytes.now) }
{
    let digits = hex::encode_upper(alloc, bytes)?;
    out.push_str(digits.as_str())
}

/// Writes the bytes of a value as digits.
fn push_value_digits(
    out: &mut String,
    bytes: &[u8],
    place: &JsonPlace<'_>,
) -> Result<(), AllocError>
    ensures { AppendsText result out.old out.new
        (value_digits place.now.tag place.now.encoding bytes.now) }
{
    if is_negative_tag(place.tag) {
        out.push('~')?;
        URL_SAFE_NO_PAD.encode_string(bytes, out)
    } else if is_big_tag(place.tag) {
        URL_SAFE_NO_PAD.encode_string(bytes, out)
    } else {
        push_digits(out, bytes, place)
    }
}

/// Writes the bytes of a value as a JSON string of digits.
fn push_bytes(out: &mut String, bytes: &[u8], place: &JsonPlace<'_>) -> Result<(), AllocError>
    ensures { AppendsText result out.old out.new
        (in_quotes (value_digits place.now.tag place.now.encoding bytes.now)) }
{
    out.push('"')?;
    push_value_digits(out, bytes, place)?;
    out.push('"')
}

/// Writes bytes as a key, by their EDN.
fn push_bytes_key(out: &mut String, bytes: &[u8]) -> Result<(), AllocError>
    ensures { AppendsText result out.old out.new (in_quotes (quoted Base16 bytes.now)) }
{
    out.push('"')?;
    push_quoted(out, bytes, Encoding::Base16)?;
    out.push('"')
}

/// Writes a text as a JSON string.
fn push_text(out: &mut String, text: &str) -> Result<(), AllocError>
    ensures { AppendsText result out.old out.new (in_quotes (escaped_text text.now)) }
{
    out.push('"')?;
    push_escaped(out, text)?;
    out.push('"')
}

/// Writes the content of a text that is a part of a key.
fn push_twice_escaped(out: &mut String, text: &str, alloc: Global) -> Result<(), AllocError>
    ensures { AppendsText result out.old out.new (twice_escaped text.now) }
{
    let mut edn = String::new(alloc);
    push_escaped(&mut edn, text)?;
    push_escaped(out, edn.as_str())
}

/// Writes a text that is a part of a key.
fn push_edn_text(out: &mut String, text: &str, alloc: Global) -> Result<(), AllocError>
    ensures { AppendsText result out.old out.new
        (edn_string (kind_of (StringContent.Text text.entry))
        (borrowed_chunk IntegerWidth.Unknown (StringContent.Text text.entry))) }
{
    out.push_str("\\\"")?;
    push_twice_escaped(out, text, alloc)?;
    out.push_str("\\\"")
}

/// Whether a byte string there is a big number that is written by its digits.
fn is_big(place: &JsonPlace<'_>, bytes: &[u8]) -> bool
    ensures { result ≡ is_big_number place.now Bytes bytes.now }
{
    is_value(place.role) && is_big_tag(place.tag) && bytes.len() <= 1024
}

/// Writes a big number by its digits.
fn push_big(out: &mut String, bytes: &[u8], place: &JsonPlace<'_>) -> Result<(), AllocError>
    ensures { Writes result out.old out.new (BigText (is_negative_tag place.now.tag) bytes.now) }
{
    let negative = is_negative_tag(place.tag);
    let digits = decimal(place.alloc, bytes, negative)?;
    if negative {
        out.push('-')?;
    }
    out.push_str(digits.as_str())
}

/// Writes a string of definite length.
pub(super) fn push_string(
    out: &mut String,
    content: StringContent<'_>,
    width: IntegerWidth,
    place: &JsonPlace<'_>,
) -> Result<(), AllocError>
    ensures { Writes result out.old out.new (StringAt place.now
        (kind_of content.entry) (borrowed_chunk width content.entry)) }
{
    let start = out.len();
    match content {
        StringContent::Bytes(bytes) if is_big(place, bytes) => {
            let result = push_big(out, bytes, place);
            place.mark(Kind::Number, start, out);
            result
        }
        _ => {
            let result = push_plain_string(out, content, width, place);
            place.mark(Kind::Text, start, out);
            result
        }
    }
}

/// Writes a string of definite length that is no big number.
fn push_plain_string(
    out: &mut String,
    content: StringContent<'_>,
    width: IntegerWidth,
    place: &JsonPlace<'_>,
) -> Result<(), AllocError>
    ensures { AppendsText result out.old out.new (string_at place.now place.now.role
        (kind_of content.entry) (borrowed_chunk width content.entry)) }
{
    match content {
        StringContent::Bytes(bytes) => match place.role {
            Role::Key => push_bytes_key(out, bytes),
            Role::InKey => push_quoted(out, bytes, Encoding::Base16),
            Role::Value | Role::Named => push_bytes(out, bytes, place),
        },
        StringContent::Text(text) => match place.role {
            Role::InKey => push_edn_text(out, text, place.alloc),
            Role::Key | Role::Value | Role::Named => push_text(out, text),
        },
    }
}

/// Writes a chunk, without quotes.
pub(super) fn push_part(
    out: &mut String,
    content: StringContent<'_>,
    width: IntegerWidth,
    place: &JsonPlace<'_>,
) -> Result<(), AllocError>
    ensures { AppendsText result out.old out.new (part_at place.now place.now.role
        (kind_of content.entry) (borrowed_chunk width content.entry)) }
{
    match content {
        StringContent::Bytes(bytes) => match place.role {
            Role::Key | Role::InKey => push_hex(out, bytes),
            Role::Value | Role::Named => push_digits(out, bytes, place),
        },
        StringContent::Text(text) => match place.role {
            Role::InKey => push_twice_escaped(out, text, place.alloc),
            Role::Key | Role::Value | Role::Named => push_escaped(out, text),
        },
    }
}
