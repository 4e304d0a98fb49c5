//! Runs the test rows about tags, and returns each result as text.
//!
//! `tag_name` gives the name of a tag by its number, or `none`. `tags` gives the numbers of the
//! constants of `Tag`, and a line with those of `Simple`.

use crate::row::Row;
use cbor_grammar::{Simple, Tag};
use cbor_notes::tag_name;
use std::alloc::{AllocError, Global};

const TAGS: [Tag; 48] = [
    Tag::DATETIME,
    Tag::EPOCH_DATETIME,
    Tag::POSITIVE_BIGNUM,
    Tag::NEGATIVE_BIGNUM,
    Tag::DECIMAL_FRACTION,
    Tag::BIGFLOAT,
    Tag::ENCODED_BASE64URL,
    Tag::ENCODED_BASE64,
    Tag::ENCODED_BASE16,
    Tag::ENCODED_CBOR,
    Tag::SHAREABLE,
    Tag::SHARED_REF,
    Tag::URI,
    Tag::BASE64URL,
    Tag::BASE64,
    Tag::REGEX,
    Tag::MIME,
    Tag::UUID,
    Tag::IPV4,
    Tag::IPV6,
    Tag::ENCODED_CBOR_SEQ,
    Tag::TYPED_ARRAY_U8,
    Tag::TYPED_ARRAY_U16_BIG_ENDIAN,
    Tag::TYPED_ARRAY_U32_BIG_ENDIAN,
    Tag::TYPED_ARRAY_U64_BIG_ENDIAN,
    Tag::TYPED_ARRAY_U8_CLAMPED,
    Tag::TYPED_ARRAY_U16_LITTLE_ENDIAN,
    Tag::TYPED_ARRAY_U32_LITTLE_ENDIAN,
    Tag::TYPED_ARRAY_U64_LITTLE_ENDIAN,
    Tag::TYPED_ARRAY_I8,
    Tag::TYPED_ARRAY_I16_BIG_ENDIAN,
    Tag::TYPED_ARRAY_I32_BIG_ENDIAN,
    Tag::TYPED_ARRAY_I64_BIG_ENDIAN,
    Tag::TYPED_ARRAY_I16_LITTLE_ENDIAN,
    Tag::TYPED_ARRAY_I32_LITTLE_ENDIAN,
    Tag::TYPED_ARRAY_I64_LITTLE_ENDIAN,
    Tag::TYPED_ARRAY_F16_BIG_ENDIAN,
    Tag::TYPED_ARRAY_F32_BIG_ENDIAN,
    Tag::TYPED_ARRAY_F64_BIG_ENDIAN,
    Tag::TYPED_ARRAY_F128_BIG_ENDIAN,
    Tag::TYPED_ARRAY_F16_LITTLE_ENDIAN,
    Tag::TYPED_ARRAY_F32_LITTLE_ENDIAN,
    Tag::TYPED_ARRAY_F64_LITTLE_ENDIAN,
    Tag::TYPED_ARRAY_F128_LITTLE_ENDIAN,
    Tag::EPOCH_DATE,
    Tag::NETWORK_ADDRESS,
    Tag::DATE,
    Tag::SELF_DESCRIBE_CBOR,
];

const SIMPLE_VALUES: [Simple; 4] = [Simple::FALSE, Simple::TRUE, Simple::NULL, Simple::UNDEFINED];

/// What the call of a row gives; none if it is no call of this subject.
pub fn answer(alloc: Global, row: &Row) -> Result<Option<String>, AllocError> {
    match row.call {
        "tag_name" => Ok(Some(String::from_str(alloc, name_of(row.text()))?)),
        "tags" => Ok(Some(numbers(alloc)?)),
        _ => Ok(None),
    }
}

/// The name of the tag of a number.
fn name_of(number: &str) -> &'static str {
    match number.parse::<u64>() {
        Ok(number) => tag_name(number).unwrap_or("none"),
        Err(_) => "no number",
    }
}

/// The numbers of the tags, and those of the simple values.
fn numbers(alloc: Global) -> Result<String, AllocError> {
    let mut text = String::from_str(alloc, "tags")?;
    for tag in TAGS {
        text.push_str(format!(in alloc; " {}", tag.0)?.as_str())?;
    }
    text.push_str("\nsimple values")?;
    for simple in SIMPLE_VALUES {
        text.push_str(format!(in alloc; " {}", simple.0)?.as_str())?;
    }
    Ok(text)
}
