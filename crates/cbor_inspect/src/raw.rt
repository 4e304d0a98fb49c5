//! `raw_content` returns the content of a byte or text string, with chunks joined and tags left out
//! (`cborcat -t raw`).
ghost use Rattle.std.specs.Prelude.{◌≡◌, IfOk, IfErr, option_map, map, Some};
ghost use Rattle.std.specs.List.{flat_map};
ghost use Rattle.cbor_grammar.specs.Item.{Chunk, Item};
ghost use Rattle.cbor_grammar.specs.Facts.{IsItem};
ghost use Rattle.cbor_diag.specs.View.{view};
ghost use Rattle.cbor_grammar.specs.Strings.{byte_chunk, text_chunk};
ghost use Rattle.cbor_inspect.specs.Raw.{raw_content as content_of, untagged, IsNoRaw};

use cbor_diag::{DataItem, parse_bytes};
use cbor_grammar::{ByteString, Error, TextString};
use std::alloc::{AllocError, Global};

/// Why bytes have no raw content.
#[derive(Clone, Copy, PartialEq, Eq, Debug)]
pub enum RawError {
    /// They are not an item, or memory ran out.
    Cbor(Error),
    /// They are an item that is no byte or text string.
    NoString,
}

impl From<AllocError> for RawError {
    ghost use Rattle.std.specs.Prelude.{◌≡◌};
    ghost use Rattle.cbor_grammar.specs.declared.error.Error.TheVariants.{Memory};
    ghost use Rattle.cbor_inspect.specs.declared.raw.RawError.TheVariants.{Cbor};

    ghost from_gives = { λ _ x. x ≡ Cbor Memory };

    fn from(_refused: AllocError) -> RawError {
        RawError::Cbor(Error::Memory)
    }
}

/// The item below all tags.
fn untagged(item: &DataItem) -> &DataItem
    ensures { view result.now ≡ untagged (view item.now) }
{
    match item {
        DataItem::Tag { value, .. } => untagged(value),
        _ => item,
    }
}

/// The contents of the chunks of a byte string, one after the other.
fn joined_bytes(alloc: Global, chunks: &[ByteString]) -> Result<Vec<u8>, AllocError>
    ensures { IfOk result (λ v. v.items
        ≡ flat_map (λ (c : Chunk). c.bytes) (map byte_chunk chunks.now)) }
{
    let mut joined = Vec::new(alloc);
    'chunks: for chunk in chunks {
        joined.extend_from_slice(&chunk.content)?;
    }
    Ok(joined)
}

/// The contents of the chunks of a text, one after the other.
fn joined_texts(alloc: Global, chunks: &[TextString]) -> Result<Vec<u8>, AllocError>
    ensures { IfOk result (λ v. v.items
        ≡ flat_map (λ (c : Chunk). c.bytes) (map text_chunk chunks.now)) }
{
    let mut joined = Vec::new(alloc);
    'chunks: for chunk in chunks {
        joined.extend_from_slice(chunk.content.as_bytes())?;
    }
    Ok(joined)
}

/// The content of an item, if it is a string below its tags.
fn content(alloc: Global, item: &DataItem) -> Result<Option<Vec<u8>>, AllocError>
    ensures { IfOk result (λ found. option_map (λ x. x.items) found
        ≡ content_of (view item.now)) }
{
    match untagged(item) {
        DataItem::ByteString(string) => Ok(Some(Vec::from_slice(alloc, &string.content)?)),
        DataItem::TextString(text) => { Ok(Some(Vec::from_slice(alloc, text.content.as_bytes())?)) }
        DataItem::IndefiniteByteString(chunks) => Ok(Some(joined_bytes(alloc, chunks)?)),
        DataItem::IndefiniteTextString(chunks) => Ok(Some(joined_texts(alloc, chunks)?)),
        _ => Ok(None),
    }
}

/// Returns the content of the byte or text string that the bytes are: its bytes, those of its
/// chunks joined, and nothing else (RFC 8949 section 3.1). Tags above the string are left out.
///
/// Returns the errors of `parse_bytes`, or `NoString` of an item that is no string.
///
/// ```rust
/// use cbor_inspect::raw_content;
///
/// let content = raw_content(alloc, b"\x7f\x61a\x62bc\xff")?;
/// assert_eq!(rt; content.as_slice(), b"abc".as_slice());
/// assert!(rt; raw_content(alloc, b"\xa0").is_err());
/// ```
pub fn raw_content(alloc: Global, bytes: &[u8]) -> Result<Vec<u8>, RawError>
    // The content of the item that the bytes encode, if it is a string.
    ensures ok { IfOk result (λ v. (i : Item) × IsItem bytes.now i
        × (content_of i ≡ Some v.items)) }

    // Each error, only if it is true.
    ensures refused { IfErr result (IsNoRaw bytes.now) }
{
    let item = match parse_bytes(alloc, bytes) {
        Ok(item) => item,
        Err(error) => return Err(RawError::Cbor(error)),
    };
    match content(alloc, &item)? {
        Some(content) => Ok(content),
        None => Err(RawError::NoString),
    }
}
