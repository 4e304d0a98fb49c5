//! Encodes keys to compare them: in the core deterministic encoding (RFC 8949, section 4.2.1). Keys
//! that are arrays, maps or tags stay as they are.
#![tactic(auto, using(cbor_tokens::proofs::texts::Appending::appending_steps))]

ghost use Rattle.std.specs.Prelude.{◌≡◌, ◌++◌, IfOk, true, false};
ghost use Rattle.cbor_tokens.specs.Appends.{Appends};
ghost use Rattle.cbor_grammar.specs.Written.{encoded, encoded_atom, encoded_chunk};
ghost use Rattle.cbor_grammar.specs.mirror.MajorNumber.{major_number};
ghost use Rattle.cbor_diag.specs.View.{view};
ghost use Rattle.cbor_fits.specs.Decoded.{core_float, core_key, key_bytes, unstated};

use super::datum::{content_of, float_of};
use cbor_bytes::write::{push_float, push_head, push_simple};
use cbor_diag::DataItem;
use cbor_floats::EncodedFloat;
use cbor_grammar::major::Major;
use cbor_grammar::{Error, FloatWidth, IntegerWidth};
use std::alloc::{AllocError, Global};

/// Appends a float in the shortest width that has it.
fn push_core_float(out: &mut Vec<u8>, float: EncodedFloat) -> Result<(), AllocError>
    ensures { Appends result out.old.items out.new.items (encoded_atom (core_float float)) }
{
    match float.shorter().unwrap_or(float) {
        EncodedFloat::Half(bits) => push_float(out, u64::from(bits), FloatWidth::Sixteen),
        EncodedFloat::Single(bits) => push_float(out, u64::from(bits), FloatWidth::ThirtyTwo),
        EncodedFloat::Double(bits) => push_float(out, bits, FloatWidth::SixtyFour),
    }
}

/// Appends a string of definite length.
fn push_string(out: &mut Vec<u8>, major: Major, content: &[u8]) -> Result<(), AllocError>
    ensures { Appends result out.old.items out.new.items
        (encoded_chunk (major_number major) (unstated content.now)) }
{
    push_head(out, major, content.len() as u64, IntegerWidth::Unknown)?;
    out.extend_from_slice(content)?;
    Ok(())
}

/// The bytes that encode a key as it is. A key that was read is well formed.
fn key_as_it_is(alloc: Global, key: &DataItem) -> cbor_grammar::Result<Vec<u8>>
    ensures { IfOk result (λ v. v.items ≡ encoded (view key.now)) }
{
    if key.is_well_formed() {
        key.to_bytes(alloc)
    } else {
        Err(Error::Head)
    }
}

/// Appends the bytes that a number, a string or a simple value is compared by as a key; `false` if
/// the key is none of these.
fn push_leaf_key(out: &mut Vec<u8>, alloc: Global, key: &DataItem) -> cbor_grammar::Result<bool>
    ensures leaf { IfOk result (λ is_leaf. is_leaf ≡ true
        → out.new.items ≡ out.old.items ++ key_bytes (view key.now)) }
    ensures other { IfOk result (λ is_leaf. is_leaf ≡ false
        → core_key (view key.now) ≡ view key.now) }
{
    let width = IntegerWidth::Unknown;
    match *key {
        DataItem::Integer { value, .. } => push_head(out, Major::Unsigned, value, width)?,
        DataItem::Negative { value, .. } => push_head(out, Major::Negative, value, width)?,
        DataItem::ByteString(ref string) => push_string(out, Major::Bytes, &string.content)?,
        DataItem::TextString(ref string) => {
            push_string(out, Major::Text, string.content.as_bytes())?;
        }
        DataItem::IndefiniteByteString(ref chunks) => {
            push_string(out, Major::Bytes, &content_of(alloc, chunks)?)?;
        }
        DataItem::IndefiniteTextString(ref chunks) => {
            push_string(out, Major::Text, &content_of(alloc, chunks)?)?;
        }
        DataItem::Float { bits, bitwidth } => push_core_float(out, float_of(bits, bitwidth))?,
        DataItem::Simple(simple) => push_simple(out, simple.0)?,
        DataItem::Array { .. } | DataItem::Map { .. } | DataItem::Tag { .. } => return Ok(false),
    }
    Ok(true)
}

/// The bytes that a key is compared by.
pub(super) fn key_bytes(alloc: Global, key: &DataItem) -> cbor_grammar::Result<Vec<u8>>
    ensures { IfOk result (λ v. v.items ≡ key_bytes (view key.now)) }
{
    let mut bytes = Vec::new(alloc);
    if push_leaf_key(&mut bytes, alloc, key)? {
        Ok(bytes)
    } else {
        key_as_it_is(alloc, key)
    }
}
