//! `Reader`: makes the value of an item. It drops widths, joins chunks, puts the pairs of maps in
//! order, and notes whether a key stands twice.
ghost use Rattle.std.specs.Prelude.{◌≡◌, ◌||◌, [], false, map, IfOk, OnOk, string_bytes};
ghost use Rattle.std.specs.BTreeMap.{values};
ghost use Rattle.cbor_diag.specs.View.{view as item_view, items_view, pairs_view};
ghost use Rattle.cbor_fits.specs.View.{view};
ghost use Rattle.cbor_fits.specs.Rests.{pair_view};
ghost use Rattle.cbor_fits.specs.Reads.{datum_value, entry_of};
ghost use Rattle.cbor_fits.specs.Decoded.{float_of, content_of, in_order};
ghost use Rattle.cbor_fits.specs.Decoded.{has_key_twice, items_have_key_twice};
ghost use Rattle.cbor_fits.specs.Decoded.{pairs_have_key_twice, a_key_stands_twice};

use super::keys::key_bytes;
use crate::value::Datum;
use cbor_diag::DataItem;
use cbor_floats::EncodedFloat;
use cbor_grammar::strings::DefiniteString;
use cbor_grammar::{Error, FloatWidth, Result};
use std::alloc::Global;
use std::collections::BTreeMap;

/// A float by the bits of its width.
pub(crate) fn float_of(bits: u64, width: FloatWidth) -> EncodedFloat
    ensures { result ≡ float_of bits width }
{
    match width {
        FloatWidth::Sixteen => EncodedFloat::Half((bits % 0x1_0000) as u16),
        FloatWidth::ThirtyTwo => EncodedFloat::Single((bits % 0x1_0000_0000) as u32),
        FloatWidth::SixtyFour | FloatWidth::Unknown => EncodedFloat::Double(bits),
    }
}

/// The content of chunks, joined.
pub(crate) fn content_of<S: DefiniteString>(alloc: Global, chunks: &[S]) -> Result<Vec<u8>>
    ensures { IfOk result (λ v. v.items ≡ content_of (map S.chunk chunks.now)) }
{
    let mut content = Vec::new(alloc);
    'chunks: for chunk in chunks {
        content.extend_from_slice(chunk.content().as_bytes())?;
    }
    Ok(content)
}

/// The text of chunks, joined.
pub(crate) fn text_of<S: DefiniteString>(alloc: Global, chunks: &[S]) -> Result<String>
    ensures { IfOk result (λ s. string_bytes s ≡ content_of (map S.chunk chunks.now)) }
{
    match String::from_utf8(content_of(alloc, chunks)?) {
        Ok(text) => Ok(text),
        Err(_) => Err(Error::Utf8),
    }
}

/// The pairs of entries, in the order of their keys.
fn pairs_in(
    alloc: Global,
    entries: BTreeMap<Vec<u8>, (Datum, Datum)>,
) -> Result<Vec<(Datum, Datum)>>
    ensures { IfOk result (λ v. v.items ≡ values entries) }
{
    let mut pairs = Vec::with_capacity(alloc, entries.len())?;
    'pairs: for pair in entries.into_values() {
        pairs.push(pair)?;
    }
    Ok(pairs)
}

/// Makes values of items, and notes whether a map in them has a key twice.
#[derive(Drop)]
pub(crate) struct Reader {
    alloc: Global,
    pub(crate) key_twice: bool,
}

impl Reader {
    /// No item is read yet.
    pub(crate) fn new(alloc: Global) -> Reader
        ensures { result.key_twice ≡ false }
    {
        Reader {
            alloc,
            key_twice: false,
        }
    }

    /// The value of an item. The call recurses as deep as the item is nested.
    #[cycle(datum)]
    pub(crate) fn datum_of(&mut self, item: &DataItem) -> Result<Datum>
        ensures value { IfOk result (λ d. view d ≡ datum_value item.now) }
        ensures key_twice { OnOk result
            (self.new.key_twice ≡ (self.old.key_twice || has_key_twice (item_view item.now))) }
    {
        let alloc = self.alloc;
        match *item {
            DataItem::Integer { value, .. } => Ok(Datum::Unsigned(value)),
            DataItem::Negative { value, .. } => Ok(Datum::Negative(value)),
            DataItem::ByteString(ref string) => {
                Ok(Datum::Bytes(Vec::from_slice(alloc, &string.content)?))
            }
            DataItem::TextString(ref string) => {
                Ok(Datum::Text(String::from_str(alloc, string.content.as_str())?))
            }
            DataItem::IndefiniteByteString(ref chunks) => {
                Ok(Datum::Bytes(content_of(alloc, chunks)?))
            }
            DataItem::IndefiniteTextString(ref chunks) => Ok(Datum::Text(text_of(alloc, chunks)?)),
            DataItem::Array { ref content, .. } => Ok(Datum::Array(self.data_of(content)?)),
            DataItem::Map { ref content, .. } => Ok(Datum::Map(self.pairs_of(content)?)),
            DataItem::Tag { tag, ref value, .. } => {
                Ok(Datum::Tag(tag.0, Box::new(alloc, self.datum_of(value)?)?))
            }
            DataItem::Float { bits, bitwidth } => Ok(Datum::Float(float_of(
                bits, bitwidth,
            ).value())),
            DataItem::Simple(simple) => Ok(Datum::Simple(simple.0)),
        }
    }

    /// The values of items.
    #[cycle(datum)]
    fn data_of(&mut self, items: &Vec<DataItem>) -> Result<Vec<Datum>>
        ensures values { IfOk result (λ v. map view v.items ≡ map datum_value items.now.items) }
        ensures key_twice { OnOk result (self.new.key_twice
            ≡ (self.old.key_twice || items_have_key_twice (items_view items.now.items))) }
    {
        let mut data = Vec::with_capacity(self.alloc, items.len())?;
        'items: for item in items {
            data.push(self.datum_of(item)?)?;
        }
        Ok(data)
    }

    /// The values of keys with their values, in the order of the keys.
    #[cycle(datum)]
    fn pairs_of(&mut self, pairs: &Vec<(DataItem, DataItem)>) -> Result<Vec<(Datum, Datum)>>
        ensures values { IfOk result (λ v.
            map pair_view v.items ≡ in_order (map entry_of pairs.now.items)) }
        ensures key_twice { OnOk result (self.new.key_twice ≡ (self.old.key_twice
            || (pairs_have_key_twice (pairs_view pairs.now.items)
            || a_key_stands_twice [] (map entry_of pairs.now.items)))) }
    {
        let mut entries = BTreeMap::new(self.alloc);
        let mut is_known = false;
        'pairs: for (key, value) in pairs {
            let first = self.datum_of(key)?;
            let second = self.datum_of(value)?;
            let bytes = key_bytes(self.alloc, key)?;
            let old = entries.insert(bytes, (first, second))?;
            is_known = is_known | old.is_some();
        }
        self.key_twice = self.key_twice | is_known;
        let pairs = pairs_in(self.alloc, entries)?;
        Ok(pairs)
    }
}
