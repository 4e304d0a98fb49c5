//! Reads the bytes of one item as a value (`Datum`), and the bytes of several items as the value of
//! an array. There is no value if the bytes are not items, or if a map in them has a key twice.
ghost use Rattle.std.specs.Prelude.{◌≡◌, ◌||◌, map, IfOk, OnOk, option_map};
ghost use Rattle.cbor_diag.specs.View.{view as item_view};
ghost use Rattle.cbor_grammar.specs.Embedded.{sequence};
ghost use Rattle.cbor_fits.specs.View.{view};
ghost use Rattle.cbor_fits.specs.Reads.{front_of, listed};
ghost use Rattle.cbor_fits.specs.Decoded.{decoded, decoded_sequence, items_have_key_twice};

mod datum;
mod keys;

use crate::value::Datum;
use cbor_cddl::Stop;
use cbor_diag::{DataItem, parse_bytes, parse_bytes_partial};
use cbor_grammar::Error;
use datum::Reader;
use std::alloc::Global;

/// The item that the bytes encode, if they encode one in which no map has a key twice.
#[inline(never)]
pub(crate) fn read_item(alloc: Global, bytes: &[u8]) -> Result<Option<Datum>, Stop>
    ensures { IfOk result (λ o. option_map view o ≡ decoded bytes.now) }
{
    match parse_bytes(alloc, bytes) {
        Ok(item) => {
            let mut reader = Reader::new(alloc);
            match reader.datum_of(&item) {
                Ok(_) if reader.key_twice => Ok(None),
                Ok(datum) => Ok(Some(datum)),
                Err(_) => Err(Stop::Memory),
            }
        }
        Err(error) => match error {
            Error::Memory => Err(Stop::Memory),
            _ => Ok(None),
        },
    }
}

/// The item at the front of the bytes, and the bytes after it, if one is there.
fn read_front(alloc: Global, bytes: &[u8]) -> Result<Option<(DataItem, &[u8])>, Stop>
    ensures { IfOk result (λ o. option_map (λ x. (item_view x.0, x.1.now)) o ≡ front_of bytes.now) }
{
    match parse_bytes_partial(alloc, bytes) {
        Ok(Some((item, used))) => Ok(Some((item, &bytes[used..]))),
        Ok(None) => Ok(None),
        Err(error) => match error {
            Error::Memory => Err(Stop::Memory),
            _ => Ok(None),
        },
    }
}

/// The items that the bytes encode one after the other, and the bytes after them.
fn read_items<'b>(
    alloc: Global,
    reader: &mut Reader,
    bytes: &'b [u8],
) -> Result<(Vec<Datum>, &'b [u8]), Stop>
    ensures values { IfOk result (λ x.
        (map view x.0.items, x.1.now) ≡ listed (sequence 1 bytes.now)) }
    ensures key_twice { OnOk result (reader.new.key_twice
        ≡ (reader.old.key_twice || items_have_key_twice (sequence 1 bytes.now).0)) }
{
    let mut data = Vec::new(alloc);
    let mut rest = bytes;
    'items: for _ in 0..bytes.len() {
        let Some((item, after)) = read_front(alloc, rest)? else {
            return Ok((data, rest));
        };
        match reader.datum_of(&item) {
            Ok(datum) => data.push(datum)?,
            Err(_) => return Err(Stop::Memory),
        }
        rest = after;
    }
    Ok((data, rest))
}

/// The array of the items that the bytes encode one after the other, if no map in them has a key
/// twice.
#[inline(never)]
pub(crate) fn read_sequence(alloc: Global, bytes: &[u8]) -> Result<Option<Datum>, Stop>
    ensures { IfOk result (λ o. option_map view o ≡ decoded_sequence bytes.now) }
{
    let mut reader = Reader::new(alloc);
    let (data, rest) = read_items(alloc, &mut reader, bytes)?;
    if reader.key_twice {
        return Ok(None);
    }
    if rest.is_empty() {
        Ok(Some(Datum::Array(data)))
    } else {
        Ok(None)
    }
}
