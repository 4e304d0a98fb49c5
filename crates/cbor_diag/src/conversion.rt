//! Converts an item from one form to another: bytes, hex with comments, or diagnostic notation.
//! `read_item` reads a `DataItem` from a form, and `write_item` writes one in a form.
//!
//! ```rust
//! use cbor_diag::{Source, To, convert};
//!
//! let text = convert(alloc, Source::Hex, To::Diag, b"82 01 02 # two numbers")?;
//! assert_eq!(rt; text.as_slice(), b"[1,2]\n".as_slice());
//! ```
ghost use Rattle.std.specs.Prelude.{◌≡◌, [], ◌∷◌, ◌++◌, Ok, Err, IfOk, IfErr};
ghost use Rattle.std.specs.String.{string_bytes};
ghost use Rattle.cbor_diag.specs.View.{view};
ghost use Rattle.cbor_grammar.specs.Facts.{IsWellFormed};
ghost use Rattle.cbor_grammar.specs.Answer.{RefusedSo};
ghost use Rattle.cbor_diag.specs.Output.{Reads, Refuses, output_of, IsOutput};

mod form;
mod front;

use crate::parse::{parse_bytes, parse_diag, parse_hex};
use crate::rewrite::{bytes_to_bytes, hex_to_bytes};
use crate::syntax::DataItem;
use cbor_dump::{bytes_to_hex, hex_to_hex};
use cbor_grammar::Error;
use cbor_notation_writer::{bytes_to_diag, bytes_to_diag_pretty, hex_to_diag, hex_to_diag_pretty};
pub use form::{Source, To};
pub use front::push_front;
use std::alloc::Global;

/// Reads one item from `input` in the form `from`, and returns it in the form `to`.
///
/// Returns the errors of `parse_bytes`, `parse_hex` or `parse_diag`. If hex or notation is not
/// UTF-8, returns `Utf8`.
pub fn convert(alloc: Global, from: Source, to: To, input: &[u8]) -> Result<Vec<u8>, Error>
    // The output of the item that the input encodes, or why the input is not an item.
    ensures ok { IfOk result (λ output. IsOutput from to input.now (Ok output.items)) }
    ensures refused { RefusedSo result (λ e. IsOutput from to input.now (Err e)) }
{
    match from {
        Source::Bytes => from_bytes(alloc, to, input),
        Source::Hex => from_hex(alloc, to, input),
        Source::Diag => {
            let item = read_item(alloc, from, input)?;
            write_item(alloc, to, &item, Vec::new(alloc))
        }
    }
}

/// Returns the output for an input in bytes. No item is built, unless the output is bytes and the
/// input has a simple value below 24 in a non-minimal encoding (`f8 00`).
fn from_bytes(alloc: Global, to: To, input: &[u8]) -> Result<Vec<u8>, Error>
    ensures ok { IfOk result (λ output. IsOutput Source.Bytes to input.now (Ok output.items)) }
    ensures refused { RefusedSo result (Refuses Source.Bytes input.now) }
{
    match to {
        To::Bytes => bytes_to_bytes(alloc, Vec::from_slice(alloc, input)?),
        To::Hex => Ok(bytes_to_hex(alloc, input)?.into_bytes()),
        To::Diag => ended_line(bytes_to_diag(alloc, input)?),
        To::Pretty => ended_line(bytes_to_diag_pretty(alloc, input)?),
    }
}

/// Returns the output for an input in hex. An item is built in the same cases.
fn from_hex(alloc: Global, to: To, input: &[u8]) -> Result<Vec<u8>, Error>
    ensures ok { IfOk result (λ output. IsOutput Source.Hex to input.now (Ok output.items)) }
    ensures refused { RefusedSo result (Refuses Source.Hex input.now) }
{
    let Ok(text) = str::from_utf8(input) else {
        return Err(Error::Utf8);
    };
    match to {
        To::Bytes => hex_to_bytes(alloc, text),
        To::Hex => Ok(hex_to_hex(alloc, text)?.into_bytes()),
        To::Diag => ended_line(hex_to_diag(alloc, text)?),
        To::Pretty => ended_line(hex_to_diag_pretty(alloc, text)?),
    }
}

/// Reads one item from `input` in the form `from`. Its errors are those of [`convert`].
pub fn read_item(alloc: Global, from: Source, input: &[u8]) -> Result<DataItem, Error>
    // The item that the input encodes, which is well formed, or why the input is not an item.
    ensures item { IfOk result (λ item. Reads from input.now (view item)) }
    ensures refused { RefusedSo result (Refuses from input.now) }
    ensures well_formed { IfOk result (λ item. IsWellFormed (view item)) }
{
    match from {
        Source::Bytes => parse_bytes(alloc, input),
        Source::Hex => match str::from_utf8(input) {
            Ok(text) => parse_hex(alloc, text),
            Err(_) => Err(Error::Utf8),
        },
        Source::Diag => match str::from_utf8(input) {
            Ok(text) => parse_diag(alloc, text),
            Err(_) => Err(Error::Utf8),
        },
    }
}

/// Returns the item in the form `to`, in the memory of `spare`. The bytes of `spare` are dropped. A
/// dump has memory of its own.
///
/// The item has to be well formed, as `DataItem::is_well_formed` checks. The only error is
/// `Memory`.
pub fn write_item(alloc: Global, to: To, item: &DataItem, spare: Vec<u8>) -> Result<Vec<u8>, Error>
    requires { IsWellFormed (view item.now) }
    ensures written { IfOk result (λ output. output.items ≡ output_of to (view item.now)) }
    ensures memory { IfErr result (λ e. e ≡ Error.Memory) }
{
    let mut output = spare;
    output.clear();
    match to {
        To::Bytes => {
            item.push_bytes(&mut output)?;
            Ok(output)
        }
        To::Hex => {
            drop(output);
            Ok(item.to_hex(alloc)?.into_bytes())
        }
        To::Diag => {
            let mut text = String::from_utf8(output).unwrap();
            item.push_diag(alloc, &mut text)?;
            ended_line(text)
        }
        To::Pretty => {
            let mut text = String::from_utf8(output).unwrap();
            item.push_diag_pretty(alloc, &mut text)?;
            ended_line(text)
        }
    }
}

/// Returns the bytes of a text and a line feed.
fn ended_line(text: String) -> Result<Vec<u8>, Error>
    ensures line { IfOk result (λ output. output.items ≡ string_bytes text ++ 10 ∷ []) }
    ensures memory { IfErr result (λ e. e ≡ Error.Memory) }
{
    let mut line = text.into_bytes();
    line.push(b'\n')?;
    Ok(line)
}
