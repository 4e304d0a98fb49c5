//! `convert` returns the output of `cbor_view FROM TO` for a whole input, in memory.
ghost use Rattle.std.specs.Prelude.{Ok, Err, IfOk};
ghost use Rattle.cbor_diag.specs.Answer.{RefusedSo};
ghost use Rattle.cbor_diag.specs.Output.{IsOutput};

use cbor_diag::{Error, Source, To, bytes_to_bytes, read_item, write_item};
use std::alloc::Global;

/// Returns the output for an input. If both are bytes, the output is normally the input itself, in
/// its memory. From notation, an item is built, and its output is written in the memory of the
/// input if it can be: fresh memory takes longer.
///
/// The item is not dropped. Only the writing of the output follows, and freeing the item's many
/// small blocks takes long.
pub(crate) fn convert(alloc: Global, from: Source, to: To, input: Vec<u8>) -> Result<Vec<u8>, Error>
    ensures ok { IfOk result (λ output. IsOutput from to input.items (Ok output.items)) }
    ensures refused { RefusedSo result (λ e. IsOutput from to input.items (Err e)) }
{
    match (from, to) {
        (Source::Bytes, To::Bytes) => bytes_to_bytes(alloc, input),
        (Source::Diag, _) => from_notation(alloc, to, input),
        _ => cbor_diag::convert(alloc, from, to, &input),
    }
}

/// Converts an input in notation.
fn from_notation(alloc: Global, to: To, input: Vec<u8>) -> Result<Vec<u8>, Error>
    ensures ok { IfOk result (λ output. IsOutput Source.Diag to input.items (Ok output.items)) }
    ensures refused { RefusedSo result (λ e. IsOutput Source.Diag to input.items (Err e)) }
{
    let item = read_item(alloc, Source::Diag, &input)?;
    let output = write_item(alloc, to, &item, input);
    std::mem::forget(item);
    output
}
