//! `run_seq` runs the filter `cbor_view` for a sequence of items (RFC 8742): reads all input,
//! converts each item, and writes the outputs in blocks. It takes any reader and writer.
ghost use Rattle.std.specs.Prelude.{◌≡◌, ℕ, ◌<◌, ◌≤◌, List, ◌++◌, length, drop, IfOk, OnOk, OnErr};
ghost use Rattle.cbor_diag.specs.Answer.{RefusedSo};
ghost use Rattle.cbor_view.specs.Running.{HadAll, NoFailure, OneFailure, ReadsAll};
ghost use Rattle.cbor_view.specs.Running.{Writes, WritesPart, IfWriteFailed};
ghost use Rattle.cbor_view.specs.Running.{OnRefused, OnOutOfMemory, OnReadFailed, OnWriteFailed};
ghost use Rattle.cbor_view.specs.Sequence.{IsOutputOfFirst, IsOutputOfAll, IsOutputBefore};
ghost use Rattle.cbor_view.specs.Sequence.{EndsTheItems};

use crate::counted::Counted;
use crate::error::ViewError;
use crate::run::{read_to_end, write_whole};
use crate::words::To;
use cbor_diag::{Error, push_front};
use std::alloc::Global;
use std::io::{Read, Write};

/// Outputs are collected until they are at least this many bytes long, and then written.
const BLOCK: usize = 64 * 1024;

/// Reads the input to its end, converts its items from the front, and writes their outputs, in
/// order and in blocks. Any failed call ends the run, including an interrupted one.
///
/// If what follows the items is not an item, the run ends with `ViewError::Item` and the reason:
/// `CutShort` if the input is truncated, otherwise the first error from the left. If memory runs
/// out at an item, the reason is `Memory`. In both cases the outputs of all items before are
/// written first. If that write fails, the run ends with `ViewError::Write`.
pub fn run_seq<R: Read, W: Write>(
    alloc: Global,
    to: To,
    input: &mut Counted<R>,
    output: &mut Counted<W>,
) -> Result<(), ViewError>
    // All of the input was read, and it is items alone. The output of each was written, in order,
    // and nothing else.
    ensures done { OnOk result ((all bytes : List ℕ)
        × ReadsAll R.remaining input.old input.new all
        × IsOutputOfAll to all bytes
        × Writes W.contents output.old output.new bytes) }

    // All of the input was read, and what follows its items is not an item, for this reason. The
    // output of all items before was written.
    ensures refused { OnRefused result (λ e. (all bytes : List ℕ)
        × ReadsAll R.remaining input.old input.new all
        × IsOutputBefore to all e bytes
        × Writes W.contents output.old output.new bytes) }

    // Memory ran out. No read failed, and the complete outputs of some first items were written.
    // Nothing else was written.
    ensures out_of_memory { OnOutOfMemory result ((all bytes rest : List ℕ)
        × HadAll R.remaining input.old all × NoFailure input.old input.new
        × IsOutputOfFirst to all bytes rest
        × Writes W.contents output.old output.new bytes) }

    // A read failed, and nothing was written.
    ensures read_failed { OnReadFailed result
        (OneFailure input.old input.new × (output.new ≡ output.old)) }

    // All of the input was read, and a write failed or took nothing. A proper prefix of the
    // output of some first items was written.
    ensures write_failed { OnWriteFailed result ((all bytes rest : List ℕ)
        × ReadsAll R.remaining input.old input.new all
        × IsOutputOfFirst to all bytes rest
        × WritesPart W.contents output.old output.new bytes) }
{
    let all = read_to_end(alloc, input)?;
    write_items(alloc, to, &all, output)
}

/// Writes the outputs of the items, in order, from the front of the bytes to their end.
fn write_items<W: Write>(
    alloc: Global,
    to: To,
    bytes: &[u8],
    output: &mut Counted<W>,
) -> Result<(), ViewError>
    ensures done { OnOk result ((written : List ℕ) × IsOutputOfAll to bytes.now written
        × Writes W.contents output.old output.new written) }
    ensures refused { OnRefused result (λ e. (written : List ℕ)
        × IsOutputBefore to bytes.now e written
        × Writes W.contents output.old output.new written) }
    ensures out_of_memory { OnOutOfMemory result ((written rest : List ℕ)
        × IsOutputOfFirst to bytes.now written rest
        × Writes W.contents output.old output.new written) }
    ensures write_failed { OnWriteFailed result ((written rest : List ℕ)
        × IsOutputOfFirst to bytes.now written rest
        × WritesPart W.contents output.old output.new written) }
    ensures reads_nothing { OnReadFailed result ⊥ }
{
    let mut block = Vec::new(alloc);
    let mut rest = bytes;
    'sequence: while !rest.is_empty() {
        let (used, end) = write_block(alloc, to, rest, &mut block, output);
        end?;
        rest = &rest[used..];
    }
    Ok(())
}

/// Writes the outputs of items from the front of the bytes, until a block is full or no item
/// follows. The block is built in the memory of `block`. Returns how many bytes these items take,
/// and the error that ends the sequence after them, if any.
fn write_block<W: Write>(
    alloc: Global,
    to: To,
    bytes: &[u8],
    block: &mut Vec<u8>,
    output: &mut Counted<W>,
) -> (usize, Result<(), ViewError>)
    requires { 0 < length bytes.now }
    ensures used { result.0 ≤ length bytes.now }
    ensures some { OnOk result.1 (1 ≤ result.0) }
    ensures written { (written : List ℕ)
        × IsOutputOfFirst to bytes.now written (drop result.0 bytes.now)
        × IfWriteFailed result.1 (WritesPart W.contents output.old output.new written)
        (Writes W.contents output.old output.new written) }
    ensures refused { OnRefused result.1 (EndsTheItems (drop result.0 bytes.now)) }
    ensures reads_nothing { OnReadFailed result.1 ⊥ }
{
    let (used, end) = fill(alloc, to, bytes, block);
    let end = match write_whole(output, block) {
        Ok(()) => end.map_err(ViewError::Item),
        Err(error) => Err(error),
    };
    (used, end)
}

/// Fills a block with the outputs of items from the front of the bytes, until it is full or no item
/// follows. Returns how many bytes these items take, and why no item follows them, if none does.
fn fill(alloc: Global, to: To, bytes: &[u8], block: &mut Vec<u8>) -> (usize, Result<(), Error>)
    requires { 0 < length bytes.now }
    ensures used { result.0 ≤ length bytes.now }
    ensures some { OnOk result.1 (1 ≤ result.0) }
    ensures output { IsOutputOfFirst to bytes.now block.new.items (drop result.0 bytes.now) }
    ensures refused { RefusedSo result.1 (EndsTheItems (drop result.0 bytes.now)) }
{
    block.clear();
    let mut used = 0;
    'items: while used < bytes.len() && block.len() < BLOCK {
        match append_first(alloc, to, &bytes[used..], block) {
            Ok(count) => used += count,
            Err(error) => return (used, Err(error)),
        }
    }
    (used, Ok(()))
}

/// Appends the output of the item at the front of the bytes, and returns how many bytes the item
/// takes. After an error the block is unchanged.
fn append_first(alloc: Global, to: To, bytes: &[u8], block: &mut Vec<u8>) -> Result<usize, Error>
    requires { 0 < length bytes.now }
    ensures used { IfOk result (λ used. (1 ≤ used) × (used ≤ length bytes.now)) }
    ensures output { IfOk result (λ used. (written : List ℕ)
        × IsOutputOfFirst to bytes.now written (drop used bytes.now)
        × (block.new.items ≡ block.old.items ++ written)) }
    ensures refused { RefusedSo result (EndsTheItems bytes.now) }
    ensures unchanged { OnErr result (block.new.items ≡ block.old.items) }
{
    let Some(used) = push_front(alloc, to, bytes, block)? else {
        return Err(Error::CutShort);
    };
    Ok(used)
}
