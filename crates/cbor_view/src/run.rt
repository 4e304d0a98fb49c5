//! `run` runs `cbor_view FROM TO`: reads all input, converts the one item, and writes the output,
//! or returns why it cannot. It takes any reader and writer.
ghost use Rattle.std.specs.Prelude.{◌≡◌, ℕ, ◌+◌, ◌<◌, ◌≤◌, List, length, take, drop, vec_len};
ghost use Rattle.std.specs.Prelude.{Ok, Err, IfOk, IfErr, OnOk, OnErr, ◌⊎◌};
ghost use Rattle.std.specs.Io.KnownBytes.{Consumes};
ghost use Rattle.cbor_grammar.specs.declared.error.Error.TheVariants as refusal;
ghost use Rattle.cbor_diag.specs.Output.{IsOutput};
ghost use Rattle.cbor_view.specs.Counting.{inner_of};
ghost use Rattle.cbor_view.specs.Running.{IsReadOut, NoFailure, OneFailure, ReadsAll};
ghost use Rattle.cbor_view.specs.Running.{Writes, WritesPart};
ghost use Rattle.cbor_view.specs.Running.{OnRefused, OnOutOfMemory, OnReadFailed, OnWriteFailed};

use crate::convert::convert;
use crate::counted::Counted;
use crate::error::ViewError;
use crate::words::{Source, To};
use std::alloc::{AllocError, Global};
use std::io::{Read, Write};

/// How many bytes of room are added for reads.
const BLOCK: usize = 64 * 1024;

/// Reads the input to its end, converts it, and writes the output. Nothing is written before all of
/// the input is read and converted. Any failed call ends the run, including an interrupted one.
pub fn run<R: Read, W: Write>(
    alloc: Global,
    from: Source,
    to: To,
    input: &mut Counted<R>,
    output: &mut Counted<W>,
) -> Result<(), ViewError>
    // All of the input was read, and its output was written and nothing else.
    ensures done { OnOk result ((all bytes : List ℕ)
        × ReadsAll R.remaining input.old input.new all
        × IsOutput from to all (Ok bytes)
        × Writes W.contents output.old output.new bytes) }

    // All of the input was read, and it is not an item, for this reason. Nothing was written.
    ensures refused { OnRefused result (λ e. (all : List ℕ)
        × ReadsAll R.remaining input.old input.new all
        × IsOutput from to all (Err e)
        × (output.new ≡ output.old)) }

    // Memory ran out. No read failed, and nothing was written.
    ensures out_of_memory { OnOutOfMemory result
        (NoFailure input.old input.new × (output.new ≡ output.old)) }

    // A read failed, and nothing was written.
    ensures read_failed { OnReadFailed result
        (OneFailure input.old input.new × (output.new ≡ output.old)) }

    // All of the input was read, and a write failed or took nothing. A prefix of the output was
    // written, and nothing else.
    ensures write_failed { OnWriteFailed result ((all bytes : List ℕ)
        × ReadsAll R.remaining input.old input.new all
        × IsOutput from to all (Ok bytes)
        × WritesPart W.contents output.old output.new bytes) }
{
    let all = read_to_end(alloc, input)?;
    let bytes = convert(alloc, from, to, all)?;
    write_whole(output, &bytes)?;
    Ok(())
}

/// Reads all that the reader has.
pub(crate) fn read_to_end<R: Read>(
    alloc: Global,
    input: &mut Counted<R>,
) -> Result<Vec<u8>, ViewError>
    ensures done { IfOk result (λ bytes.
        ReadsAll R.remaining input.old input.new bytes.items) }
    ensures out_of_memory { OnOutOfMemory result (NoFailure input.old input.new) }
    ensures read_failed { OnReadFailed result (OneFailure input.old input.new) }
    ensures error { IfErr result (λ e. (e ≡ ViewError.Read) ⊎ (e ≡ ViewError.Item refusal.Memory)) }
{
    let mut bytes = Vec::new(alloc);
    let mut filled = 0;
    loop {
        make_room(&mut bytes, filled)?;
        match read_after(input, bytes.as_mut_slice(), filled)? {
            0 => break,
            count => filled += count,
        }
    }
    bytes.truncate(filled);
    Ok(bytes)
}

/// Makes room for a read: extends the bytes if an earlier read filled all of them.
fn make_room(bytes: &mut Vec<u8>, filled: usize) -> Result<(), AllocError>
    requires { filled ≤ vec_len bytes.old }
    ensures filled { take filled bytes.new.items ≡ take filled bytes.old.items }
    ensures room { OnOk result (filled < vec_len bytes.new) }
{
    if filled == bytes.len() {
        bytes.resize(filled + BLOCK, 0)?;
    }
    Ok(())
}

/// Reads once into the unfilled part of the bytes.
fn read_after<R: Read>(
    input: &mut Counted<R>,
    bytes: &mut [u8],
    filled: usize,
) -> Result<usize, ViewError>
    requires { filled < length bytes.old }
    ensures filled { take filled bytes.new ≡ take filled bytes.old }
    ensures fits { IfOk result (λ count. filled + count ≤ length bytes.new) }
    ensures read { IfOk result (λ count. Consumes (R.remaining (inner_of input.old))
        (R.remaining (inner_of input.new)) (take count (drop filled bytes.new))) }
    ensures end { IfOk result (λ count. count ≡ 0 → IsReadOut R.remaining input.new) }
    ensures no_failure { OnOk result (NoFailure input.old input.new) }
    ensures failure { OnErr result (OneFailure input.old input.new) }
    ensures error { IfErr result (λ e. e ≡ ViewError.Read) }
{
    match input.read(&mut bytes[filled..]) {
        Ok(count) => Ok(count),
        Err(_) => Err(ViewError::Read),
    }
}

/// Writes all of the bytes. If a write fails, a prefix of them may have been written.
pub(crate) fn write_whole<W: Write>(output: &mut Counted<W>, bytes: &[u8]) -> Result<(), ViewError>
    ensures done { OnOk result (Writes W.contents output.old output.new bytes.now) }
    ensures write_failed { OnErr result
        (WritesPart W.contents output.old output.new bytes.now) }
    ensures error { IfErr result (λ e. e ≡ ViewError.Write) }
{
    let mut written = 0;
    while written < bytes.len() {
        match output.write(&bytes[written..]) {
            Ok(0) | Err(_) => return Err(ViewError::Write),
            Ok(count) => written += count,
        }
    }
    Ok(())
}
