//! The C calls `cbor_diag_named`, which writes an item in EDN with names and notes, and
//! `cbor_diag_paths`, which writes a line with path and EDN for each item that holds no other.
ghost use Rattle.std.specs.Prelude.{◌≡◌, ℕ, List, [], length, IfOk, IfErr};
ghost use Rattle.cbor_diag_c.specs.Answers.{IfLength, IfError, written};
ghost use Rattle.cbor_diag_c.specs.Names.{IsOneItem, IsNoItemOrMemory, IsNotShown};

use crate::answer::{refused, write};
use crate::faults::in_bytes;
use crate::names::{NO_TYPE, type_of};
use cbor_edn_writer::EdnStyle;
use cbor_grammar::Error;
use cbor_inside::Inside;
use cbor_inspect::{End, Form, Naming, Show, show_items};
use cbor_names::known_names;
use cbor_places::{Leaves, Piece};
use std::alloc::Global;

/// Returns an item in EDN over several lines, with names and notes, and a line feed.
fn named(alloc: Global, naming: Naming<'_>, input: &[u8]) -> Result<Vec<u8>, Error>
    ensures item { IfOk result (λ _. IsOneItem input.now) }
    ensures refused { IfErr result (IsNoItemOrMemory input.now) }
{
    if let Some((error, _)) = in_bytes(input) {
        return Err(error);
    }
    let mut show = Show::new(Form::Pretty);
    show.names = Some(naming);
    show.one = true;
    let mut text = Vec::new(alloc);
    match show_items(&show, input, &mut text).end {
        End::Full => Ok(text),
        _ => Err(Error::Memory),
    }
}

/// Writes an item in EDN over several lines, as `cborcat` shows it: with names, by the tables that
/// come with the library, and with notes as comments. A line feed ends it. `kind` is the name of
/// the type of the item, or empty if that is not known.
///
/// Returns the length of the text, and writes as much of it as fits `output`. Otherwise returns
/// minus the number of the error, and nothing is written: that for which the input is no item,
/// `Memory`, or 17 for a name of no type.
#[unsafe(no_mangle)]
pub extern "C" fn cbor_diag_named(
    alloc: Global,
    input: &[u8],
    kind: &[u8],
    output: &mut [u8],
) -> i64
    ensures item { IfLength result (λ n. IsOneItem input.now) }
    ensures text { IfLength result (λ n. (text : List ℕ)
        × (n ≡ length text) × (output.new ≡ written text output.old)) }
    ensures error { IfError result (IsNotShown input.now kind.now) }
    ensures unchanged { IfError result (λ n. output.new ≡ output.old) }
{
    let Ok(names) = known_names(alloc) else {
        return refused(Error::Memory);
    };
    let mut outer = None;
    if !kind.is_empty() {
        outer = type_of(&names, kind);
        if outer.is_none() {
            return NO_TYPE;
        }
    }
    match named(alloc, Naming::new(&names, outer), input) {
        Ok(text) => write(&text, output),
        Err(error) => refused(error),
    }
}

/// Returns the lines of an item: of each item in it that holds no other the path, and EDN.
fn lines(alloc: Global, input: &[u8]) -> Result<String, Error>
    ensures item { IfOk result (λ _. IsOneItem input.now) }
    ensures refused { IfErr result (IsNoItemOrMemory input.now) }
{
    if let Some((error, _)) = in_bytes(input) {
        return Err(error);
    }
    let items = Piece {
        begins: 0,
        bytes: input,
    };
    let mut leaves = Leaves::new(alloc, items, EdnStyle::LINE, Inside::TAGGED);
    let mut lines = String::new(alloc);
    for _ in 0..u64::MAX {
        if leaves.is_done() {
            break;
        }
        let mut block = String::new(alloc);
        if leaves.push_block(&mut block).is_err() || lines.push_str(&block).is_err() {
            return Err(Error::Memory);
        }
    }
    Ok(lines)
}

/// Writes a line for each item in an item that holds no other, as `cborcat -t paths` does: its
/// path, two blanks, and EDN.
///
/// Returns the length of the lines, and writes as much of them as fits `output`. Otherwise returns
/// minus the number of the error for which the input is no item, or of `Memory`, and nothing is
/// written.
#[unsafe(no_mangle)]
pub extern "C" fn cbor_diag_paths(alloc: Global, input: &[u8], output: &mut [u8]) -> i64
    ensures item { IfLength result (λ n. IsOneItem input.now) }
    ensures text { IfLength result (λ n. (text : List ℕ)
        × (n ≡ length text) × (output.new ≡ written text output.old)) }
    ensures error { IfError result (IsNotShown input.now []) }
    ensures unchanged { IfError result (λ n. output.new ≡ output.old) }
{
    match lines(alloc, input) {
        Ok(text) => write(text.as_bytes(), output),
        Err(error) => refused(error),
    }
}
