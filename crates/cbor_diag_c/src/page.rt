//! The C calls `cbor_diag_page`, which writes the lines of an HTML page that shows items beside
//! their bytes, and `cbor_diag_names_fault`, which writes what is wrong with a file of names.
//! `html_lines` makes the lines of one item for `cbor_diag_convert`.
ghost use Rattle.std.specs.Prelude.{◌≡◌, ◌≢◌, ℕ, List, [], length, IfOk, IfErr, MatchResult};
ghost use Rattle.cbor_grammar.specs.Answer.{RefusedSo};
ghost use Rattle.cbor_grammar.specs.Facts.{IsItem, IsNoItem};
ghost use Rattle.cbor_grammar.specs.Item.{Item};
ghost use Rattle.cbor_grammar.specs.Written.{resolve};
ghost use Rattle.cbor_page.specs.Markup.{IsMarkup};
ghost use Rattle.cbor_diag_c.specs.Answers.{IfLength, IfError, written};
ghost use Rattle.cbor_diag_c.specs.Forms.{IsHtmlLines};
ghost use Rattle.cbor_diag_c.specs.Pages.{IsNoPage};

use crate::answer::{refused, write};
use crate::faults::in_bytes;
use crate::form::NO_FORM;
use crate::names::{NO_TYPE, type_of};
use cbor_grammar::Error;
use cbor_inspect::{Form, Naming, Show};
use cbor_marks::Marks;
use cbor_names::{Fault, FileError, Names, known_names, with_file};
use cbor_page::{PathStart, push_data, push_items};
use cbor_places::Piece;
use std::alloc::Global;

/// Returns the lines of the item that the bytes encode.
fn item_lines(alloc: Global, bytes: &[u8]) -> Result<Vec<u8>, Error>
    ensures ok { IfOk result (λ lines. (i : Item) × IsItem bytes.now i
        × IsHtmlLines i lines.items) }
    ensures refused { RefusedSo result (IsNoItem bytes.now) }
{
    if let Some((error, _)) = in_bytes(bytes) {
        return Err(error);
    }
    let marks = Marks::new(alloc);
    let mut show = Show::new(Form::Pretty);
    show.marks = Some(&marks);
    let item = Piece { begins: 0, bytes };
    let outermost = PathStart {
        number: 0,
        path: "",
    };
    let mut lines = Vec::new(alloc);
    match push_items(&mut lines, &show, item, outermost) {
        Ok((shown, _)) if shown.used == bytes.len() => Ok(lines),
        _ => Err(Error::Memory),
    }
}

/// Returns the lines of a page for the item that the bytes encode: with notes, and without names.
pub(crate) fn html_lines(alloc: Global, bytes: &[u8]) -> Result<Vec<u8>, Error>
    ensures ok { IfOk result (λ lines. (i : Item) × IsItem bytes.now i
        × IsHtmlLines (resolve i) lines.items) }
    ensures refused { RefusedSo result (IsNoItem bytes.now) }
    ensures every_item { (i : Item) → IsItem bytes.now i → MatchResult result
        (λ lines. IsHtmlLines i lines.items) (λ e. e ≡ Error.Memory) }
{
    item_lines(alloc, bytes)
}

/// Why a text gives no tables of names.
#[derive(Clone, Copy)]
enum NamesError {
    Memory,
    Utf8,
    /// It is no file of names.
    File(FileError),
}

/// The tables that come with the library, and those of a file beside them.
fn tables_of(alloc: Global, file: &[u8]) -> Result<Names, NamesError>
    ensures { IfErr result (λ e. e ≢ NamesError.Memory → file.now ≢ []) }
{
    let Ok(known) = known_names(alloc) else {
        return Err(NamesError::Memory);
    };
    if file.is_empty() {
        return Ok(known);
    }
    let Ok(text) = str::from_utf8(file) else {
        return Err(NamesError::Utf8);
    };
    match with_file(alloc, known, text) {
        Ok(names) => Ok(names),
        Err(error) => Err(match error.fault {
            Fault::OutOfMemory => NamesError::Memory,
            _ => NamesError::File(error),
        }),
    }
}

/// What is returned for a file of names that has an error.
const WRONG_NAMES: i64 = -19;

/// The flags of `cbor_diag_page`: no names and notes, and the items in byte strings.
const NO_NOTES: u32 = 1;

const EMBEDDED: u32 = 2;

/// What shows items with names, and marks tokens there.
fn named_show<'a>(naming: Naming<'a>, marks: &'a Marks) -> Show<'a> {
    let mut show = Show::new(Form::Pretty);
    show.marks = Some(marks);
    show.names = Some(naming);
    show
}

/// Returns the lines of items, and of the part that is there of an item that is not whole.
fn data_lines(alloc: Global, naming: Naming<'_>, flags: u32, input: &[u8]) -> Result<Vec<u8>, Error>
    ensures lines { IfOk result (λ lines. (text : List ℕ) × IsMarkup text input.now lines.items) }
    ensures memory { IfErr result (λ e. e ≡ Error.Memory) }
{
    let marks = Marks::new(alloc);
    let mut show = named_show(naming, &marks);
    show.style.notes = flags & NO_NOTES == 0;
    show.style.embedded = flags & EMBEDDED != 0;
    let data = Piece {
        begins: 0,
        bytes: input,
    };
    let mut lines = Vec::new(alloc);
    match push_data(&mut lines, &show, data) {
        Ok(()) => Ok(lines),
        Err(_) => Err(Error::Memory),
    }
}

/// Writes the lines of a page that shows items, one after the other, beside their bytes: with names
/// and notes, as `cborcat -t html` does. Of an item that is truncated or malformed they show the
/// part that is there, and what is wrong. `kind` is the name of the type of the outermost items, or
/// empty if that is not known. `names` is a file of names, in TOML, beside those that come with the
/// library, or empty. `flags` is the sum of 1 for no names and notes, and 2 for the items in byte
/// strings.
///
/// Returns the length of the lines, and writes as much of them as fits `output`. Otherwise returns
/// minus the number of the error, and nothing is written: `Memory`, 11 for other flags, 17 for a
/// name of no type, or 19 for a file of names that has an error.
#[unsafe(no_mangle)]
pub extern "C" fn cbor_diag_page(
    alloc: Global,
    input: &[u8],
    kind: &[u8],
    names: &[u8],
    flags: u32,
    output: &mut [u8],
) -> i64
    // The lines are constants and escaped data. Their bytes joined are those of the input.
    ensures lines { IfLength result (λ n. (lines text : List ℕ) × IsMarkup text input.now lines
        × (n ≡ length lines) × (output.new ≡ written lines output.old)) }
    ensures error { IfError result (IsNoPage kind.now names.now flags) }
    ensures unchanged { IfError result (λ n. output.new ≡ output.old) }
{
    if flags > NO_NOTES + EMBEDDED {
        return NO_FORM;
    }
    let tables = match tables_of(alloc, names) {
        Ok(tables) => tables,
        Err(NamesError::Memory) => return refused(Error::Memory),
        Err(NamesError::Utf8 | NamesError::File(_)) => return WRONG_NAMES,
    };
    let mut outer = None;
    if !kind.is_empty() {
        outer = type_of(&tables, kind);
        if outer.is_none() {
            return NO_TYPE;
        }
    }
    match data_lines(alloc, Naming::new(&tables, outer), flags, input) {
        Ok(lines) => write(&lines, output),
        Err(error) => refused(error),
    }
}

/// Returns what is wrong with a file of names, in words; empty if nothing is.
fn names_message(alloc: Global, names: &[u8]) -> Result<String, Error>
    ensures memory { IfErr result (λ e. e ≡ Error.Memory) }
{
    match tables_of(alloc, names) {
        Ok(_) => Ok(String::new(alloc)),
        Err(NamesError::Memory) => Err(Error::Memory),
        Err(NamesError::Utf8) => Ok(String::from_str(alloc, "not UTF-8")?),
        Err(NamesError::File(error)) => Ok(format!(in alloc; "{error}")?),
    }
}

/// Writes what is wrong with a file of names, in TOML, as `cborcat` says it: the line, and why.
///
/// Returns the length of the message, and writes as much of it as fits `output`; 0 if nothing is
/// wrong. Out of memory, returns minus the number of `Memory`, and nothing is written.
#[unsafe(no_mangle)]
pub extern "C" fn cbor_diag_names_fault(alloc: Global, names: &[u8], output: &mut [u8]) -> i64
    ensures message { IfLength result (λ n. (message : List ℕ)
        × (n ≡ length message) × (output.new ≡ written message output.old)) }
    ensures error { IfError result (λ n. n ≡ 1) }
    ensures unchanged { IfError result (λ n. output.new ≡ output.old) }
{
    match names_message(alloc, names) {
        Ok(message) => write(message.as_bytes(), output),
        Err(error) => refused(error),
    }
}
