//! The C call `cbor_diag_schema_misfit`: finds the first item of an input that does not fit a
//! schema, writes why, and returns where it does not fit (`MisfitParts`).
ghost use Rattle.std.specs.Prelude.{◌≡◌, ◌⊎◌, ◌≤◌, ℕ, List, length, IfOk, IfSome};
ghost use Rattle.cbor_diag_c.specs.Answers.{IfLength, IfError, IsMinus, written};
ghost use Rattle.cbor_diag_c.specs.Schemas.{AreWithin, IsNotChecked, check_error};

use crate::answer::{refused, write};
use cbor_bytes::{Extent, extent};
use cbor_cddl::{FaultKind, Schema, Span, Stop, Unread, position_of};
use cbor_grammar::Error;
use cbor_places::Piece;
use cbor_schema::{Checker, MessageParts, Misfit};
use std::alloc::{AllocError, Global};

/// What C gets of an item that does not fit: places in the input, and parts of the message.
#[repr(C)]
#[derive(Clone, Copy)]
pub struct MisfitParts {
    /// Where the item does not fit.
    pub place: usize,
    /// Where the outermost item begins that it is in.
    pub item: usize,
    /// The line of the rule or entry, counted from 1; 0 for none.
    pub line: usize,
    /// What was expected.
    pub expected: usize,
    pub expected_end: usize,
    /// The name of the innermost rule or entry.
    pub rule: usize,
    pub rule_end: usize,
    /// What was found.
    pub found: usize,
    pub found_end: usize,
    /// The path in the outermost item.
    pub path: usize,
    pub path_end: usize,
}

/// A message that is put together, and the parts of it.
#[derive(Drop)]
struct Said {
    /// In UTF-8.
    message: Vec<u8>,
    told: MisfitParts,
}

/// Why items are not checked.
#[derive(Clone, Copy)]
enum CheckError {
    /// The input is no sequence of items, or memory ran out.
    Cbor(Error),
    /// The bytes of the schema are none.
    Schema,
    /// Too many steps, or nested too deeply.
    Work,
}

impl From<Stop> for CheckError {
    fn from(stop: Stop) -> CheckError {
        match stop {
            Stop::Memory => CheckError::Cbor(Error::Memory),
            Stop::NoItem | Stop::Work | Stop::Deep => CheckError::Work,
        }
    }
}

impl From<AllocError> for CheckError {
    fn from(_refused: AllocError) -> CheckError {
        CheckError::Cbor(Error::Memory)
    }
}

/// What is returned for bytes that are no schema.
const WRONG_SCHEMA: i64 = -21;

/// What is returned for an item that takes too many steps.
const TOO_MUCH_WORK: i64 = -22;

/// Returns minus the number of the error.
fn number_of(error: CheckError) -> i64
    ensures { IsMinus (check_error error) result }
{
    match error {
        CheckError::Cbor(error) => refused(error),
        CheckError::Schema => WRONG_SCHEMA,
        CheckError::Work => TOO_MUCH_WORK,
    }
}

/// Reads a schema, and prepares its patterns.
fn checker_of(alloc: Global, schema: &[u8]) -> Result<Checker, CheckError> {
    let schema = match Schema::from_flat(alloc, schema) {
        Ok(schema) => schema,
        Err(Unread::Memory) => return Err(CheckError::Cbor(Error::Memory)),
        Err(Unread::Wrong) => return Err(CheckError::Schema),
    };
    match Checker::new(alloc, schema) {
        Ok(checker) => Ok(checker),
        Err(fault) if fault.kind == FaultKind::Memory => Err(CheckError::Cbor(Error::Memory)),
        Err(_) => Err(CheckError::Schema),
    }
}

/// A span, which is cut at the end of a message.
fn within(span: Span, len: usize) -> (usize, usize)
    ensures { (result.0 ≤ result.1) × (result.1 ≤ len) }
{
    let end = span.end.min(len);
    (span.start.min(end), end)
}

/// Where a misfit is.
#[derive(Clone, Copy)]
struct Places {
    place: usize,
    item: usize,
    line: usize,
}

/// What C gets of a misfit whose message has this length.
fn told_of(places: Places, parts: MessageParts, path: Span, len: usize) -> MisfitParts
    ensures { AreWithin result len }
{
    let (expected, expected_end) = within(parts.expected, len);
    let (rule, rule_end) = within(parts.name, len);
    let (found, found_end) = within(parts.found, len);
    let (path, path_end) = within(path, len);
    MisfitParts {
        place: places.place,
        item: places.item,
        line: places.line,
        expected,
        expected_end,
        rule,
        rule_end,
        found,
        found_end,
        path,
        path_end,
    }
}

/// The line of a name of a misfit; 0 for none.
fn line_of(checker: &Checker, name: &str, place: usize) -> usize {
    if name.is_empty() {
        0
    } else {
        position_of(&checker.schema().source, place).line
    }
}

/// Appends the path to what does not fit, and the alternatives that came less far. Returns where
/// the path is.
fn push_rest(checker: &Checker, misfit: &Misfit, message: &mut String) -> Result<Span, AllocError> {
    let alloc = *message.allocator();
    let mut path = Span { start: 0, end: 0 };
    if !misfit.path.is_empty() {
        message.push_str("; at ")?;
        path.start = message.len();
        message.push_str(&misfit.path)?;
        path.end = message.len();
    }
    if let Some(others) = &misfit.others {
        message.push_str("; ")?;
        let line = line_of(checker, &others.name, others.name_place);
        let line = format!(in alloc; "line {line}")?;
        others.push_message(message, &line)?;
    }
    Ok(path)
}

/// What is said of an item that begins at a byte of the input.
fn said_of(
    alloc: Global,
    checker: &Checker,
    misfit: &Misfit,
    item: usize,
) -> Result<Said, AllocError>
    ensures { IfOk result (λ said. AreWithin said.told (length said.message.items)) }
{
    let mut message = String::new(alloc);
    let line = line_of(checker, &misfit.name, misfit.name_place);
    let words = format!(in alloc; "line {line}")?;
    let parts = misfit.push_message(&mut message, &words)?;
    let path = push_rest(checker, misfit, &mut message)?;
    let places = Places {
        place: item.saturating_add(misfit.place),
        item,
        line,
    };
    let message = message.into_bytes();
    let told = told_of(places, parts, path, message.len());
    Ok(Said { message, told })
}

/// What is said of the first of some items that does not fit; `None` if all fit.
fn first_misfit(alloc: Global, checker: &Checker, input: &[u8]) -> Result<Option<Said>, CheckError>
    ensures { IfOk result (λ found.
        IfSome found (λ said. AreWithin said.told (length said.message.items))) }
{
    let mut at = 0usize;
    for _ in 0..input.len() {
        let rest = input.get(at..).unwrap_or(b"");
        if rest.is_empty() {
            break;
        }
        let len = match extent(rest) {
            Extent::Item(len) => len,
            Extent::Cut => return Err(CheckError::Cbor(Error::CutShort)),
            Extent::Fault { error, .. } => return Err(CheckError::Cbor(error)),
        };
        let item = Piece {
            begins: 0,
            bytes: rest.get(..len).unwrap_or(b""),
        };
        if let Some(misfit) = checker.misfit(alloc, item)? {
            return Ok(Some(said_of(alloc, checker, &misfit, at)?));
        }
        at = at.saturating_add(len);
    }
    Ok(None)
}

/// Finds the first of the items that does not fit a schema, which `cbor_diag_schema_load` wrote.
///
/// Returns 0 if the input is items, none or more, that fit. If one does not, returns the length of
/// the message that says what was expected and what was found, as `cborcat --cddl` does; writes as
/// much of it as fits `output`; and sets `misfit`. Otherwise returns minus the number of the error,
/// and nothing is written: that for which the input is no item, `Memory`, 21 for bytes that are no
/// schema, or 22 for an item that takes too many steps.
#[unsafe(no_mangle)]
pub extern "C" fn cbor_diag_schema_misfit(
    alloc: Global,
    schema: &[u8],
    input: &[u8],
    misfit: &mut MisfitParts,
    output: &mut [u8],
) -> i64
    ensures message { IfLength result (λ n. (message : List ℕ)
        × (n ≡ length message) × (output.new ≡ written message output.old)) }
    ensures within { IfLength result (λ n. (n ≡ 0) ⊎ AreWithin misfit.new n) }
    ensures error { IfError result IsNotChecked }
    ensures unchanged { IfError result (λ n. (output.new ≡ output.old)
        × (misfit.new ≡ misfit.old)) }
{
    let checker = match checker_of(alloc, schema) {
        Ok(checker) => checker,
        Err(error) => return number_of(error),
    };
    match first_misfit(alloc, &checker, input) {
        Ok(None) => write(b"", output),
        Ok(Some(said)) => {
            *misfit = said.told;
            write(&said.message, output)
        }
        Err(error) => number_of(error),
    }
}
