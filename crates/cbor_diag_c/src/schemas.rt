//! The C calls `cbor_diag_schema_load`, which turns a text of CDDL into a schema in bytes, and
//! `cbor_diag_schema_fault`, which writes what is wrong with such a text.
ghost use Rattle.std.specs.Prelude.{◌≡◌, ◌⊎◌, ℕ, List, length, IfErr};
ghost use Rattle.cbor_diag_c.specs.Answers.{IfLength, IfError, written};
ghost use Rattle.cbor_diag_c.specs.Schemas.{IsNoSchema};

use crate::answer::{refused, write};
use cbor_cddl::{Fault, FaultKind, Position, Schema, position_of, source_of};
use cbor_grammar::Error;
use cbor_schema::Checker;
use std::alloc::{AllocError, Global};

/// What is returned for a text of CDDL that has an error.
const WRONG_CDDL: i64 = -20;

/// Why a text gives no schema.
#[derive(Clone, Copy)]
enum CddlError {
    Memory,
    /// The text, or the name of the rule, is not UTF-8.
    Utf8,
    Fault(Fault),
}

impl From<Fault> for CddlError {
    fn from(fault: Fault) -> CddlError {
        match fault.kind {
            FaultKind::Memory => CddlError::Memory,
            _ => CddlError::Fault(fault),
        }
    }
}

/// A text of CDDL, and the name of the rule that items have to fit; empty for the first rule.
#[derive(Clone, Copy)]
struct Cddl<'a> {
    text: &'a [u8],
    rule: &'a [u8],
}

/// Ends the span of each empty part where it begins, as a schema in bytes needs it.
fn end_spans(schema: &mut Schema) {
    for index in 0..schema.spans.len() {
        if let Some(span) = schema.spans.get_mut(index) {
            span.end = span.end.max(span.start);
        }
    }
}

/// Loads a text. Its patterns are prepared, too.
fn load(alloc: Global, text: &str, rule: Option<&str>) -> Result<Checker, Fault> {
    let mut schema = Schema::load(alloc, text, rule)?;
    end_spans(&mut schema);
    Checker::new(alloc, schema)
}

impl Cddl<'_> {
    /// The text, and the rule if one is named.
    fn texts(&self) -> Option<(&str, Option<&str>)> {
        let text = str::from_utf8(self.text).ok()?;
        if self.rule.is_empty() {
            return Some((text, None));
        }
        let rule = str::from_utf8(self.rule).ok()?;
        Some((text, Some(rule)))
    }

    /// Loads the text.
    fn load(&self, alloc: Global) -> Result<Checker, CddlError> {
        let Some((text, rule)) = self.texts() else {
            return Err(CddlError::Utf8);
        };
        match load(alloc, text, rule) {
            Ok(checker) => Ok(checker),
            Err(fault) => Err(CddlError::from(fault)),
        }
    }

    /// The position of a fault; lines and columns count from 1. No rule has the position 0.
    fn position(&self, fault: Fault) -> Position {
        match (fault.kind, str::from_utf8(self.text)) {
            (FaultKind::Root, _) | (_, Err(_)) => NOWHERE,
            (_, Ok(text)) => position_of(text, fault.span.start),
        }
    }

    /// What is wrong with the text, in words.
    fn message(&self, alloc: Global, fault: Fault) -> Result<String, AllocError> {
        let text = str::from_utf8(self.text).unwrap_or("");
        let rule = str::from_utf8(self.rule).unwrap_or("");
        if fault.kind == FaultKind::Root {
            return if rule.is_empty() {
                String::from_str(alloc, "no rule is there")
            } else {
                format!(in alloc; "no rule {rule} is there")
            };
        }
        let Position { line, column } = position_of(text, fault.span.start);
        let source = source_of(alloc, text)?;
        format!(in alloc; "{line}:{column}: {}", fault.said(&source))
    }
}

/// The position of what is in no line.
const NOWHERE: Position = Position { line: 0, column: 0 };

/// Returns a text of CDDL as a schema in bytes.
fn flat_schema(alloc: Global, cddl: Cddl) -> Result<Vec<u8>, CddlError> {
    let checker = cddl.load(alloc)?;
    match checker.schema().to_flat(alloc) {
        Ok(flat) => Ok(flat),
        Err(_) => Err(CddlError::Memory),
    }
}

/// Loads a text of CDDL, to check items against it by `cbor_diag_schema_misfit`. `rule` is the name
/// of the rule that an item has to fit; if it is empty, that is the first rule.
///
/// Returns the length of the schema, and writes as much of it as fits `output`. Otherwise returns
/// minus the number of the error, and nothing is written: `Memory`, or 20 for a text that has an
/// error, which `cbor_diag_schema_fault` says.
#[unsafe(no_mangle)]
pub extern "C" fn cbor_diag_schema_load(
    alloc: Global,
    cddl: &[u8],
    rule: &[u8],
    output: &mut [u8],
) -> i64
    ensures schema { IfLength result (λ n. (schema : List ℕ)
        × (n ≡ length schema) × (output.new ≡ written schema output.old)) }
    ensures error { IfError result IsNoSchema }
    ensures unchanged { IfError result (λ n. output.new ≡ output.old) }
{
    let cddl = Cddl { text: cddl, rule };
    match flat_schema(alloc, cddl) {
        Ok(schema) => write(&schema, output),
        Err(CddlError::Memory) => refused(Error::Memory),
        Err(CddlError::Utf8 | CddlError::Fault(_)) => WRONG_CDDL,
    }
}

/// What is wrong with a text, and where.
#[derive(Drop)]
struct Told {
    position: Position,
    message: String,
}

/// Returns what is wrong with a text of CDDL; an empty message if nothing is.
fn told_of(alloc: Global, cddl: Cddl) -> Result<Told, Error>
    ensures memory { IfErr result (λ e. e ≡ Error.Memory) }
{
    let (position, message) = match cddl.load(alloc) {
        Ok(_) => (NOWHERE, String::new(alloc)),
        Err(CddlError::Memory) => return Err(Error::Memory),
        Err(CddlError::Utf8) => (NOWHERE, String::from_str(alloc, "not UTF-8")?),
        Err(CddlError::Fault(fault)) => (cddl.position(fault), cddl.message(alloc, fault)?),
    };
    Ok(Told { position, message })
}

/// Writes what is wrong with a text of CDDL, as `cborcat` says it: the line, the column, and why.
/// Sets `line` and `column`, too, which count from 1; both are 0 where there is no place, as for a
/// rule that is not there.
///
/// Returns the length of the message, and writes as much of it as fits `output`; 0 if nothing is
/// wrong. Out of memory, returns minus the number of `Memory`, and nothing is written.
#[unsafe(no_mangle)]
pub extern "C" fn cbor_diag_schema_fault(
    alloc: Global,
    cddl: &[u8],
    rule: &[u8],
    line: &mut usize,
    column: &mut usize,
    output: &mut [u8],
) -> i64
    ensures message { IfLength result (λ n. (message : List ℕ)
        × (n ≡ length message) × (output.new ≡ written message output.old)) }
    ensures error { IfError result (λ n. n ≡ 1) }
    ensures unchanged { IfError result (λ n. output.new ≡ output.old) }
    ensures no_place { IfError result (λ n. (line.new ≡ 0) × (column.new ≡ 0)) }
{
    *line = 0;
    *column = 0;
    match told_of(alloc, Cddl { text: cddl, rule }) {
        Ok(told) => {
            *line = told.position.line;
            *column = told.position.column;
            write(told.message.as_bytes(), output)
        }
        Err(error) => refused(error),
    }
}
