//! For `Scanner`: skips strings whose bytes arrive in pieces. `Due` says what has to come next,
//! such as the rest of a string. `Pause` says why skipping stopped: the bytes end, or there is an
//! error.
//!
//! The functions whose names begin with `after` take the remaining bytes. They return the bytes
//! after what they skip, or why they pause.
ghost use Rattle.std.specs.Prelude.{◌≡◌, ◌<◌, ◌≤◌, ℕ, ◌+◌, length, take, None, IfOk, IfErr, IsUtf8};
ghost use Rattle.cbor_bytes.specs.mirror.Scanning.{Pauses};
ghost use Rattle.cbor_grammar.specs.Reading.{opened};
ghost use Rattle.cbor_grammar.specs.declared.width.IntegerWidth.TheVariants.{Zero};
ghost use Rattle.cbor_bytes.specs.mirror.Skipping.{here, Goes, FailsAt, skip_content, skip_chunks};
ghost use Rattle.cbor_bytes.specs.mirror.Skipping.{skip_body};
ghost use Rattle.cbor_bytes.specs.mirror.Scanning.{then_chunks, skip_bad, skip_due};
ghost use Rattle.cbor_bytes.specs.mirror.Scanning.{Waits};

use super::{Stop, after_content, read_chunk_length};
use crate::utf8::whole_chars;
use cbor_grammar::Error;
use cbor_grammar::argument::Argument;
use cbor_grammar::head::ItemHead;
use cbor_grammar::strings::StringKind;

/// What is due next.
#[derive(Clone, Copy)]
pub(super) enum Due {
    /// A part of the innermost container, or its end.
    Part,
    /// This many bytes of a string's content, and whether it is the content of a chunk.
    Content(StringKind, u64, bool),
    /// A chunk, or the break.
    Chunk(StringKind),
    /// This many bytes of a text that is not UTF-8, and then its last byte.
    BadText(u64),
}

/// Why the bytes were not enough.
#[derive(Clone, Copy)]
pub(super) enum Pause<'a> {
    /// The bytes end: what is due, and the few bytes from there on.
    Cut(Due, &'a [u8]),
    /// An error, and how many bytes follow the first bytes that have it.
    Fault { error: Error, after: usize },
}

/// What is due in a text with `left` bytes to come, if fewer are here.
fn unfinished_text(left: u64, chunked: bool, bytes: &[u8]) -> (Due, &[u8])
    requires { length bytes.now < left }
    ensures { Waits
        (λ c. then_chunks chunked StringKind.Text (skip_content StringKind.Text left Zero c))
        (skip_due result.0) bytes.now result.1.now }
{
    let whole = whole_chars(bytes);
    let rest = &bytes[whole..];
    // No character takes more than four bytes.
    if rest.len() < 4 {
        let left = left - whole as u64;
        (Due::Content(StringKind::Text, left, chunked), rest)
    } else {
        (Due::BadText(left - bytes.len() as u64 - 1), &[])
    }
}

/// What is due in a content with `left` bytes to come, if fewer are here.
fn unfinished(kind: StringKind, left: u64, chunked: bool, bytes: &[u8]) -> (Due, &[u8])
    requires { length bytes.now < left }
    ensures { Waits (λ c. then_chunks chunked kind (skip_content kind left Zero c))
        (skip_due result.0) bytes.now result.1.now }
{
    match kind {
        StringKind::Bytes => {
            let left = left - bytes.len() as u64;
            (Due::Content(kind, left, chunked), &[])
        }
        StringKind::Text => unfinished_text(left, chunked, bytes),
    }
}

/// The bytes after `left` bytes of content.
fn after_rest(kind: StringKind, left: u64, chunked: bool, bytes: &[u8]) -> Result<&[u8], Pause>
    ensures goes { IfOk result (λ rest.
        Goes (skip_content kind left Zero) here bytes.now rest.now) }
    ensures pauses { IfErr result (λ pause. Pauses skip_due
        (λ c. then_chunks chunked kind (skip_content kind left Zero c)) bytes.now pause) }
    ensures shorter { IfOk result (λ rest. length rest.now ≤ length bytes.now) }
{
    match after_content(kind, left, bytes) {
        Ok(rest) => Ok(rest),
        Err(Stop::Cut) => {
            let (due, rest) = unfinished(kind, left, chunked, bytes);
            Err(Pause::Cut(due, rest))
        }
        Err(Stop::Fault { error, after }) => Err(Pause::Fault { error, after }),
    }
}

/// The bytes after the break of an indefinite-length string.
fn after_break_due(kind: StringKind, bytes: &[u8]) -> Result<&[u8], Pause>
    ensures goes { IfOk result (λ rest. Goes (skip_chunks kind) here bytes.now rest.now) }
    ensures pauses { IfErr result (λ pause. Pauses skip_due (skip_chunks kind) bytes.now pause) }
    ensures shorter { IfOk result (λ rest. length rest.now ≤ length bytes.now) }
{
    let mut rest = bytes;
    'chunks: loop {
        match read_chunk_length(kind, rest) {
            Ok((len, after)) => {
                let Some((count, _)) = len else {
                    return Ok(after);
                };
                rest = after_rest(kind, count, true, after)?;
            }
            Err(Stop::Cut) => return Err(Pause::Cut(Due::Chunk(kind), rest)),
            Err(Stop::Fault { error, after }) => return Err(Pause::Fault { error, after }),
        }
    }
}

/// The bytes after `left` bytes of content. If it is a chunk, they come after the chunks that
/// follow.
fn after_content_due(
    kind: StringKind,
    left: u64,
    chunked: bool,
    bytes: &[u8],
) -> Result<&[u8], Pause>
    ensures goes { IfOk result (λ rest. Goes
        (λ c. then_chunks chunked kind (skip_content kind left Zero c)) here bytes.now rest.now) }
    ensures pauses { IfErr result (λ pause. Pauses skip_due
        (λ c. then_chunks chunked kind (skip_content kind left Zero c)) bytes.now pause) }
    ensures shorter { IfOk result (λ rest. length rest.now ≤ length bytes.now) }
{
    let rest = after_rest(kind, left, chunked, bytes)?;
    if chunked {
        after_break_due(kind, rest)
    } else {
        Ok(rest)
    }
}

/// The bytes after a string of this length, or one in chunks. Its head is already read.
fn after_string_due(kind: StringKind, len: Argument, bytes: &[u8]) -> Result<&[u8], Pause>
    ensures goes { (left : ℕ) → IfOk result (λ rest. Goes (skip_body left
        (ItemHead.String kind len)) here bytes.now rest.now) }
    ensures pauses { (left : ℕ) → IfErr result (λ pause. Pauses skip_due (skip_body left
        (ItemHead.String kind len)) bytes.now pause) }
    ensures shorter { IfOk result (λ rest. length rest.now ≤ length bytes.now) }
{
    match len {
        Argument::Number(count, _) => after_rest(kind, count, false, bytes),
        Argument::Indefinite => after_break_due(kind, bytes),
    }
}

/// The bytes after an item without parts. Its head is already read.
pub(super) fn after_atom_due(head: ItemHead, bytes: &[u8]) -> Result<&[u8], Pause>
    requires { opened head ≡ None }
    ensures goes { (left : ℕ) → IfOk result
        (λ rest. Goes (skip_body left head) here bytes.now rest.now) }
    ensures pauses { (left : ℕ) → IfErr result
        (λ pause. Pauses skip_due (skip_body left head) bytes.now pause) }
    ensures shorter { IfOk result (λ rest. length rest.now ≤ length bytes.now) }
{
    match head {
        ItemHead::String(kind, len) => after_string_due(kind, len, bytes),
        _ => Ok(bytes),
    }
}

/// The pause in a text that is not UTF-8, with `more` bytes before its last byte.
fn bad_text(more: u64, bytes: &[u8]) -> Pause
    ensures { Pauses skip_due (skip_bad more) bytes.now result }
{
    let len = bytes.len() as u64;
    if len <= more {
        return Pause::Cut(Due::BadText(more - len), &[]);
    }
    let after = (len - more - 1) as usize;
    let error = Error::Utf8;
    Pause::Fault { error, after }
}

impl Due {
    /// The bytes after the string that is due; all of the bytes if a part is due.
    pub(super) fn after(self, bytes: &[u8]) -> Result<&[u8], Pause>
        ensures goes { IfOk result (λ rest. Goes (skip_due self) here bytes.now rest.now) }
        ensures pauses { IfErr result (λ pause. Pauses skip_due (skip_due self) bytes.now pause) }
        ensures shorter { IfOk result (λ rest. length rest.now ≤ length bytes.now) }
    {
        match self {
            Due::Part => Ok(bytes),
            Due::Content(kind, left, chunked) => after_content_due(kind, left, chunked, bytes),
            Due::Chunk(kind) => after_break_due(kind, bytes),
            Due::BadText(more) => Err(bad_text(more, bytes)),
        }
    }
}
