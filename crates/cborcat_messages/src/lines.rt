//! Says what is wrong with an input, and which part of it a message is about: the lines that all
//! messages have in common.

use crate::status::Status;
use cbor_inputs::Input;
use cbor_marks::Kind;
use cbor_messages::{Excerpt, Position, position_of};
use cbor_screen::push_in_color;
use cbor_tokens::is_shown;
use cborcat_arguments::Color;
use std::alloc::{AllocError, Global};
use std::fmt::Display;
use std::io;
use std::io::IsTerminal;

/// The name of an input in a message.
pub fn label(name: &str) -> &str {
    if name == "-" {
        "standard input"
    } else if is_shown(false, name.as_bytes()) {
        name
    } else {
        "an input"
    }
}

/// Says what is wrong with an input.
pub fn say(rt: &HostRuntime, name: &str, error: &io::Error) {
    // If standard error itself fails, there is nowhere to report it.
    let _ = eprintln!(rt; "cborcat: {}: {error}", label(name));
}

/// Says that memory ran out before any input was read.
pub fn say_no_memory(rt: &HostRuntime) -> Status {
    let _ = eprintln!(rt; "cborcat: out of memory");
    Status::Trouble
}

/// Says that memory ran out.
pub fn say_out_of_memory(rt: &HostRuntime, name: &str) -> Status {
    let _ = eprintln!(rt; "cborcat: {}: out of memory", label(name));
    Status::Trouble
}

/// Says what is wrong at a byte of a text, by its line and column.
pub(crate) fn say_at<T: Display + Drop>(
    rt: &HostRuntime,
    input: (&str, &[u8]),
    at: usize,
    what: T,
) {
    let (name, text) = input;
    let name = label(name);
    let Position { line, column, .. } = position_of(text, at);
    let _ = eprintln!(rt; "cborcat: {name}:{line}:{column}: {what}");
}

/// Says which part of an input a message is about. The mark below what is wrong has a colour if
/// standard error is shown colours.
pub(crate) fn say_excerpt(rt: &HostRuntime, color: Color, excerpt: &Excerpt) {
    if color.is_used(rt, rt.stderr().is_terminal())
        && let Ok(text) = with_colored_mark(rt.alloc(), excerpt)
        && let Ok(shown) = str::from_utf8(&text)
    {
        let _ = eprintln!(rt; "{shown}");
    } else {
        let _ = eprintln!(rt; "{excerpt}");
    }
}

/// The lines of an excerpt, with its mark in colour.
fn with_colored_mark(alloc: Global, excerpt: &Excerpt) -> Result<Vec<u8>, AllocError> {
    let mut shown = excerpt.unmarked(alloc)?.into_bytes();
    push_in_color(&mut shown, Kind::Fault, excerpt.mark().as_bytes())?;
    Ok(shown)
}

/// The word of a form.
pub(crate) fn word_of(form: Input) -> &'static str {
    match form {
        Input::Bytes => "bytes",
        Input::Hex => "hex",
        Input::Diag => "diag",
        Input::Base64 => "base64",
    }
}
