//! Returns the nouns of messages: what containers, strings and their parts are called. Also writes
//! how many parts of a container are there, such as "2 are there".

use cbor_grammar::argument::Argument;
use cbor_grammar::strings::StringKind;
use cbor_trace::Open;
use std::alloc::AllocError;
use std::fmt::Write;

/// What a container is called.
pub(crate) fn noun_of_open(open: Open) -> &'static str {
    match open {
        Open::Array { .. } => "array",
        Open::Key { .. } | Open::Value { .. } => "map",
        Open::Tag { .. } => "tag",
    }
}

/// What a string is called.
pub(crate) fn noun_of_kind(kind: StringKind) -> &'static str {
    match kind {
        StringKind::Bytes => "byte string",
        StringKind::Text => "text",
    }
}

/// What this many parts of a container are called.
pub(crate) fn plural_of(open: Open, count: u64) -> &'static str {
    match open {
        Open::Array { .. } if count == 1 => "item",
        Open::Array { .. } => "items",
        _ if count == 1 => "pair",
        _ => "pairs",
    }
}

/// The count of an array or a map.
pub(crate) fn count_of(open: Open) -> Option<Argument> {
    match open {
        Open::Array { count, .. } | Open::Key { count, .. } | Open::Value { count, .. } => {
            Some(count)
        }
        Open::Tag { .. } => None,
    }
}

/// Appends how many parts of a container are there.
pub(crate) fn push_there(out: &mut String, open: Open) -> Result<(), AllocError> {
    match open {
        Open::Array { index, .. } | Open::Key { index, .. } => {
            push_number_there(out, index as u64, "")
        }
        Open::Value { index: 0, .. } => out.push_str("a key is there"),
        Open::Value { index, .. } => write!(out, "{index} and a key are there"),
        Open::Tag { .. } => out.push_str("none is there"),
    }
}

/// Appends how many are there.
pub(crate) fn push_number_there(
    out: &mut String,
    number: u64,
    what: &str,
) -> Result<(), AllocError> {
    match number {
        0 => write!(
            out,
            "no{}{what} is there",
            if what.is_empty() { "ne" } else { "" }
        ),
        1 => write!(out, "1{what} is there"),
        _ => write!(out, "{number}{what} are there"),
    }
}
