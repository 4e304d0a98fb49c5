//! `lines_at` writes what `cborcat --at` says of the item that contains a byte: its path, its head,
//! and its first and last byte, each on a line.
ghost use Rattle.std.specs.Prelude.{◌≡◌, ◌∷◌, ◌++◌, [], ℕ, List, OnOk};
ghost use Rattle.std.specs.String.{string_bytes};
ghost use Rattle.cbor_places.specs.Heads.{counted, head_digits, kind_word, IsHeadWords, head_line};

use crate::around::Around;
use crate::path::push_number;
use crate::piece::Piece;
use cbor_edn_writer::bytes_to_edn;
use cbor_grammar::Error;
use cbor_grammar::argument::Argument;
use cbor_grammar::head::ItemHead;
use cbor_grammar::strings::StringKind;
use cbor_inside::Inside;
use cbor_tokens::push_hex;
use cbor_trace::{end_at, head_at};
use std::alloc::{AllocError, Global};
use std::fmt::Write;

/// What is said of this byte of the data: the path, the head, and where the item begins and ends,
/// in a line each. These bytes begin with the item that contains the byte, and this many items of
/// the data come before it.
pub fn lines_at(
    alloc: Global,
    nth_item: (usize, Piece),
    byte: usize,
    inside: Inside,
) -> Result<String, Error> {
    let (number, item) = nth_item;
    let mut around = Around::new(alloc, item, byte.saturating_sub(item.begins))?;
    around.go_inside(byte, inside)?;
    let mut out = String::from_str(alloc, "path: ")?;
    push_number(&mut out, number)?;
    out.push_str(around.path.as_str())?;
    out.push_str(if around.in_key { ", in a key\n" } else { "\n" })?;
    push_head(&mut out, around.piece.bytes, around.spot.start)?;
    let first = around.piece.number(around.spot.start);
    match end_at(around.piece.bytes, around.spot) {
        Some(end) => {
            let last = around.piece.number(end.saturating_sub(1));
            push_place(&mut out, first, last)?;
        }
        None => write!(out, "item: from byte {first} (0x{first:x}) on, not whole\n")?,
    }
    Ok(out)
}

/// Appends the line of the first and the last byte of an item.
fn push_place(out: &mut String, first: usize, last: usize) -> Result<(), AllocError> {
    if first == last {
        write!(out, "item: byte {first} (0x{first:x})\n")
    } else {
        write!(
            out,
            "item: bytes {first} to {last} (0x{first:x} to 0x{last:x})\n"
        )
    }
}

/// Appends the line of the head at a place: its digits, and what it is.
fn push_head(out: &mut String, bytes: &[u8], start: usize) -> Result<(), Error> {
    let Some((head, end)) = head_at(bytes, start) else {
        out.push_str("head: none, or not whole\n")?;
        return Ok(());
    };
    let digits = bytes.get(start..end).unwrap_or(b"");
    out.push_str("head: ")?;
    push_head_words(out, digits, head)
}

/// Appends the digits of a head, and what it is, as a line of a dump.
fn push_head_words(out: &mut String, digits: &[u8], head: ItemHead) -> Result<(), Error>
    ensures { OnOk result ((words : List ℕ) × IsHeadWords digits.now head words
        × (string_bytes out.new ≡ string_bytes out.old ++ head_line digits.now words)) }
{
    push_digits(out, digits)?;
    out.push_str("# ")?;
    push_words(out, digits, head)?;
    out.push('\n')?;
    Ok(())
}

/// Appends each of these bytes in hex, and a blank after it.
fn push_digits(out: &mut String, digits: &[u8]) -> Result<(), AllocError>
    ensures { OnOk result (string_bytes out.new ≡ string_bytes out.old
        ++ head_digits digits.now) }
{
    'digits: for byte in digits {
        push_hex(out, &[*byte])?;
        out.push(' ')?;
    }
    Ok(())
}

/// Appends what a head is.
fn push_words(out: &mut String, digits: &[u8], head: ItemHead) -> Result<(), Error>
    ensures { OnOk result ((words : List ℕ) × IsHeadWords digits.now head words
        × (string_bytes out.new ≡ string_bytes out.old ++ words)) }
{
    match head {
        ItemHead::String(kind, length) => push_count(out, word_of_kind(kind), length)?,
        ItemHead::Array(count) => push_count(out, "array", count)?,
        ItemHead::Map(count) => push_count(out, "map", count)?,
        ItemHead::Tag(number, _) => write!(out, "tag({number})")?,
        _ => {
            let edn = bytes_to_edn(*out.allocator(), digits)?;
            out.push_str(&edn)?;
        }
    }
    Ok(())
}

/// The word of a dump for a string.
fn word_of_kind(kind: StringKind) -> &'static str
    ensures { result.now ≡ kind_word kind }
{
    match kind {
        StringKind::Bytes => "bytes",
        StringKind::Text => "text",
    }
}

/// Appends what a head is that has a count, as a dump does.
fn push_count(out: &mut String, word: &str, count: Argument) -> Result<(), AllocError>
    ensures { OnOk result (string_bytes out.new ≡ string_bytes out.old
        ++ counted word.now count) }
{
    match count {
        Argument::Number(count, _) => write!(out, "{word}({count})"),
        Argument::Indefinite => write!(out, "{word}(*)"),
    }
}
