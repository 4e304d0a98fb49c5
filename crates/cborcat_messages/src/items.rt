//! Says what is wrong with the items of an input, and where: why they end, which byte no item can
//! have, how much of a truncated item is there.

use crate::lines::{label, say_at, say_excerpt, say_out_of_memory};
use crate::origin::Origin;
use crate::status::Status;
use cbor_grammar::Error;
use cbor_inspect::End;
use cbor_messages::{Excerpt, Message, TWO_BYTES};
use cbor_places::{Around, Piece, item_with};
use cbor_trace::place_of_fault;
use std::alloc::AllocError;

/// Says why no further item is converted.
pub fn report_end(rt: &HostRuntime, origin: &Origin, left: Piece, end: End) -> Status {
    let said = match end {
        End::Fault { error, end } => report_fault(rt, origin, left, (error, end)),
        End::Cut => report_cut(rt, origin, left),
        End::Remaining => {
            origin.say_at_byte(rt, left.begins, "bytes remain after the item");
            let _ = eprintln!(rt; "  without -1 they are read as further items");
            Ok(())
        }
        End::Memory => Err(Error::Memory),
        End::TwoByteSimple { at } => {
            report_byte(rt, origin, left, (at.saturating_add(1), TWO_BYTES))
        }
        End::Full | End::Done | End::Lost { .. } => Ok(()),
    };
    match said {
        Ok(()) => Status::Bad,
        Err(_) => say_out_of_memory(rt, origin.name),
    }
}

/// Says which byte no item can have. The fault is that error, in that many of the bytes that are
/// left.
fn report_fault(
    rt: &HostRuntime,
    origin: &Origin,
    left: Piece,
    fault: (Error, usize),
) -> Result<(), Error> {
    let (error, end) = fault;
    let at = place_of_fault(left.bytes, error, end);
    let around = Around::of_end(rt.alloc(), left.first(end))?;
    let what = around.fault_words(origin, error)?;
    let words = around.words(origin, false)?;
    Ok(say_byte(rt, origin, left, at, (&what, &words))?)
}

/// Says what a message says of the bytes that are left, which begin with whole items.
pub fn report_message(
    rt: &HostRuntime,
    origin: &Origin,
    left: Piece,
    message: &Message,
) -> Result<(), Error> {
    let words = message.words(rt.alloc(), origin)?;
    report_byte(rt, origin, left, (message.place, &words))
}

/// Says what is wrong at a byte of a whole item, before which there may be others.
pub fn report_byte(
    rt: &HostRuntime,
    origin: &Origin,
    left: Piece,
    message: (usize, &str),
) -> Result<(), Error> {
    let (at_fault, what) = message;
    let words = words_around(rt, origin, left, at_fault)?;
    Ok(say_byte(rt, origin, left, at_fault, (what, &words))?)
}

/// Where in its item one of the bytes is that are left.
fn words_around(
    rt: &HostRuntime,
    origin: &Origin,
    left: Piece,
    at: usize,
) -> Result<String, AllocError> {
    let byte = left.number(at);
    let (_, item) = item_with(left, byte);
    let around = Around::new(rt.alloc(), item, byte.saturating_sub(item.begins))?;
    around.words(origin, true)
}

/// Says where in the item something is wrong, in a line of its own.
fn say_where(rt: &HostRuntime, words: &str) {
    if !words.is_empty() {
        let _ = eprintln!(rt; "    {words}");
    }
}

/// Says what is wrong at one of the bytes that are left, and where in the item that is.
pub fn say_byte(
    rt: &HostRuntime,
    origin: &Origin,
    left: Piece,
    at_fault: usize,
    words: (&str, &str),
) -> Result<(), AllocError> {
    let (what, in_item) = words;
    let byte = left.number(at_fault);
    match origin.place(rt.alloc(), byte)? {
        Some(at) => {
            say_at(rt, (origin.name, origin.text), at, what);
            say_where(rt, in_item);
            let excerpt = Excerpt::of_text(origin.text, at, origin.mark());
            say_excerpt(rt, origin.color, &excerpt);
        }
        None => {
            let byte = origin.number(byte);
            let _ = eprintln!(rt;
                "cborcat: {}: byte {byte} (0x{byte:x}){}: {what}",
                label(origin.name),
                origin.within()
            );
            say_where(rt, in_item);
            if let Some(excerpt) = Excerpt::of_bytes(left.bytes, at_fault) {
                say_excerpt(rt, origin.color, &excerpt);
            }
        }
    }
    Ok(())
}

/// Says which item is not whole, and how much of it is there.
fn report_cut(rt: &HostRuntime, origin: &Origin, left: Piece) -> Result<(), Error> {
    let around = Around::of_end(rt.alloc(), left)?;
    let words = around.cut_words(origin)?;
    let end = left.number(left.bytes.len());
    match origin.place(rt.alloc(), end)? {
        Some(at) => say_at(
            rt,
            (origin.name, origin.text),
            at,
            format_args!("truncated: {words}"),
        ),
        None => {
            let _ = eprintln!(rt; "cborcat: {}: truncated: {words}", label(origin.name));
        }
    }
    Ok(())
}

/// Says that an input has too few items for the number before the path.
pub fn report_few(rt: &HostRuntime, origin: &Origin, item: usize, count: usize) {
    let name = label(origin.name);
    let what = if count == 1 { "item" } else { "items" };
    let _ = eprintln!(rt; "cborcat: {name}: {item}: no such item; {count} {what} came, from 0 on");
}

/// Says that no item is left of an input that has to be one.
pub fn report_none_left(rt: &HostRuntime, origin: &Origin) {
    let name = label(origin.name);
    let _ = eprintln!(rt; "cborcat: {name}: no item is left after --delete, but -1 asks for one");
}

/// Says that an item is longer than is allowed.
pub fn report_long(rt: &HostRuntime, origin: &Origin, begins: usize, limit: usize) {
    let what = format_args!("the item is longer than {limit} bytes (--limit)");
    origin.say_at_byte(rt, begins, what);
}

/// Says that a page of more than `most` bytes of data would be too large.
pub fn report_large_page(rt: &HostRuntime, origin: &Origin, most: usize, megabytes: usize) {
    let name = label(origin.name);
    let _ = eprintln!(rt;
        "cborcat: {name}: more than {most} bytes: \
         the page would have more than {megabytes} MB\n  \
         show a part with -p, begin at another item with --offset, or allow more with --limit"
    );
}
