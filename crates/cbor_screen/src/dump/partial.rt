//! `push_partial_dump` writes the dump of a truncated or malformed item: its lines up to the part
//! that is not whole, what is wrong, and the first 64 of the bytes that remain.

use crate::dump::measure::Measure;
use crate::dump::walk::Walk;
use crate::dump::{DumpStyle, push_named};
use cbor_grammar::Error;
use cbor_notes::push_blanks;
use cbor_tokens::push_hex;
use cbor_trace::Span;
use std::alloc::AllocError;
use std::fmt::Write;

/// How many of the bytes that remain are shown.
const MOST: usize = 64;

/// How many of them are on a line.
const PER_LINE: usize = 16;

/// Appends what a dump shows of bytes that begin with no whole item. Up to the first item that is
/// not whole, it has the lines that [`push_dump`] has in this style. In place of that item are what
/// is said of it and the first 64 of the bytes that remain, below the items before it.
///
/// Returns where the comment is that says what is wrong. The only error is `Memory`. After it `out`
/// may end with some of the lines.
///
/// ```rust
/// use cbor_screen::{DumpStyle, push_partial_dump};
///
/// // An array of two. Its first item is there: a simple value in a non-minimal encoding.
/// let mut out = String::new(alloc);
/// let said = push_partial_dump(&mut out, b"\x82\xf8\x00", &DumpStyle::PLAIN, "truncated")?;
/// let wanted = "82       # array(2)\n   f8 00 #   unassigned, simple(0)\n   # truncated\n";
/// assert_eq!(rt; out.as_str(), wanted);
/// assert_eq!(rt; said.bytes(out.as_bytes()), b"# truncated".as_slice());
/// ```
///
/// [`push_dump`]: crate::push_dump
pub fn push_partial_dump(
    out: &mut String,
    bytes: &[u8],
    style: &DumpStyle<'_>,
    said: &str,
) -> Result<Span, Error> {
    let mut measure = Measure::new();
    let mut walk = Walk::new(*out.allocator(), bytes, style);
    as_far_as(walk.item(&mut measure))?;
    as_far_as(push_named(out, bytes, (style, measure.width())))?;
    Ok(push_remaining(out, walk.rest(), walk.depth().saturating_mul(3), said)?)
}

/// Passes on that memory ran out. Any other error says that an item is not whole.
fn as_far_as(answer: Result<(), Error>) -> Result<(), AllocError> {
    match answer {
        Err(Error::Memory) => Err(AllocError),
        _ => Ok(()),
    }
}

/// Appends the error, and the first of the bytes that remain. The lines begin with that many
/// blanks. Returns where the comment with the error is.
fn push_remaining(
    out: &mut String,
    rest: &[u8],
    indent: usize,
    said: &str,
) -> Result<Span, AllocError> {
    push_blanks(out, indent)?;
    let begins = out.len();
    out.push_str("# ")?;
    out.push_str(said)?;
    let said = Span {
        start: begins,
        end: out.len(),
    };
    out.push('\n')?;
    let (shown, more) = rest.split_at(MOST.min(rest.len()));
    for line in shown.chunks(PER_LINE) {
        push_blanks(out, indent)?;
        push_hex(out, line)?;
        out.push('\n')?;
    }
    if !more.is_empty() {
        push_blanks(out, indent)?;
        write!(out, "# and {} more bytes\n", more.len())?;
    }
    Ok(said)
}
