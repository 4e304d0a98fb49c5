//! Cuts long strings in EDN. The first characters stay; `...` and a note with the length of the
//! whole string follow. The marks of a text say where its strings are.
ghost use Rattle.std.specs.Prelude.{◌≡◌, ℕ, ◌+◌, ◌≤◌, ◌<◌, ◌++◌, List, length, take, drop, codes};
ghost use Rattle.std.specs.Fmt.{decimal};
ghost use Rattle.std.specs.Prelude.{OnOk, IfSome};
ghost use Rattle.cbor_marks.specs.Remaining.{rest_of};
ghost use Rattle.cbor_screen.specs.Elided.{IsElided, IsElidedToken};

use crate::indicator::indicator_start;
use cbor_marks::{Kind, Marked, MarkedText};
use std::alloc::AllocError;

/// What is left out of a token.
#[derive(Clone, Copy)]
struct Cut {
    /// Where that begins.
    from: usize,
    /// How long it is.
    len: usize,
    /// How many bytes the string has.
    bytes: usize,
}

/// Where the content ends of a string in quotes that begins at a place: before its last quote. None
/// if that is missing.
fn content_end(token: &[u8], opening: usize) -> Option<usize>
    requires { 0 < opening }
    ensures { IfSome result (λ end. (opening ≤ end) × (end < length token.now)) }
{
    let end = indicator_start(token);
    if end > opening && token[end - 1] == token[opening - 1] {
        Some(end - 1)
    } else {
        None
    }
}

/// What is left out of a token, if it is a string of more than this many bytes, with its quotes.
fn cut_of(token: &[u8], most: usize) -> Option<Cut>
    ensures within { IfSome result (λ cut. cut.from + cut.len ≤ length token.now) }
    ensures long { IfSome result (λ _. most < length token.now) }
    ensures bytes { IfSome result (λ cut. most < cut.bytes) }
{
    let opening = if token.starts_with(b"\"") {
        1
    } else if token.starts_with(b"h'") {
        2
    } else {
        return None;
    };
    let Some(end) = content_end(token, opening) else {
        return None;
    };
    let content = &token[opening..end];
    let (kept, bytes) = if opening == 1 {
        measure(content, most)
    } else {
        (most.saturating_mul(2), content.len() / 2)
    };
    if bytes <= most || kept >= content.len() {
        return None;
    }
    Some(Cut {
        from: opening + kept,
        len: content.len() - kept,
        bytes,
    })
}

/// How long the first characters of the content of a text are that stand for at most this many
/// bytes, and for how many bytes all of them stand.
fn measure(content: &[u8], most: usize) -> (usize, usize)
    ensures { result.1 ≤ length content.now }
{
    let mut kept = 0;
    let mut bytes = 0;
    let mut at = 0;
    'content: while at < content.len() {
        let (len, stands) = character(&content[at..]);
        at += len;
        bytes += stands;
        if bytes <= most {
            kept = at;
        }
    }
    (kept, bytes)
}

/// How long the character at the front of the content of a text is, which may be escaped, and for
/// how many bytes it stands.
fn character(content: &[u8]) -> (usize, usize)
    requires { 0 < length content.now }
    ensures some { 0 < result.0 }
    ensures within { result.0 ≤ length content.now }
    ensures shorter { result.1 ≤ result.0 }
{
    let (len, bytes) = match content[0] {
        b'\\' => escape(content),
        0..=0xbf => (1, 1),
        0xc0..=0xdf => (2, 2),
        0xe0..=0xef => (3, 3),
        0xf0..=0xff => (4, 4),
    };
    (len.min(content.len()), bytes.min(content.len()))
}

/// The same of an escape.
fn escape(content: &[u8]) -> (usize, usize)
    ensures some { 0 < result.0 }
    ensures shorter { result.1 ≤ result.0 }
{
    match content {
        [_, b'u', b'0', b'0', b'0'..=b'7', ..] => (6, 1),
        [_, b'u', b'0', b'0'..=b'7', ..] => (6, 2),
        [_, b'u', ..] => (6, 3),
        _ => (2, 1),
    }
}

/// Appends a token with a part left out, and how many bytes the string has.
fn push_cut(out: &mut MarkedText, kind: Kind, token: &[u8], cut: Cut) -> Result<(), AllocError>
    requires { cut.from + cut.len ≤ length token.now }
    ensures { OnOk result (out.new.text.items ≡ out.old.text.items ++ take cut.from token.now
        ++ codes "..." ++ drop (cut.from + cut.len) token.now
        ++ codes " /" ++ decimal cut.bytes ++ codes " bytes/") }
{
    let start = out.text.len();
    out.text.extend_from_slice(&token[..cut.from])?;
    out.text.extend_from_slice(b"...")?;
    out.text.extend_from_slice(&token[cut.from + cut.len..])?;
    out.mark_from(kind, start)?;
    let before = out.text.len();
    out.text.extend_from_slice(b" /")?;
    let mut digits = itoa::Buffer::new();
    out.text
        .extend_from_slice(digits.format(cut.bytes).as_bytes())?;
    out.text.extend_from_slice(b" bytes/")?;
    out.mark_from(Kind::Note, before.saturating_add(1))
}

/// What is left out of a piece, if it is a string of more than this many bytes.
fn cut_of_piece(kind: Option<Kind>, piece: &[u8], most: usize) -> Option<(Kind, Cut)>
    ensures within { IfSome result (λ found. found.1.from + found.1.len ≤ length piece.now) }
    ensures long { IfSome result (λ _. most < length piece.now) }
    ensures bytes { IfSome result (λ found. most < found.1.bytes) }
{
    match kind {
        Some(kind) if matches!(kind, Kind::Key | Kind::Text | Kind::Bytes) => {
            match cut_of(piece, most) {
                Some(cut) => Some((kind, cut)),
                None => None,
            }
        }
        _ => None,
    }
}

/// Appends a piece, cut if it is a string of more than this many bytes.
fn push_piece(
    out: &mut MarkedText,
    kind: Option<Kind>,
    piece: &[u8],
    most: usize,
) -> Result<(), AllocError>
    ensures { OnOk result ((added : List ℕ)
        × (out.new.text.items ≡ out.old.text.items ++ added)
        × IsElidedToken most piece.now added) }
{
    match cut_of_piece(kind, piece, most) {
        Some((kind, cut)) => push_cut(out, kind, piece, cut)?,
        None => out.push(kind, piece)?,
    }
    Ok(())
}

/// Appends a text of EDN in which each string of more than `most` bytes is cut, and marks its
/// tokens: after the first of its characters, as far as these are at most `most` bytes, come `...`,
/// its quote, and a note of how many bytes it has. Such a text is not to be read back.
///
/// ```rust
/// use cbor_marks::{Kind, Marked, MarkedText, Marks};
/// use cbor_screen::push_elided;
///
/// let marks = Marks::new(alloc);
/// marks.mark(Kind::Bytes, 1, 14);
/// marks.mark(Kind::Text, 16, 20);
/// let mut list = Vec::new(alloc);
/// marks.take(&mut list)?;
/// let mut out = MarkedText::new(alloc);
/// push_elided(&mut out, Marked::new(b"[h'3082024101', \"no\"]", &list), 2)?;
/// let wanted = b"[h'3082...' /5 bytes/, \"no\"]";
/// assert_eq!(rt; out.text.as_slice(), wanted.as_slice());
/// ```
pub fn push_elided(out: &mut MarkedText, text: Marked<'_>, most: usize) -> Result<(), AllocError>
    // The text in tokens; some that are longer than `most` have a part left out.
    ensures elided { OnOk result ((added : List ℕ)
        × (out.new.text.items ≡ out.old.text.items ++ added)
        × IsElided most (rest_of text.entry) added) }

    // A text of at most that many bytes is as it was.
    ensures short { length (rest_of text.entry) ≤ most
        → OnOk result (out.new.text.items ≡ out.old.text.items ++ rest_of text.entry) }
{
    let mut rest = text;
    'pieces: while let Some((kind, piece)) = rest.next_piece() {
        push_piece(out, kind, piece, most)?;
    }
    Ok(())
}
