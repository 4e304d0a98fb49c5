//! Writes EDN without the indicators that state widths, such as `_1`. The marks of indefinite
//! lengths (`_`) stay. The marks of a text say where its tokens are.
ghost use Rattle.std.specs.Prelude.{◌≡◌, ◌⊎◌, ℕ, ◌≤◌, ◌++◌, List, length, drop};
ghost use Rattle.std.specs.Prelude.{OnOk};
ghost use Rattle.cbor_marks.specs.Remaining.{rest_of};
ghost use Rattle.cbor_screen.specs.Widthless.{IsIndicator, IsWidthless, IsWidthlessToken};

use crate::indicator::indicator_start;
use cbor_marks::{Kind, Marked, MarkedText};
use std::alloc::AllocError;

/// Where a piece ends without the indicator of its width, if it is a token and no comment.
fn kept_end(kind: Option<Kind>, piece: &[u8]) -> usize
    ensures within { result ≤ length piece.now }
    ensures some { (result ≡ length piece.now) ⊎ IsIndicator (drop result piece.now) }
{
    match kind {
        None | Some(Kind::Note) => piece.len(),
        Some(_) => indicator_start(piece),
    }
}

/// Appends a piece without its indicator. What opens an array or a map loses the blank behind its
/// indicator, too, which the rest of the text then goes past.
fn push_piece(
    out: &mut MarkedText,
    kind: Option<Kind>,
    piece: &[u8],
    rest: &mut Marked<'_>,
) -> Result<(), AllocError>
    ensures widthless { OnOk result ((token : List ℕ) × (added : List ℕ)
        × (piece.now ++ rest_of rest.old ≡ token ++ rest_of rest.new)
        × (out.new.text.items ≡ out.old.text.items ++ added) × IsWidthlessToken token added) }
    ensures shorter { length (rest_of rest.new) ≤ length (rest_of rest.old) }
{
    let end = kept_end(kind, piece);
    out.push(kind, &piece[..end])?;
    if end < piece.len() && kind == Some(Kind::Opening) {
        rest.skip_blank();
    }
    Ok(())
}

/// Appends a text of EDN without the widths that indicators state, and marks its tokens: those of
/// numbers, floats, tags, and of the lengths and counts of strings, arrays and maps. Which lengths
/// are indefinite stays. Such a text is for reading: read back, each of these has its shortest
/// width.
///
/// ```rust
/// use cbor_marks::{Kind, Marked, MarkedText, Marks};
/// use cbor_screen::push_without_widths;
///
/// let marks = Marks::new(alloc);
/// marks.mark(Kind::Opening, 0, 3);
/// marks.mark(Kind::Number, 4, 9);
/// marks.mark(Kind::Closing, 9, 10);
/// let mut list = Vec::new(alloc);
/// marks.take(&mut list)?;
/// let mut out = MarkedText::new(alloc);
/// push_without_widths(&mut out, Marked::new(b"[_0 1.5_3]", &list))?;
/// assert_eq!(rt; out.text.as_slice(), b"[1.5]".as_slice());
/// ```
pub fn push_without_widths(out: &mut MarkedText, text: Marked<'_>) -> Result<(), AllocError>
    // The text in tokens; some have the indicator at their end left out.
    ensures widthless { OnOk result ((added : List ℕ)
        × (out.new.text.items ≡ out.old.text.items ++ added)
        × IsWidthless (rest_of text.entry) added) }
{
    let mut rest = text;
    'pieces: while let Some((kind, piece)) = rest.next_piece() {
        push_piece(out, kind, piece, &mut rest)?;
    }
    Ok(())
}
