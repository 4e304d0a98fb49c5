//! Colours texts for a terminal: writes an escape sequence before and after each token. The marks
//! of a text say where its tokens are.
ghost use Rattle.std.specs.Prelude.{◌≡◌, ℕ, ◌++◌, List, OnOk};
ghost use Rattle.cbor_marks.specs.Lines.{Lacks};
ghost use Rattle.cbor_marks.specs.Remaining.{rest_of};
ghost use Rattle.cbor_screen.specs.Colored.{IsColored, in_color, in_color_of};
ghost use Rattle.cbor_screen.specs.Sgr.{without_sgr};

use crate::sgr;
use cbor_marks::{Kind, Marked};
use std::alloc::AllocError;

/// Appends a token in the colour of its kind, and what ends that colour.
///
/// ```rust
/// use cbor_marks::Kind;
/// use cbor_screen::push_in_color;
///
/// let mut out = Vec::new(alloc);
/// push_in_color(&mut out, Kind::Fault, b"^^")?;
/// assert_eq!(rt; out.as_slice(), b"\x1b[1;31m^^\x1b[0m".as_slice());
/// ```
pub fn push_in_color(out: &mut Vec<u8>, kind: Kind, token: &[u8]) -> Result<(), AllocError>
    ensures { OnOk result (out.new.items ≡ out.old.items ++ in_color kind token.now) }
{
    out.extend_from_slice(sgr::start(kind))?;
    out.extend_from_slice(token)?;
    out.extend_from_slice(sgr::end(kind))
}

/// Appends a piece in the colour of its kind, if it is a token.
pub(crate) fn push_piece(
    out: &mut Vec<u8>,
    kind: Option<Kind>,
    piece: &[u8],
) -> Result<(), AllocError>
    ensures { OnOk result (out.new.items ≡ out.old.items ++ in_color_of kind piece.now) }
{
    match kind {
        Some(kind) => push_in_color(out, kind, piece),
        None => out.extend_from_slice(piece),
    }
}

/// Appends a text with its tokens in colours. Each colour ends before the line does, so lines can
/// be cut apart.
///
/// ```rust
/// use cbor_marks::{Kind, Marked, Marks};
/// use cbor_screen::push_colored;
///
/// let marks = Marks::new(alloc);
/// marks.mark(Kind::Key, 1, 2);
/// marks.mark(Kind::Number, 4, 8);
/// let mut list = Vec::new(alloc);
/// marks.take(&mut list)?;
/// let mut out = Vec::new(alloc);
/// push_colored(&mut out, Marked::new(b"{1: true}\n", &list))?;
/// let wanted = b"{\x1b[1;34m1\x1b[0m: \x1b[36mtrue\x1b[0m}\n";
/// assert_eq!(rt; out.as_slice(), wanted.as_slice());
/// ```
pub fn push_colored(out: &mut Vec<u8>, text: Marked<'_>) -> Result<(), AllocError>
    // The text in spans, each in its colour between a sequence and the one that ends it. None that
    // has a colour has a line feed.
    ensures colored { OnOk result ((added : List ℕ)
        × (out.new.items ≡ out.old.items ++ added) × IsColored (rest_of text.entry) added) }

    // Without the sequences it is the same text, if that has no ESC.
    ensures same { OnOk result ((added : List ℕ)
        × (out.new.items ≡ out.old.items ++ added)
        × (Lacks 27 (rest_of text.entry) → without_sgr added ≡ rest_of text.entry)) }
{
    let mut rest = text;
    'pieces: while let Some((kind, piece)) = rest.next_piece() {
        push_piece(out, kind, piece)?;
    }
    Ok(())
}
