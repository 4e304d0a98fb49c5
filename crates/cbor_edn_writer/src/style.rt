//! `EdnStyle`: how EDN is laid out (lines and columns), and whether it shows notes, widths, and
//! byte strings as the items in them. `NotedStyle`: a style with the notes of a caller, and with
//! where the tokens of the text are marked.

use cbor_marks::Marks;
use cbor_notes::Note;

/// How EDN is written: what is shown, and how it is laid out. The same bytes are read back in each
/// style.
///
/// ```rust
/// use cbor_edn::{EdnStyle, push_bytes_to_edn};
///
/// let style = EdnStyle {
///     widths: true,
///     ..EdnStyle::LINE
/// };
/// let mut out = String::new(alloc);
/// push_bytes_to_edn(alloc, b"\x18\x2a", style, &mut out)?;
/// assert_eq!(rt; out.as_str(), "42_0");
/// ```
#[derive(Clone, Copy, PartialEq, Eq, Debug)]
pub struct EdnStyle {
    /// Whether a container that does not fit on one line takes a line for each member.
    pub lines: bool,
    /// Whether comments say what dates, addresses and big numbers are, and which characters bytes
    /// are.
    pub notes: bool,
    /// Whether byte strings that are an array, a map or a tagged item are shown as that item.
    pub embedded: bool,
    /// Whether each float, and each number above 23, has its width beside it, even the shortest
    /// width.
    pub widths: bool,
    /// The columns of a line, if `lines` is set. A container is on one line if it fits there, with
    /// all that stands before and after it. A line may always have [`LEAST_COLUMNS`] after its
    /// indentation.
    ///
    /// [`LEAST_COLUMNS`]: EdnStyle::LEAST_COLUMNS
    pub columns: u16,
}

impl EdnStyle {
    /// The columns that a line may have after its indentation, however deep that is.
    pub const LEAST_COLUMNS: u16 = 20;

    /// On one line, without notes.
    pub const LINE: EdnStyle = EdnStyle {
        lines: false,
        notes: false,
        embedded: false,
        widths: false,
        columns: 80,
    };

    /// Over several lines of 80 columns, with notes.
    pub const PRETTY: EdnStyle = EdnStyle {
        lines: true,
        notes: true,
        embedded: false,
        widths: false,
        columns: 80,
    };
}

/// How EDN is written, with notes on items, and where its tokens are marked.
#[derive(Clone, Copy)]
pub struct NotedStyle<'a> {
    /// How it is written. Without [`EdnStyle::notes`] no comment is written, and none of these
    /// notes either.
    pub style: EdnStyle,
    /// The notes in the order of their items, so their [`Note::start`] rise. In another order some
    /// notes are left out.
    pub notes: &'a [Note<'a>],
    /// Where the tokens of the text are marked, if they are to be.
    pub marks: Option<&'a Marks>,
}
