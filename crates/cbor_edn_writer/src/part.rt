//! Writes one part of a container in EDN. The caller writes the brackets and commas, as `--partial`
//! of `cborcat` does for a truncated item. Also writes the caller's note before an item.

ghost use Rattle.std.specs.Prelude.{◌≤◌, ◌*◌};
ghost use Rattle.cbor_grammar.specs.NotationText.{indent_of};
ghost use Rattle.cbor_grammar.specs.WellFormed.{deepest};

use crate::print::Edn;
use crate::print::line::Line;
use crate::print::noted::NotedEdn;
use crate::print::notes::push_before;
use crate::print::place::EdnPlace;
use crate::style::NotedStyle;
use cbor_grammar::layout::Layout;
use cbor_grammar::level::DEEPEST;
use cbor_notation_writer::from_bytes::push_front;
use std::alloc::AllocError;

/// Where a part of a container is written.
#[derive(Clone, Copy)]
pub struct PartPlace<'a> {
    /// What is shown, with notes on the items of the outermost bytes.
    pub noted: NotedStyle<'a>,
    /// The level of the part; the outermost item is at level 1.
    pub level: u8,
    /// The blanks before each line of the part.
    pub indent: usize,
    /// Where the bytes that the part is read from end in the outermost bytes.
    pub end: usize,
}

impl<'a> PartPlace<'a> {
    /// The place, for the printer. A comma follows the part on its line.
    fn printed(&self, out: &String) -> EdnPlace<'a>
        ensures level { result.level ≤ deepest }
        ensures indent { indent_of result.layout ≤ 4 * result.level }
    {
        let style = self.noted.style;
        let level = self.level.max(1).min(DEEPEST);
        let indent = self.indent.min(4 * usize::from(level));
        EdnPlace {
            level,
            layout: if style.lines {
                Layout::Pretty { indent }
            } else {
                Layout::Compact
            },
            line: Line {
                breaks: style.lines,
                after: 1,
            },
            ..EdnPlace::new(*out.allocator(), self.noted, self.end)
        }
    }
}

/// Appends the text of the item at the front of the bytes, and returns the bytes after it. The text
/// so far ends where the part begins, such as after its key.
///
/// The errors are those of [`push_bytes_to_edn`], and after one the text may have a part of the
/// item.
///
/// [`push_bytes_to_edn`]: crate::push_bytes_to_edn
pub fn push_part_to_edn<'b>(
    out: &mut String,
    bytes: &'b [u8],
    place: PartPlace<'_>,
) -> cbor_grammar::Result<&'b [u8]> {
    let printed = place.printed(out);
    if place.noted.notes.is_empty() {
        push_front::<Edn<'_>>(out, bytes, &printed)
    } else {
        push_front::<NotedEdn<'_>>(out, bytes, &printed)
    }
}

/// Appends the note before the item that begins at `start`, and a blank; nothing if it has none.
pub fn push_note_before(
    out: &mut String,
    noted: NotedStyle<'_>,
    start: usize,
) -> Result<(), AllocError> {
    let outermost = EdnPlace::new(*out.allocator(), noted, 0);
    push_before(out, &outermost.with_note(start as u64))
}
