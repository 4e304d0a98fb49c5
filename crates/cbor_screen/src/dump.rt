//! Writes dumps for people. A `DumpStyle` says whether they have names in their comments, show the
//! items in byte strings, and cut long strings. The bytes that are shown are those of the input,
//! also the second byte of a simple value in a non-minimal encoding (`f8 00`).
//!
//! Lines, comments and notes are those of `cbor_dump`. A first walk over the bytes finds how wide
//! the column of digits is, and a second one writes the lines.

mod beside;
mod cut;
mod embedded;
mod lines;
mod measure;
mod partial;
mod walk;
mod write;

use beside::Beside;
use cbor_dump::push_bytes_to_hex_partial;
use cbor_grammar::Error;
use cbor_names::{Known, Names, notes_of};
use cbor_notes::Note;
use embedded::write_all;
use measure::Measure;
pub use partial::push_partial_dump;
use walk::Walk;
use write::Writing;

/// How a dump is shown.
#[derive(Clone, Copy)]
pub struct DumpStyle<'a> {
    /// The tables of the names that stand in comments, if any do.
    pub names: Option<&'a Names>,
    /// What is known of the item. `None`: its tags tell.
    pub known: Option<Known>,
    /// Whether a byte string that is an array, a map or a tagged item is shown as that item.
    pub embedded: bool,
    /// The length in bytes of the longest string that is shown whole, if longer ones are cut.
    pub elide: Option<usize>,
}

impl DumpStyle<'_> {
    /// Neither names nor items in byte strings, and all strings whole.
    pub const PLAIN: DumpStyle<'static> = DumpStyle {
        names: None,
        known: None,
        embedded: false,
        elide: None,
    };

    /// Whether the dump is that of `cbor_dump`, but for simple values in a non-minimal encoding.
    fn is_plain(&self) -> bool {
        self.names.is_none() && !self.embedded && self.elide.is_none()
    }
}

/// Appends the dump of the item at the front of the bytes, and returns the number of bytes that it
/// takes. It has the lines of [`push_bytes_to_hex`] and the digits of the bytes that are there; a
/// dump of `f8 00`, which RFC 8949 forbids, has both.
///
/// - With `names` the name of an item stands before the comment of its head, and its meaning after
///   it, as in `# /alg/ unsigned(1)` and `# negative(-7) /ES256/`. A name that has a line feed is
///   left out.
/// - With `embedded` the lines of an item stand in place of those of the byte string that it is in,
///   one step deeper than the head of the string, in at most 16 byte strings in each other. Strings
///   in chunks and those whose tag says what they are stay as they are.
/// - With `elide` a string of more bytes has only its first bytes: at most this many, as far as
///   characters and elements are whole. After them come `...` in place of further digits and in the
///   comment, and a note of how many bytes the string has. Such a dump is not to be read back.
///
/// The errors are those of [`push_bytes_to_hex`]: the first one from the left if no whole item is
/// at the front, and else `Memory`. After an error `out` may end with some lines of the dump.
///
/// ```rust
/// use cbor_screen::{DumpStyle, push_dump};
///
/// let mut out = String::new(alloc);
/// let used = push_dump(&mut out, b"\x41\x80\x01", &DumpStyle::PLAIN)?;
/// assert_eq!(rt; used, 2);
/// assert_eq!(rt; out.as_str(), "41    # bytes(1)\n   80 #   \"\\x80\"\n");
/// let style = DumpStyle {
///     embedded: true,
///     ..DumpStyle::PLAIN
/// };
/// out.clear();
/// push_dump(&mut out, b"\x41\x80\x01", &style)?;
/// assert_eq!(rt; out.as_str(), "41    # bytes(1)\n   80 #   array(0)\n");
/// ```
///
/// [`push_bytes_to_hex`]: cbor_dump::push_bytes_to_hex
pub fn push_dump(out: &mut String, bytes: &[u8], style: &DumpStyle<'_>) -> Result<usize, Error> {
    let alloc = *out.allocator();
    if style.is_plain() && !may_hold_long_simple(bytes) {
        return push_bytes_to_hex_partial(alloc, bytes, out)?.ok_or(Error::CutShort);
    }
    let mut measure = Measure::new();
    let mut walk = Walk::new(alloc, bytes, style);
    walk.item(&mut measure)?;
    let used = bytes.len().saturating_sub(walk.rest().len());
    let item = bytes.get(..used).unwrap_or(bytes);
    push_named(out, item, (style, measure.width()))?;
    Ok(used)
}

/// Appends the lines of an item, or of the part of it that is there, whose digits are in a column
/// of this width, with its names.
fn push_named(out: &mut String, item: &[u8], how: (&DumpStyle<'_>, usize)) -> Result<(), Error> {
    let alloc = *out.allocator();
    let (style, _) = how;
    match style.names {
        Some(names) => {
            let found = notes_of(alloc, item, names, style.known)?;
            let list = found.list(alloc)?;
            push_lines(out, item, how, &list)
        }
        None => push_lines(out, item, how, &[]),
    }
}

/// Whether the two bytes of a simple value in a non-minimal encoding (`f8 00`) stand anywhere, at a
/// head or not. Most inputs have none; their plain dump is that of `cbor_dump`, which takes two
/// thirds of the instructions of the walk.
fn may_hold_long_simple(bytes: &[u8]) -> bool {
    bytes
        .windows(2)
        .any(|pair| matches!(pair, [0xf8, value] if *value < 24))
}

/// Appends these lines, with these notes.
fn push_lines(
    out: &mut String,
    item: &[u8],
    how: (&DumpStyle<'_>, usize),
    notes: &[Note<'_>],
) -> Result<(), Error> {
    let (style, width) = how;
    let mut writing = Writing::new(out, width, Beside::new(item.len(), notes));
    let walk = Walk::new(*out.allocator(), item, style);
    let answer = write_all(*out.allocator(), &mut writing, walk);
    writing.give_back(out);
    answer
}
