//! `Lines`: the trait that receives the lines of a dump from the walk over the bytes. `measure.rt`
//! and `write.rt` implement it.
ghost use Rattle.std.specs.Prelude.{◌≤◌};

use cbor_dump::comment::Comment;
use cbor_dump::context::DumpContext;
use cbor_grammar::Tag;
use cbor_grammar::head::ItemHead;
use cbor_grammar::strings::StringContent;
use std::alloc::AllocError;

/// No line is deeper.
pub(super) const MOST_DEPTH: usize = 130;

/// A number, or the greatest that it may be.
pub(super) fn at_most(number: usize, most: usize) -> usize
    ensures { result ≤ most }
{
    if number < most { number } else { most }
}

/// A line of a string that is cut.
#[derive(Clone, Copy)]
pub(super) struct CutLine<'a> {
    /// The bytes that it shows.
    pub bytes: &'a [u8],
    /// What it says of them.
    pub comment: Comment<'a>,
    /// Whether the text in quotes at the end of that goes on.
    pub goes_on: bool,
    /// The length of the whole string, if this is its last line, after which it is cut.
    pub cut: Option<usize>,
}

/// What takes the lines of a dump.
pub(super) trait Lines {
    /// Whether notes are shown.
    const SHOWS_NOTES: bool;

    /// Takes the line of a head, whose bytes these are. From it on this many bytes remain.
    fn head(
        &mut self,
        depth: usize,
        head: (ItemHead, &[u8]),
        remaining: usize,
    ) -> Result<(), AllocError>;

    /// Takes the lines of the content of a string.
    fn content(
        &mut self,
        context: &DumpContext,
        content: StringContent<'_>,
    ) -> Result<(), AllocError>;

    /// Takes a line of the content of a string that is cut.
    fn cut_line(&mut self, depth: usize, line: &CutLine<'_>) -> Result<(), AllocError>;

    /// Takes the line of a break.
    fn end(&mut self, depth: usize) -> Result<(), AllocError>;

    /// Takes the notes on the value at the front of the bytes, which is right below a tag.
    fn notes(&mut self, context: &DumpContext, tag: Tag, value: &[u8]) -> Result<(), AllocError>;
}
