//! `Mark`: a constant piece of HTML in the lines of a page, such as the one that opens a line or
//! the one that says of what kind an item is.
ghost use Rattle.std.specs.Prelude.{◌≡◌};
ghost use Rattle.cbor_page.specs.Markup.{mark_text};

/// A constant piece of a line.
#[derive(Clone, Copy, PartialEq, Eq, Debug)]
pub(crate) enum Mark {
    /// What opens a line.
    Line,
    /// What opens the anchor of the offset, up to its id.
    Offset,
    /// What is between the id of an anchor and its link.
    Link,
    /// What ends a list of attributes.
    Tag,
    /// What closes an anchor.
    Anchor,
    /// What opens the cell of the bytes.
    Bytes,
    /// What closes the cell of the bytes and opens that of the text.
    Text,
    /// What is before the depth of a text.
    Depth,
    /// What is before the words for a line that is folded.
    Shut,
    /// What opens a head, up to its kind, and what closes it.
    Head,
    HeadEnd,
    /// What opens content, up to its kind, and what closes it.
    Content,
    ContentEnd,
    /// A blank between two runs of bytes.
    Blank,
    /// What opens a span of text, up to its kind, and what closes it, a cell or a line.
    Span,
    SpanEnd,
    /// The kinds of items.
    Number,
    String,
    ByteString,
    TagNumber,
    Simple,
    Container,
    /// The kind of a name or a note.
    Note,
    /// The kind of what is wrong.
    Wrong,
    /// What is added to the kind of a key.
    Key,
    /// What is before the place of the first byte of an item, of the byte after it, and its step.
    Start,
    End,
    Step,
    /// What opens a fold and its first line, what ends that line, and what closes the fold.
    Fold,
    FoldLine,
    FoldEnd,
    /// What opens the line that says what is wrong, and what closes it.
    Fault,
    FaultEnd,
}

impl Mark {
    /// Returns the piece.
    pub(crate) fn text(self) -> &'static [u8]
        ensures { result.now ≡ mark_text self }
    {
        match self {
            Mark::Line => b"<span class=\"l\">",
            Mark::Offset => b"<a class=\"o\" id=\"x",
            Mark::Link => b"\" href=\"#x",
            Mark::Tag => b"\">",
            Mark::Anchor => b"</a>",
            Mark::Bytes => b"<span class=\"h\">",
            Mark::Text => b"</span><span class=\"t",
            Mark::Depth => b" d",
            Mark::Shut => b"\" data-n=\"",
            Mark::Head => b"<b class=\"",
            Mark::HeadEnd => b"</b>",
            Mark::Content => b"<i class=\"",
            Mark::ContentEnd => b"</i>",
            Mark::Blank => b" ",
            Mark::Span => b"<span class=\"",
            Mark::SpanEnd => b"</span>",
            Mark::Number => b"n",
            Mark::String => b"s",
            Mark::ByteString => b"b",
            Mark::TagNumber => b"g",
            Mark::Simple => b"v",
            Mark::Container => b"c",
            Mark::Note => b"m",
            Mark::Wrong => b"e",
            Mark::Key => b" k",
            Mark::Start => b"\" data-s=\"",
            Mark::End => b"\" data-e=\"",
            Mark::Step => b"\" data-k=\"",
            Mark::Fold => b"<details open><summary>",
            Mark::FoldLine => b"</summary>",
            Mark::FoldEnd => b"</details>",
            Mark::Fault => b"<p class=\"f",
            Mark::FaultEnd => b"</p>",
        }
    }
}
