//! Computes the width of the left column of a dump, which has the hex digits, from the bytes of the
//! item. `text_cut`: how many bytes the first piece of a text takes. `longest_piece`: the length of
//! the longest piece of a string.
//!
//! A function that reads an item or a part of one takes the remaining bytes and returns those after
//! it. The item in a byte string is shown only in a note, whose lines have no digits. So only the
//! bytes of the string count.
ghost use Rattle.std.specs.Prelude.{◌≡◌, ◌<◌, ◌≤◌, ◌+◌, ◌-◌, length, max, IfOk, IfErr};
ghost use Rattle.std.specs.Str.{IsCharBoundary};
ghost use Rattle.cbor_notes.specs.Layout.{width_of};
ghost use Rattle.cbor_dump.specs.Dump.{lines_at_level, top};
ghost use Rattle.cbor_dump.specs.Pieces.{text_cut as cut_of, text_pieces};
ghost use Rattle.cbor_grammar.specs.Reading.{Fails, count_width};
ghost use Rattle.cbor_grammar.specs.WellFormed.{deepest};
ghost use Rattle.cbor_grammar.specs.mirror.AtLevel.{read_at, read_behind};
ghost use Rattle.cbor_dump.specs.mirror.Dumped.{tag_number};
ghost use Rattle.cbor_grammar.specs.mirror.StringView.{bytes_of, kind_of};
ghost use Rattle.cbor_dump.specs.mirror.Widths as spec;
ghost use Rattle.cbor_dump.specs.mirror.Widths.{IsPlace, Measured, MeasuredBehind};

use cbor_bytes::borrowed::{next_chunk, read_borrowed};
use cbor_bytes::head::{no_level_left, read_head};
use cbor_grammar::Tag;
use cbor_grammar::argument::Argument;
use cbor_grammar::head::ItemHead;
use cbor_grammar::level::DEEPEST;
use cbor_grammar::strings::{StringContent, StringKind};
use cbor_notes::element_size;

/// The most bytes of a string that one line shows.
pub const PIECE: usize = 16;

/// The most bytes of a text that is shown in one line.
pub const SHORT_TEXT: usize = 24;

/// Where in a dump an item is, as far as its digits depend on it.
#[derive(Clone, Copy)]
pub(crate) struct DumpPlace {
    /// The item's level: 1 plus the number of items around it, including those that embed it.
    pub(crate) level: u8,
    /// The depth of its lines, which are indented by it.
    pub(crate) depth: usize,
    /// The tag right above it.
    pub(crate) tag: Option<Tag>,
}

impl DumpPlace {
    /// The place in a container.
    fn inside(self) -> DumpPlace
        requires place { IsPlace self }
        requires level { self.level ≤ deepest }
        ensures level { result.level ≡ self.level + 1 }
        ensures depth { result.depth ≡ self.depth + 1 }
        ensures tag { tag_number result.tag ≡ None }
    {
        DumpPlace {
            level: self.level + 1,
            depth: self.depth + 1,
            tag: None,
        }
    }

    /// The place right below a tag.
    fn below(self, tag: Tag) -> DumpPlace
        requires place { IsPlace self }
        requires level { self.level ≤ deepest }
        ensures level { result.level ≡ self.level + 1 }
        ensures depth { result.depth ≡ self.depth + 1 }
        ensures tag { tag_number result.tag ≡ Some tag.0 }
    {
        DumpPlace {
            level: self.level + 1,
            depth: self.depth + 1,
            tag: Some(tag),
        }
    }
}

/// Returns the width of the left column of the dump of the item at the front, which is at `level`,
/// and the bytes after the item. The errors are those of reading the item, but never `Memory`.
pub fn dump_width(bytes: &[u8], level: u8) -> cbor_grammar::Result<(usize, &[u8])>
    requires some { 1 ≤ level }
    requires level { level ≤ deepest + 1 }
    ensures width { IfOk result (λ found. Measured (λ i. width_of (lines_at_level level top 0 i))
        (read_at level bytes.now) found.1.now 0 found.0) }
    ensures refused { IfErr result (λ e. Fails e (read_at level bytes.now)) }
{
    let mut reach = Reach { widest: 0 };
    let place = DumpPlace {
        level,
        depth: 0,
        tag: None,
    };
    let rest = reach.front(bytes, place)?;
    Ok((reach.widest, rest))
}

/// How far the digits of the lines so far reach.
#[derive(Drop)]
pub struct Reach {
    /// The column after the last of them.
    pub widest: usize,
}

impl Reach {
    /// Counts a line of this many digits and blanks. One without digits does not count.
    pub fn line(&mut self, depth: usize, digits: usize)
        requires depth { depth ≤ deepest + 2 }
        requires digits { digits ≤ 64 }
        ensures { self.new.widest ≡ max self.old.widest (spec.reached depth digits) }
    {
        if digits > 0 {
            self.widest = self.widest.max(3 * depth + digits);
        }
    }

    /// Counts the line of a head of this many bytes. A blank follows the first if there are others.
    pub fn head(&mut self, depth: usize, len: usize)
        requires depth { depth ≤ deepest + 2 }
        requires len { len ≤ 9 }
        ensures { self.new.widest ≡ max self.old.widest (spec.head_reach depth len) }
    {
        let digits = if len <= 1 { 2 * len } else { 2 * len + 1 };
        self.line(depth, digits);
    }

    /// Counts the lines of a string's content, whose longest piece has this many bytes.
    pub fn pieces(&mut self, depth: usize, longest: usize)
        requires depth { depth ≤ deepest + 2 }
        requires longest { longest ≤ SHORT_TEXT }
        ensures { self.new.widest ≡ max self.old.widest (spec.piece_reach depth longest) }
    {
        self.line(depth, 2 * longest);
    }

    /// Counts the line of the break that ends a container, if its length is indefinite.
    fn end(&mut self, depth: usize, count: Argument)
        requires depth { depth ≤ deepest + 2 }
        ensures { self.new.widest ≡ max self.old.widest
            (spec.close_width depth (count_width count)) }
    {
        match count {
            Argument::Number(..) => {}
            Argument::Indefinite => self.head(depth, 1),
        }
    }

    /// Counts the item at the front.
    #[cycle(reach)]
    fn front<'a>(&mut self, bytes: &'a [u8], place: DumpPlace) -> cbor_grammar::Result<&'a [u8]>
        requires { IsPlace place }
        ensures measured { IfOk result (λ rest. Measured (spec.width_there place)
            (read_at place.level bytes.now) rest.now self.old.widest self.new.widest) }
        ensures refused { IfErr result (λ e. Fails e (read_at place.level bytes.now)) }
    {
        if place.level > DEEPEST {
            return Err(no_level_left(bytes));
        }
        let (head, rest) = read_head(bytes)?;
        self.head(place.depth, shown_length(head, bytes.len() - rest.len()));
        match head {
            ItemHead::String(kind, len) => self.string((kind, len), rest, place),
            ItemHead::Array(count) => self.items(count, rest, place),
            ItemHead::Map(count) => self.pairs(count, rest, place),
            ItemHead::Tag(tag, _) => self.front(rest, place.below(Tag(tag))),
            _ => Ok(rest),
        }
    }

    /// Counts the items of an array after its head, with this count of them.
    #[cycle(reach)]
    #[inline(never)]
    fn items<'a>(
        &mut self,
        count: Argument,
        bytes: &'a [u8],
        place: DumpPlace,
    ) -> cbor_grammar::Result<&'a [u8]>
        requires place { IsPlace place }
        requires level { place.level ≤ deepest }
        ensures measured { IfOk result (λ rest. MeasuredBehind place
            (ItemHead.Array count) bytes.now rest.now self.old.widest self.new.widest) }
        ensures refused { IfErr result (λ e. Fails e (read_behind place.level
            (ItemHead.Array count) bytes.now)) }
    {
        let inner = place.inside();
        let mut rest = bytes;
        let mut held = 0;
        'items: loop {
            if let Some(after) = count.after_end(held, rest) {
                self.end(inner.depth, count);
                return Ok(after);
            }
            rest = self.front(rest, inner)?;
            held += 1;
        }
    }

    /// Counts the pairs of a map after its head, with this count of them.
    #[cycle(reach)]
    #[inline(never)]
    fn pairs<'a>(
        &mut self,
        count: Argument,
        bytes: &'a [u8],
        place: DumpPlace,
    ) -> cbor_grammar::Result<&'a [u8]>
        requires place { IsPlace place }
        requires level { place.level ≤ deepest }
        ensures measured { IfOk result (λ rest. MeasuredBehind place
            (ItemHead.Map count) bytes.now rest.now self.old.widest self.new.widest) }
        ensures refused { IfErr result (λ e. Fails e (read_behind place.level
            (ItemHead.Map count) bytes.now)) }
    {
        let inner = place.inside();
        let mut rest = bytes;
        let mut held = 0;
        'pairs: loop {
            if let Some(after) = count.after_end(held, rest) {
                self.end(inner.depth, count);
                return Ok(after);
            }
            let value = self.front(rest, inner)?;
            rest = self.front(value, inner)?;
            held += 1;
        }
    }

    /// Counts a string after its head, by its kind and length.
    fn string<'a>(
        &mut self,
        head: (StringKind, Argument),
        bytes: &'a [u8],
        place: DumpPlace,
    ) -> cbor_grammar::Result<&'a [u8]>
        requires place { IsPlace place }
        requires level { place.level ≤ deepest }
        ensures measured { IfOk result (λ rest. MeasuredBehind place
            (ItemHead.String head.0 head.1) bytes.now rest.now self.old.widest self.new.widest) }
        ensures refused { IfErr result (λ e. Fails e (read_behind place.level
            (ItemHead.String head.0 head.1) bytes.now)) }
    {
        let (kind, len) = head;
        match len {
            Argument::Number(count, _) => {
                let (content, rest) = read_borrowed(kind, count, bytes)?;
                self.pieces(place.depth + 1, longest_piece(content, place.tag));
                Ok(rest)
            }
            Argument::Indefinite => self.chunks(kind, bytes, place),
        }
    }

    /// Counts the chunks of an indefinite string after its opening byte.
    #[inline(never)]
    fn chunks<'a>(
        &mut self,
        kind: StringKind,
        bytes: &'a [u8],
        place: DumpPlace,
    ) -> cbor_grammar::Result<&'a [u8]>
        requires place { IsPlace place }
        requires level { place.level ≤ deepest }
        ensures measured { IfOk result (λ rest. MeasuredBehind place
            (ItemHead.String kind Argument.Indefinite) bytes.now rest.now self.old.widest
            self.new.widest) }
        ensures refused { IfErr result (λ e. Fails e (read_behind place.level
            (ItemHead.String kind Argument.Indefinite) bytes.now)) }
    {
        let depth = place.depth + 1;
        let mut rest = bytes;
        'chunks: loop {
            let (chunk, after) = next_chunk(kind, rest)?;
            let Some((content, _)) = chunk else {
                self.head(depth, 1);
                return Ok(after);
            };
            self.chunk(depth, content, rest.len() - after.len());
            rest = after;
        }
    }

    /// Counts a chunk, which takes this many bytes with its head.
    fn chunk(&mut self, depth: usize, content: StringContent<'_>, taken: usize)
        requires depth { depth ≤ deepest + 1 }
        requires taken { length (bytes_of content) ≤ taken }
        requires head { taken ≤ length (bytes_of content) + 9 }
        ensures { self.new.widest ≡ max self.old.widest
            (max (spec.head_reach depth (taken - length (bytes_of content.entry)))
            (spec.content_width (kind_of content.entry) depth None (bytes_of content.entry))) }
    {
        self.head(depth, taken - content.as_bytes().len());
        self.pieces(depth + 1, longest_piece(content, None));
    }
}

/// How many bytes a dump shows for a head that took this many. The number is the same, except that
/// a simple value below 24 is shown in one byte.
fn shown_length(head: ItemHead, taken: usize) -> usize
    ensures { result ≡ spec.shown_length head taken }
{
    match head {
        ItemHead::Simple(value) => { if value < 24 { 1 } else { taken } }
        _ => taken,
    }
}

/// The length of the longest piece of a string's content, below that tag.
pub fn longest_piece(content: StringContent<'_>, tag: Option<Tag>) -> usize
    ensures longest { result ≡ spec.longest_piece (kind_of content.entry) (tag_number tag)
        (bytes_of content.entry) }
    ensures short { result ≤ SHORT_TEXT }
{
    match content {
        StringContent::Bytes(bytes) => bytes_piece(bytes.len(), tag),
        StringContent::Text(text) => text_piece(text),
    }
}

/// The length of the longest piece of a byte string of this length. If the tag is that of a typed
/// array and the bytes are whole elements, each piece is an element.
fn bytes_piece(len: usize, tag: Option<Tag>) -> usize
    ensures longest { result ≡ spec.tagged_piece (tag_number tag) len }
    ensures short { result ≤ PIECE }
{
    let Some(tag) = tag else {
        return len.min(PIECE);
    };
    match element_size(tag.0) {
        Some(size) if len % size == 0 => len.min(size),
        _ => len.min(PIECE),
    }
}

/// The length of the longest piece of a text. No piece is longer than `PIECE`, so the search ends
/// at a piece of that length: in ASCII, at the first.
fn text_piece(text: &str) -> usize
    ensures longest { result ≡ spec.longest (text_pieces text.now) }
    ensures short { result ≤ SHORT_TEXT }
{
    if text.len() <= SHORT_TEXT {
        return text.len();
    }
    let mut rest = text;
    let mut longest = 0;
    'pieces: while longest < PIECE && !rest.is_empty() {
        let (piece, after) = rest.split_at(text_cut(rest));
        longest = longest.max(piece.len());
        rest = after;
    }
    longest
}

/// How many bytes the first piece of a text takes: at most `PIECE`, and only whole characters.
pub fn text_cut(rest: &str) -> usize
    requires { 0 < length rest.now }
    ensures cut { result ≡ cut_of rest.now }
    ensures boundary { IsCharBoundary rest.now result }
{
    rest.floor_char_boundary(PIECE)
}
