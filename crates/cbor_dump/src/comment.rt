//! `Comment`: the comment on a line of a dump, such as `array(2)`. `push` appends it to a text.
ghost use Rattle.std.specs.Prelude.{◌≡◌, ◌++◌, OnOk, decimal};
ghost use Rattle.std.specs.String.{string_bytes};
ghost use Rattle.cbor_notes.specs.TagNames.{tag_name};
ghost use Rattle.cbor_dump.specs.Comments as spec;
ghost use Rattle.cbor_dump.specs.mirror.Dumped.{IsHead, head_said};
ghost use Rattle.cbor_dump.specs.mirror.ShownLines.{comment_text, head_comment, major_word};

use cbor_bytes::quoted::push_quoted;
use cbor_grammar::Tag;
use cbor_grammar::encoding::Encoding;
use cbor_grammar::head::ItemHead;
use cbor_grammar::major::Major;
use cbor_notes::{push_element_text, push_escaped_text, push_grouped, push_quoted_bytes, tag_name};
use cbor_tokens::push_hex;
use std::alloc::AllocError;

/// What the comment on a line says about its bytes.
#[derive(Clone, Copy)]
pub enum Comment<'a> {
    /// The number of a head: an integer, a tag or a length.
    Head(Major, u64),
    /// A string or a container with its length or count, or `None` if that is indefinite.
    Counted(Major, Option<u64>),
    /// A float, by its encoding.
    Float(&'a [u8]),
    /// A simple value.
    Simple(u8),
    /// A break.
    Break,
    /// A string without content.
    Empty,
    /// A piece of a byte string, and the whole string.
    Bytes(Option<Encoding>, &'a [u8], &'a [u8]),
    /// A piece of a text.
    Text(&'a str),
    /// An element of the typed array of a tag.
    Element(Tag, &'a [u8]),
    /// A line of a note.
    Note(&'a str),
}

impl<'a> Comment<'a> {
    /// The comment on a head, given with its bytes.
    pub fn of(head: ItemHead, bytes: &'a [u8]) -> Comment<'a>
        ensures { IsHead head bytes.now → comment_text result ≡ head_said head }
    {
        match head {
            ItemHead::Integer(number, _) => Comment::Head(Major::Unsigned, number),
            ItemHead::Negative(number, _) => Comment::Head(Major::Negative, number),
            ItemHead::String(kind, length) => Comment::Counted(kind.major(), length.number()),
            ItemHead::Array(count) => Comment::Counted(Major::Array, count.number()),
            ItemHead::Map(count) => Comment::Counted(Major::Map, count.number()),
            ItemHead::Tag(number, _) => Comment::Head(Major::Tag, number),
            ItemHead::Float(..) => Comment::Float(bytes),
            ItemHead::Simple(value) => Comment::Simple(value),
        }
    }
}

impl Comment<'_> {
    /// Appends the comment to a text. The only error is out of memory.
    pub fn push(&self, out: &mut String) -> Result<(), AllocError>
        ensures { OnOk result (string_bytes out.new ≡ string_bytes out.old
            ++ comment_text self.now) }
    {
        match self {
            Comment::Head(major, number) => push_head(out, *major, *number),
            Comment::Counted(major, count) => push_counted(out, *major, *count),
            Comment::Float(bytes) => push_float(out, bytes),
            Comment::Simple(value) => push_simple(out, *value),
            Comment::Break => out.push_str("break"),
            Comment::Empty => out.push_str("\"\""),
            Comment::Bytes(encoding, whole, piece) => push_bytes(out, *encoding, whole, piece),
            Comment::Text(piece) => {
                out.push('"')?;
                push_escaped_text(out, piece)?;
                out.push('"')
            }
            Comment::Element(tag, piece) => {
                push_element_text(out, tag.0, piece)?;
                Ok(())
            }
            Comment::Note(text) => out.push_str(text),
        }
    }
}

/// Appends the comment on a head that has a number.
fn push_head(out: &mut String, major: Major, number: u64) -> Result<(), AllocError>
    ensures { OnOk result (string_bytes out.new ≡ string_bytes out.old
        ++ head_comment major number) }
{
    match major {
        Major::Unsigned => {
            out.push_str("unsigned(")?;
            push_grouped(out, u128::from(number), false)?;
            out.push(')')
        }
        Major::Negative => {
            out.push_str("negative(")?;
            push_grouped(out, u128::from(number) + 1, true)?;
            out.push(')')
        }
        Major::Tag => push_tag(out, number),
        _ => push_counted(out, major, Some(number)),
    }
}

/// The word for a string or a container.
fn word(major: Major) -> &'static str
    ensures { result.now ≡ major_word major }
{
    match major {
        Major::Bytes => "bytes",
        Major::Text => "text",
        Major::Array => "array",
        Major::Map => "map",
        _ => "",
    }
}

/// Appends a number in decimal digits.
fn push_decimal(out: &mut String, number: u64) -> Result<(), AllocError>
    ensures { OnOk result (string_bytes out.new ≡ string_bytes out.old ++ decimal number) }
{
    let mut digits = itoa::Buffer::new();
    out.push_str(digits.format(number))
}

fn push_float(out: &mut String, bytes: &[u8]) -> Result<(), AllocError>
    ensures { OnOk result (string_bytes out.new ≡ string_bytes out.old
        ++ spec.float_comment bytes.now) }
{
    out.push_str("float(")?;
    push_hex(out, &bytes[bytes.len().min(1)..])?;
    out.push(')')
}

fn push_simple(out: &mut String, value: u8) -> Result<(), AllocError>
    ensures { OnOk result (string_bytes out.new ≡ string_bytes out.old
        ++ spec.simple_comment value) }
{
    let kind = match value {
        20 => "false, ",
        21 => "true, ",
        22 => "null, ",
        23 => "undefined, ",
        24..=32 => "reserved, ",
        _ => "unassigned, ",
    };
    out.push_str(kind)?;
    out.push_str("simple(")?;
    push_decimal(out, u64::from(value))?;
    out.push(')')
}

fn push_counted(out: &mut String, major: Major, count: Option<u64>) -> Result<(), AllocError>
    ensures { OnOk result (string_bytes out.new
        ≡ string_bytes out.old ++ spec.counted_comment (major_word major) count) }
{
    out.push_str(word(major))?;
    out.push('(')?;
    match count {
        Some(count) => push_decimal(out, count)?,
        None => out.push('*')?,
    }
    out.push(')')
}

/// Appends the name of a tag, if it has one, and a comma.
fn push_name(out: &mut String, number: u64) -> Result<(), AllocError>
    ensures { OnOk result (string_bytes out.new ≡ string_bytes out.old
        ++ spec.name_before (tag_name number)) }
{
    match tag_name(number) {
        Some(name) => {
            out.push_str(name)?;
            out.push_str(", ")
        }
        None => Ok(()),
    }
}

fn push_tag(out: &mut String, number: u64) -> Result<(), AllocError>
    ensures { OnOk result (string_bytes out.new ≡ string_bytes out.old ++ spec.tag_comment number) }
{
    push_name(out, number)?;
    out.push_str("tag(")?;
    push_decimal(out, number)?;
    out.push(')')
}

fn push_bytes(
    out: &mut String,
    encoding: Option<Encoding>,
    whole: &[u8],
    piece: &[u8],
) -> Result<(), AllocError>
    ensures { OnOk result (string_bytes out.new
        ≡ string_bytes out.old ++ spec.bytes_comment encoding whole.now piece.now) }
{
    match encoding {
        None => push_quoted_bytes(out, piece),
        Some(Encoding::Base16) => push_quoted(out, piece, Encoding::Base16),
        Some(Encoding::Base64) => push_quoted(out, whole, Encoding::Base64),
        Some(Encoding::Base64Url) => push_quoted(out, whole, Encoding::Base64Url),
    }
}
