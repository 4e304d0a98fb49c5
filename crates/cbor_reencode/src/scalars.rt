//! Re-encodes items that hold no other item: integers, floats, strings and simple values. Also
//! writes the heads of tags.
ghost use Rattle.std.specs.Prelude.{◌≡◌, ◌⊎◌, ◌<◌, ◌≤◌, ◌++◌, ◌∷◌, length, Ok, None, true};
ghost use Rattle.std.specs.Prelude.{IfOk, MatchOption};
ghost use Rattle.cbor_grammar.specs.Head.{FitsStated, break_byte};
ghost use Rattle.cbor_grammar.specs.StringKind.{major_of};
ghost use Rattle.cbor_grammar.specs.Written.{encoded_head, encoded_float, encoded_simple};
ghost use Rattle.cbor_grammar.specs.mirror.MajorNumber.{major_number};
ghost use Rattle.cbor_grammar.specs.Reading.{read_head};
ghost use Rattle.cbor_grammar.specs.declared.head.ItemHead.TheVariants as item_head;
ghost use Rattle.cbor_floats.specs.Preferred.{FitsWidth};
ghost use Rattle.cbor_floats.specs.Value.{bits_of};
ghost use Rattle.cbor_rules.specs.FirstViolation.{opened, two_byte_violation};
ghost use Rattle.cbor_reencode.specs.mirror.Chosen.{chosen_width, float_width_of};
ghost use Rattle.cbor_reencode.specs.mirror.Rewritten.{ContentAt, ChunkAt, Joined};
ghost use Rattle.cbor_reencode.specs.mirror.Rewritten.{RewrittenChunks, RewrittenAtom};

use crate::encoder::Encoder;
use crate::numbers::push_reduced;
use cbor_bytes::strings::read_chunk_length;
use cbor_bytes::write::{push_close, push_float, push_head, push_open, push_simple};
use cbor_floats::EncodedFloat;
use cbor_grammar::argument::Argument;
use cbor_grammar::head::ItemHead;
use cbor_grammar::major::Major;
use cbor_grammar::strings::StringKind;
use cbor_grammar::{Error, FloatWidth, IntegerWidth};
use cbor_rules::float_of;
use std::alloc::{AllocError, Global};

/// Writes a float in its width.
pub fn push_encoded(out: &mut Vec<u8>, float: EncodedFloat) -> Result<(), AllocError>
    requires { FitsWidth float }
    ensures { IfOk result (λ x. out.new.items
        ≡ out.old.items ++ encoded_float (bits_of float) (float_width_of float)) }
{
    match float {
        EncodedFloat::Half(bits) => push_float(out, u64::from(bits), FloatWidth::Sixteen),
        EncodedFloat::Single(bits) => push_float(out, u64::from(bits), FloatWidth::ThirtyTwo),
        EncodedFloat::Double(bits) => push_float(out, bits, FloatWidth::SixtyFour),
    }
}

/// Writes a definite-length string.
pub fn push_content(
    out: &mut Vec<u8>,
    kind: StringKind,
    content: &[u8],
    width: IntegerWidth,
) -> Result<(), AllocError>
    requires { FitsStated width (length content.now) }
    ensures { IfOk result (λ x. out.new.items ≡ out.old.items
        ++ (encoded_head (major_of kind) (length content.now) width ++ content.now)) }
{
    push_head(out, kind.major(), content.len() as u64, width)?;
    out.extend_from_slice(content)?;
    Ok(())
}

/// The content of `count` bytes at the front, and the bytes after it.
fn read_content(kind: StringKind, count: u64, bytes: &[u8]) -> Result<(&[u8], &[u8]), Error>
    ensures { IfOk result (λ x. ContentAt kind count bytes.now x.0.now x.1.now) }
{
    if (bytes.len() as u64) < count {
        return Err(Error::CutShort);
    }
    let (content, rest) = bytes.split_at(count as usize);
    if kind.may_hold(content) {
        Ok((content, rest))
    } else {
        Err(Error::Utf8)
    }
}

/// The next chunk of an indefinite-length string, with the width of its length, or `None` at its
/// break. Also returns the bytes after it.
fn read_chunk(
    kind: StringKind,
    bytes: &[u8],
) -> Result<(Option<(&[u8], IntegerWidth)>, &[u8]), Error>
    ensures is { IfOk result (λ x. MatchOption x.0 (bytes.now ≡ break_byte ∷ x.1.now)
        (λ c. ChunkAt kind bytes.now c.0.now c.1 x.1.now)) }
    ensures shorter { IfOk result (λ x. length x.1.now < length bytes.now) }
{
    let (length, rest) = read_chunk_length(kind.major(), bytes)?;
    let Some((count, width)) = length else {
        return Ok((None, rest));
    };
    let (content, after) = read_content(kind, count, rest)?;
    Ok((Some((content, width)), after))
}

/// Appends the contents of the chunks of an indefinite-length string. Returns the bytes after its
/// break.
fn push_joined<'a>(
    kind: StringKind,
    bytes: &'a [u8],
    content: &mut Vec<u8>,
) -> Result<&'a [u8], Error>
    ensures joins { IfOk result (λ rest.
        Joined kind bytes.now rest.now content.old.items content.new.items) }
    ensures shorter { IfOk result (λ rest. length rest.now ≤ length bytes.now) }
{
    let mut rest = bytes;
    'chunks: loop {
        let (chunk, after) = read_chunk(kind, rest)?;
        let Some((piece, _)) = chunk else {
            return Ok(after);
        };
        content.extend_from_slice(piece)?;
        rest = after;
    }
}

/// Whether the simple value at the front is below 32 in two bytes (`f8 00` to `f8 1f`).
fn is_long_simple(bytes: &[u8]) -> bool
    ensures { (result ≡ true) ⊎ (two_byte_violation bytes.now ≡ None) }
{
    match bytes {
        [first, value, ..] => *first == 0xf8 && *value < 32,
        _ => false,
    }
}

/// Writes a simple value, whose head is at `bytes`. One below 32 in two bytes is an error.
fn push_strict(out: &mut Vec<u8>, bytes: &[u8], value: u8) -> Result<(), Error>
    ensures strict { IfOk result (λ x. two_byte_violation bytes.now ≡ None) }
    ensures writes { IfOk result (λ x. out.new.items ≡ out.old.items ++ encoded_simple value) }
{
    if is_long_simple(bytes) {
        return Err(Error::Head);
    }
    push_simple(out, value)?;
    Ok(())
}

impl Encoder {
    /// Writes the chunks of an indefinite-length string. Returns the bytes after its break.
    fn push_chunks<'a>(
        self,
        kind: StringKind,
        bytes: &'a [u8],
        out: &mut Vec<u8>,
    ) -> Result<&'a [u8], Error>
        ensures writes { IfOk result (λ rest.
            RewrittenChunks self.rules kind bytes.now rest.now out.old.items out.new.items) }
        ensures shorter { IfOk result (λ rest. length rest.now ≤ length bytes.now) }
    {
        let mut rest = bytes;
        'chunks: loop {
            let (chunk, after) = read_chunk(kind, rest)?;
            let Some((piece, width)) = chunk else {
                return Ok(after);
            };
            push_content(out, kind, piece, self.width(piece.len() as u64, width))?;
            rest = after;
        }
    }

    /// Writes a string with this length in its head. Returns the bytes after it.
    fn push_string<'a>(
        self,
        alloc: Global,
        bytes: &[u8],
        kind: StringKind,
        size: Argument,
        rest: &'a [u8],
        out: &mut Vec<u8>,
    ) -> Result<&'a [u8], Error>
        requires { read_head bytes.now ≡ Ok (item_head.String kind size, rest.now) }
        ensures writes { IfOk result (λ after.
            RewrittenAtom self.rules bytes.now after.now out.old.items out.new.items) }
        ensures shorter { IfOk result (λ after. length after.now ≤ length rest.now) }
    {
        match size {
            Argument::Number(count, width) => {
                let (content, after) = read_content(kind, count, rest)?;
                push_content(out, kind, content, self.width(count, width))?;
                Ok(after)
            }
            Argument::Indefinite if self.rules.definite_lengths => {
                let mut content = Vec::new(alloc);
                let after = push_joined(kind, rest, &mut content)?;
                let width = IntegerWidth::shortest(content.len() as u64);
                push_content(out, kind, &content, width)?;
                Ok(after)
            }
            Argument::Indefinite => {
                push_open(out, kind.major(), 0, None)?;
                let after = self.push_chunks(kind, rest, out)?;
                push_close(out, None)?;
                Ok(after)
            }
        }
    }

    /// Writes an integer of that major type.
    fn push_number(
        self,
        out: &mut Vec<u8>,
        major: Major,
        number: u64,
        width: IntegerWidth,
    ) -> Result<(), AllocError>
        requires { FitsStated width number }
        ensures { IfOk result (λ x. out.new.items ≡ out.old.items
            ++ encoded_head (major_number major) number (chosen_width self.rules number width)) }
    {
        push_head(out, major, number, self.width(number, width))
    }

    /// Writes the head of a tag.
    pub fn push_tag(
        self,
        out: &mut Vec<u8>,
        tag: u64,
        width: IntegerWidth,
    ) -> Result<(), AllocError>
        requires { FitsStated width tag }
        ensures { IfOk result (λ x. out.new.items ≡ out.old.items
            ++ encoded_head 6 tag (chosen_width self.rules tag width)) }
    {
        self.push_number(out, Major::Tag, tag, width)
    }

    /// Writes an item that holds no other item, and returns the bytes after it. Its head is at
    /// `bytes`, and `rest` comes after the head.
    pub fn push_atom<'a>(
        self,
        alloc: Global,
        bytes: &[u8],
        head: ItemHead,
        rest: &'a [u8],
        out: &mut Vec<u8>,
    ) -> Result<&'a [u8], Error>
        requires read { read_head bytes.now ≡ Ok (head, rest.now) }
        requires atom { opened head ≡ None }
        ensures writes { IfOk result (λ after.
            RewrittenAtom self.rules bytes.now after.now out.old.items out.new.items) }
        ensures shorter { IfOk result (λ after. length after.now ≤ length rest.now) }
    {
        match head {
            ItemHead::Integer(number, width) => {
                self.push_number(out, Major::Unsigned, number, width)?
            }
            ItemHead::Negative(number, width) => {
                self.push_number(out, Major::Negative, number, width)?
            }
            ItemHead::Float(bits, width) => push_reduced(out, self.reduced(float_of(bits, width)))?,
            ItemHead::Simple(value) => push_strict(out, bytes, value)?,
            ItemHead::String(kind, size) => {
                return self.push_string(alloc, bytes, kind, size, rest, out);
            }
            // These hold items.
            ItemHead::Array(_) | ItemHead::Map(_) | ItemHead::Tag(..) => unreachable!(),
        }
        Ok(rest)
    }
}
