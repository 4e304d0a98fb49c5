//! Writes a `DataItem` as bytes (RFC 7049 section 2). Each part is appended to one vector.
//!
//! The functions for strings and containers are not inlined into the `match` on the kind of item:
//! if they were, the call for an integer would need their stack space, too.
#![tactic(auto, using(cbor_tokens::proofs::texts::Appending::appending_steps))]

ghost use Rattle.std.specs.Prelude.{◌≡◌, ◌++◌, if◌then◌else◌, ℕ, List, ◌↔◌, length, map, OnOk};
ghost use Rattle.std.specs.Prelude.{OnErr, IfOk, IfErr};
ghost use Rattle.std.specs.List.{AllByRecursion};
ghost use Rattle.cbor_grammar.specs.Head.{FitsWidth};
ghost use Rattle.cbor_grammar.specs.mirror.MajorNumber.{major_number};
ghost use Rattle.cbor_tokens.specs.Appends.{Appends};
ghost use Rattle.cbor_grammar.specs.StringKind.{major_of};
ghost use Rattle.cbor_diag.specs.View.{view, items_view, pairs_view};
ghost use Rattle.cbor_grammar.specs.WellFormed.{WellFormed, WellFormedItems, WellFormedPairs};
ghost use Rattle.cbor_grammar.specs.WellFormed.{IsChunk};
ghost use Rattle.cbor_grammar.specs.Facts.{IsItem, IsStrictItem, IsWellFormed};
ghost use Rattle.cbor_grammar.specs.Item as spec;
ghost use Rattle.cbor_grammar.specs.Item.{Item};
ghost use Rattle.cbor_grammar.specs.Written.{encoded, resolve, encoded_items, encoded_pairs};
ghost use Rattle.cbor_grammar.specs.Written.{encoded_chunk, encoded_chunks};

use crate::syntax::DataItem;
use cbor_bytes::write::{push_close, push_float, push_head, push_open, push_simple};
use cbor_grammar::major::Major;
use cbor_grammar::strings::DefiniteString;
use cbor_grammar::{Error, IntegerWidth, Tag};
use std::alloc::{AllocError, Global};

/// Writes a string of definite length: its bytes, or its UTF-8.
#[inline(never)]
fn push_string(
    out: &mut Vec<u8>,
    major: Major,
    content: &[u8],
    width: IntegerWidth,
) -> Result<(), AllocError>
    requires { FitsWidth width (length content.now) }
    ensures { Appends result out.old.items out.new.items
        (encoded_chunk (major_number major) (record { bytes = content.now; width = width })) }
{
    push_head(out, major, content.len() as u64, width)?;
    out.extend_from_slice(content)?;
    Ok(())
}

/// Writes the chunks of an indefinite string, from its opening byte to its break.
#[inline(never)]
fn push_chunks<S: DefiniteString>(out: &mut Vec<u8>, chunks: &[S]) -> Result<(), AllocError>
    requires { AllByRecursion (IsChunk S.kind) (map S.chunk chunks.now) }
    ensures { Appends result out.old.items out.new.items
        (encoded_chunks (major_of S.kind) (map S.chunk chunks.now)) }
{
    push_open(out, S::kind().major(), chunks.len(), None)?;
    'chunks: for chunk in chunks {
        push_string(
            out,
            S::kind().major(),
            chunk.content().as_bytes(),
            chunk.width(),
        )?;
    }
    push_close(out, None)
}

/// The major type of an integer.
fn integer_major(negative: bool) -> Major
    ensures { major_number result ≡ (if negative then 1 else 0) }
{
    if negative {
        Major::Negative
    } else {
        Major::Unsigned
    }
}

/// Writes an item.
#[cycle(push)]
fn push_item(out: &mut Vec<u8>, item: &DataItem) -> Result<(), AllocError>
    requires { (level : ℕ) × WellFormed level (view item.now) }
    ensures { Appends result out.old.items out.new.items (encoded (view item.now)) }
{
    match item {
        // One arm for both: a branch between them would often be mispredicted.
        DataItem::Integer { value, bitwidth } | DataItem::Negative { value, bitwidth } => {
            let major = integer_major(matches!(item, DataItem::Negative { .. }));
            push_head(out, major, *value, *bitwidth)
        }
        DataItem::ByteString(string) => push_string(
            out,
            Major::Bytes,
            &string.content,
            string.bitwidth,
        ),
        DataItem::TextString(string) => {
            push_string(out, Major::Text, string.content.as_bytes(), string.bitwidth)
        }
        DataItem::IndefiniteByteString(chunks) => push_chunks(out, chunks),
        DataItem::IndefiniteTextString(chunks) => push_chunks(out, chunks),
        DataItem::Array { content, bitwidth } => push_array(out, content, *bitwidth),
        DataItem::Map { content, bitwidth } => push_map(out, content, *bitwidth),
        DataItem::Tag {
            tag,
            bitwidth,
            value,
        } => push_tagged(out, *tag, *bitwidth, value),
        DataItem::Float { bits, bitwidth } => push_float(out, *bits, *bitwidth),
        DataItem::Simple(simple) => push_simple(out, simple.0),
    }
}

/// Writes an array of these items.
#[cycle(push)]
#[inline(never)]
fn push_array(
    out: &mut Vec<u8>,
    items: &Vec<DataItem>,
    width: Option<IntegerWidth>,
) -> Result<(), AllocError>
    requires { (level : ℕ) × WellFormed level (spec.array (items_view items.now.items) width) }
    ensures { Appends result out.old.items out.new.items
        (encoded (spec.array (items_view items.now.items) width)) }
{
    push_open(out, Major::Array, items.len(), width)?;
    push_items(out, items)?;
    push_close(out, width)
}

/// Writes a map of these pairs.
#[cycle(push)]
#[inline(never)]
fn push_map(
    out: &mut Vec<u8>,
    pairs: &Vec<(DataItem, DataItem)>,
    width: Option<IntegerWidth>,
) -> Result<(), AllocError>
    requires { (level : ℕ) × WellFormed level (spec.map (pairs_view pairs.now.items) width) }
    ensures { Appends result out.old.items out.new.items
        (encoded (spec.map (pairs_view pairs.now.items) width)) }
{
    push_open(out, Major::Map, pairs.len(), width)?;
    push_pairs(out, pairs)?;
    push_close(out, width)
}

/// Writes a tag and the item below it.
#[cycle(push)]
#[inline(never)]
fn push_tagged(
    out: &mut Vec<u8>,
    tag: Tag,
    width: IntegerWidth,
    value: &DataItem,
) -> Result<(), AllocError>
    requires { (level : ℕ) × WellFormed level (spec.tagged tag.0 width (view value.now)) }
    ensures { Appends result out.old.items out.new.items
        (encoded (spec.tagged tag.0 width (view value.now))) }
{
    push_head(out, Major::Tag, tag.0, width)?;
    push_item(out, value)
}

/// Writes items in order.
#[cycle(push)]
pub fn push_items(out: &mut Vec<u8>, items: &Vec<DataItem>) -> Result<(), AllocError>
    requires { (level : ℕ) × WellFormedItems level (items_view items.now.items) }
    ensures { Appends result out.old.items out.new.items
        (encoded_items (items_view items.now.items)) }
{
    'items: for item in items {
        push_item(out, item)?;
    }
    Ok(())
}

/// Writes each key and then its value.
#[cycle(push)]
fn push_pairs(out: &mut Vec<u8>, pairs: &Vec<(DataItem, DataItem)>) -> Result<(), AllocError>
    requires { (level : ℕ) × WellFormedPairs level (pairs_view pairs.now.items) }
    ensures { Appends result out.old.items out.new.items
        (encoded_pairs (pairs_view pairs.now.items)) }
{
    'pairs: for (key, value) in pairs {
        push_item(out, key)?;
        push_item(out, value)?;
    }
    Ok(())
}

impl DataItem {
    /// Returns the item in bytes (RFC 7049 section 2). An unstated width is written as the shortest
    /// that fits, and an unstated float width as 64 bits. A simple value below 24 takes one byte.
    /// Indefinite lengths stay indefinite.
    ///
    /// The item has to be well formed, as [`DataItem::is_well_formed`] checks. The only error is
    /// `Memory`.
    ///
    /// ```rust
    /// use cbor_diag::parse_diag;
    ///
    /// let item = parse_diag(alloc, "1(1363896240)")?;
    /// let bytes = item.to_bytes(alloc)?;
    /// assert_eq!(rt; bytes.as_slice(), b"\xc1\x1a\x51\x4b\x67\xb0".as_slice());
    /// ```
    pub fn to_bytes(&self, alloc: Global) -> cbor_grammar::Result<Vec<u8>>
        requires { IsWellFormed (view self.now) }
        ensures bytes { IfOk result (λ v. v.items ≡ encoded (view self.now)) }
        // The output is the only strict encoding of the item with its unstated widths resolved.
        ensures strictly { IfOk result (λ v. IsStrictItem v.items (resolve (view self.now))) }
        ensures no_other { IfOk result (λ v.
            (b : List ℕ) → IsStrictItem b (resolve (view self.now)) → b ≡ v.items) }
        // So it is read back as that item.
        ensures read_back { IfOk result (λ v. IsItem v.items (resolve (view self.now))) }
        // Two items have the same bytes if and only if they are equal with all widths resolved.
        ensures alike { (other : Item) → IsWellFormed other
            → (encoded (view self.now) ≡ encoded other)
            ↔ (resolve (view self.now) ≡ resolve other) }
        ensures refused { IfErr result (λ e. e ≡ Error.Memory) }
    {
        let mut out = Vec::new(alloc);
        self.push_bytes(&mut out)?;
        Ok(out)
    }

    /// Appends the bytes of [`DataItem::to_bytes`] to `out`, to reuse its memory.
    ///
    /// The item has to be well formed, as [`DataItem::is_well_formed`] checks. The only error is
    /// `Memory`, and after it `out` is unchanged.
    pub fn push_bytes(&self, out: &mut Vec<u8>) -> cbor_grammar::Result<()>
        requires { IsWellFormed (view self.now) }
        ensures bytes { OnOk result (out.new.items ≡ out.old.items ++ encoded (view self.now)) }
        ensures unchanged { OnErr result (out.new.items ≡ out.old.items) }
        ensures refused { IfErr result (λ e. e ≡ Error.Memory) }
    {
        let start = out.len();
        match push_item(out, self) {
            Ok(()) => Ok(()),
            Err(_) => {
                out.truncate(start);
                Err(Error::Memory)
            }
        }
    }
}
