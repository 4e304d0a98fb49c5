//! Writes a `DataItem` as diagnostic notation (RFC 7049 section 6). Each part is appended to one
//! text.
//!
//! The same functions write compact and pretty text, which differ only in their `Layout`.
#![tactic(auto, using(cbor_tokens::proofs::texts::Appending::appending_steps))]

mod estimate;

ghost use Rattle.std.specs.Prelude.{◌≡◌, ◌↔◌, ◌+◌, ◌*◌, ◌<◌, ◌≤◌, ◌++◌, ℕ, OnOk, OnErr, IfOk};
ghost use Rattle.std.specs.Prelude.{IfErr};
ghost use Rattle.std.specs.String.{string_bytes};
ghost use Rattle.cbor_tokens.specs.Appends.{AppendsText};
ghost use Rattle.cbor_diag.specs.View.{view, items_view, pairs_view};
ghost use Rattle.cbor_grammar.specs.Notation.{IsNotation};
ghost use Rattle.cbor_grammar.specs.declared.encoding.Encoding.{Encoding};
ghost use Rattle.cbor_grammar.specs.declared.encoding.Encoding.TheVariants.{Base16};
ghost use Rattle.cbor_grammar.specs.declared.width.IntegerWidth.{IntegerWidth};
ghost use Rattle.cbor_grammar.specs.Item as spec;
ghost use Rattle.cbor_grammar.specs.Item.{Chunk, Item, tagged};
ghost use Rattle.cbor_grammar.specs.Estimate.{estimated_length, one_line_limit};
ghost use Rattle.cbor_grammar.specs.Pretty.{pretty, in_one_line, in_lines, encoded_sequence};
ghost use Rattle.cbor_grammar.specs.Pretty.{sequence_in_one_line, sequence_in_lines};
ghost use Rattle.cbor_grammar.specs.Facts.{IsWellFormed, diag_of, pretty_of, normal_of};
ghost use Rattle.cbor_grammar.specs.WellFormed.{deepest, WellFormed, WellFormedItems};
ghost use Rattle.cbor_grammar.specs.WellFormed.{WellFormedPairs};
ghost use Rattle.cbor_notation_writer.specs.mirror.LayoutView.{context_view};
ghost use Rattle.cbor_notation_writer.specs.mirror.LayoutView.{IsIndented, item_text, items_there};
ghost use Rattle.cbor_notation_writer.specs.mirror.LayoutView.{pairs_there, content_there};
ghost use Rattle.cbor_grammar.specs.NotationText.{indent_of, style_indent, in_encoding};
ghost use Rattle.cbor_grammar.specs.NotationText.{text_at_level, sequence_size};
ghost use Rattle.cbor_grammar.specs.Embedded.{sequence, EmbedsExactly};

use crate::syntax::DataItem;
use cbor_grammar::layout::{ContainerStyle, Layout};
use cbor_grammar::{ByteString, Error, IntegerWidth, Tag, TextString};
use cbor_notation_writer::context::NotationContext;
use cbor_notation_writer::diag::push_content;
use cbor_notation_writer::members::{
    push_chunks, push_closing, push_colon, push_end, push_opening, push_start,
};
use cbor_notation_writer::scalars::{
    push_float, push_negative, push_number, push_simple, push_text,
};
use estimate::{array_style, map_style};
use std::alloc::{AllocError, Global};

/// Writes an item.
///
/// The functions for containers and tags are not inlined here: they keep values across calls, and
/// each number and text would need space for these, too.
#[cycle(text)]
fn push_item(out: &mut String, item: &DataItem, context: &NotationContext) -> Result<(), AllocError>
    requires well_formed { WellFormed context.now.level (view item.now) }
    requires indent { IsIndented context.now }
    ensures { AppendsText result out.old out.new (item_text context.now (view item.now)) }
{
    match item {
        DataItem::Integer { value, bitwidth } => push_number(out, *value, *bitwidth),
        DataItem::Negative { value, bitwidth } => push_negative(out, *value, *bitwidth),
        DataItem::ByteString(string) => push_content(out, &string.content, context),
        DataItem::TextString(string) => push_text(out, string.content.as_str()),
        DataItem::IndefiniteByteString(chunks) => push_chunks(out, chunks, context),
        DataItem::IndefiniteTextString(chunks) => push_chunks(out, chunks, context),
        DataItem::Array { content, bitwidth } => push_array(out, content, *bitwidth, context),
        DataItem::Map { content, bitwidth } => push_map(out, content, *bitwidth, context),
        DataItem::Tag {
            tag,
            bitwidth,
            value,
        } => push_tagged(out, (*tag, *bitwidth), value, context),
        DataItem::Float { bits, bitwidth } => push_float(out, *bits, *bitwidth),
        DataItem::Simple(simple) => push_simple(out, *simple),
    }
}

/// Writes an array of these items.
#[cycle(text)]
#[inline(never)]
fn push_array(
    out: &mut String,
    items: &Vec<DataItem>,
    width: Option<IntegerWidth>,
    context: &NotationContext,
) -> Result<(), AllocError>
    requires level { context.now.level ≤ deepest }
    requires well_formed { WellFormedItems (context.now.level + 1) (items_view items.now.items) }
    requires indent { IsIndented context.now }
    ensures { AppendsText result out.old out.new
        (item_text context.now (spec.array (items_view items.now.items) width)) }
{
    let style = array_style(context.layout, items);
    push_opening(out, '[', width, style)?;
    push_items(out, items, style, context)?;
    push_closing(out, style, ']')
}

/// Writes a map of these pairs.
#[cycle(text)]
#[inline(never)]
fn push_map(
    out: &mut String,
    pairs: &Vec<(DataItem, DataItem)>,
    width: Option<IntegerWidth>,
    context: &NotationContext,
) -> Result<(), AllocError>
    requires level { context.now.level ≤ deepest }
    requires well_formed { WellFormedPairs (context.now.level + 1) (pairs_view pairs.now.items) }
    requires indent { IsIndented context.now }
    ensures { AppendsText result out.old out.new
        (item_text context.now (spec.map (pairs_view pairs.now.items) width)) }
{
    let style = map_style(context.layout, pairs);
    push_opening(out, '{', width, style)?;
    push_pairs(out, pairs, style, context)?;
    push_closing(out, style, '}')
}

/// Writes a tag, given its number and width, and the item below it.
#[cycle(text)]
#[inline(never)]
fn push_tagged(
    out: &mut String,
    head: (Tag, IntegerWidth),
    value: &DataItem,
    context: &NotationContext,
) -> Result<(), AllocError>
    requires well_formed { WellFormed context.now.level (tagged head.0.0 head.1 (view value.now)) }
    requires indent { IsIndented context.now }
    ensures { AppendsText result out.old out.new
        (item_text context.now (tagged head.0.0 head.1 (view value.now))) }
{
    let (tag, width) = head;
    push_number(out, tag.0, width)?;
    out.push('(')?;
    push_item(out, value, &context.below(tag))?;
    out.push(')')?;
    Ok(())
}

/// Writes the items of an array or a sequence.
#[cycle(text)]
fn push_items(
    out: &mut String,
    items: &Vec<DataItem>,
    style: ContainerStyle,
    context: &NotationContext,
) -> Result<(), AllocError>
    requires level { context.now.level ≤ deepest }
    requires well_formed { WellFormedItems (context.now.level + 1) (items_view items.now.items) }
    requires indent { style_indent style ≤ 4 * context.now.level }
    ensures { AppendsText result out.old out.new
        (items_there context.now style (items_view items.now.items)) }
{
    let inner = context.inside(style.members_layout());
    let mut first = true;
    'items: for item in items {
        push_start(out, style, first)?;
        push_item(out, item, &inner)?;
        push_end(out, style)?;
        first = false;
    }
    Ok(())
}

/// Writes the keys and values of a map.
#[cycle(text)]
fn push_pairs(
    out: &mut String,
    pairs: &Vec<(DataItem, DataItem)>,
    style: ContainerStyle,
    context: &NotationContext,
) -> Result<(), AllocError>
    requires level { context.now.level ≤ deepest }
    requires well_formed { WellFormedPairs (context.now.level + 1) (pairs_view pairs.now.items) }
    requires indent { style_indent style ≤ 4 * context.now.level }
    ensures { AppendsText result out.old out.new
        (pairs_there context.now style (pairs_view pairs.now.items)) }
{
    let inner = context.inside(style.members_layout());
    let mut first = true;
    'pairs: for (key, value) in pairs {
        push_start(out, style, first)?;
        push_item(out, key, &inner)?;
        push_colon(out, style)?;
        push_item(out, value, &inner)?;
        push_end(out, style)?;
        first = false;
    }
    Ok(())
}

/// Writes an item as the outermost one. After an error the text is unchanged.
fn push_outermost(out: &mut String, item: &DataItem, layout: Layout) -> Result<(), AllocError>
    requires well_formed { IsWellFormed (view item.now) }
    requires indent { indent_of layout ≤ 4 }
    ensures text { OnOk result (string_bytes out.new ≡ string_bytes out.old
        ++ text_at_level 1 (in_encoding layout Base16) (view item.now)) }
    ensures unchanged { OnErr result (string_bytes out.new ≡ string_bytes out.old) }
{
    let start = out.len();
    match push_item(out, item, &NotationContext::new(layout)) {
        Ok(()) => Ok(()),
        Err(error) => {
            out.truncate(start);
            Err(error)
        }
    }
}

impl DataItem {
    /// Returns the item in diagnostic notation (RFC 7049 section 6) on one line, without blanks.
    /// `parse_diag` reads it back as the item's normal form (docs/NOTATION.md).
    ///
    /// The item has to be well formed, as [`DataItem::is_well_formed`] checks. The only error is
    /// `Memory`.
    ///
    /// ```rust
    /// use cbor_diag::parse_bytes;
    ///
    /// let item = parse_bytes(alloc, b"\xc1\x1a\x51\x4b\x67\xb0")?;
    /// assert_eq!(rt; item.to_diag(alloc)?.as_str(), "1(1363896240_2)");
    /// ```
    pub fn to_diag(&self, alloc: Global) -> cbor_grammar::Result<String>
        requires { IsWellFormed (view self.now) }
        ensures text { IfOk result (λ s. string_bytes s ≡ diag_of (view self.now)) }
        // It is read back as the normal form.
        ensures read_back { IfOk result (λ s.
            IsNotation (string_bytes s) (normal_of (view self.now))) }
        // The text is that of the normal form, whose normal form is itself.
        ensures of_normal { diag_of (normal_of (view self.now)) ≡ diag_of (view self.now) }
        ensures normal_once { normal_of (normal_of (view self.now)) ≡ normal_of (view self.now) }
        // Two items have the same text if and only if their normal forms are the same.
        ensures alike { (other : Item) → IsWellFormed other
            → (diag_of (view self.now) ≡ diag_of other)
            ↔ (normal_of (view self.now) ≡ normal_of other) }
        // What is shown as embedded items is exactly what the bytes encode.
        ensures embedded { EmbedsExactly }
        ensures refused { IfErr result (λ e. e ≡ Error.Memory) }
    {
        let mut out = String::new(alloc);
        self.push_diag(alloc, &mut out)?;
        Ok(out)
    }

    /// Appends the text of [`DataItem::to_diag`] to `out`, to reuse its memory.
    ///
    /// The item has to be well formed, as [`DataItem::is_well_formed`] checks. The only error is
    /// `Memory`, and after it `out` is unchanged.
    pub fn push_diag(&self, alloc: Global, out: &mut String) -> cbor_grammar::Result<()>
        requires { IsWellFormed (view self.now) }
        ensures text { OnOk result
            (string_bytes out.new ≡ string_bytes out.old ++ diag_of (view self.now)) }
        ensures unchanged { OnErr result (string_bytes out.new ≡ string_bytes out.old) }
        ensures refused { IfErr result (λ e. e ≡ Error.Memory) }
    {
        push_outermost(out, self, Layout::Compact)?;
        Ok(())
    }

    /// Returns the item in diagnostic notation (RFC 7049 section 6) with blanks, over several lines
    /// if it is long. `parse_diag` reads it back as the item's normal form (docs/NOTATION.md).
    ///
    /// The item has to be well formed, as [`DataItem::is_well_formed`] checks. The only error is
    /// `Memory`.
    ///
    /// ```rust
    /// use cbor_diag::parse_bytes;
    ///
    /// let item = parse_bytes(alloc, b"\x9f\x01\x82\x02\x03\xff")?;
    /// assert_eq!(rt; item.to_diag_pretty(alloc)?.as_str(), "[_ 1, [2, 3]]");
    /// ```
    #[tactic(auto, using(cbor_grammar::proofs::text::Forms::pretty_laws))]
    pub fn to_diag_pretty(&self, alloc: Global) -> cbor_grammar::Result<String>
        requires { IsWellFormed (view self.now) }
        ensures text { IfOk result (λ s. string_bytes s ≡ pretty_of (view self.now)) }
        // It is read back as the normal form.
        ensures read_back { IfOk result (λ s.
            IsNotation (string_bytes s) (normal_of (view self.now))) }
        // A container is on one line if and only if its whole estimate is below 60, at
        // any level and indent.
        ensures one_line { (level indent : ℕ) (e : Encoding) (i : Item) → level ≤ deepest
            → estimated_length i < one_line_limit
            → pretty e level indent i ≡ in_one_line e level indent i }
        ensures lines { (level indent : ℕ) (e : Encoding) (i : Item) → level ≤ deepest
            → one_line_limit ≤ estimated_length i
            → pretty e level indent i ≡ in_lines e level indent i }
        // So are the items of a byte string right below tag 63, by the estimate of an
        // array of them.
        ensures sequence_one_line { (level indent : ℕ) (e : Encoding) (w : IntegerWidth) (b : Chunk)
            → level < deepest → sequence_size (sequence (level + 2) b.bytes) < one_line_limit
            → pretty e level indent (encoded_sequence w b)
            ≡ sequence_in_one_line e level indent w b.bytes }
        ensures sequence_lines { (level indent : ℕ) (e : Encoding) (w : IntegerWidth) (b : Chunk)
            → level < deepest → one_line_limit ≤ sequence_size (sequence (level + 2) b.bytes)
            → pretty e level indent (encoded_sequence w b)
            ≡ sequence_in_lines e level indent w b.bytes }
        // What is shown as embedded items is exactly what the bytes encode.
        ensures embedded { EmbedsExactly }
        ensures refused { IfErr result (λ e. e ≡ Error.Memory) }
    {
        let mut out = String::new(alloc);
        self.push_diag_pretty(alloc, &mut out)?;
        Ok(out)
    }

    /// Appends the text of [`DataItem::to_diag_pretty`] to `out`, to reuse its memory.
    ///
    /// The item has to be well formed, as [`DataItem::is_well_formed`] checks. The only error is
    /// `Memory`, and after it `out` is unchanged.
    pub fn push_diag_pretty(&self, alloc: Global, out: &mut String) -> cbor_grammar::Result<()>
        requires { IsWellFormed (view self.now) }
        ensures text { OnOk result
            (string_bytes out.new ≡ string_bytes out.old ++ pretty_of (view self.now)) }
        ensures unchanged { OnErr result (string_bytes out.new ≡ string_bytes out.old) }
        ensures refused { IfErr result (λ e. e ≡ Error.Memory) }
    {
        push_outermost(out, self, Layout::Pretty { indent: 0 })?;
        Ok(())
    }
}
