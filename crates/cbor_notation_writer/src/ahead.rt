//! Decides whether a container goes on one line, before its members are read. It estimates their
//! length from the bytes that come next. The file `encode/notation/estimate.rt` of `cbor_diag`
//! makes the same estimate from items.
//!
//! The functions that return an `Ahead` take a budget of characters. They return how much of the
//! budget their part leaves, and the bytes after that part. They return `None` if the part takes
//! all of the budget, or if the bytes are truncated or malformed. In the last two cases any result
//! will do: the caller reads the same bytes next, and finds the error. Strings are skipped by their
//! length, and texts are not tested for UTF-8.
//!
//! Each head takes at least two characters of the budget. So one look reads fewer heads than half
//! of the limit (30 for a limit of 60), however long or deep the container is.
ghost use Rattle.std.specs.Prelude.{◌≡◌, ℕ, ◌+◌, ◌-◌, ◌<◌, ◌≤◌, List, length, Ok, Option, IfSome};
ghost use Rattle.cbor_grammar.specs.Embedded.{sequence_at};
ghost use Rattle.cbor_grammar.specs.Estimate.{estimated_string, estimated_chunks};
ghost use Rattle.cbor_grammar.specs.Estimate.{estimated_items, estimated_pairs};
ghost use Rattle.cbor_grammar.specs.Item as spec;
ghost use Rattle.cbor_grammar.specs.Item.{Chunk, Items, Pairs, atom, array, chunked_string};
ghost use Rattle.cbor_grammar.specs.declared.layout.Layout.TheVariants as shown;
ghost use Rattle.cbor_grammar.specs.NotationText.{indent_of, style_indent};
ghost use Rattle.cbor_grammar.specs.Reading.{read_content};
ghost use Rattle.cbor_grammar.specs.WellFormed.{deepest, levels_left};
ghost use Rattle.cbor_grammar.specs.declared.width.IntegerWidth.{IntegerWidth};
ghost use Rattle.cbor_notation_writer.specs.Dialect.{style_within};
ghost use Rattle.cbor_notation_writer.specs.mirror.Ahead.{Leaves, Estimates, front_read};
ghost use Rattle.cbor_grammar.specs.mirror.AtLevel.{body_read};

use crate::budget::{BRACKETS, digit_count, float_len, left_after_content, pretty_style};
use cbor_bytes::head::read_head;
use cbor_bytes::skip::after_front;
use cbor_bytes::strings::{read_chunk_length, split_at};
use cbor_grammar::argument::Argument;
use cbor_grammar::head::ItemHead;
use cbor_grammar::layout::{ContainerStyle, Layout};
use cbor_grammar::strings::StringKind;

/// The result of a look at bytes.
#[derive(Clone, Copy)]
struct Ahead<'a> {
    /// What is left of the budget, at least one character.
    left: usize,
    /// The bytes after those that were looked at.
    rest: &'a [u8],
}

impl<'a> Ahead<'a> {
    /// Returns `None` if nothing of the budget is left.
    fn new(left: usize, rest: &'a [u8]) -> Option<Ahead<'a>>
        ensures leaves { (budget size : ℕ) → left ≡ budget - size
            → Leaves result budget size rest.now }
        ensures left { IfSome result (λ ahead. (0 < ahead.left) × (ahead.left ≡ left)) }
    {
        if left == 0 {
            return None;
        }
        Some(Ahead { left, rest })
    }
}

/// The style of an array with this count of items, from the bytes after its head.
pub fn array_style_ahead(
    layout: Layout,
    limit: usize,
    count: Argument,
    bytes: &[u8],
) -> ContainerStyle
    ensures style { (levels : ℕ) (is : Items) (w : Option IntegerWidth) (rest : List ℕ)
        → body_read (ItemHead.Array count) bytes.now levels
        ≡ Ok (array is w, rest)
        → result ≡ style_within limit layout (4 + estimated_items is) }
    ensures indent { style_indent result ≡ indent_of layout }
{
    match layout {
        Layout::Compact => ContainerStyle::Compact,
        Layout::Pretty { indent } => style_of(
            indent,
            limit,
            items_ahead(count, bytes, budget_of(limit)),
        ),
    }
}

/// The style of a map with this count of pairs, from the bytes after its head.
pub fn map_style_ahead(
    layout: Layout,
    limit: usize,
    count: Argument,
    bytes: &[u8],
) -> ContainerStyle
    ensures style { (levels : ℕ) (ps : Pairs) (w : Option IntegerWidth) (rest : List ℕ)
        → body_read (ItemHead.Map count) bytes.now levels
        ≡ Ok (spec.map ps w, rest)
        → result ≡ style_within limit layout (4 + estimated_pairs ps) }
    ensures indent { style_indent result ≡ indent_of layout }
{
    match layout {
        Layout::Compact => ContainerStyle::Compact,
        Layout::Pretty { indent } => style_of(
            indent,
            limit,
            pairs_ahead(count, bytes, budget_of(limit)),
        ),
    }
}

/// The style of an indefinite string, from the bytes after its opening byte.
pub fn chunks_style_ahead(
    layout: Layout,
    limit: usize,
    kind: StringKind,
    bytes: &[u8],
) -> ContainerStyle
    ensures style { (levels : ℕ) (cs : List Chunk) (rest : List ℕ)
        → body_read (ItemHead.String kind Argument.Indefinite) bytes.now levels
        ≡ Ok (atom (chunked_string kind cs), rest)
        → result ≡ style_within limit layout (4 + estimated_chunks kind cs) }
    ensures indent { style_indent result ≡ indent_of layout }
{
    match layout {
        Layout::Compact => ContainerStyle::Compact,
        Layout::Pretty { indent } => style_of(
            indent,
            limit,
            chunks_ahead(kind, bytes, budget_of(limit)),
        ),
    }
}

/// The style of the sequence of all items, at `level`, that can be read from the front of the
/// bytes.
///
/// Unlike the members of a container, these items count only if they can be read. So each item that
/// is looked at is read to its end: at most as many items as a quarter of the limit.
pub fn sequence_style_ahead(layout: Layout, limit: usize, level: u8, bytes: &[u8]) -> ContainerStyle
    requires from { 1 ≤ level }
    requires to { level ≤ deepest + 1 }
    ensures style { result ≡ style_within limit layout
        (4 + estimated_items (sequence_at (levels_left level) bytes.now).0) }
    ensures indent { style_indent result ≡ indent_of layout }
{
    match layout {
        Layout::Compact => ContainerStyle::Compact,
        Layout::Pretty { indent } => {
            pretty_style(indent, left_after_sequence(level, bytes, budget_of(limit)))
        }
    }
}

/// The budget for the members of a container with this limit.
#[inline(always)]
fn budget_of(limit: usize) -> usize
    ensures { result ≡ limit - 4 }
{
    limit.saturating_sub(BRACKETS)
}

/// The style of a container with blanks, from the result of a look at its members.
fn style_of(indent: usize, limit: usize, members: Option<Ahead<'_>>) -> ContainerStyle
    ensures style { (budget size : ℕ) (rest : List ℕ) → budget ≡ limit - 4
        → Leaves members.entry (4 + budget) (4 + size) rest
        → result ≡ style_within limit (shown.Pretty indent) (4 + size) }
    ensures indent { style_indent result ≡ indent }
{
    let left = match members {
        Some(ahead) => ahead.left,
        None => 0,
    };
    pretty_style(indent, left)
}

/// Looks at a string after its head, with this length.
fn string_ahead(kind: StringKind, len: Argument, bytes: &[u8], budget: usize) -> Option<Ahead<'_>>
    ensures leaves { Estimates result budget (body_read (ItemHead.String kind len) bytes.now) }
    ensures takes { IfSome result (λ ahead. (0 < ahead.left) × (ahead.left + 2 ≤ budget)) }
{
    match len {
        Argument::Number(count, _) => content_ahead(kind, count, bytes, budget),
        Argument::Indefinite => chunks_ahead(kind, bytes, budget.saturating_sub(4)),
    }
}

/// Looks at a string of definite length after its head.
fn content_ahead(kind: StringKind, count: u64, bytes: &[u8], budget: usize) -> Option<Ahead<'_>>
    ensures leaves { (w : IntegerWidth) (c : Chunk) (rest : List ℕ)
        → read_content kind count w bytes.now ≡ Ok (c, rest)
        → Leaves result budget (estimated_string kind c) rest }
    ensures takes { IfSome result (λ ahead. (0 < ahead.left) × (ahead.left + 2 ≤ budget)) }
{
    let Ok((content, rest)) = split_at(bytes, count) else {
        return None;
    };
    Ahead::new(left_after_content(kind, content.len(), budget), rest)
}

/// Looks at the chunks of a string after its opening byte: two characters more for each.
fn chunks_ahead(kind: StringKind, bytes: &[u8], budget: usize) -> Option<Ahead<'_>>
    ensures leaves { Estimates result (4 + budget)
        (body_read (ItemHead.String kind Argument.Indefinite) bytes.now) }
    ensures takes { IfSome result (λ ahead. (0 < ahead.left) × (ahead.left ≤ budget)) }
{
    let mut left = budget;
    let mut rest = bytes;
    'chunks: loop {
        let Ok((length, after)) = read_chunk_length(kind.major(), rest) else {
            return None;
        };
        let Some((count, _)) = length else {
            return Ahead::new(left, after);
        };
        let chunk = content_ahead(kind, count, after, left)?;
        left = chunk.left.saturating_sub(2);
        rest = chunk.rest;
    }
}

/// Looks at the item at the front.
#[cycle(ahead)]
fn item_ahead(bytes: &[u8], budget: usize) -> Option<Ahead<'_>>
    ensures leaves { Estimates result budget (front_read bytes.now) }
    ensures takes { IfSome result (λ ahead. (0 < ahead.left) × (ahead.left + 2 ≤ budget)) }
{
    if budget == 0 {
        return None;
    }
    let Ok((head, rest)) = read_head(bytes) else {
        return None;
    };
    match head {
        ItemHead::Integer(value, _) => {
            Ahead::new(budget.saturating_sub(digit_count(value) + 2), rest)
        }
        ItemHead::Negative(value, _) => {
            Ahead::new(budget.saturating_sub(digit_count(value) + 3), rest)
        }
        ItemHead::String(kind, len) => string_ahead(kind, len, rest, budget),
        ItemHead::Array(count) => items_ahead(count, rest, budget.saturating_sub(4)),
        ItemHead::Map(count) => pairs_ahead(count, rest, budget.saturating_sub(4)),
        ItemHead::Tag(tag, _) => item_ahead(rest, budget.saturating_sub(digit_count(tag) + 2)),
        ItemHead::Float(_, width) => Ahead::new(budget.saturating_sub(float_len(width)), rest),
        ItemHead::Simple(value) => {
            Ahead::new(
                budget.saturating_sub(digit_count(u64::from(value)) + 8),
                rest,
            )
        }
    }
}

/// Looks at the items of an array after its head: two characters more for each.
#[cycle(ahead)]
fn items_ahead(count: Argument, bytes: &[u8], budget: usize) -> Option<Ahead<'_>>
    ensures leaves { Estimates result (4 + budget) (body_read (ItemHead.Array count) bytes.now) }
    ensures takes { IfSome result (λ ahead. (0 < ahead.left) × (ahead.left ≤ budget)) }
{
    let mut left = budget;
    let mut rest = bytes;
    let mut held = 0;
    'items: loop {
        if let Some(after) = count.after_end(held, rest) {
            return Ahead::new(left, after);
        }
        let item = item_ahead(rest, left)?;
        left = item.left.saturating_sub(2);
        rest = item.rest;
        held += 1;
    }
}

/// Looks at the keys and values of a map after its head: two characters more for each pair.
#[cycle(ahead)]
fn pairs_ahead(count: Argument, bytes: &[u8], budget: usize) -> Option<Ahead<'_>>
    ensures leaves { Estimates result (4 + budget) (body_read (ItemHead.Map count) bytes.now) }
    ensures takes { IfSome result (λ ahead. (0 < ahead.left) × (ahead.left ≤ budget)) }
{
    let mut left = budget;
    let mut rest = bytes;
    let mut held = 0;
    'pairs: loop {
        if let Some(after) = count.after_end(held, rest) {
            return Ahead::new(left, after);
        }
        let key = item_ahead(rest, left)?;
        let value = item_ahead(key.rest, key.left)?;
        left = value.left.saturating_sub(2);
        rest = value.rest;
        held += 1;
    }
}

/// What is left of the budget after all items, at `level`, that can be read from the front of the
/// bytes. Each takes two characters more than its text.
fn left_after_sequence(level: u8, bytes: &[u8], budget: usize) -> usize
    requires from { 1 ≤ level }
    requires to { level ≤ deepest + 1 }
    ensures { result ≡ budget
        - estimated_items (sequence_at (levels_left level) bytes.now).0 }
{
    let mut left = budget;
    let mut rest = bytes;
    'items: loop {
        let Some(after) = after_front(rest, level) else {
            return left;
        };
        let Some(item) = item_ahead(rest, left) else {
            return 0;
        };
        left = item.left.saturating_sub(2);
        rest = after;
    }
}
