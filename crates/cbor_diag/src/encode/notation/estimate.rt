//! Decides whether a container in a `DataItem` goes on one line, by an estimate of its length.
//! Pretty text gives each member of a long container its own line.
//!
//! A function `left_after_..` takes a budget of characters and returns how many are left after its
//! part: 0 if the part takes all of them or more. Once none is left, it reads no further members.
//! So the budget bounds the work, however large the item is.
ghost use Rattle.std.specs.Prelude.{◌≡◌, ◌+◌, ◌-◌, ◌*◌, map};
ghost use Rattle.cbor_diag.specs.View.{view, items_view, pairs_view};
ghost use Rattle.cbor_grammar.specs.NotationText.{container_style};
ghost use Rattle.cbor_grammar.specs.Estimate.{digit_count};
ghost use Rattle.cbor_grammar.specs.Estimate.{estimated_length};
ghost use Rattle.cbor_grammar.specs.Estimate.{estimated_items, estimated_pairs};

use crate::syntax::DataItem;
use cbor_grammar::layout::{ContainerStyle, Layout};
use cbor_notation_writer::budget::{
    BUDGET, digit_count, float_len, left_after_chunks, left_after_string, pretty_style,
};

/// The style of an array of these items, or of a sequence of them.
pub(super) fn array_style(layout: Layout, items: &Vec<DataItem>) -> ContainerStyle
    ensures { result ≡ container_style layout
        (4 + estimated_items (items_view items.now.items)) }
{
    match layout {
        Layout::Compact => ContainerStyle::Compact,
        Layout::Pretty { indent } => pretty_style(indent, left_after_items(items, BUDGET)),
    }
}

/// The style of a map of these pairs.
pub(super) fn map_style(layout: Layout, pairs: &Vec<(DataItem, DataItem)>) -> ContainerStyle
    ensures { result ≡ container_style layout
        (4 + estimated_pairs (pairs_view pairs.now.items)) }
{
    match layout {
        Layout::Compact => ContainerStyle::Compact,
        Layout::Pretty { indent } => pretty_style(indent, left_after_pairs(pairs, BUDGET)),
    }
}

/// What an item leaves of the budget.
#[cycle(estimate)]
fn left_after_item(item: &DataItem, budget: usize) -> usize
    ensures { result ≡ budget - estimated_length (view item.now) }
{
    match item {
        DataItem::Integer { value, .. } => budget.saturating_sub(digit_count(*value) + 2),
        DataItem::Negative { value, .. } => budget.saturating_sub(digit_count(*value) + 3),
        DataItem::ByteString(string) => left_after_string(string, budget),
        DataItem::TextString(string) => left_after_string(string, budget),
        DataItem::IndefiniteByteString(chunks) => left_after_chunks(
            chunks,
            budget.saturating_sub(4),
        ),
        DataItem::IndefiniteTextString(chunks) => left_after_chunks(
            chunks,
            budget.saturating_sub(4),
        ),
        DataItem::Array { content, .. } => left_after_items(content, budget.saturating_sub(4)),
        DataItem::Map { content, .. } => left_after_pairs(content, budget.saturating_sub(4)),
        DataItem::Tag { tag, value, .. } => match budget.saturating_sub(digit_count(tag.0) + 2) {
            0 => 0,
            left => left_after_item(value, left),
        },
        DataItem::Float { bitwidth, .. } => budget.saturating_sub(float_len(*bitwidth)),
        DataItem::Simple(simple) => budget.saturating_sub(digit_count(simple.0 as u64) + 8),
    }
}

/// What the items of an array leave of the budget, two characters more for each.
#[cycle(estimate)]
#[inline(never)]
fn left_after_items(items: &Vec<DataItem>, budget: usize) -> usize
    ensures { result ≡ budget - estimated_items (items_view items.now.items) }
{
    let mut left = budget;
    'items: for item in items {
        if left == 0 {
            return 0;
        }
        left = left_after_item(item, left).saturating_sub(2);
    }
    left
}

/// What the keys and values of a map leave of the budget, two characters more for each pair.
#[cycle(estimate)]
#[inline(never)]
fn left_after_pairs(pairs: &Vec<(DataItem, DataItem)>, budget: usize) -> usize
    ensures { result ≡ budget - estimated_pairs (pairs_view pairs.now.items) }
{
    let mut left = budget;
    'pairs: for (key, value) in pairs {
        if left == 0 {
            return 0;
        }
        left = left_after_item(value, left_after_item(key, left)).saturating_sub(2);
    }
    left
}
