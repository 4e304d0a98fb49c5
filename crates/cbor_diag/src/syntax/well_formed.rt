//! Checks that a `DataItem` is well formed, so that it has an encoding: each number fits its width,
//! and no item is deeper than level 128.
ghost use Rattle.std.specs.Prelude.{◌↔◌, IsTrue, map};
ghost use Rattle.std.specs.List.{AllByRecursion};
ghost use Rattle.cbor_diag.specs.View.{view, items_view, pairs_view};
ghost use Rattle.cbor_grammar.specs.Facts.{IsWellFormed};
ghost use Rattle.cbor_grammar.specs.WellFormed.{WellFormed, WellFormedItems, WellFormedPairs};
ghost use Rattle.cbor_grammar.specs.WellFormed.{IsChunk};

use super::DataItem;
use cbor_grammar::level::DEEPEST;
use cbor_grammar::strings::DefiniteString;
use cbor_grammar::width::count_fits;

/// Whether the length of the content fits its width.
fn length_fits<S: DefiniteString>(string: &S) -> bool
    ensures { IsTrue result ↔ IsChunk S.kind (S.chunk string.now) }
{
    let content = string.content().as_bytes();
    string.width().fits(content.len() as u64)
}

/// Whether the length of each chunk fits its width.
fn chunks_fit<S: DefiniteString>(chunks: &[S]) -> bool
    ensures { IsTrue result ↔ AllByRecursion (IsChunk S.kind) (map S.chunk chunks.now) }
{
    chunks.iter().all(length_fits)
}

/// Whether an item at this level is well formed. Items past the deepest level are not looked at.
#[cycle(well_formed)]
fn well_formed_at_level(item: &DataItem, level: u8) -> bool
    ensures { IsTrue result ↔ WellFormed level (view item.now) }
{
    if level > DEEPEST {
        return false;
    }
    match item {
        DataItem::Integer { value, bitwidth } | DataItem::Negative { value, bitwidth } => {
            bitwidth.fits(*value)
        }
        DataItem::ByteString(string) => length_fits(string),
        DataItem::TextString(string) => length_fits(string),
        DataItem::IndefiniteByteString(chunks) => chunks_fit(chunks),
        DataItem::IndefiniteTextString(chunks) => chunks_fit(chunks),
        DataItem::Array { content, bitwidth } => {
            count_fits(*bitwidth, content.len()) && items_well_formed(content, level + 1)
        }
        DataItem::Map { content, bitwidth } => {
            count_fits(*bitwidth, content.len()) && pairs_well_formed(content, level + 1)
        }
        DataItem::Tag {
            tag,
            bitwidth,
            value,
        } => bitwidth.fits(tag.0) && well_formed_at_level(value, level + 1),
        DataItem::Float { bits, bitwidth } => bitwidth.fits(*bits),
        DataItem::Simple(simple) => {
            // Reading the number shows the proof that it is below 256.
            let _number = simple.0;
            true
        }
    }
}

/// Whether items at this level are well formed.
#[cycle(well_formed)]
fn items_well_formed(items: &Vec<DataItem>, level: u8) -> bool
    ensures { IsTrue result ↔ WellFormedItems level (items_view items.now.items) }
{
    'items: for item in items {
        if !well_formed_at_level(item, level) {
            return false;
        }
    }
    true
}

/// Whether keys and values at this level are well formed.
#[cycle(well_formed)]
fn pairs_well_formed(pairs: &Vec<(DataItem, DataItem)>, level: u8) -> bool
    ensures { IsTrue result ↔ WellFormedPairs level (pairs_view pairs.now.items) }
{
    'pairs: for (key, value) in pairs {
        if !(well_formed_at_level(key, level) && well_formed_at_level(value, level)) {
            return false;
        }
    }
    true
}

impl DataItem {
    /// Returns whether the item is well formed, that is, has an encoding. Each number, tag, length
    /// and count has to fit the width stated for it, and the bits of each float theirs. No item may
    /// be deeper than level 128, where the outermost is at level 1.
    ///
    /// It allocates nothing, and looks at nothing below level 129.
    pub fn is_well_formed(&self) -> bool
        ensures { IsTrue result ↔ IsWellFormed (view self.now) }
    {
        well_formed_at_level(self, 1)
    }
}
