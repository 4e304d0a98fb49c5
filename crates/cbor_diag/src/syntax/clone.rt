//! Copies a `DataItem`. The functions are written out: a derived `clone` takes no allocator, and
//! has no contract for a recursive type.
ghost use Rattle.std.specs.Prelude.{◌≡◌, IfErr, IfOk, map};
ghost use Rattle.cbor_diag.specs.View.{view, items_view, pairs_view};

use super::DataItem;
use cbor_grammar::strings::DefiniteString;
use cbor_grammar::{ByteString, Error, Result, TextString};
use std::alloc::Global;

/// Copies of the chunks of a string, in order.
fn clone_chunks<S: DefiniteString>(alloc: Global, chunks: &[S]) -> Result<Vec<S>>
    ensures equal { IfOk result (λ v. map S.chunk v.items ≡ map S.chunk chunks.now) }
    ensures refused { IfErr result (λ e. e ≡ Error.Memory) }
{
    let mut copies = Vec::with_capacity(alloc, chunks.len())?;
    'chunks: for chunk in chunks {
        copies.push(chunk.copy(alloc)?)?;
    }
    Ok(copies)
}

impl DataItem {
    /// Returns a copy that is equal to the item, widths included. The item need not be well formed.
    /// The call recurses as deep as the item is nested. The only error is `Memory`.
    #[cycle(copy)]
    pub fn clone(&self, alloc: Global) -> Result<DataItem>
        ensures equal { IfOk result (λ v. view v ≡ view self.now) }
        ensures refused { IfErr result (λ e. e ≡ Error.Memory) }
    {
        match *self {
            DataItem::Integer { value, bitwidth } => Ok(DataItem::Integer { value, bitwidth }),
            DataItem::Negative { value, bitwidth } => Ok(DataItem::Negative { value, bitwidth }),
            DataItem::ByteString(ref string) => Ok(DataItem::ByteString(string.clone(alloc)?)),
            DataItem::TextString(ref string) => Ok(DataItem::TextString(string.clone(alloc)?)),
            DataItem::IndefiniteByteString(ref chunks) => {
                let chunks = clone_chunks(alloc, chunks)?;
                Ok(DataItem::IndefiniteByteString(chunks))
            }
            DataItem::IndefiniteTextString(ref chunks) => {
                let chunks = clone_chunks(alloc, chunks)?;
                Ok(DataItem::IndefiniteTextString(chunks))
            }
            DataItem::Array {
                ref content,
                bitwidth,
            } => {
                let content = clone_items(alloc, content)?;
                Ok(DataItem::Array { content, bitwidth })
            }
            DataItem::Map {
                ref content,
                ref bitwidth,
            } => {
                let content = clone_pairs(alloc, content)?;
                let bitwidth = *bitwidth;
                Ok(DataItem::Map { content, bitwidth })
            }
            DataItem::Tag {
                tag,
                bitwidth,
                ref value,
            } => {
                let value = Box::new(alloc, DataItem::clone(value, alloc)?)?;
                Ok(DataItem::Tag {
                    tag,
                    bitwidth,
                    value,
                })
            }
            DataItem::Float { bits, bitwidth } => Ok(DataItem::Float { bits, bitwidth }),
            DataItem::Simple(simple) => Ok(DataItem::Simple(simple)),
        }
    }
}

/// Copies of items, in order.
#[cycle(copy)]
fn clone_items(alloc: Global, items: &Vec<DataItem>) -> Result<Vec<DataItem>>
    ensures equal { IfOk result (λ v. items_view v.items ≡ items_view items.now.items) }
    ensures refused { IfErr result (λ e. e ≡ Error.Memory) }
{
    let mut copies = Vec::with_capacity(alloc, items.len())?;
    'items: for item in items {
        copies.push(item.clone(alloc)?)?;
    }
    Ok(copies)
}

/// Copies of keys with their values, in order.
#[cycle(copy)]
fn clone_pairs(
    alloc: Global,
    pairs: &Vec<(DataItem, DataItem)>,
) -> Result<Vec<(DataItem, DataItem)>>
    ensures equal { IfOk result (λ v. pairs_view v.items ≡ pairs_view pairs.now.items) }
    ensures refused { IfErr result (λ e. e ≡ Error.Memory) }
{
    let mut copies = Vec::with_capacity(alloc, pairs.len())?;
    'pairs: for (key, value) in pairs {
        let key = key.clone(alloc)?;
        copies.push((key, value.clone(alloc)?))?;
    }
    Ok(copies)
}
