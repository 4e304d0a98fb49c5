//! Sorts the re-encoded pairs of a map by their keys, checks that no key stands twice, and writes
//! the pairs.
ghost use Rattle.std.specs.Prelude.{◌≡◌, ◌++◌, IfOk};
ghost use Rattle.std.specs.List.Sorted.{IsPermutation};
ghost use Rattle.cbor_reencode.specs.mirror.Rewritten.{pair_bytes};

use crate::error::ReencodeError;
use cbor_rules::KeyOrder;
use std::alloc::AllocError;
use std::cmp::Ordering;

/// A re-encoded pair of a map: its key and its value, and the byte offset of the key in the input.
#[derive(Drop)]
pub struct Pair {
    pub place: usize,
    pub key: Vec<u8>,
    pub value: Vec<u8>,
}

/// Sorts the pairs by their keys. Equal keys stay in their order.
pub fn sort_pairs(order: KeyOrder, pairs: &mut Vec<Pair>) -> Result<(), AllocError>
    ensures { IsPermutation pairs.old.items pairs.new.items }
{
    if order == KeyOrder::Any {
        return Ok(());
    }
    pairs.sort_by(|x, y| order.compare(&x.key, &y.key))
}

/// Checks that no key of sorted pairs stands twice. The error names the first two equal keys.
pub fn check_rising(order: KeyOrder, pairs: &[Pair]) -> Result<(), ReencodeError> {
    for i in 1..pairs.len() {
        let first = &pairs[i - 1];
        let second = &pairs[i];
        if order.compare(&first.key, &second.key) == Ordering::Equal {
            return Err(ReencodeError::KeyTwice {
                first: first.place,
                second: second.place,
            });
        }
    }
    Ok(())
}

/// Writes the pairs in their order.
pub fn push_pairs(out: &mut Vec<u8>, pairs: &[Pair]) -> Result<(), AllocError>
    ensures { IfOk result (λ x. out.new.items ≡ out.old.items ++ pair_bytes pairs.now) }
{
    for pair in pairs {
        out.extend_from_slice(&pair.key)?;
        out.extend_from_slice(&pair.value)?;
    }
    Ok(())
}
