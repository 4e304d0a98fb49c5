//! Tells whether two sequences of items are the same: byte for byte, or by their core deterministic
//! encodings.
ghost use Rattle.std.specs.Prelude.{◌≡◌, ◌↔◌, ℕ, true, false, List, None, IfOk, IfSome};
ghost use Rattle.cbor_rules.specs.declared.rules.TheConstants.Rules.{CORE};
ghost use Rattle.cbor_reencode.specs.Reencoded.{IsReencoded};
ghost use Rattle.cbor_diff.specs.Same.{AreSame};

use cbor_reencode::{ReencodeError, reencoded, violation_of};
use cbor_rules::Rules;
use std::alloc::{AllocError, Global};

/// The core deterministic encoding of items, or `None` if they have none: the bytes are not items,
/// or a map has two equal keys. Before `None` is returned, the bytes are checked again. If the
/// check finds no violation, the error is that of memory. Tests show that this never happens.
pub(crate) fn core_of(alloc: Global, items: &[u8]) -> Result<Option<Vec<u8>>, AllocError>
    ensures some { IfOk result (λ found. IfSome found
        (λ core. IsReencoded CORE items.now core.items)) }
    ensures none { IfOk result (λ found. found ≡ None
        → (core : List ℕ) → ¬ (IsReencoded CORE items.now core)) }
{
    match reencoded(alloc, items, Rules::CORE) {
        Ok(core) => return Ok(Some(core)),
        Err(ReencodeError::Memory) => return Err(AllocError),
        Err(_) => {}
    }
    match violation_of(alloc, items, Rules::VALID)? {
        Some(_) => Ok(None),
        None => Err(AllocError),
    }
}

/// Whether the bytes are the same, or have the same core deterministic encoding.
pub(crate) fn are_same(alloc: Global, old: &[u8], new: &[u8]) -> Result<bool, AllocError>
    ensures { IfOk result (λ same. (same ≡ true) ↔ AreSame old.now new.now) }
{
    if old == new {
        return Ok(true);
    }
    let Some(first) = core_of(alloc, old)? else {
        return Ok(false);
    };
    let Some(second) = core_of(alloc, new)? else {
        return Ok(false);
    };
    Ok(first == second)
}

/// Whether two sequences of items are the same: with `exact`, byte for byte.
pub(crate) fn are_equal(
    alloc: Global,
    old: &[u8],
    new: &[u8],
    exact: bool,
) -> Result<bool, AllocError>
    ensures exact { exact ≡ true → IfOk result (λ same. (same ≡ true) ↔ (old.now ≡ new.now)) }
    ensures same { exact ≡ false → IfOk result (λ same. (same ≡ true) ↔ AreSame old.now new.now) }
{
    if exact {
        return Ok(old == new);
    }
    are_same(alloc, old, new)
}
