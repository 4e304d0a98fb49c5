//! Finds the first violation of rules (`violation_of`), and re-encodes items by rules
//! (`reencoded`). Both compare the keys of a map by value: 1 and 1_0 are equal.
ghost use Rattle.std.specs.Prelude.{◌≡◌, ◌⊎◌, ◌↔◌, true, false, IfOk, IfErr, IfSome, MatchResult};
ghost use Rattle.std.specs.Prelude.{Some, None};
ghost use Rattle.cbor_rules.specs.declared.kind.Violation.{Violation};
ghost use Rattle.cbor_rules.specs.FirstViolation.{first_violation};
ghost use Rattle.cbor_rules.specs.Keeps.{KeepsRules};
ghost use Rattle.cbor_reencode.specs.OneKey.{KeepsWithKeys, IsViolation};
ghost use Rattle.cbor_reencode.specs.Reencoded.{IsReencoded, lasting, KeysOnce, FixesKeys};
ghost use Rattle.cbor_reencode.specs.mirror.Twice.{unordered};

use crate::encoder::Encoder;
use crate::error::ReencodeError;
use crate::items::{encoded, lasting};
use cbor_rules::{KeyOrder, Rules, Violation, ViolationKind, violation_in};
use std::alloc::{AllocError, Global};

/// The rules of core deterministic encoding without an order of keys. The keys of a map have to
/// differ if `distinct_keys` is set.
fn unordered(distinct_keys: bool) -> Rules
    ensures { result ≡ unordered distinct_keys }
{
    Rules {
        key_order: KeyOrder::Any,
        distinct_keys,
        ..Rules::CORE
    }
}

/// Whether items violate the rules of core deterministic encoding, but for the order of keys, only
/// because a key stands twice.
fn are_keys_alone_wrong(alloc: Global, written: &[u8]) -> Result<bool, AllocError>
    ensures { IfOk result (λ twice. twice ≡ true → KeepsRules (unordered false) written.now
        × (¬ (KeepsRules (unordered true) written.now))) }
{
    match violation_in(alloc, written, unordered(false))? {
        Some(_) => Ok(false),
        None => Ok(violation_in(alloc, written, unordered(true))?.is_some()),
    }
}

/// Whether two keys of a map have the same core deterministic encoding. It encodes all items
/// that way, without an error for equal keys.
fn have_key_twice(alloc: Global, bytes: &[u8]) -> Result<bool, ReencodeError>
    ensures { IfOk result (λ twice. twice ≡ true → ¬ (KeysOnce bytes.now)) }
{
    let encoder = Encoder {
        rules: Rules::CORE,
        len: bytes.len(),
        keys_differ: false,
    };
    let out = encoder.items(alloc, bytes)?;
    let twice = are_keys_alone_wrong(alloc, &out)?;
    Ok(twice)
}

/// The places of two equal keys of a map, if there are such keys. The core encoding is checked
/// before they are returned. If the check finds no equal keys, the error is that of memory. Tests
/// show that this never happens.
fn keys_twice(alloc: Global, bytes: &[u8]) -> Result<Option<(usize, usize)>, AllocError>
    ensures none { IfOk result (λ found. found ≡ None → KeysOnce bytes.now) }
    ensures some { IfOk result (λ found. IfSome found (λ places. ¬ (KeysOnce bytes.now))) }
{
    let (first, second) = match encoded(alloc, bytes, Rules::CORE) {
        Ok(_) => return Ok(None),
        Err(ReencodeError::KeyTwice { first, second }) => (first, second),
        Err(_) => return Err(AllocError),
    };
    match have_key_twice(alloc, bytes) {
        Ok(true) => Ok(Some((first, second))),
        _ => Err(AllocError),
    }
}

/// Returns the first violation of the rules, with its place. Returns `None` if and only if the
/// bytes are items that keep the rules and, where the rules ask for distinct keys, no map has two
/// equal keys.
///
/// Two keys are equal if [`Rules::CORE`] encodes both to the same bytes: 1 in one byte and in two,
/// or maps that have their pairs in another order. [`violation_in`] runs first, and compares keys
/// by their bytes. If several pairs of keys are equal, the violation is the pair whose core
/// encoding comes first in its map. Inner maps come before outer ones.
#[tactic(auto, using(crate::proofs::Broken::broken_laws))]
pub fn violation_of(
    alloc: Global,
    bytes: &[u8],
    rules: Rules,
) -> Result<Option<Violation>, AllocError>
    ensures is { IfOk result (IsViolation rules bytes.now) }
    ensures none { IfOk result (λ found. (found ≡ None) ↔ KeepsWithKeys rules bytes.now) }
{
    if let Some(found) = violation_in(alloc, bytes, rules)? {
        return Ok(Some(found));
    }
    if !rules.distinct_keys {
        return Ok(None);
    }
    let Some((first, second)) = keys_twice(alloc, bytes)? else {
        return Ok(None);
    };
    Ok(Some(Violation {
        place: second,
        kind: ViolationKind::KeyTwice { first },
    }))
}

/// Whether these rules encode equal keys to the same bytes, and allow no two such keys in a map.
fn fixes_keys(rules: Rules) -> bool
    ensures { (result ≡ true) ↔ FixesKeys rules }
{
    rules.shortest_heads
        && rules.shortest_floats
        && rules.definite_lengths
        && rules.big_numbers
        && rules.key_order != KeyOrder::Any
}

/// Checks that no two keys of a map are equal, where the rules leave that open.
fn check_keys(alloc: Global, bytes: &[u8], rules: Rules) -> Result<(), ReencodeError>
    ensures distinct { IfOk result (λ x. FixesKeys rules ⊎ KeysOnce bytes.now) }
    ensures lasts { (b : Violation) → first_violation (lasting rules) bytes.now ≡ Some b
        → IfErr result (λ e. (e ≡ ReencodeError.Violation b) ⊎ (e ≡ ReencodeError.Memory)) }
    ensures found { first_violation (lasting rules) bytes.now ≡ None
        → FixesKeys rules ⊎ KeysOnce bytes.now → IfErr result (λ e. e ≡ ReencodeError.Memory) }
{
    if fixes_keys(rules) {
        return Ok(());
    }
    if let Some(found) = violation_in(alloc, bytes, lasting(rules))? {
        return Err(ReencodeError::Violation(found));
    }
    match keys_twice(alloc, bytes)? {
        None => Ok(()),
        Some((first, second)) => Err(ReencodeError::KeyTwice { first, second }),
    }
}

/// Re-encodes a sequence of items so that they keep the rules. The result has the same items but
/// for widths, kinds of length, the order of pairs and the forms of numbers. Bytes that already
/// keep the rules are returned unchanged.
///
/// A number changes only if the rules leave it one form. With `reduced_floats`, as in dCBOR, a
/// float with an integer value becomes that integer, and each NaN becomes f97e00. With
/// `big_numbers`, a big number becomes an integer if it fits, and otherwise loses its leading zero
/// bytes.
///
/// If a map has two equal keys, the items are not re-encoded, whatever the rules are.
/// [`violation_of`](crate::violation_of) defines when keys are equal.
pub fn reencoded(alloc: Global, bytes: &[u8], rules: Rules) -> Result<Vec<u8>, ReencodeError>
    ensures is { IfOk result (λ out. IsReencoded rules bytes.now out.items) }
    ensures keeps { IfOk result (λ out. KeepsRules rules out.items) }
    ensures distinct { IfOk result (λ out. FixesKeys rules ⊎ KeysOnce bytes.now) }
    ensures kept { KeepsRules rules bytes.now → (FixesKeys rules ⊎ KeysOnce bytes.now)
        → MatchResult result (λ out. out.items ≡ bytes.now) (λ e. e ≡ ReencodeError.Memory) }
    ensures lasts { (b : Violation) → first_violation (lasting rules) bytes.now ≡ Some b
        → MatchResult result (λ out. ⊥)
        (λ e. (e ≡ ReencodeError.Violation b) ⊎ (e ≡ ReencodeError.Memory)) }
{
    check_keys(alloc, bytes, rules)?;
    encoded(alloc, bytes, rules)
}
