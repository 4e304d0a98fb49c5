//! The C calls `cbor_diag_violation`, which finds the first violation of a set of rules, and
//! `cbor_diag_violation_text`, which writes the text of a kind of violation.
ghost use Rattle.std.specs.Prelude.{◌≡◌, ◌⊎◌, ◌↔◌, ◌<◌, negsuc, None, length, IfOk, IsErr};
ghost use Rattle.cbor_messages.specs.Kinds.{kind_text};
ghost use Rattle.cbor_reencode.specs.OneKey.{IsViolation, KeepsWithKeys};
ghost use Rattle.cbor_diag_c.specs.Answers.{IfLength, IfError, no_rules, written};
ghost use Rattle.cbor_diag_c.specs.Violations.{detail_of, rules_of};
ghost use Rattle.cbor_diag_c.specs.Violations.{IsTold, IsFoundBy, KeepsBy, TakesMemory};
ghost use Rattle.cbor_diag_c.specs.Violations.{TakesMemoryBy};
ghost use Rattle.cbor_diag_c.specs.Places.{no_place};

use crate::answer::{refused, write};
use crate::faults::NO_PLACE;
use cbor_grammar::Error;
use cbor_messages::{kind_number, kind_text};
use cbor_reencode::violation_of;
use cbor_rules::{Rules, Violation, ViolationKind, violation};
use std::alloc::{AllocError, Global};

/// What is returned for the number of no set of rules.
pub(crate) const NO_RULES: i64 = -12;

/// Returns the set of rules with this number.
pub(crate) fn rules_of(number: u32) -> Option<Rules>
    ensures { result ≡ rules_of number }
{
    match number {
        0 => Some(Rules::RFC_8949),
        1 => Some(Rules::VALID),
        2 => Some(Rules::PREFERRED),
        3 => Some(Rules::CORE),
        4 => Some(Rules::LENGTH_FIRST),
        5 => Some(Rules::CTAP2),
        6 => Some(Rules::DCBOR),
        _ => None,
    }
}

/// The detail of a kind: the number of the error, or the place of the other key.
fn detail_of(kind: ViolationKind) -> usize
    ensures { result ≡ detail_of kind }
{
    match kind {
        ViolationKind::NoItem(error) => error.number() as usize,
        ViolationKind::KeyOrder { previous } => previous,
        ViolationKind::KeyTwice { first } => first,
        _ => NO_PLACE,
    }
}

/// What breaks the rules first. Memory is taken only where the rules need it.
#[tactic(auto, using(crate::proofs::Told::without_laws))]
fn first(alloc: Global, bytes: &[u8], rules: Rules) -> Result<Option<Violation>, AllocError>
    ensures first { IfOk result (IsViolation rules bytes.now) }
    ensures none { IfOk result (λ found. (found ≡ None) ↔ KeepsWithKeys rules bytes.now) }
    ensures memory { IsErr result → TakesMemory rules }
{
    if rules.nfc || rules.distinct_keys {
        violation_of(alloc, bytes, rules)
    } else {
        Ok(violation(bytes, rules))
    }
}

/// Returns the number of the first violation, or 0, and sets its place and detail.
pub(crate) fn told(found: Option<Violation>, place: &mut usize, detail: &mut usize) -> i64
    ensures told { IfLength result (λ n. IsTold found n place.new detail.new) }
    ensures no_error { IfError result (λ n. ⊥) }
{
    match found {
        None => {
            *place = NO_PLACE;
            *detail = NO_PLACE;
            0
        }
        Some(violation) => {
            *place = violation.place;
            *detail = detail_of(violation.kind);
            i64::from(kind_number(violation.kind))
        }
    }
}

/// Reports where bytes first break a set of rules.
///
/// Returns 0 if they are items, none or more, that keep the rules; otherwise the number of the kind
/// of the first violation, or minus the number of an error: `Memory`, which only `VALID` and
/// `DCBOR` can have, or 12 for no set of rules. Sets `place` to how many bytes come before the head
/// or the key that breaks the rule; and `detail` to the place of the other key, if a key is out of
/// order or stands twice, or to the number of the error, if there is no item. Both are 2^64 - 1
/// where there is no violation. By `VALID` two keys are the same if their core encodings are.
#[unsafe(no_mangle)]
#[tactic(auto, using(crate::proofs::Told::violation_laws))]
pub extern "C" fn cbor_diag_violation(
    alloc: Global,
    rules: u32,
    input: &[u8],
    place: &mut usize,
    detail: &mut usize,
) -> i64
    ensures found { IfLength result (λ n. IsFoundBy rules input.now n place.new detail.new) }
    ensures kept { IfLength result (λ n. (n ≡ 0) ↔ KeepsBy rules input.now) }
    ensures error { IfError result (λ n. ((n ≡ 1) × TakesMemoryBy rules)
        ⊎ ((n ≡ no_rules) × (rules_of rules ≡ None))) }
    ensures no_place { IfError result (λ n. (place.new ≡ no_place) × (detail.new ≡ no_place)) }
    ensures unknown_rules { rules_of rules ≡ None → result ≡ negsuc 11 }
{
    *place = NO_PLACE;
    *detail = NO_PLACE;
    let Some(rules) = rules_of(rules) else {
        return NO_RULES;
    };
    match first(alloc, input, rules) {
        Ok(found) => told(found, place, detail),
        Err(_) => refused(Error::Memory),
    }
}

/// Writes in words what is wrong by the number of a kind, in ASCII and without a full stop.
///
/// Returns the length of the text, and writes as much of it as fits into `output`.
#[unsafe(no_mangle)]
pub extern "C" fn cbor_diag_violation_text(kind: u32, output: &mut [u8]) -> i64
    ensures text { IfLength result (λ n. (n ≡ length (kind_text kind))
        × (output.new ≡ written (kind_text kind) output.old)) }
    ensures no_error { IfError result (λ n. ⊥) }
{
    write(kind_text(kind).as_bytes(), output)
}
