//! The C calls `cbor_diag_reencode`, which re-encodes items by rules, and
//! `cbor_diag_reencode_fault`, which says why items have no such encoding.
ghost use Rattle.std.specs.Prelude.{◌≡◌, ◌≢◌, ◌⊎◌, negsuc, None};
ghost use Rattle.cbor_rules.specs.Keeps.{KeepsRules};
ghost use Rattle.cbor_reencode.specs.Reencoded.{FixesKeys, KeysOnce};
ghost use Rattle.cbor_diag_c.specs.Answers.{IfLength, IfError, IfReturned};
ghost use Rattle.cbor_diag_c.specs.Answers.{no_rules, not_encodable};
ghost use Rattle.cbor_diag_c.specs.Violations.{rules_of};
ghost use Rattle.cbor_diag_c.specs.Places.{no_place};
ghost use Rattle.cbor_diag_c.specs.Reencodings.{IsWrittenText, IsAgain, IsAgainBy};
ghost use Rattle.cbor_diag_c.specs.Reencodings.{Breaks, BreaksBy, StaysBy};
ghost use Rattle.cbor_diag_c.specs.Reencodings.{IsToldWhy, IsToldWhyNot, IsToldWhyNotBy};

use crate::answer::{refused, write};
use crate::faults::NO_PLACE;
use crate::violations::{NO_RULES, rules_of, told};
use cbor_grammar::Error;
use cbor_messages::kind_number;
use cbor_reencode::{ReencodeError, reencoded};
use cbor_rules::{Rules, ViolationKind};
use std::alloc::Global;

/// What is returned for an input that has no encoding by the rules.
const NOT_ENCODABLE: i64 = -13;

/// Writes the items of the input, encoded again by the rules, and returns their length.
fn encode(alloc: Global, rules: Rules, input: &[u8], output: &mut [u8]) -> i64
    ensures whole { IfLength result (IsAgain rules input.now output.old output.new) }
    ensures kept { KeepsRules rules input.now → (FixesKeys rules ⊎ KeysOnce input.now)
        → IfReturned result (IsWrittenText input.now output.old output.new) (λ n. n ≡ 1) }
    ensures breaks { Breaks rules input.now → IfReturned result
        (λ n. ⊥) (λ n. (n ≡ 1) ⊎ (n ≡ not_encodable)) }
    ensures why { IfError result (λ n. (n ≡ 1) ⊎ (n ≡ not_encodable)) }
    ensures unchanged { IfError result (λ n. output.new ≡ output.old) }
{
    match reencoded(alloc, input, rules) {
        Ok(whole) => write(&whole, output),
        Err(ReencodeError::Memory) => refused(Error::Memory),
        Err(_) => NOT_ENCODABLE,
    }
}

/// Encodes items, none or more, one after the other, again, so that they keep a set of rules.
///
/// Returns the length of the whole output, and writes as much of it as fits into `output`; or minus
/// the number of the error, and then nothing is written: `Memory`, 12 for no set of rules, or 13
/// for an input that has no encoding by the rules. An input that keeps them, and in which no two
/// keys of a map are one, is returned as it is.
#[unsafe(no_mangle)]
#[tactic(auto, using(crate::proofs::Told::of_rules))]
pub extern "C" fn cbor_diag_reencode(
    alloc: Global,
    rules: u32,
    input: &[u8],
    output: &mut [u8],
) -> i64
    ensures whole { IfLength result (IsAgainBy rules input.now output.old output.new) }
    ensures kept { StaysBy rules input.now → IfReturned result
        (IsWrittenText input.now output.old output.new) (λ n. n ≡ 1) }
    ensures breaks { BreaksBy rules input.now → IfReturned result
        (λ n. ⊥) (λ n. (n ≡ 1) ⊎ (n ≡ not_encodable)) }
    ensures why { IfError result (λ n. (n ≡ 1)
        ⊎ ((n ≡ no_rules) × (rules_of rules ≡ None))
        ⊎ (n ≡ not_encodable)) }
    ensures unchanged { IfError result (λ n. output.new ≡ output.old) }
    ensures unknown_rules { rules_of rules ≡ None → result ≡ negsuc 11 }
{
    let Some(rules) = rules_of(rules) else {
        return NO_RULES;
    };
    encode(alloc, rules, input, output)
}

/// Returns the number of what is wrong, and sets its place and detail. Of what was written, which
/// is not there, it has neither.
fn told_why(error: ReencodeError, place: &mut usize, detail: &mut usize) -> i64
    ensures told { IfLength result (λ n. IsToldWhy error n place.new detail.new) }
    ensures memory { IfError result (λ n. (n ≡ 1) × (error ≡ ReencodeError.Memory)) }
    ensures no_place { IfError result (λ n. (place.new ≡ no_place) × (detail.new ≡ no_place)) }
{
    *place = NO_PLACE;
    *detail = NO_PLACE;
    match error {
        ReencodeError::Memory => refused(Error::Memory),
        ReencodeError::Violation(violation) => told(Some(violation), place, detail),
        ReencodeError::KeyTwice { first, second } => {
            *place = second;
            *detail = first;
            i64::from(kind_number(ViolationKind::KeyTwice { first }))
        }
        ReencodeError::Written(violation) => i64::from(kind_number(violation.kind)),
    }
}

/// Tells why the input is not encoded again by the rules; 0 if it is.
#[tactic(auto, using(crate::proofs::Told::why_laws))]
fn why_not(alloc: Global, rules: Rules, input: &[u8], place: &mut usize, detail: &mut usize) -> i64
    ensures told { IfLength result (λ n.
        IsToldWhyNot rules input.now n place.new detail.new) }
    ensures kept { KeepsRules rules input.now → (FixesKeys rules ⊎ KeysOnce input.now)
        → IfLength result (λ n. n ≡ 0) }
    ensures breaks { Breaks rules input.now → IfLength result (λ n. n ≢ 0) }
    ensures memory { IfError result (λ n. n ≡ 1) }
    ensures no_place { IfError result (λ n. (place.new ≡ no_place) × (detail.new ≡ no_place)) }
{
    let error = match reencoded(alloc, input, rules) {
        Ok(_) => return told(None, place, detail),
        Err(error) => error,
    };
    told_why(error, place, detail)
}

/// Reports why `cbor_diag_reencode` has no encoding of an input by a set of rules, and where.
///
/// Returns 0 if there is one, and otherwise the number of the kind of violation that no encoding
/// avoids, or minus the number of an error: `Memory`, or 12 for no set of rules. Sets `place` to
/// how many bytes of the input come before what is wrong; and `detail` to the place of the other
/// key, if a key stands twice once the items are encoded again, or to the number of the error, if
/// there is no item. Both are 2^64 - 1 if there is an encoding, and if the violation is not in the
/// input but in the re-encoded items.
#[unsafe(no_mangle)]
#[tactic(auto, using(crate::proofs::Told::of_rules))]
pub extern "C" fn cbor_diag_reencode_fault(
    alloc: Global,
    rules: u32,
    input: &[u8],
    place: &mut usize,
    detail: &mut usize,
) -> i64
    ensures told { IfLength result (λ n.
        IsToldWhyNotBy rules input.now n place.new detail.new) }
    ensures kept { StaysBy rules input.now → IfLength result (λ n. n ≡ 0) }
    ensures breaks { BreaksBy rules input.now → IfLength result (λ n. n ≢ 0) }
    ensures error { IfError result (λ n. (n ≡ 1) ⊎ ((n ≡ no_rules) × (rules_of rules ≡ None))) }
    ensures no_place { IfError result (λ n. (place.new ≡ no_place) × (detail.new ≡ no_place)) }
    ensures unknown_rules { rules_of rules ≡ None → result ≡ negsuc 11 }
{
    *place = NO_PLACE;
    *detail = NO_PLACE;
    let Some(rules) = rules_of(rules) else {
        return NO_RULES;
    };
    why_not(alloc, rules, input, place, detail)
}
