//! States laws of rules: under deterministic rules, the same items have one encoding; and each
//! named set has the rules that its definition says. Each law is the contract of a function that no
//! code calls.
ghost use Rattle.std.specs.Prelude.{◌≡◌, ℕ, List};
ghost use Rattle.cbor_grammar.specs.Item.{Items};
ghost use Rattle.cbor_rules.specs.declared.rules.Rules.{Rules};
ghost use Rattle.cbor_rules.specs.Sets as sets;
ghost use Rattle.cbor_rules.specs.Same.{AreKept, IsDeterministic, SameItems};

use crate::rules::Rules;

/// Deterministic bytes of the same items are the same bytes. The items may differ in widths, kinds
/// of length and the order of pairs, and in the widths of floats if the rules fix these.
fn one_encoding()
    ensures { (rules : Rules) (b c : List ℕ) (is js : Items) → IsDeterministic rules
        → AreKept rules b is → AreKept rules c js → SameItems rules.shortest_floats is js → b ≡ c }
{}

fn rfc_8949() -> Rules
    ensures { result ≡ sets.rfc_8949 }
{
    Rules::RFC_8949
}

fn valid() -> Rules
    ensures { result ≡ sets.valid }
{
    Rules::VALID
}

fn preferred() -> Rules
    ensures { result ≡ sets.preferred }
{
    Rules::PREFERRED
}

fn core() -> Rules
    ensures is { result ≡ sets.core }
    ensures deterministic { IsDeterministic result }
{
    Rules::CORE
}

fn length_first() -> Rules
    ensures is { result ≡ sets.length_first }
    ensures deterministic { IsDeterministic result }
{
    Rules::LENGTH_FIRST
}

fn ctap2() -> Rules
    ensures is { result ≡ sets.ctap2 }
    ensures deterministic { IsDeterministic result }
{
    Rules::CTAP2
}

fn dcbor() -> Rules
    ensures is { result ≡ sets.dcbor }
    ensures deterministic { IsDeterministic result }
{
    Rules::DCBOR
}
