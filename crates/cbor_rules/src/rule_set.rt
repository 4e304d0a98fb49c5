//! `RuleSet`: a set of rules with a name, such as `dcbor`, and the first words of its error
//! messages. Finds a set by its name. `RULES` lists the names of the sets, and `ENCODINGS` those of
//! the sets that items can be encoded by.

use crate::rules::Rules;

/// The names of the sets of rules.
pub static RULES: [&str; 7] = [
    "rfc8949",
    "valid",
    "preferred",
    "core",
    "length-first",
    "ctap2",
    "dcbor",
];

/// The names of those that items can be encoded by.
pub static ENCODINGS: [&str; 5] = ["preferred", "core", "length-first", "ctap2", "dcbor"];

/// A set of rules that has a name.
#[derive(Clone, Copy)]
pub struct RuleSet {
    /// The rules.
    pub rules: Rules,
    /// What an encoding is not that breaks one of them.
    pub not: &'static str,
}

impl RuleSet {
    /// The set of rules that a word names; none for `rfc8949`, which each check has, and for any
    /// other word.
    pub fn named(word: &str) -> Option<RuleSet> {
        let (rules, not) = match word {
            "valid" => (Rules::VALID, "not valid: "),
            "preferred" => (Rules::PREFERRED, "not preferred: "),
            "core" => (Rules::CORE, "not core deterministic: "),
            "length-first" => (Rules::LENGTH_FIRST, "not length-first deterministic: "),
            "ctap2" => (Rules::CTAP2, "not CTAP2 canonical: "),
            "dcbor" => (Rules::DCBOR, "not dCBOR: "),
            _ => return None,
        };
        Some(RuleSet { rules, not })
    }
}
