//! Checks whether an encoding keeps rules beyond the grammar of CBOR, such as those of
//! deterministic encoding (RFC 8949 section 4.2).
//!
//! [`violation`] finds the first place at which bytes break one of the rules of a [`Rules`]. It
//! takes no memory; [`violation_in`] also checks the rules that take memory. [`RuleSet`] finds
//! rules by the name of their set.
//!
//! ```rust
//! use cbor_rules::{Violation, ViolationKind, Rules, violation};
//!
//! assert_eq!(rt; violation(b"\xa1\x01\x80", Rules::CTAP2), None);
//! let kind = ViolationKind::KeyOrder { previous: 1 };
//! let found = violation(b"\xa2\x02\x80\x01\x80", Rules::CTAP2);
//! assert_eq!(rt; found, Some(Violation { place: 3, kind }));
//! ```
#![tactic(auto)]

mod check;
mod container;
mod head;
mod keys;
mod kind;
mod laws;
mod reduced;
mod rule_set;
mod rules;
mod text;

pub use check::{violation, violation_in};
pub use head::float_of;
pub use kind::{Violation, ViolationKind};
pub use reduced::reduced_violation;
pub use rule_set::{ENCODINGS, RULES, RuleSet};
pub use rules::{KeyOrder, Rules};
