//! States laws of the definitions in `specs/`, each as the contract of a function that no code
//! calls. Bytes begin with an item, are truncated or are malformed, and only one of these holds.
//! Other laws say which items a byte string embeds, and why a byte string embeds none. The last law
//! says that the complete part of truncated or malformed bytes has only one count of turns (steps
//! of a reader).
ghost use Rattle.std.specs.Prelude.{◌≡◌, ℕ, ◌+◌, ◌<◌, ◌≤◌, List, slice_index};
ghost use Rattle.cbor_grammar.specs.WellFormed.{deepest};
ghost use Rattle.cbor_grammar.specs.Embedded.{EmbedsExactly, RejectsExactly};
ghost use Rattle.cbor_grammar.specs.Answer.{OneOutcome};
ghost use Rattle.cbor_grammar.specs.declared.error.Error.{Error};
ghost use Rattle.cbor_grammar.specs.Refused.{Cut, Fault};
ghost use Rattle.cbor_grammar.specs.Turns.{cut_spent, fault_spent};

/// For all bytes, read from any level from 1 to 129, exactly one of three cases holds: some first
/// bytes encode one item, the bytes are cut, or they have one fault.
pub(crate) fn one_of_three()
    ensures { (level : ℕ) (b : List ℕ) → 1 ≤ level → level ≤ deepest + 1
        → ((i : ℕ) → slice_index b i < 256) → OneOutcome level b }
{}

/// Which items are embedded in bytes: the item that they encode, and the longest sequence of items
/// at their front, after which the rest begins with no item.
pub(crate) fn embedded_items()
    ensures { EmbedsExactly }
{}

/// What a dump says of bytes that embed no item: that they are truncated, which error they have, or
/// that bytes remain after an item. By `one_of_three`, one of these holds for all other bytes.
pub(crate) fn embedded_refusals()
    ensures { RejectsExactly }
{}

/// The complete part of truncated or malformed bytes takes one number of turns, however it is shown
/// that they are so.
pub(crate) fn one_count_of_turns()
    ensures cut { (level : ℕ) (b : List ℕ) (c d : Cut level b) → cut_spent c ≡ cut_spent d }
    ensures fault { (level : ℕ) (b : List ℕ) (e : Error) (f g : Fault level b e)
        → fault_spent f ≡ fault_spent g }
{}
