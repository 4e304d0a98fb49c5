//! Law: if the filter `cbor_view` reads bytes as a sequence of items, there is only one output for
//! each output form, and one error or none. The output of the first items is the beginning of the
//! whole output. The law is the contract of a function that no code calls.
ghost use Rattle.std.specs.Prelude.{◌≡◌, ℕ, List, ◌++◌};
ghost use Rattle.cbor_grammar.specs.declared.error.Error.{Error};
ghost use Rattle.cbor_diag.specs.declared.conversion.form.To.{To};
ghost use Rattle.cbor_view.specs.Sequence.{IsOutputOfFirst, IsOutputOfAll, IsOutputBefore};

/// As a sequence of items, bytes have one output, and one error or none. The output of the first
/// items is a prefix of it.
pub(crate) fn one_output()
    ensures of_all { (to : To) (input a b : List ℕ)
        → IsOutputOfAll to input a → IsOutputOfAll to input b → a ≡ b }
    ensures before { (to : To) (input a b : List ℕ) (e d : Error)
        → IsOutputBefore to input e a → IsOutputBefore to input d b → (a ≡ b) × (e ≡ d) }
    ensures not_both { (to : To) (input a b : List ℕ) (e : Error)
        → IsOutputOfAll to input a → ¬ (IsOutputBefore to input e b) }
    ensures first_of_all { (to : To) (input a rest b : List ℕ)
        → IsOutputOfFirst to input a rest → IsOutputOfAll to input b
        → (more : List ℕ) × (b ≡ a ++ more) }
    ensures first_before { (to : To) (input a rest b : List ℕ) (e : Error)
        → IsOutputOfFirst to input a rest → IsOutputBefore to input e b
        → (more : List ℕ) × (b ≡ a ++ more) }
{}
