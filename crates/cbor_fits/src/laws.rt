//! States laws of the definition of fitting, each as the contract of a function that no code calls.
//! The definition takes a number of levels of nesting, and gives no answer if these are too few. An
//! answer stays the same with more levels. So a value never both fits a type and does not.
ghost use Rattle.std.specs.Prelude.{◌≡◌, ◌≤◌, ℕ, Bool, false, Some};
ghost use Rattle.cbor_fits.specs.Value.{Value};
ghost use Rattle.cbor_fits.specs.Rules.{Rules};
ghost use Rattle.cbor_fits.specs.Fits.{Rest, Outcome, matcher, Fits};

/// An answer stays the same with more levels: whether a value fits, and what a group takes.
fn more_levels()
    ensures fits { (r : Rules) (n : ℕ) (x : Value) (b : Bool) (l k : ℕ) → l ≤ k
        → (matcher r l).fits n x ≡ Some b → (matcher r k).fits n x ≡ Some b }
    ensures takes { (r : Rules) (n : ℕ) (rest : Rest) (o : Outcome) (l k : ℕ) → l ≤ k
        → (matcher r l).takes n rest ≡ Some o → (matcher r k).takes n rest ≡ Some o }
{}

/// There is one answer. Numbers of levels that are enough for an answer give the same one, and a
/// value that fits has no other answer with any number of levels.
fn one_answer()
    ensures fits { (r : Rules) (n : ℕ) (x : Value) (l k : ℕ) (a b : Bool)
        → (matcher r l).fits n x ≡ Some a → (matcher r k).fits n x ≡ Some b → a ≡ b }
    ensures takes { (r : Rules) (n : ℕ) (rest : Rest) (l k : ℕ) (o p : Outcome)
        → (matcher r l).takes n rest ≡ Some o → (matcher r k).takes n rest ≡ Some p → o ≡ p }
    ensures apart { (r : Rules) (n : ℕ) (x : Value) (l : ℕ)
        → Fits r n x → (matcher r l).fits n x ≡ Some false → ⊥ }
{}
