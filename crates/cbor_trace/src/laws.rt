//! States laws of the containers that are open at a byte. The head of the container and complete
//! parts come before the part that contains the byte. Items that are read one after another are
//! complete parts, and complete parts are read as items one after another. No code calls these
//! functions.
ghost use Rattle.std.specs.Prelude.{◌≡◌, ◌↔◌, ℕ, ◌<◌, ◌≤◌, List, ◌++◌, drop};
ghost use Rattle.std.specs.Prelude.{slice_index};
ghost use Rattle.cbor_grammar.specs.Refused.{SpelledParts, Next, Inside, NoBreakAt};
ghost use Rattle.cbor_grammar.specs.WellFormed.{levels_left};
ghost use Rattle.cbor_trace.specs.declared.part.Part.{Part};
ghost use Rattle.cbor_trace.specs.declared.part.Spot.{Spot};
ghost use Rattle.cbor_trace.specs.Around.{AfterItems, IsPartAt};

/// If a part is at a byte, the container is open there as in cut bytes and faults: it has its head,
/// whole parts, and then the bytes in the place of the next part.
fn inside()
    ensures { (b : List ℕ) (s : Spot) (at : ℕ) (p : Part) → ((i : ℕ) → slice_index b i < 256)
        → IsPartAt b s at p → (next : Next) × Inside s.level (drop s.start b) (drop p.start b) next
        × NoBreakAt next (drop p.start b) }
{}

/// Items that are read in sequence are whole parts, and whole parts are read as items in sequence.
fn parts()
    ensures { (level k : ℕ) (b rest : List ℕ) → level ≤ 129 → ((i : ℕ) → slice_index b i < 256)
        → AfterItems (levels_left level) k b rest
        ↔ ((front : List ℕ) × (b ≡ front ++ rest) × SpelledParts level k front) }
{}
