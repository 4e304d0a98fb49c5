//! Law: items written as EDN, one after the other, are read back as the same items. It is the
//! contract of a function that no code calls.
ghost use Rattle.std.specs.Prelude.{◌≡◌, ◌++◌, ℕ, ◌<◌, List, [], Some};
ghost use Rattle.std.specs.List.{AllByRecursion};
ghost use Rattle.cbor_grammar.specs.Item.{Item, items_of};
ghost use Rattle.cbor_grammar.specs.Written.{encoded_items};
ghost use Rattle.cbor_edn_grammar.specs.Edn.{bytes_of_edn};
ghost use Rattle.cbor_edn_grammar.specs.Reserved.{NoneReserved};
ghost use Rattle.cbor_inspect.specs.Shows.{Shows, steps_of};
ghost use Rattle.cbor_inspect.specs.Forms.{IsEdn};
ghost use Rattle.cbor_paths.specs.Sequence.{IsShownOfFirst, IsStrictSequence};
ghost use Rattle.cbor_inspect.specs.declared.items.Show.{Show};

/// What is written of whole items as EDN, one after the other, is read back, if no simple value
/// from 24 to 31 is in them.
fn read_back()
    // As the encoding of these items.
    ensures items { (show : Show) (input rest written : List ℕ)
        (shown : IsShownOfFirst (Shows show) input written rest) → IsEdn show.style.form
        → steps_of show ≡ [] → AllByRecursion (λ b. b < 256) input
        → AllByRecursion NoneReserved shown.items
        → bytes_of_edn written ≡ Some (encoded_items (items_of shown.items)) }

    // So as the bytes before the rest, if no simple value below 24 in them takes two bytes.
    ensures bytes { (show : Show) (front rest written : List ℕ)
        (shown : IsShownOfFirst (Shows show) (front ++ rest) written rest) → IsEdn show.style.form
        → steps_of show ≡ [] → AllByRecursion (λ b. b < 256) (front ++ rest)
        → AllByRecursion NoneReserved shown.items → IsStrictSequence front
        → bytes_of_edn written ≡ Some front }
{}
