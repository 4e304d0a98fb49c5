//! States two laws. If items are written as EDN with a line feed after each, they are read back as
//! the same bytes. This law does not cover items with a simple value from 24 to 31. And a byte
//! string is shown as items if and only if the rule of `cbor_inside` opens it. Each law is the
//! contract of a function that no code calls.
ghost use Rattle.std.specs.Prelude.{◌≡◌, ◌↔◌, ◌≤◌, ℕ, Bool, List, Option, Some};
ghost use Rattle.std.specs.List.{AllByRecursion};
ghost use Rattle.cbor_grammar.specs.Item.{Chunk, Item, items_of};
ghost use Rattle.cbor_grammar.specs.WellFormed.{WellFormed, deepest};
ghost use Rattle.cbor_grammar.specs.Written.{encoded_items};
ghost use Rattle.cbor_edn_grammar.specs.Edn.{bytes_of_edn};
ghost use Rattle.cbor_edn_grammar.specs.Reserved.{NoneReserved};
ghost use Rattle.cbor_inside.specs.Rule.{content_under, shown_as};
ghost use Rattle.cbor_edn_writer.specs.Lines.{AreEdnLines};
ghost use Rattle.cbor_edn_writer.specs.Opened.{ContentTextAt};
ghost use Rattle.cbor_edn_writer.specs.declared.print.place.EdnPlace.{EdnPlace};
ghost use Rattle.cbor_edn_writer.specs.declared.style.EdnStyle.{EdnStyle};

/// Items that are written with a line feed after each are read back as their bytes, if no simple
/// value from 24 to 31 is in them.
fn lines_back()
    ensures { (style : EdnStyle) (items : List Item) (text : List ℕ)
        → AllByRecursion (WellFormed 1) items → AllByRecursion NoneReserved items
        → AreEdnLines style items text
        → bytes_of_edn text ≡ Some (encoded_items (items_of items)) }
{}

/// What is written of a byte string at a level is what would be if the rule decided in place of
/// `content_under`. So it is shown as items if and only if the rule opens it.
fn shown_by_the_rule()
    ensures { (opened : Bool) (level : ℕ) (tag : Option ℕ) (p : EdnPlace) (b : Chunk)
        (text : List ℕ) → level ≤ deepest
        → ContentTextAt level (content_under opened level tag b.bytes) p b text
        ↔ ContentTextAt level (shown_as opened level tag b.bytes) p b text }
{}
