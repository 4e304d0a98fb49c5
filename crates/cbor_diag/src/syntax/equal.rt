//! Tests whether two `DataItem`s are equal, widths included. The functions are written out: a
//! derived `==` has no contract for a recursive type.
ghost use Rattle.std.specs.Prelude.{◌≡◌, ◌↔◌, IsTrue, map};
ghost use Rattle.cbor_grammar.specs.declared.strings.StringKind.TheVariants.{Bytes, Text};
ghost use Rattle.cbor_grammar.specs.Item as spec;
ghost use Rattle.cbor_grammar.specs.Item.{atom, integer, negative, float};
ghost use Rattle.cbor_grammar.specs.Item.{chunked_string, array, tagged};
ghost use Rattle.std.specs.Cmp.{on_equiv, partial_equiv_from_equiv};
ghost use Rattle.cbor_diag.specs.View.{view, items_view, pairs_view};
ghost use Rattle.cbor_grammar.specs.Strings.{byte_chunk, text_chunk};
ghost use Rattle.cbor_grammar.specs.Same.{same_item};
ghost use Rattle.cbor_grammar.specs.mirror.SameDecides.{same_equivalence};

use super::DataItem;
use cbor_grammar::strings::DefiniteString;
use cbor_grammar::{ByteString, FloatWidth, IntegerWidth, Simple, Tag, TextString};

impl PartialEq for DataItem {
    ghost eq = { λ a b. same_item (view a) (view b) };

    ghost laws = { partial_equiv_from_equiv (on_equiv view same_equivalence) };

    /// Whether all fields of the two items are equal, widths included.
    fn eq(&self, other: &DataItem) -> bool
        ensures value { result ≡ same_item (view self.now) (view other.now) }
        ensures equal { IsTrue result ↔ (view self.now ≡ view other.now) }
    {
        items_equal(self, other)
    }
}

impl Eq for DataItem {
    ghost laws = { on_equiv view same_equivalence };
}

/// Whether the chunks of two strings are equal.
fn chunks_equal<S: DefiniteString>(a: &[S], b: &[S]) -> bool
    ensures { IsTrue result ↔ (map S.chunk a.now ≡ map S.chunk b.now) }
{
    a == b
}

impl DataItem {
    /// Whether the item is this unsigned integer.
    fn is_integer(&self, number: u64, width: IntegerWidth) -> bool
        ensures { IsTrue result ↔ (view self.now ≡ atom (integer number width)) }
    {
        match *self {
            DataItem::Integer { value, bitwidth } => value == number && bitwidth == width,
            _ => false,
        }
    }

    /// Whether the item is this negative integer.
    fn is_negative(&self, number: u64, width: IntegerWidth) -> bool
        ensures { IsTrue result ↔ (view self.now ≡ atom (negative number width)) }
    {
        match *self {
            DataItem::Negative { value, bitwidth } => value == number && bitwidth == width,
            _ => false,
        }
    }

    /// Whether the item is the float of these bits.
    fn is_float(&self, number: u64, width: FloatWidth) -> bool
        ensures { IsTrue result ↔ (view self.now ≡ atom (float number width)) }
    {
        match *self {
            DataItem::Float { bits, bitwidth } => bits == number && bitwidth == width,
            _ => false,
        }
    }

    /// Whether the item is this simple value.
    fn is_simple(&self, simple: Simple) -> bool
        ensures { IsTrue result ↔ (view self.now ≡ atom (spec.simple simple.0)) }
    {
        match *self {
            DataItem::Simple(own) => own == simple,
            _ => false,
        }
    }

    /// Whether the item is this byte string.
    fn is_byte_string(&self, string: &ByteString) -> bool
        ensures { IsTrue result
            ↔ (view self.now ≡ atom (spec.string Bytes (byte_chunk string.now))) }
    {
        match self {
            DataItem::ByteString(own) => own == string,
            _ => false,
        }
    }

    /// Whether the item is this text string.
    fn is_text_string(&self, string: &TextString) -> bool
        ensures { IsTrue result
            ↔ (view self.now ≡ atom (spec.string Text (text_chunk string.now))) }
    {
        match self {
            DataItem::TextString(own) => own == string,
            _ => false,
        }
    }

    /// Whether the item is the byte string of these chunks.
    fn is_byte_chunks(&self, chunks: &[ByteString]) -> bool
        ensures { IsTrue result
            ↔ (view self.now ≡ atom (chunked_string Bytes (map byte_chunk chunks.now))) }
    {
        match self {
            DataItem::IndefiniteByteString(own) => chunks_equal(own, chunks),
            _ => false,
        }
    }

    /// Whether the item is the text string of these chunks.
    fn is_text_chunks(&self, chunks: &[TextString]) -> bool
        ensures { IsTrue result
            ↔ (view self.now ≡ atom (chunked_string Text (map text_chunk chunks.now))) }
    {
        match self {
            DataItem::IndefiniteTextString(own) => chunks_equal(own, chunks),
            _ => false,
        }
    }

    /// Whether the item is the array of these members.
    #[cycle(equal)]
    fn is_array(&self, members: &Vec<DataItem>, width: Option<IntegerWidth>) -> bool
        ensures { IsTrue result ↔ (view self.now ≡ array (items_view members.now.items) width) }
    {
        match self {
            DataItem::Array { content, bitwidth } => {
                *bitwidth == width && members_equal(content, members)
            }
            _ => false,
        }
    }

    /// Whether the item is the map of these pairs.
    #[cycle(equal)]
    fn is_map(&self, pairs: &Vec<(DataItem, DataItem)>, width: Option<IntegerWidth>) -> bool
        ensures { IsTrue result ↔ (view self.now ≡ spec.map (pairs_view pairs.now.items) width) }
    {
        match self {
            DataItem::Map { content, bitwidth } => {
                *bitwidth == width && pairs_equal(content, pairs)
            }
            _ => false,
        }
    }

    /// Whether the item is this one under this tag.
    #[cycle(equal)]
    fn is_tagged(&self, number: Tag, width: IntegerWidth, item: &DataItem) -> bool
        ensures { IsTrue result ↔ (view self.now ≡ tagged number.0 width (view item.now)) }
    {
        match self {
            DataItem::Tag {
                tag,
                bitwidth,
                value,
            } => { *tag == number && *bitwidth == width && items_equal(value, item) }
            _ => false,
        }
    }
}

/// Whether two items are equal.
#[cycle(equal)]
fn items_equal(a: &DataItem, b: &DataItem) -> bool
    ensures { IsTrue result ↔ (view a.now ≡ view b.now) }
{
    match b {
        DataItem::Integer { value, bitwidth } => a.is_integer(*value, *bitwidth),
        DataItem::Negative { value, bitwidth } => a.is_negative(*value, *bitwidth),
        DataItem::ByteString(string) => a.is_byte_string(string),
        DataItem::TextString(string) => a.is_text_string(string),
        DataItem::IndefiniteByteString(chunks) => a.is_byte_chunks(chunks),
        DataItem::IndefiniteTextString(chunks) => a.is_text_chunks(chunks),
        DataItem::Array { content, bitwidth } => a.is_array(content, *bitwidth),
        DataItem::Map { content, bitwidth } => a.is_map(content, *bitwidth),
        DataItem::Tag {
            tag,
            bitwidth,
            value,
        } => a.is_tagged(*tag, *bitwidth, value),
        DataItem::Float { bits, bitwidth } => a.is_float(*bits, *bitwidth),
        DataItem::Simple(simple) => a.is_simple(*simple),
    }
}

/// Whether two lists of members are equal.
#[cycle(equal)]
fn members_equal(a: &Vec<DataItem>, b: &Vec<DataItem>) -> bool
    ensures { IsTrue result ↔ (items_view a.now.items ≡ items_view b.now.items) }
{
    if a.len() != b.len() {
        return false;
    }
    'items: for (index, item) in a.iter().enumerate() {
        if !items_equal(item, &b[index]) {
            return false;
        }
    }
    true
}

/// Whether two lists of keys with their values are equal.
#[cycle(equal)]
fn pairs_equal(a: &Vec<(DataItem, DataItem)>, b: &Vec<(DataItem, DataItem)>) -> bool
    ensures { IsTrue result ↔ (pairs_view a.now.items ≡ pairs_view b.now.items) }
{
    if a.len() != b.len() {
        return false;
    }
    'pairs: for (index, (key, value)) in a.iter().enumerate() {
        let (other_key, other_value) = &b[index];
        if !(items_equal(key, other_key) && items_equal(value, other_value)) {
            return false;
        }
    }
    true
}
