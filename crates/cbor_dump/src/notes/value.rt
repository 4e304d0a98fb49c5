//! `Value`: the part of a tag's value that notes show, read from its bytes without allocating. Of
//! an array, it reads at most three members.
ghost use Rattle.std.specs.Prelude.{◌≡◌, ◌+◌, ℕ, List, Ok};
ghost use Rattle.cbor_grammar.specs.declared.width.IntegerWidth.{IntegerWidth};
ghost use Rattle.cbor_grammar.specs.Item.{Chunk, string, Item, atom, Items};
ghost use Rattle.cbor_dump.specs.Notes.{value_note};
ghost use Rattle.cbor_grammar.specs.Reading.{checked_chunk};
ghost use Rattle.cbor_grammar.specs.mirror.AtLevel.{body_read};
ghost use Rattle.cbor_grammar.specs.mirror.AtLevel.{read_at};
ghost use Rattle.cbor_dump.specs.mirror.NotesView.{AreMembers, IsNextMember, Sees};
ghost use Rattle.cbor_dump.specs.mirror.NotesView.{atom_view, first_seen, members_view, seen};
ghost use Rattle.cbor_dump.specs.mirror.NotesView.{value_view};
ghost use Rattle.cbor_grammar.specs.mirror.Lengths.{left_of};

use cbor_bytes::head::read_head;
use cbor_bytes::strings::split_at;
use cbor_grammar::Simple;
use cbor_grammar::argument::Argument;
use cbor_grammar::head::ItemHead;
use cbor_grammar::strings::StringKind;
use simdutf8::basic::from_utf8;

/// A value that has no members, or one that notes do not look into.
#[derive(Clone, Copy)]
pub(crate) enum Atom<'a> {
    Integer(u64),
    /// A negative integer, as the number that is encoded.
    Negative(u64),
    /// A byte string of definite length.
    Bytes(&'a [u8]),
    /// A text string of definite length.
    Text(&'a str),
    Float,
    Simple(Simple),
    /// A string in chunks, an array, a map or a tag.
    Other,
}

/// The first members of an array, up to one that is `Atom::Other`. No note looks at more.
#[derive(Clone, Copy)]
pub(crate) struct Members<'a> {
    pub(super) first: Option<Atom<'a>>,
    pub(super) second: Option<Atom<'a>>,
    pub(super) third: Option<Atom<'a>>,
}

/// The part of a value that notes show.
#[derive(Clone, Copy)]
pub(crate) enum Value<'a> {
    Atom(Atom<'a>),
    Array(Members<'a>),
}

impl<'a> Atom<'a> {
    /// The string of that kind with this content.
    #[tactic(auto, using(cbor_grammar::proofs::shared::Utf8::utf8_tests))]
    fn with_content(kind: StringKind, content: &'a [u8]) -> Atom<'a>
        ensures { (w : IntegerWidth) (c : Chunk) → checked_chunk kind w content.now ≡ Ok c
            → atom_view result ≡ seen (atom (string kind c)) }
    {
        match kind {
            StringKind::Bytes => Atom::Bytes(content),
            StringKind::Text => match from_utf8(content) {
                Ok(text) => Atom::Text(text),
                // A text that was read is UTF-8.
                Err(_) => Atom::Other,
            },
        }
    }

    /// The string of this kind and length after its head, and the bytes after it. After a string in
    /// chunks there are none.
    fn string(kind: StringKind, length: Argument, bytes: &'a [u8]) -> (Atom<'a>, &'a [u8])
        ensures { (levels : ℕ) (i : Item) (rest : List ℕ)
            → body_read (ItemHead.String kind length) bytes.now levels ≡ Ok (i, rest)
            → Sees result.0 result.1.now i rest }
    {
        let Argument::Number(count, _) = length else {
            return (Atom::Other, &[]);
        };
        match split_at(bytes, count) {
            Ok((content, rest)) => (Atom::with_content(kind, content), rest),
            Err(_) => (Atom::Other, &[]),
        }
    }

    /// The value after its head, and the bytes after it. After `Atom::Other` there are none.
    fn behind(head: ItemHead, bytes: &'a [u8]) -> (Atom<'a>, &'a [u8])
        ensures { (levels : ℕ) (i : Item) (rest : List ℕ)
            → body_read head bytes.now levels ≡ Ok (i, rest) → Sees result.0 result.1.now i rest }
    {
        match head {
            ItemHead::Integer(value, _) => (Atom::Integer(value), bytes),
            ItemHead::Negative(value, _) => (Atom::Negative(value), bytes),
            ItemHead::Float(..) => (Atom::Float, bytes),
            ItemHead::Simple(value) => (Atom::Simple(Simple(value)), bytes),
            ItemHead::String(kind, length) => Atom::string(kind, length, bytes),
            _ => (Atom::Other, &[]),
        }
    }
}

/// The next member of an array of that length, after `held` of them, and the bytes after it.
fn next_member(count: Argument, held: usize, bytes: &[u8]) -> (Option<Atom<'_>>, &[u8])
    ensures { (levels : ℕ) (is : Items) → AreMembers levels (left_of count held) bytes.now is
        → IsNextMember levels (left_of count (held + 1)) is result.0 result.1.now }
{
    if count.after_end(held, bytes).is_some() {
        return (None, bytes);
    }
    let Ok((head, rest)) = read_head(bytes) else {
        return (None, bytes);
    };
    let (member, rest) = Atom::behind(head, rest);
    (Some(member), rest)
}

impl<'a> Members<'a> {
    /// The first members of an array of that length, which was read before.
    fn read(count: Argument, bytes: &'a [u8]) -> Members<'a>
        ensures { (levels : ℕ) (is : Items) → AreMembers levels count bytes.now is
            → members_view result ≡ first_seen 3 is }
    {
        let (first, rest) = next_member(count, 0, bytes);
        let (second, rest) = next_member(count, 1, rest);
        let (third, _) = next_member(count, 2, rest);
        Members {
            first,
            second,
            third,
        }
    }
}

impl<'a> Value<'a> {
    /// The part of the value at the front that notes show. The value was read before.
    ///
    /// Of a container it reads the head, and of an array at most three members. So deeply nested
    /// items are not read again at each tag around them.
    pub(crate) fn read(bytes: &'a [u8]) -> Value<'a>
        ensures { (level : ℕ) (i : Item) (rest : List ℕ) → read_at level bytes.now ≡ Ok (i, rest)
            → (known t : ℕ) → value_note known t (value_view result) ≡ value_note known t i }
    {
        let Ok((head, rest)) = read_head(bytes) else {
            return Value::Atom(Atom::Other);
        };
        match head {
            ItemHead::Array(count) => Value::Array(Members::read(count, rest)),
            _ => {
                let (value, _) = Atom::behind(head, rest);
                Value::Atom(value)
            }
        }
    }
}
