//! Writes JSON with names as keys. It replaces each integer key that has a name by a text with this
//! name, and writes the resulting bytes as JSON. The places in errors are those in the input.

ghost use Rattle.std.specs.Prelude.{◌≡◌, ◌+◌, ◌≤◌, IfOk};
ghost use Rattle.std.specs.String.{string_bytes};
ghost use Rattle.cbor_grammar.specs.Item.{Item};
ghost use Rattle.cbor_grammar.specs.WellFormed.{deepest};
ghost use Rattle.cbor_json.specs.Written.{IsJsonText};

use crate::error::{Clash, JsonError, Loss};
use crate::print::place::JsonPlace;
use crate::print::text::{content_at, is_item};
use crate::style::JsonStyle;
use crate::write::marked_json;
use cbor_bytes::head::read_head;
use cbor_bytes::skip::after_front;
use cbor_bytes::strings::split_at;
use cbor_bytes::write::push_head;
use cbor_grammar::IntegerWidth;
use cbor_grammar::argument::Argument;
use cbor_grammar::head::ItemHead;
use cbor_grammar::layout::Content;
use cbor_grammar::level::DEEPEST;
use cbor_grammar::major::Major;
use cbor_grammar::strings::StringKind;
use cbor_marks::Marks;
use cbor_notes::Note;
use cbor_trace::Span;
use std::alloc::{AllocError, Global};
use std::collections::BTreeMap;

/// How JSON with names is written.
#[derive(Clone, Copy)]
pub struct NamedJson<'a> {
    pub style: JsonStyle,
    /// Notes on keys. The text before a key is its name.
    pub names: &'a [Note<'a>],
    /// Where the tokens of the text are marked, if they are to be.
    pub marks: Option<&'a Marks>,
}

/// Bytes that others take the place of.
#[derive(Clone, Copy)]
struct Edit {
    old: Span,
    /// Where the others are in `Pass::made`.
    new: Span,
}

/// What is known of items before they are read.
#[derive(Clone, Copy)]
struct Known<'p> {
    /// How many bytes follow those that are read, up to the end of the outermost item's.
    behind: usize,
    /// Their place, which is that of a value.
    place: JsonPlace<'p>,
}

impl<'p> Known<'p> {
    /// One level below, and right below this tag, if any.
    fn below(self, tag: Option<u64>) -> Known<'p>
        requires { self.place.level ≤ deepest }
        ensures { result.place.level ≡ self.entry.place.level + 1 }
    {
        let place = JsonPlace {
            level: self.place.level + 1,
            tag,
            ..self.place
        };
        Known { place, ..self }
    }
}

/// The pass that finds which bytes change: keys that have names, and the heads of byte strings that
/// are written as the item in them, around such keys.
#[derive(Drop)]
struct Pass<'a> {
    /// How many bytes there are.
    total: usize,
    /// The names of keys, by the places of these.
    names: BTreeMap<usize, &'a str>,
    /// In the order of their places.
    edits: Vec<Edit>,
    /// The bytes that take the place of others.
    made: Vec<u8>,
    /// How many bytes the edits add, and how many they take away.
    added: usize,
    taken: usize,
}

impl<'a> Pass<'a> {
    /// A pass over that many bytes.
    fn new(alloc: Global, total: usize, names: &[Note<'a>]) -> Result<Pass<'a>, AllocError> {
        let mut by_place = BTreeMap::new(alloc);
        for key in names {
            if !key.before.is_empty() {
                by_place.insert(key.start, key.before)?;
            }
        }
        Ok(Pass {
            total,
            names: by_place,
            edits: Vec::new(alloc),
            made: Vec::new(alloc),
            added: 0,
            taken: 0,
        })
    }

    /// Where the first of these bytes are, those before the rest.
    fn span(&self, known: Known<'_>, bytes: &[u8], rest: &[u8]) -> Span {
        let end = self.total.saturating_sub(known.behind);
        Span {
            start: end.saturating_sub(bytes.len()),
            end: end.saturating_sub(rest.len()),
        }
    }

    /// The edit that puts a string of that length in place of the old bytes: its head, and the
    /// content that is given.
    fn make(
        &mut self,
        old: Span,
        string: (Major, usize),
        content: &[u8],
    ) -> Result<Edit, AllocError> {
        let (major, len) = string;
        let start = self.made.len();
        push_head(&mut self.made, major, len as u64, IntegerWidth::Unknown)?;
        self.made.extend_from_slice(content)?;
        let end = self.made.len();
        let new = Span { start, end };
        self.added = self.added.saturating_add(new.len());
        self.taken = self.taken.saturating_add(old.len());
        Ok(Edit { old, new })
    }

    /// The bytes after the item at the front; `None` if there is none.
    #[cycle(item)]
    fn item<'b>(
        &mut self,
        known: Known<'_>,
        bytes: &'b [u8],
    ) -> Result<Option<&'b [u8]>, AllocError>
        requires from { 1 ≤ known.place.level }
        requires to { known.place.level ≤ deepest + 1 }
    {
        if known.place.level > DEEPEST {
            return Ok(None);
        }
        let Ok((head, rest)) = read_head(bytes) else {
            return Ok(None);
        };
        match head {
            ItemHead::Array(count) => self.members(known.below(None), count, rest),
            ItemHead::Map(count) => self.pairs(known.below(None), count, rest),
            ItemHead::Tag(tag, _) => self.item(known.below(Some(tag)), rest),
            ItemHead::String(StringKind::Bytes, Argument::Number(len, _)) => {
                self.byte_string(known, bytes, (len, rest))
            }
            _ => Ok(after_front(bytes, known.place.level)),
        }
    }

    /// The bytes after the members of an array.
    #[cycle(item)]
    fn members<'b>(
        &mut self,
        inside: Known<'_>,
        count: Argument,
        bytes: &'b [u8],
    ) -> Result<Option<&'b [u8]>, AllocError>
        requires from { 1 ≤ inside.place.level }
        requires to { inside.place.level ≤ deepest + 1 }
    {
        let mut rest = bytes;
        for held in 0..=bytes.len() {
            if let Some(after) = count.after_end(held, rest) {
                return Ok(Some(after));
            }
            let Some(next) = self.item(inside, rest)? else {
                return Ok(None);
            };
            rest = next;
        }
        Ok(None)
    }

    /// The bytes after the pairs of a map.
    #[cycle(item)]
    fn pairs<'b>(
        &mut self,
        inside: Known<'_>,
        count: Argument,
        bytes: &'b [u8],
    ) -> Result<Option<&'b [u8]>, AllocError>
        requires from { 1 ≤ inside.place.level }
        requires to { inside.place.level ≤ deepest + 1 }
    {
        let mut rest = bytes;
        for held in 0..=bytes.len() {
            if let Some(after) = count.after_end(held, rest) {
                return Ok(Some(after));
            }
            let Some(value) = self.key(inside, rest)? else {
                return Ok(None);
            };
            let Some(next) = self.item(inside, value)? else {
                return Ok(None);
            };
            rest = next;
        }
        Ok(None)
    }

    /// The bytes after the key at the front.
    fn key<'b>(&mut self, known: Known<'_>, bytes: &'b [u8]) -> Result<Option<&'b [u8]>, AllocError>
        requires from { 1 ≤ known.place.level }
        requires to { known.place.level ≤ deepest + 1 }
    {
        let Some(rest) = after_front(bytes, known.place.level) else {
            return Ok(None);
        };
        let old = self.span(known, bytes, rest);
        if let Some(name) = self.name_of(old.start, bytes) {
            let text = name.as_bytes();
            let edit = self.make(old, (Major::Text, text.len()), text)?;
            self.edits.push(edit)?;
        }
        Ok(Some(rest))
    }

    /// The name of the key at the front, if that is an integer and has one.
    fn name_of(&self, place: usize, key: &[u8]) -> Option<&'a str> {
        match key {
            [first, ..] if *first < 0x40 => self.names.get(&place).copied(),
            _ => None,
        }
    }

    /// The bytes after a byte string, by its length and the bytes after its head.
    #[cycle(item)]
    fn byte_string<'b>(
        &mut self,
        known: Known<'_>,
        bytes: &'b [u8],
        inner: (u64, &'b [u8]),
    ) -> Result<Option<&'b [u8]>, AllocError>
        requires from { 1 ≤ known.place.level }
        requires to { known.place.level ≤ deepest }
    {
        let (len, rest) = inner;
        let Ok((content, after)) = split_at(rest, len) else {
            return Ok(None);
        };
        let inside = Known {
            behind: known.behind.saturating_add(after.len()),
            ..known.below(None)
        };
        let may_be_item = matches!(content_at(&known.place, content), Content::Item);
        if may_be_item && is_item(content, inside.place.level) {
            let head = self.span(known, bytes, rest);
            self.embedded(inside, content, head)?;
        }
        Ok(Some(after))
    }

    /// The item that is the content of a byte string with this head.
    #[cycle(item)]
    fn embedded(&mut self, inside: Known<'_>, content: &[u8], head: Span) -> Result<(), AllocError>
        requires from { 1 ≤ inside.place.level }
        requires to { inside.place.level ≤ deepest + 1 }
    {
        let index = self.edits.len();
        let (added, taken) = (self.added, self.taken);
        // The edit of the head stands before those of the content, which decide the new length.
        let none = Span {
            start: head.start,
            end: head.start,
        };
        self.edits.push(Edit {
            old: none,
            new: none,
        })?;
        let _ = self.item(inside, content)?;
        if self.edits.len() == index.saturating_add(1) {
            return Ok(());
        }
        let added = self.added.saturating_sub(added);
        let taken = self.taken.saturating_sub(taken);
        let len = content.len().saturating_add(added).saturating_sub(taken);
        let edit = self.make(head, (Major::Bytes, len), &[])?;
        if let Some(first) = self.edits.get_mut(index) {
            *first = edit;
        }
        Ok(())
    }

    /// The bytes with all edits made.
    fn edited(&self, alloc: Global, bytes: &[u8]) -> Result<Vec<u8>, AllocError> {
        let mut edited = Vec::with_capacity(alloc, bytes.len())?;
        let mut at = 0;
        for edit in &self.edits {
            let kept = Span {
                start: at,
                end: edit.old.start,
            };
            edited.extend_from_slice(kept.bytes(bytes))?;
            edited.extend_from_slice(edit.new.bytes(&self.made))?;
            at = edit.old.end;
        }
        edited.extend_from_slice(bytes.get(at..).unwrap_or(b""))?;
        Ok(edited)
    }

    /// Where the item or the head was that begins at this place of the edited bytes.
    fn place_before(&self, place: usize) -> usize {
        // From `to` on, the edited bytes are those from `from` on.
        let (mut to, mut from) = (0usize, 0usize);
        for edit in &self.edits {
            let begins = to.saturating_add(edit.old.start.saturating_sub(from));
            let ends = begins.saturating_add(edit.new.len());
            if place < begins {
                break;
            }
            if place < ends {
                return edit.old.start;
            }
            to = ends;
            from = edit.old.end;
        }
        from.saturating_add(place.saturating_sub(to))
    }

    /// The error of the edited bytes, with the places from before.
    fn error_before(&self, error: JsonError) -> JsonError {
        match error {
            JsonError::Cbor(error) => JsonError::Cbor(error),
            JsonError::NotKept(Loss { place, kind }) => {
                let place = self.place_before(place);
                JsonError::NotKept(Loss { place, kind })
            }
            JsonError::SameKeys(Clash { first, second }) => JsonError::SameKeys(Clash {
                first: self.place_before(first),
                second: self.place_before(second),
            }),
        }
    }
}

/// Returns the JSON of the one item that the bytes are, as [`bytes_to_json`] does, with names as
/// keys: an integer that is a key of a map is written as the text of the note before it, if it has
/// one. Other notes change nothing.
///
/// The errors are those of [`bytes_to_json`]. In a strict style JSON keeps a key that has a name.
///
/// ```rust
/// use cbor_json::{JsonStyle, NamedJson, bytes_to_json_named};
/// use cbor_notes::Note;
///
/// let key = Note {
///     start: 1,
///     before: "iss",
///     after: "",
///     encoded: false,
/// };
/// let named = NamedJson {
///     style: JsonStyle::PLAIN,
///     names: &[key],
///     marks: None,
/// };
/// let text = bytes_to_json_named(alloc, b"\xa2\x01\x61a\x02\x05", named)?;
/// assert_eq!(rt; text.as_str(), "{\"iss\": \"a\", \"2\": 5}");
/// ```
pub fn bytes_to_json_named(
    alloc: Global,
    bytes: &[u8],
    named: NamedJson<'_>,
) -> Result<String, JsonError>
    // JSON of an item: no object in it has a name twice, and no character in it is hidden.
    ensures { IfOk result (λ s. (i : Item) × IsJsonText named.entry.style i (string_bytes s)) }
{
    let style = named.style;
    if named.names.is_empty() {
        return marked_json(alloc, bytes, style, named.marks);
    }
    let mut pass = Pass::new(alloc, bytes.len(), named.names)?;
    let known = Known {
        behind: 0,
        place: JsonPlace::new(alloc, style, None),
    };
    let edited = match pass.item(known, bytes)? {
        Some([]) => pass.edited(alloc, bytes)?,
        // No item, or one and more bytes: the error says which.
        _ => Vec::from_slice(alloc, bytes)?,
    };
    match marked_json(alloc, &edited, style, named.marks) {
        Ok(text) => Ok(text),
        Err(error) => Err(pass.error_before(error)),
    }
}
