//! Reads strings of notation into a `DataItem`: quoted text, notations of bytes such as `h'..'`,
//! items in `<<..>>`, strings of several such pieces, and the chunks of indefinite-length strings.
//!
//! Most strings are one piece: a text without escapes, or hex digits without blanks. If a comma, a
//! colon or a closing bracket follows at once, a fast path reads the string straight into the item.
//! All other strings are read piece by piece.
ghost use Rattle.std.specs.Prelude.{◌≡◌, ◌-◌, ◌++◌, ◌<◌, ◌≤◌, ℕ, List, [], Some, suc, length};
ghost use Rattle.std.specs.Prelude.{IfOk, IfSome, Ok, OnOk, true, false};
ghost use Rattle.std.specs.List.{AllByRecursion};
ghost use Rattle.cbor_grammar.specs.declared.width.IntegerWidth.TheVariants.{Unknown};
ghost use Rattle.cbor_diag.specs.View.{view, items_view};
ghost use Rattle.cbor_grammar.specs.WellFormed.{levels_left, WellFormed, WellFormedItems, IsChunk};
ghost use Rattle.cbor_grammar.specs.Written.{encoded_items};
ghost use Rattle.cbor_grammar.specs.Item.{Item, atom, chunked_string};
ghost use Rattle.cbor_grammar.specs.Reading.{Gives, Read};
ghost use Rattle.cbor_tokens.specs.HexDigits.{base16_of};
ghost use Rattle.cbor_grammar.specs.Strings.{text_chunk};
ghost use Rattle.cbor_notation.specs.mirror.NotationReading.{read_string_item, checked};
ghost use Rattle.cbor_notation.specs.mirror.NotationReading.{after_word, members_from, skip_blank};
ghost use Rattle.cbor_notation.specs.mirror.NotationReading.{read_chunk, read_chunks};
ghost use Rattle.cbor_notation.specs.mirror.NotationReading.{read_embedded};
ghost use Rattle.cbor_notation.specs.mirror.NotationReading.{ends_string, read_item, read_members};
ghost use Rattle.cbor_notation.specs.mirror.NotationReading.{one_string, read_piece, read_pieces};
ghost use Rattle.cbor_notation.specs.mirror.NotationReading.{read_string, read_content, with_chunk};
ghost use Rattle.cbor_diag.specs.mirror.ChunkList.{chunk_list, list_kind};

use super::read_items;
use super::stop::{letter_b, letter_h, quoted, stop_after_blank, stop_in_list, take_comma};
use crate::encode::push_items;
use crate::syntax::DataItem;
use cbor_grammar::strings::{DefiniteString, StringKind};
use cbor_grammar::{ByteString, Error, IntegerWidth, TextString};
use cbor_notation::content::{base16, read_plain};
use cbor_notation::cursor::Cursor;
use cbor_notation::scan::{after_byte, after_word};
use cbor_notation::start::Start;
use memchr::memchr;
use std::alloc::{AllocError, Global};

/// The string with this content and of unstated width. A text string has to be UTF-8.
#[inline(always)]
fn unstated<S: DefiniteString>(content: Vec<u8>) -> cbor_grammar::Result<S>
    ensures gives { Gives S.chunk result (checked S.kind content.items) }
    ensures well { IfOk result (λ x. IsChunk S.kind (S.chunk x)) }
{
    // A slice's length fits in 64 bits, which `well` needs.
    let _content = content.as_slice();
    S::new(content, IntegerWidth::Unknown)
}

/// The chunks of an indefinite string that is being read.
#[derive(Drop)]
enum Chunks {
    Bytes(Vec<ByteString>),
    Text(Vec<TextString>),
}

impl Chunks {
    /// A string of this kind, with no chunks yet.
    fn new(alloc: Global, kind: StringKind) -> Chunks
        ensures none { chunk_list result ≡ [] }
        ensures kind { list_kind result ≡ kind }
    {
        match kind {
            StringKind::Bytes => Chunks::Bytes(Vec::new(alloc)),
            StringKind::Text => Chunks::Text(Vec::new(alloc)),
        }
    }

    /// Adds a chunk of unstated width. In a text string its content has to be UTF-8.
    fn push(&mut self, content: Vec<u8>) -> cbor_grammar::Result<()>
        ensures gives { Gives (λ _. chunk_list self.new) result
            (with_chunk (list_kind self.old) (chunk_list self.old) content.items) }
        ensures kind { IfOk result (λ _. list_kind self.new ≡ list_kind self.old) }
        ensures well { IfOk result (λ _.
            AllByRecursion (IsChunk (list_kind self.old)) (chunk_list self.old)
            → AllByRecursion (IsChunk (list_kind self.old)) (chunk_list self.new)) }
    {
        match self {
            Chunks::Bytes(chunks) => chunks.push(unstated(content)?)?,
            Chunks::Text(chunks) => chunks.push(unstated(content)?)?,
        }
        Ok(())
    }

    /// Returns the string of these chunks.
    fn into_item(self) -> DataItem
        ensures { view result ≡ atom (chunked_string (list_kind self) (chunk_list self)) }
    {
        match self {
            Chunks::Bytes(chunks) => DataItem::IndefiniteByteString(chunks),
            Chunks::Text(chunks) => DataItem::IndefiniteTextString(chunks),
        }
    }
}

/// Appends bytes to a content, which is often empty before.
fn append(content: &mut Vec<u8>, bytes: Vec<u8>) -> Result<(), AllocError>
    ensures { OnOk result (content.new.items ≡ content.old.items ++ bytes.items) }
{
    if content.is_empty() {
        *content = bytes;
    } else {
        content.extend_from_slice(&bytes)?;
    }
    Ok(())
}

/// The encodings of items, in order.
fn encoded(alloc: Global, items: &Vec<DataItem>) -> Result<Vec<u8>, AllocError>
    requires { (level : ℕ) × WellFormedItems level (items_view items.now.items) }
    ensures { IfOk result (λ bytes. bytes.items ≡ encoded_items (items_view items.now.items)) }
{
    let mut bytes = Vec::new(alloc);
    push_items(&mut bytes, items)?;
    Ok(bytes)
}

/// The items after the first `<` of `<<`, up to their `>>`, in bytes.
#[cycle(diag)]
fn read_embedded(alloc: Global, text: &mut Cursor<'_>, inner: u8) -> cbor_grammar::Result<Vec<u8>>
    requires { inner ≤ 129 }
    ensures gives { Gives (λ x. (x.items, text.new)) result
        (read_embedded (read_item (levels_left inner)) text.old) }
    ensures shorter { IfOk result (λ _. length text.new < length text.old) }
{
    text.expect_byte(b'<')?;
    let items = read_items(alloc, b'>', text, inner)?;
    text.expect_byte(b'>')?;
    Ok(encoded(alloc, &items)?)
}

/// A piece of a string: a text, or a notation of bytes. The items in it are at `inner`.
#[cycle(diag)]
#[tactic(auto, using(crate::proofs::notation::Cores::piece_by))]
fn read_piece(alloc: Global, text: &mut Cursor<'_>, inner: u8) -> cbor_grammar::Result<Vec<u8>>
    requires { inner ≤ 129 }
    ensures gives { Gives (λ x. (x.items, text.new)) result
        (read_piece (read_item (levels_left inner)) text.old) }
    ensures shorter { IfOk result (λ _. length text.new < length text.old) }
{
    let start = text.start();
    text.skip_byte();
    match start {
        Start::Quote => quoted(alloc, text, b'"'),
        Start::Apostrophe => quoted(alloc, text, b'\''),
        Start::Angle => read_embedded(alloc, text, inner),
        Start::LetterB => letter_b(alloc, text),
        Start::LetterH => letter_h(alloc, text),
        _ => Err(Error::Notation),
    }
}

/// The pieces from here on of a string of this kind, with blanks between them and after them.
#[cycle(diag)]
fn read_pieces(
    alloc: Global,
    kind: StringKind,
    text: &mut Cursor<'_>,
    inner: u8,
) -> cbor_grammar::Result<Vec<u8>>
    requires { inner ≤ 129 }
    ensures gives { Gives (λ x. (x.items, text.new)) result
        (read_pieces (read_item (levels_left inner)) kind
        (suc (length text.old)) text.old) }
    ensures shorter { IfOk result (λ _. length text.new ≤ length text.old) }
{
    let mut content = Vec::new(alloc);
    'pieces: while text.start().begins_piece(kind) {
        let piece = read_piece(alloc, text, inner)?;
        append(&mut content, piece)?;
        text.skip_blank();
    }
    Ok(content)
}

/// The content of a string of this kind and of definite length, with the blank after it.
#[cycle(diag)]
#[tactic(auto, using(crate::proofs::notation::Cores::content_by))]
fn read_content(
    alloc: Global,
    kind: StringKind,
    text: &mut Cursor<'_>,
    inner: u8,
) -> cbor_grammar::Result<Vec<u8>>
    requires { inner ≤ 129 }
    ensures gives { Gives (λ x. (x.items, text.new)) result
        (read_content (read_item (levels_left inner)) kind text.old) }
    ensures shorter { IfOk result (λ _. length text.new ≤ length text.old) }
{
    if !text.start().begins_string(kind) {
        stop_after_blank(text);
        return Err(Error::Notation);
    }
    read_pieces(alloc, kind, text, inner)
}

/// The text string of this content, and the text after it.
#[inline(always)]
fn checked_text(content: Vec<u8>, text: &mut Cursor<'_>) -> cbor_grammar::Result<TextString>
    ensures gives { Gives text_chunk result (checked StringKind.Text content.items) }
    ensures well { IfOk result (λ x. IsChunk StringKind.Text (text_chunk x)) }
    ensures rest { IfOk result (λ _. text.new ≡ text.old) }
{
    match unstated(content) {
        Ok(string) => Ok(string),
        Err(error) => {
            stop_after_blank(text);
            Err(error)
        }
    }
}

/// Whether a string ends before this text: a list goes on or closes here. Neither a blank nor a
/// piece of a string begins like that.
fn ends_string(text: &[u8]) -> bool
    ensures { result ≡ ends_string text.now }
{
    matches!(text, [b',' | b':' | b']' | b'}', ..])
}

/// The text between the quotes of an `h'..'`, up to its first apostrophe, and the text after it, if
/// a string ends there, otherwise `None`. If the text between is hex digits, it is the whole
/// string.
fn read_plain_hex(text: &[u8]) -> Option<(&[u8], &[u8])>
    ensures gives { IfSome result (λ x. (read : List ℕ → Read Item) (bytes : List ℕ)
        → base16_of x.0.now ≡ Some bytes
        → read_string_item read StringKind.Bytes text.now
        ≡ one_string StringKind.Bytes bytes x.1.now) }
    ensures shorter { IfSome result (λ x. length x.1.now ≤ length text.now) }
{
    let inner = after_word(text, b"h'")?;
    let end = memchr(b'\'', inner)?;
    let rest = &inner[end + 1..];
    if ends_string(rest) {
        Some((&inner[..end], rest))
    } else {
        None
    }
}

/// A byte string, or `''_`, an indefinite byte string without chunks.
#[cycle(diag)]
#[tactic(auto, unfolding(cbor_notation::specs::mirror::NotationReading::read_string))]
pub(super) fn read_byte_item(
    alloc: Global,
    text: &mut Cursor<'_>,
    inner: u8,
) -> cbor_grammar::Result<DataItem>
    requires low { 1 ≤ inner }
    requires high { inner ≤ 129 }
    ensures gives { Gives (λ x. (view x, text.new)) result
        (read_string_item (read_item (levels_left inner)) StringKind.Bytes text.old) }
    ensures shorter { IfOk result (λ _. length text.new ≤ length text.old) }
    ensures well { IfOk result (λ x. WellFormed (inner - 1) (view x)) }
{
    // The digits of most byte strings are decoded in place.
    if let Some((digits, rest)) = read_plain_hex(text.rest()) {
        if let Some(content) = base16(alloc, digits)? {
            *text = Cursor::new(rest);
            return Ok(DataItem::ByteString(unstated(content)?));
        }
    }
    if text.take_word(b"''_") {
        return Ok(DataItem::IndefiniteByteString(Vec::new(alloc)));
    }
    let content = read_content(alloc, StringKind::Bytes, text, inner)?;
    Ok(DataItem::ByteString(unstated(content)?))
}

/// The content of a text of one piece without escapes, and the text after it, if a string ends
/// there, otherwise `None`.
fn read_plain_text(text: &[u8]) -> Option<(&[u8], &[u8])>
    ensures gives { IfSome result (λ x. (read : List ℕ → Read Item)
        → read_string_item read StringKind.Text text.now
        ≡ one_string StringKind.Text x.0.now x.1.now) }
    ensures shorter { IfSome result (λ x. length x.1.now ≤ length text.now) }
{
    let inner = after_byte(text, b'"')?;
    let (content, rest) = read_plain(inner)?;
    if ends_string(rest) {
        Some((content, rest))
    } else {
        None
    }
}

/// A text string, or `""_`, an indefinite text string without chunks.
#[cycle(diag)]
#[tactic(auto, unfolding(cbor_notation::specs::mirror::NotationReading::read_string))]
pub(super) fn read_text_item(
    alloc: Global,
    text: &mut Cursor<'_>,
    inner: u8,
) -> cbor_grammar::Result<DataItem>
    requires low { 1 ≤ inner }
    requires high { inner ≤ 129 }
    ensures gives { Gives (λ x. (view x, text.new)) result
        (read_string_item (read_item (levels_left inner)) StringKind.Text text.old) }
    ensures shorter { IfOk result (λ _. length text.new ≤ length text.old) }
    ensures well { IfOk result (λ x. WellFormed (inner - 1) (view x)) }
{
    // The content of most texts is copied from where it is.
    if let Some((content, rest)) = read_plain_text(text.rest()) {
        if let Ok(string) = unstated(content.to_vec(alloc)?) {
            *text = Cursor::new(rest);
            return Ok(DataItem::TextString(string));
        }
    }
    if text.take_word(b"\"\"_") {
        return Ok(DataItem::IndefiniteTextString(Vec::new(alloc)));
    }
    let content = read_content(alloc, StringKind::Text, text, inner)?;
    Ok(DataItem::TextString(checked_text(content, text)?))
}

/// The chunks of an indefinite string of this kind after its opening, up to its closing byte.
#[cycle(diag)]
#[tactic(auto, using(crate::proofs::notation::Loops::members_opened))]
fn read_chunk_list(
    alloc: Global,
    kind: StringKind,
    text: &mut Cursor<'_>,
    inner: u8,
) -> cbor_grammar::Result<Chunks>
    requires { inner ≤ 129 }
    ensures gives { Gives (λ x. (chunk_list x, text.new)) result
        (read_members (read_chunk (read_item (levels_left inner)) kind) 41 text.old) }
    ensures shorter { IfOk result (λ _. length text.new ≤ length text.old) }
    ensures kind { IfOk result (λ x. list_kind x ≡ kind) }
    ensures well { IfOk result (λ x.
        AllByRecursion (IsChunk kind) (chunk_list x)) }
{
    text.skip_blank();
    if text.take_end(b')') {
        return Ok(Chunks::new(alloc, kind));
    }
    let first = text.rest();
    match some_chunks(alloc, kind, text, inner) {
        Ok(chunks) => Ok(chunks),
        Err(error) => {
            stop_in_list(first, text);
            Err(error)
        }
    }
}

/// The chunks of an indefinite string from the first one on, up to its closing byte.
#[cycle(diag)]
fn some_chunks(
    alloc: Global,
    kind: StringKind,
    text: &mut Cursor<'_>,
    inner: u8,
) -> cbor_grammar::Result<Chunks>
    requires { inner ≤ 129 }
    ensures gives { Gives (λ x. (chunk_list x, text.new)) result
        (members_from (read_chunk (read_item (levels_left inner)) kind) 41 (suc (length text.old))
        text.old) }
    ensures shorter { IfOk result (λ _. length text.new ≤ length text.old) }
    ensures kind { IfOk result (λ x. list_kind x ≡ kind) }
    ensures well { IfOk result (λ x.
        AllByRecursion (IsChunk kind) (chunk_list x)) }
{
    let mut chunks = Chunks::new(alloc, kind);
    'chunks: loop {
        text.skip_blank();
        let content = read_content(alloc, kind, text, inner)?;
        match chunks.push(content) {
            Ok(()) => {}
            Err(error) => {
                stop_after_blank(text);
                return Err(error);
            }
        }
        let more = take_comma(text, b')')?;
        if !more {
            return Ok(chunks);
        }
    }
}

/// An indefinite string after its `(`. Its first chunk decides its kind. Without chunks it is a
/// byte string.
#[cycle(diag)]
pub(super) fn read_chunks(
    alloc: Global,
    text: &mut Cursor<'_>,
    inner: u8,
) -> cbor_grammar::Result<DataItem>
    requires low { 1 ≤ inner }
    requires high { inner ≤ 129 }
    ensures gives { Gives (λ x. (view x, text.new)) result
        (read_chunks (read_item (levels_left inner)) text.old) }
    ensures shorter { IfOk result (λ _. length text.new ≤ length text.old) }
    ensures well { IfOk result (λ x. WellFormed (inner - 1) (view x)) }
{
    text.expect_byte(b'_')?;
    text.skip_blank();
    let kind = text.start().kind();
    let chunks = read_chunk_list(alloc, kind, text, inner)?;
    Ok(chunks.into_item())
}
