//! Builds the `DataItem` of an EDN string from bytes: a definite-length string, or one of
//! indefinite length without chunks. `Chunks`: collects the chunks of an indefinite-length string.
ghost use Rattle.std.specs.Prelude.{◌≡◌, ℕ, ◌≤◌, length, map, [], IfOk};
ghost use Rattle.std.specs.List.{AllByRecursion};
ghost use Rattle.cbor_grammar.specs.Item.{atom, chunked_string};
ghost use Rattle.cbor_grammar.specs.WellFormed.{deepest, IsChunk, WellFormed};
ghost use Rattle.cbor_diag.specs.View.{view};
ghost use Rattle.cbor_edn_grammar.specs.Reading.{Gives};
ghost use Rattle.cbor_edn_grammar.specs.Strings.{chunk_of};
ghost use Rattle.cbor_edn_grammar.specs.Strings.{string_item};
ghost use Rattle.cbor_edn.specs.Chunks.{chunk_list, list_kind, PushGives};
ghost use Rattle.cbor_edn_grammar.specs.Items.{chunk_from};

use cbor_diag::DataItem;
use cbor_edn_grammar::error::{Expected, Stop};
use cbor_grammar::strings::{DefiniteString, StringKind};
use cbor_grammar::{ByteString, Error, IntegerWidth, TextString};
use std::alloc::Global;

/// The definite-length string with these bytes.
pub(crate) fn make_chunk<S: DefiniteString>(bytes: Vec<u8>, width: IntegerWidth) -> Result<S, Stop>
    ensures gives { Gives S.chunk result (chunk_of S.kind bytes.items width) }
    ensures well { IfOk result (λ x. IsChunk S.kind (S.chunk x)) }
{
    if !width.fits(bytes.len() as u64) {
        return Err(Stop::At(Expected::FittingWidth));
    }
    match S::new(bytes, width) {
        Ok(string) => Ok(string),
        Err(Error::Memory) => Err(Stop::Memory),
        Err(_) => Err(Stop::At(Expected::Utf8)),
    }
}

/// Adds the definite-length string with these bytes to some chunks.
#[tactic(auto, using(std::proofs::lemmas::List::map_push))]
fn push_chunk<S: DefiniteString>(
    chunks: &mut Vec<S>,
    bytes: Vec<u8>,
    width: IntegerWidth,
) -> Result<(), Stop>
    ensures gives { PushGives result (map S.chunk chunks.old.items) (map S.chunk chunks.new.items)
        (chunk_of S.kind bytes.items width) }
    ensures well { IfOk result (λ _.
        AllByRecursion (IsChunk S.kind) (map S.chunk chunks.old.items)
        → AllByRecursion (IsChunk S.kind) (map S.chunk chunks.new.items)) }
{
    let chunk = make_chunk(bytes, width)?;
    chunks.push(chunk)?;
    Ok(())
}

/// The item of a string: of definite length, or, if it has no width, of indefinite length without
/// chunks.
pub(crate) fn string_item(
    alloc: Global,
    kind: StringKind,
    bytes: Vec<u8>,
    width: Option<IntegerWidth>,
) -> Result<DataItem, Stop>
    ensures gives { Gives view result (string_item kind bytes.items width) }
    ensures well { IfOk result (λ x. (level : ℕ) → level ≤ deepest → WellFormed level (view x)) }
{
    let Some(width) = width else {
        if !bytes.is_empty() {
            return Err(Stop::At(Expected::NoContent));
        }
        return Ok(Chunks::new(alloc, kind).into_item());
    };
    match kind {
        StringKind::Bytes => Ok(DataItem::ByteString(make_chunk(bytes, width)?)),
        StringKind::Text => Ok(DataItem::TextString(make_chunk(bytes, width)?)),
    }
}

/// The chunks of an indefinite-length string.
#[derive(Drop)]
pub(crate) enum Chunks {
    Bytes(Vec<ByteString>),
    Text(Vec<TextString>),
}

impl Chunks {
    /// No chunks yet, of a string of this kind.
    pub(crate) fn new(alloc: Global, kind: StringKind) -> Chunks
        ensures none { chunk_list result ≡ [] }
        ensures kind { list_kind result ≡ kind }
    {
        match kind {
            StringKind::Bytes => Chunks::Bytes(Vec::new(alloc)),
            StringKind::Text => Chunks::Text(Vec::new(alloc)),
        }
    }

    /// Adds a chunk of this kind. It is an error if the kind is wrong, or if the chunk has no
    /// width.
    pub(crate) fn push(
        &mut self,
        kind: StringKind,
        bytes: Vec<u8>,
        width: Option<IntegerWidth>,
    ) -> Result<(), Stop>
        ensures gives { PushGives result (chunk_list self.old) (chunk_list self.new)
            (chunk_from (list_kind self.old) kind bytes.items width) }
        ensures kind { IfOk result (λ _. list_kind self.new ≡ list_kind self.old) }
        ensures well { IfOk result (λ _.
            AllByRecursion (IsChunk (list_kind self.old)) (chunk_list self.old)
            → AllByRecursion (IsChunk (list_kind self.old)) (chunk_list self.new)) }
    {
        let Some(width) = width else {
            return Err(Stop::At(Expected::Chunk));
        };
        match (self, kind) {
            (Chunks::Bytes(chunks), StringKind::Bytes) => push_chunk(chunks, bytes, width),
            (Chunks::Text(chunks), StringKind::Text) => push_chunk(chunks, bytes, width),
            _ => Err(Stop::At(Expected::Chunk)),
        }
    }

    /// The string of these chunks.
    pub(crate) fn into_item(self) -> DataItem
        ensures { view result ≡ atom (chunked_string (list_kind self) (chunk_list self)) }
    {
        match self {
            Chunks::Bytes(chunks) => DataItem::IndefiniteByteString(chunks),
            Chunks::Text(chunks) => DataItem::IndefiniteTextString(chunks),
        }
    }
}
