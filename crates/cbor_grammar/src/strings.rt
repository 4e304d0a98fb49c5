//! `ByteString` and `TextString`: strings of definite length, with the width of the length. The
//! trait `DefiniteString` is for code that reads or writes either. `StringKind` says which of the
//! two a string is, and tests that a text is UTF-8; `StringContent` borrows the content of one.
ghost use Rattle.std.proofs.Common.{rules};
ghost use Rattle.std.specs.Prelude.{◌≡◌, ◌↔◌, length, IsTrue, IfErr, IfOk, IsUtf8};
ghost use Rattle.cbor_grammar.specs.declared.width.IntegerWidth.{IntegerWidth};
ghost use Rattle.cbor_grammar.specs.Head.{FitsWidth};
ghost use Rattle.cbor_grammar.specs.Item.{Chunk};
ghost use Rattle.cbor_grammar.specs.Reading.{Gives, checked_chunk};
ghost use Rattle.cbor_grammar.specs.declared.strings.StringKind.{StringKind};
ghost use Rattle.cbor_grammar.specs.StringKind.{major_of, IsContent};
ghost use Rattle.cbor_grammar.specs.Strings.{byte_chunk, text_chunk};
ghost use Rattle.cbor_grammar.specs.WellFormed.{IsChunk};
ghost use Rattle.cbor_grammar.specs.mirror.MajorNumber.{major_number};
ghost use Rattle.cbor_grammar.specs.mirror.StringView.{borrowed_chunk, bytes_of, kind_of};

use crate::error::{Error, Result};
use crate::major::Major;
use crate::width::IntegerWidth;
use std::alloc::Global;

/// The two kinds of strings (RFC 7049 section 2.1, major types 2 and 3).
#[derive(Clone, Copy)]
pub enum StringKind {
    /// Byte strings, which hold any bytes.
    Bytes,
    /// Text strings, which hold UTF-8.
    Text,
}

/// Texts with fewer bytes than this are tested faster byte by byte than in blocks.
const SHORT_TEXT: usize = 16;

/// Whether the bytes are UTF-8. Not inlined, so that the code that skips a byte string stays short:
/// that saves 16 in 100 of the instructions of `extent` on COSE messages.
#[inline(never)]
fn is_text(content: &[u8]) -> bool
    ensures { IsTrue result ↔ IsUtf8 content.now }
{
    if content.len() < SHORT_TEXT {
        std::str::from_utf8(content).is_ok()
    } else {
        simdutf8::is_utf8(content)
    }
}

impl StringKind {
    /// The major type of strings of this kind.
    pub fn major(self) -> Major
        ensures { major_number result ≡ major_of self }
    {
        match self {
            StringKind::Bytes => Major::Bytes,
            StringKind::Text => Major::Text,
        }
    }

    /// Whether a string of this kind may have this content: a text has to be UTF-8.
    pub fn may_hold(self, content: &[u8]) -> bool
        ensures { IsTrue result ↔ IsContent self content.now }
    {
        match self {
            StringKind::Bytes => true,
            StringKind::Text => is_text(content),
        }
    }

    /// The bytes as the content of a string of this kind, or `Utf8` if a text is not UTF-8.
    #[tactic(auto, using(crate::proofs::shared::Utf8::utf8_tests))]
    pub fn content(self, content: &[u8]) -> Result<StringContent<'_>>
        ensures gives { (w : IntegerWidth) → Gives (borrowed_chunk w) result
            (checked_chunk self w content.now) }
        ensures kind { IfOk result (λ x. kind_of x ≡ self) }
    {
        match self {
            StringKind::Bytes => Ok(StringContent::Bytes(content)),
            StringKind::Text => match simdutf8::basic::from_utf8(content) {
                Ok(text) => Ok(StringContent::Text(text)),
                Err(_) => Err(Error::Utf8),
            },
        }
    }
}

/// The content of a string of definite length.
#[derive(Clone, Copy)]
pub enum StringContent<'a> {
    /// The bytes of a byte string.
    Bytes(&'a [u8]),
    /// The text of a text string.
    Text(&'a str),
}

impl<'a> StringContent<'a> {
    /// The kind of the string.
    pub fn kind(self) -> StringKind
        ensures { result ≡ kind_of self.entry }
    {
        match self {
            StringContent::Bytes(_) => StringKind::Bytes,
            StringContent::Text(_) => StringKind::Text,
        }
    }

    /// The bytes, or the UTF-8 of the text.
    pub fn as_bytes(self) -> &'a [u8]
        ensures bytes { result.now ≡ bytes_of self.entry }
        ensures content { IsContent (kind_of self.entry) result.now }
    {
        match self {
            StringContent::Bytes(bytes) => bytes,
            StringContent::Text(text) => text.as_bytes(),
        }
    }
}

/// A byte string of definite length, or a chunk of an indefinite one (RFC 7049 section 2.1, major
/// type 2).
#[derive(PartialEq, Eq, Debug, Drop)]
pub struct ByteString {
    /// The bytes.
    pub content: Vec<u8>,
    /// The width of the length.
    pub bitwidth: IntegerWidth,
}

/// A text string of definite length, or a chunk of an indefinite one (RFC 7049 section 2.1, major
/// type 3).
#[derive(PartialEq, Eq, Debug, Drop)]
pub struct TextString {
    /// The text.
    pub content: String,
    /// The width of the length, which counts bytes of UTF-8.
    pub bitwidth: IntegerWidth,
}

impl ByteString {
    /// Returns a copy: the same bytes and the same width. The only error is `Memory`.
    pub fn clone(&self, alloc: Global) -> Result<ByteString>
        ensures equal { IfOk result (λ v. byte_chunk v ≡ byte_chunk self.now) }
        ensures refused { IfErr result (λ e. e ≡ Error.Memory) }
    {
        Ok(ByteString {
            content: Vec::from_slice(alloc, &self.content)?,
            bitwidth: self.bitwidth,
        })
    }
}

impl TextString {
    /// Returns a copy: the same text and the same width. The only error is `Memory`.
    pub fn clone(&self, alloc: Global) -> Result<TextString>
        ensures equal { IfOk result (λ v. text_chunk v ≡ text_chunk self.now) }
        ensures refused { IfErr result (λ e. e ≡ Error.Memory) }
    {
        Ok(TextString {
            content: String::from_str(alloc, self.content.as_str())?,
            bitwidth: self.bitwidth,
        })
    }
}

/// A string of definite length, which may be a chunk of an indefinite one.
pub trait DefiniteString: PartialEq + Drop {
    ghost chunk: { Self → Chunk };

    ghost kind: { StringKind };

    /// The kind of the string.
    fn kind() -> StringKind
        ensures { result ≡ kind };

    /// Returns the string with this content, or `Utf8` if a text string is not UTF-8.
    fn new(content: Vec<u8>, bitwidth: IntegerWidth) -> Result<Self>
        ensures gives { Gives chunk result (checked_chunk kind bitwidth content.items) }
        ensures well { FitsWidth bitwidth (length content.items)
            → IfOk result (λ x. IsChunk kind (chunk x)) };

    /// Returns a string with the same content and width, in memory of its own.
    fn copy(&self, alloc: Global) -> Result<Self>
        ensures equal { IfOk result (λ v. chunk v ≡ chunk self.now) }
        ensures refused { IfErr result (λ e. e ≡ Error.Memory) };

    /// The content.
    fn content(&self) -> StringContent<'_>
        ensures bytes { bytes_of result ≡ (chunk self.now).bytes }
        ensures kind { kind_of result ≡ kind };

    /// The width of the length.
    fn width(&self) -> IntegerWidth
        ensures { result ≡ (chunk self.now).width };

    ghost compared: { (a b : Self) → IsTrue (Self.eq a b) ↔ (chunk a ≡ chunk b) };
}

impl DefiniteString for ByteString {
    ghost chunk = { byte_chunk };

    ghost kind = { StringKind.Bytes };

    ghost compared = { λ a b. Prim.search rules };

    fn kind() -> StringKind {
        StringKind::Bytes
    }

    fn new(content: Vec<u8>, bitwidth: IntegerWidth) -> Result<ByteString> {
        Ok(ByteString { content, bitwidth })
    }

    fn copy(&self, alloc: Global) -> Result<ByteString> {
        self.clone(alloc)
    }

    fn content(&self) -> StringContent<'_> {
        StringContent::Bytes(&self.content)
    }

    fn width(&self) -> IntegerWidth {
        self.bitwidth
    }
}

impl DefiniteString for TextString {
    ghost chunk = { text_chunk };

    ghost kind = { StringKind.Text };

    ghost compared = { λ a b. Prim.search rules };

    fn kind() -> StringKind {
        StringKind::Text
    }

    #[tactic(auto, using(crate::proofs::shared::Utf8::utf8_tests))]
    fn new(content: Vec<u8>, bitwidth: IntegerWidth) -> Result<TextString> {
        let Ok(content) = String::from_utf8(content) else {
            return Err(Error::Utf8);
        };
        // A text is UTF-8: the proof has it from this.
        let _text = content.as_str();
        Ok(TextString { content, bitwidth })
    }

    fn copy(&self, alloc: Global) -> Result<TextString> {
        self.clone(alloc)
    }

    fn content(&self) -> StringContent<'_> {
        StringContent::Text(self.content.as_str())
    }

    fn width(&self) -> IntegerWidth {
        self.bitwidth
    }
}
