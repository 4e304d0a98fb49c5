//! Writes a string of EDN between quotes: a text with escapes, or bytes in hex, with the width of
//! the length if that is not the shortest. Also writes an indefinite-length string without chunks.
#![tactic(auto, using(cbor_tokens::proofs::texts::Appending::appending_steps))]

ghost use Rattle.std.specs.Prelude.{◌≡◌, ◌++◌, codes};
ghost use Rattle.cbor_grammar.specs.mirror.StringView.{kind_of, borrowed_chunk};
ghost use Rattle.cbor_tokens.specs.Appends.{AppendsText};
ghost use Rattle.cbor_grammar.specs.StringKind.{no_chunks};
ghost use Rattle.cbor_edn_writer.specs.EdnLeaves.{quoted_string};
ghost use Rattle.cbor_tokens.specs.Escapes.{escaped_text};

use crate::print::numbers::push_length_mark;
use crate::print::place::EdnPlace;
use cbor_bytes::quoted::push_quoted;
use cbor_grammar::IntegerWidth;
use cbor_grammar::encoding::Encoding;
use cbor_grammar::strings::{StringContent, StringKind};
use cbor_marks::Kind;
use cbor_tokens::push_escaped;
use std::alloc::AllocError;

/// Writes a string between quotes, and the width of its length if that is longer than it has to be.
pub(super) fn push_part(
    out: &mut String,
    content: StringContent<'_>,
    width: IntegerWidth,
    place: &EdnPlace<'_>,
) -> Result<(), AllocError>
    ensures { AppendsText result out.old out.new
        (quoted_string (kind_of content.entry) (borrowed_chunk width content.entry)) }
{
    let start = out.len();
    match content {
        StringContent::Bytes(bytes) => {
            let result = push_bytes(out, bytes, width);
            place.mark(Kind::Bytes, start, out);
            result
        }
        StringContent::Text(text) => {
            let result = push_text(out, text, width);
            place.mark(Kind::Text, start, out);
            result
        }
    }
}

/// Writes an indefinite-length string that has no chunks.
pub(super) fn push_no_parts(
    out: &mut String,
    kind: StringKind,
    place: &EdnPlace<'_>,
) -> Result<(), AllocError>
    ensures { AppendsText result out.old out.new (no_chunks kind) }
{
    let start = out.len();
    match kind {
        StringKind::Bytes => {
            let result = out.push_str("''_");
            place.mark(Kind::Bytes, start, out);
            result
        }
        StringKind::Text => {
            let result = out.push_str("\"\"_");
            place.mark(Kind::Text, start, out);
            result
        }
    }
}

/// Writes bytes as hex digits.
fn push_bytes(out: &mut String, bytes: &[u8], width: IntegerWidth) -> Result<(), AllocError>
    ensures { AppendsText result out.old out.new
        (quoted_string (kind_of (StringContent.Bytes bytes.entry))
        (borrowed_chunk width (StringContent.Bytes bytes.entry))) }
{
    push_quoted(out, bytes, Encoding::Base16)?;
    push_length_mark(out, bytes.len() as u64, width)
}

/// Writes a text with escapes.
fn push_text(out: &mut String, text: &str, width: IntegerWidth) -> Result<(), AllocError>
    ensures { AppendsText result out.old out.new
        (quoted_string (kind_of (StringContent.Text text.entry))
        (borrowed_chunk width (StringContent.Text text.entry))) }
{
    push_between_quotes(out, text)?;
    push_length_mark(out, text.len() as u64, width)
}

/// Writes a text with escapes and its quotes.
fn push_between_quotes(out: &mut String, text: &str) -> Result<(), AllocError>
    ensures { AppendsText result out.old out.new
        (codes "\"" ++ (escaped_text text.now ++ codes "\"")) }
{
    out.push('"')?;
    push_escaped(out, text)?;
    out.push('"')
}
