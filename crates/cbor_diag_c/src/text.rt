//! Writes an item for the C calls as EDN or JSON with a line feed, or as the lines of an HTML page.
ghost use Rattle.std.specs.Prelude.{◌≡◌, ◌∷◌, ◌++◌, [], IfOk, IfErr, MatchResult};
ghost use Rattle.std.specs.String.{string_bytes};
ghost use Rattle.cbor_diag.specs.View.{view};
ghost use Rattle.cbor_grammar.specs.Facts.{IsItem, IsWellFormed};
ghost use Rattle.cbor_grammar.specs.Item.{Item};
ghost use Rattle.cbor_grammar.specs.Written.{encoded};
ghost use Rattle.cbor_grammar.specs.Written.{resolve};
ghost use Rattle.cbor_json.specs.Written.{IsNoJson, IsErrorOf};
ghost use Rattle.cbor_diag_c.specs.Forms.{json_style, IsJsonLine, IsTextLine};
ghost use Rattle.cbor_diag_c.specs.Outputs.{RefusedAs, IsNoText, IsTextErrorOf};

use crate::edn::edn_line;
use crate::form::{Text, json_style};
use crate::page::html_lines;
use cbor_diag::DataItem;
use cbor_grammar::Error;
use cbor_json::{JsonError, bytes_to_json};
use std::alloc::Global;

/// Returns a text and a line feed. The only error is `Memory`.
fn line_of(text: String) -> Result<Vec<u8>, Error>
    ensures line { IfOk result (λ line. line.items ≡ string_bytes text ++ 10 ∷ []) }
    ensures memory { IfErr result (λ e. e ≡ Error.Memory) }
{
    let mut line = text.into_bytes();
    line.push(b'\n')?;
    Ok(line)
}

/// Returns the item that the bytes encode as JSON, and a line feed.
#[tactic(auto, using(crate::proofs::Lines::json_as_read))]
fn json_line(alloc: Global, bytes: &[u8], strict: bool) -> Result<Vec<u8>, JsonError>
    ensures ok { IfOk result (λ line. (i : Item) × IsItem bytes.now i
        × IsJsonLine strict (resolve i) line.items) }
    ensures refused { IfErr result (IsNoJson (json_style strict) bytes.now) }
    ensures every_item { (i : Item) → IsItem bytes.now i → MatchResult result
        (λ line. IsJsonLine strict i line.items) (IsErrorOf (json_style strict) i) }
{
    let text = bytes_to_json(alloc, bytes, json_style(strict))?;
    Ok(line_of(text)?)
}

/// Returns the item that the bytes encode in EDN or JSON, and a line feed; or its lines of a page.
#[tactic(auto, using(crate::proofs::NoOutput::text_laws))]
pub(crate) fn text_line(alloc: Global, bytes: &[u8], text: Text) -> Result<Vec<u8>, JsonError>
    ensures ok { IfOk result (λ line. (i : Item) × IsItem bytes.now i
        × IsTextLine text (resolve i) line.items) }
    ensures refused { RefusedAs result (IsNoText text bytes.now) }
    ensures every_item { (i : Item) → IsItem bytes.now i → MatchResult result
        (λ line. IsTextLine text i line.items) (IsTextErrorOf text i) }
{
    match text {
        Text::Edn { pretty } => Ok(edn_line(alloc, bytes, pretty)?),
        Text::Json { strict } => json_line(alloc, bytes, strict),
        Text::Html => Ok(html_lines(alloc, bytes)?),
    }
}

/// Returns the item in EDN or JSON, and a line feed; or its lines of a page.
pub(crate) fn item_line(alloc: Global, item: &DataItem, text: Text) -> Result<Vec<u8>, JsonError>
    requires { IsWellFormed (view item.now) }
    ensures ok { IfOk result (λ line. IsTextLine text (resolve (view item.now)) line.items) }
    ensures refused { RefusedAs result (IsNoText text (encoded (view item.now))) }
    ensures of_item { IfErr result (IsTextErrorOf text (resolve (view item.now))) }
{
    let bytes = item.to_bytes(alloc)?;
    text_line(alloc, &bytes, text)
}
