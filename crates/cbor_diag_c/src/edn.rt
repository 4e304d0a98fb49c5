//! Reads one item from EDN, and writes one in EDN, for the C calls. Also returns why a text is not
//! EDN.
ghost use Rattle.std.specs.Prelude.{◌≡◌, IfOk, IfErr, MatchResult};
ghost use Rattle.cbor_diag.specs.View.{view};
ghost use Rattle.cbor_grammar.specs.Answer.{RefusedSo};
ghost use Rattle.cbor_grammar.specs.Facts.{IsItem, IsNoItem, IsWellFormed};
ghost use Rattle.cbor_grammar.specs.Item.{Item};
ghost use Rattle.cbor_grammar.specs.Written.{resolve};
ghost use Rattle.cbor_diag_c.specs.Forms.{IsEdn, IsNoEdn, IsEdnError, IsEdnLine};

use crate::form::edn_style;
use cbor_diag::DataItem;
use cbor_edn::parse_edn;
use cbor_edn_grammar::error::EdnError;
use cbor_edn_writer::push_bytes_to_edn;
use cbor_grammar::Error;
use std::alloc::Global;

/// Reads one item from EDN. Each error but `Utf8` and `Memory` is `Notation`.
pub(crate) fn read_edn(alloc: Global, input: &[u8]) -> Result<DataItem, Error>
    ensures item { IfOk result (λ item. IsEdn input.now (view item)) }
    ensures refused { RefusedSo result (IsNoEdn input.now) }
    ensures well_formed { IfOk result (λ item. IsWellFormed (view item)) }
{
    let Ok(text) = str::from_utf8(input) else {
        return Err(Error::Utf8);
    };
    match parse_edn(alloc, text) {
        Ok(item) => Ok(item),
        Err(EdnError::Memory) => Err(Error::Memory),
        Err(EdnError::Wrong { .. }) => Err(Error::Notation),
    }
}

/// Returns why a text is no item in EDN, or `None` if it is one.
pub(crate) fn edn_error(alloc: Global, text: &str) -> Option<EdnError>
    ensures { IsEdnError text.now result }
{
    match parse_edn(alloc, text) {
        Ok(_) => None,
        Err(error) => Some(error),
    }
}

/// Returns the item that the bytes encode in EDN, and a line feed.
#[tactic(auto, using(crate::proofs::Lines::edn_as_read))]
pub(crate) fn edn_line(alloc: Global, bytes: &[u8], pretty: bool) -> Result<Vec<u8>, Error>
    ensures ok { IfOk result (λ line. (i : Item) × IsItem bytes.now i
        × IsEdnLine pretty (resolve i) line.items) }
    ensures refused { RefusedSo result (IsNoItem bytes.now) }
    ensures every_item { (i : Item) → IsItem bytes.now i → MatchResult result
        (λ line. IsEdnLine pretty i line.items) (λ e. e ≡ Error.Memory) }
{
    let mut text = String::new(alloc);
    push_bytes_to_edn(alloc, bytes, edn_style(pretty), &mut text)?;
    let mut line = text.into_bytes();
    line.push(b'\n')?;
    Ok(line)
}
