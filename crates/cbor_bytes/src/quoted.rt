//! Writes a byte string as diagnostic notation shows it: between quotes, in hex or in base 64.
#![tactic(auto, using(cbor_tokens::proofs::texts::Appending::appending_steps))]

ghost use Rattle.cbor_tokens.specs.Appends.{AppendsText};
ghost use Rattle.cbor_tokens.specs.Base64.{standard, url_safe};
ghost use Rattle.cbor_grammar.specs.NotationText.{prefix, encoded_bytes, quoted};

use base64::engine::general_purpose::{STANDARD, URL_SAFE_NO_PAD};
use cbor_grammar::encoding::Encoding;
use cbor_tokens::push_hex;
use std::alloc::AllocError;

/// Writes the prefix of quoted bytes.
fn push_prefix(out: &mut String, encoding: Encoding) -> Result<(), AllocError>
    ensures { AppendsText result out.old out.new (prefix encoding) }
{
    match encoding {
        Encoding::Base16 => out.push('h'),
        Encoding::Base64 | Encoding::Base64Url => out.push_str("b64"),
    }
}

/// Writes bytes between quotes.
pub fn push_quoted(out: &mut String, bytes: &[u8], encoding: Encoding) -> Result<(), AllocError>
    ensures { AppendsText result out.old out.new (quoted encoding bytes.now) }
{
    push_prefix(out, encoding)?;
    out.push('\'')?;
    push_encoded(out, bytes, encoding)?;
    out.push('\'')
}

/// Writes bytes as they are between quotes.
fn push_encoded(out: &mut String, bytes: &[u8], encoding: Encoding) -> Result<(), AllocError>
    ensures { AppendsText result out.old out.new
        (encoded_bytes encoding bytes.now) }
{
    match encoding {
        Encoding::Base16 => push_hex(out, bytes),
        Encoding::Base64 => push_base64(out, bytes),
        Encoding::Base64Url => push_base64_url(out, bytes),
    }
}

/// Writes bytes in base 64. It is a separate function because of its large buffer: where it was
/// inlined, each call would clear the buffer.
#[inline(never)]
fn push_base64(out: &mut String, bytes: &[u8]) -> Result<(), AllocError>
    ensures { AppendsText result out.old out.new (standard bytes.now) }
{
    STANDARD.encode_string(bytes, out)
}

/// Writes bytes in URL-safe base 64. It is separate for the same reason.
#[inline(never)]
fn push_base64_url(out: &mut String, bytes: &[u8]) -> Result<(), AllocError>
    ensures { AppendsText result out.old out.new (url_safe bytes.now) }
{
    URL_SAFE_NO_PAD.encode_string(bytes, out)
}
