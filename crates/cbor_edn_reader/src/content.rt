//! Reads what is between the quotes of an EDN string, and appends its bytes. It decodes the escapes
//! of a text, and the digits after a prefix such as `h'`.
ghost use Rattle.std.specs.Prelude.{◌≡◌, ◌<◌, ◌≤◌, length, Some, IfSome};
ghost use Rattle.cbor_tokens.specs.Token.{is_special};
ghost use Rattle.cbor_edn_grammar.specs.Quoted.{plain_len, quoted};
ghost use Rattle.cbor_edn_grammar.specs.Digits.{read_digits};
ghost use Rattle.cbor_edn_reader.specs.Adds.{Pushes};

use cbor_edn_grammar::error::Stop;
use cbor_edn_grammar::opening::Base;
use cbor_edn_tokens::cursor::{Cursor, after_byte};
use cbor_edn_tokens::digits::read_digits;
use cbor_edn_tokens::quoted::read_quoted;

/// Whether a byte is the quote or a backslash.
fn is_special(quote: u8, byte: u8) -> bool
    ensures { result ≡ is_special quote byte }
{
    byte == quote || byte == b'\\'
}

/// How many bytes come before the first quote or backslash.
fn plain_len(text: &[u8], quote: u8) -> usize
    ensures same { result ≡ plain_len quote text.now }
    ensures within { result ≤ length text.now }
{
    text.iter()
        .position(move |byte| is_special(quote, *byte))
        .unwrap_or(text.len())
}

/// The content up to the closing quote, and what follows that, if no escape is in it.
fn plain_quoted(text: &[u8], quote: u8) -> Option<(&[u8], &[u8])>
    ensures gives { IfSome result (λ x. quoted quote text.now ≡ Some (x.0.now, x.1.now)) }
    ensures shorter { IfSome result (λ x. length x.1.now < length text.now) }
{
    let (content, rest) = text.split_at(plain_len(text, quote));
    let after = after_byte(rest, quote)?;
    Some((content, after))
}

/// Appends the content up to the closing quote. Most has no escapes, and is copied from where it
/// is.
pub(crate) fn push_quoted(out: &mut Vec<u8>, text: &mut Cursor<'_>, quote: u8) -> Result<(), Stop>
    ensures reads { Pushes result out.old.items out.new.items text.new (quoted quote text.old) }
    ensures within { length text.new ≤ length text.old }
{
    if let Some((content, rest)) = plain_quoted(text.rest(), quote) {
        out.extend_from_slice(content)?;
        *text = Cursor::new(rest);
        return Ok(());
    }
    let bytes = read_quoted(*out.allocator(), text, quote)?;
    out.extend_from_slice(&bytes)?;
    Ok(())
}

/// Appends the bytes of the digits up to the next apostrophe.
pub(crate) fn push_digits(out: &mut Vec<u8>, text: &mut Cursor<'_>, base: Base) -> Result<(), Stop>
    ensures reads { Pushes result out.old.items out.new.items text.new
        (read_digits base text.old) }
    ensures within { length text.new ≤ length text.old }
{
    let bytes = read_digits(*out.allocator(), text, base)?;
    out.extend_from_slice(&bytes)?;
    Ok(())
}
