//! Reads strings, and the chunks of indefinite-length strings, without copying them: each is a
//! slice of the input.
ghost use Rattle.std.specs.Prelude.{◌≡◌, ◌<◌, ◌≤◌, length, IfOk, IfSome, option_map};
ghost use Rattle.cbor_grammar.specs.declared.width.IntegerWidth.{IntegerWidth};
ghost use Rattle.cbor_grammar.specs.mirror.StringView.{kind_of, borrowed_chunk};
ghost use Rattle.cbor_grammar.specs.Reading.{Gives, read_content, read_chunk_length, read_chunk};

use crate::strings::{read_chunk_length, split_at};
use cbor_grammar::strings::{StringContent, StringKind};
use cbor_grammar::{IntegerWidth, Result};

/// A string of definite length, read after the head with its length.
#[tactic(auto, unfolding(cbor_grammar::specs::Reading::read_content))]
pub fn read_borrowed(
    kind: StringKind,
    count: u64,
    bytes: &[u8],
) -> Result<(StringContent<'_>, &[u8])>
    ensures gives { (w : IntegerWidth) → Gives (λ x. (borrowed_chunk w x.0, x.1.now)) result
        (read_content kind count w bytes.now) }
    ensures kind { IfOk result (λ x. kind_of x.0 ≡ kind) }
    ensures shorter { IfOk result (λ x. length x.1.now ≤ length bytes.now) }
{
    let (content, rest) = split_at(bytes, count)?;
    Ok((kind.content(content)?, rest))
}

/// The next chunk of an indefinite-length string, with the width of its length, or `None` at its
/// break.
#[tactic(auto, unfolding(cbor_grammar::specs::Reading::read_chunk_length, cbor_grammar::specs::Reading::read_chunk))]
pub fn next_chunk(
    kind: StringKind,
    bytes: &[u8],
) -> Result<(Option<(StringContent<'_>, IntegerWidth)>, &[u8])>
    ensures gives { Gives (λ x. (option_map (λ c. borrowed_chunk c.1 c.0) x.0, x.1.now)) result
        (read_chunk kind bytes.now) }
    ensures kind { IfOk result (λ x. IfSome x.0 (λ c. kind_of c.0 ≡ kind)) }
    ensures shorter { IfOk result (λ x. length x.1.now < length bytes.now) }
{
    let (length, rest) = read_chunk_length(kind.major(), bytes)?;
    let Some((length, width)) = length else {
        return Ok((None, rest));
    };
    let (content, rest) = read_borrowed(kind, length, rest)?;
    Ok((Some((content, width)), rest))
}
