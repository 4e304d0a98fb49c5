//! Reads strings of definite length, and the chunks of indefinite-length strings, from bytes (RFC
//! 7049 sections 2.1 and 2.2.2). `read_string` and `read_chunks` copy the content.
ghost use Rattle.std.specs.Prelude.{◌≡◌, ◌≢◌, ◌+◌, ◌*◌, ◌^◌, ◌<◌, ◌≤◌, length, IfOk};
ghost use Rattle.std.specs.Prelude.{IfErr, map, option_map};
ghost use Rattle.cbor_grammar.specs.mirror.MajorNumber.{major_number};
ghost use Rattle.cbor_grammar.specs.Reading.{Gives, split_at, read_content, read_chunk_length};
ghost use Rattle.cbor_grammar.specs.Reading.{read_chunk, read_chunks};
ghost use Rattle.cbor_grammar.specs.mirror.Counting.{GivesIn};

use crate::head::read_argument;
use crate::turns::Turns;
use cbor_grammar::argument::Argument;
use cbor_grammar::major::Major;
use cbor_grammar::strings::DefiniteString;
use cbor_grammar::{Error, IntegerWidth, Result};
use std::alloc::Global;

/// The first `count` bytes.
pub fn split_at(bytes: &[u8], count: u64) -> Result<(&[u8], &[u8])>
    ensures gives { Gives (λ x. (x.0.now, x.1.now)) result (split_at count bytes.now) }
    ensures refused { IfErr result (λ e. e ≡ Error.CutShort) }
    ensures shorter { IfOk result (λ x. length x.1.now ≤ length bytes.now) }
{
    if (bytes.len() as u64) < count {
        return Err(Error::CutShort);
    }
    Ok(bytes.split_at(count as usize))
}

/// A string of definite length, read after the head with its length.
#[tactic(auto, unfolding(cbor_grammar::specs::Reading::read_content))]
pub fn read_string<S: DefiniteString>(
    alloc: Global,
    count: u64,
    bitwidth: IntegerWidth,
    bytes: &[u8],
) -> Result<(S, &[u8])>
    ensures gives { Gives (λ x. (S.chunk x.0, x.1.now)) result
        (read_content S.kind count bitwidth bytes.now) }
    ensures shorter { IfOk result (λ x. length x.1.now ≤ length bytes.now) }
{
    let (content, rest) = split_at(bytes, count)?;
    let content = Vec::from_slice(alloc, content)?;
    Ok((S::new(content, bitwidth)?, rest))
}

/// The length of the next chunk of an indefinite-length string of this major type, or `None` at its
/// break. The first byte decides whether a chunk begins here, before more of its head is read.
#[tactic(auto, unfolding(cbor_grammar::specs::Reading::read_chunk_length))]
pub fn read_chunk_length(major: Major, bytes: &[u8]) -> Result<(Option<(u64, IntegerWidth)>, &[u8])>
    ensures gives { Gives (λ x. (x.0, x.1.now)) result
        (read_chunk_length (major_number major) bytes.now) }
    ensures refused { IfErr result (λ e. e ≢ Error.Memory) }
    ensures shorter { IfOk result (λ x. length x.1.now < length bytes.now) }
{
    match bytes {
        [] => Err(Error::CutShort),
        [0xff, rest @ ..] => Ok((None, rest)),
        [first, rest @ ..] => {
            if *first / 32 != major.number() {
                return Err(Error::Head);
            }
            match read_argument(*first % 32, rest)? {
                (Argument::Number(length, bitwidth), rest) => Ok((Some((length, bitwidth)), rest)),
                (Argument::Indefinite, _) => Err(Error::Head),
            }
        }
    }
}

/// The next chunk of an indefinite-length string, or `None` at its break.
#[tactic(auto, unfolding(cbor_grammar::specs::Reading::read_chunk_length, cbor_grammar::specs::Reading::read_chunk))]
fn read_chunk<S: DefiniteString>(alloc: Global, bytes: &[u8]) -> Result<(Option<S>, &[u8])>
    ensures gives { Gives (λ x. (option_map S.chunk x.0, x.1.now)) result
        (read_chunk S.kind bytes.now) }
    ensures shorter { IfOk result (λ x. length x.1.now < length bytes.now) }
{
    let (length, rest) = read_chunk_length(S::kind().major(), bytes)?;
    let Some((length, bitwidth)) = length else {
        return Ok((None, rest));
    };
    let (chunk, rest) = read_string(alloc, length, bitwidth, rest)?;
    Ok((Some(chunk), rest))
}

/// The chunks of an indefinite-length string up to its break. Each chunk takes a turn, and so does
/// the break.
pub fn read_chunks<'a, S: DefiniteString>(
    alloc: Global,
    bytes: &'a [u8],
    turns: &mut Turns,
) -> Result<(Vec<S>, &'a [u8])>
    requires { turns.old + 2 * length bytes.now < 2 ^ 126 }
    ensures gives { GivesIn (λ x. (map S.chunk x.0.items, x.1.now)) turns.old turns.new result
        (read_chunks (length bytes.now) S.kind bytes.now) }
    ensures falls { IfOk result (λ x.
        turns.new + 2 * length x.1.now ≤ turns.old + 2 * length bytes.now) }
    ensures few { turns.new ≤ turns.old + 2 * length bytes.now + 1 }
    ensures rises { turns.old ≤ turns.new }
{
    let mut chunks = Vec::new(alloc);
    let mut rest = bytes;
    'chunks: loop {
        turns.rise();
        let (chunk, after) = read_chunk(alloc, rest)?;
        let Some(chunk) = chunk else {
            return Ok((chunks, after));
        };
        chunks.push(chunk)?;
        rest = after;
    }
}
