//! Takes the `+` between the pieces of an EDN string, and the width after the last piece. Then
//! writes the head before the bytes of the pieces, which makes them a string, a chunk, or an
//! indefinite-length string without chunks.
ghost use Rattle.std.specs.Prelude.{◌≡◌, ◌+◌, ◌<◌, ◌≤◌, length, take, drop, IfOk};
ghost use Rattle.cbor_grammar.specs.Head.{FitsWidth};
ghost use Rattle.cbor_edn_grammar.specs.Reading.{Gives};
ghost use Rattle.cbor_edn_grammar.specs.Strings.{is_sign_of, joined, width_after, chunk_of};
ghost use Rattle.cbor_edn_grammar.specs.Strings.{string_item, may_hold, no_chunks};
ghost use Rattle.std.specs.Str.{is_utf8};
ghost use Rattle.cbor_edn_grammar.specs.Items.{chunk_from};
ghost use Rattle.cbor_edn_reader.specs.Adds.{AddsItem, AddsChunk};

use crate::heads::put_open;
use cbor_bytes::write::push_head;
use cbor_edn_grammar::error::{Expected, Stop};
use cbor_edn_grammar::word::{is_digit, stated_by};
use cbor_edn_tokens::cursor::Cursor;
use cbor_grammar::IntegerWidth;
use cbor_grammar::strings::StringKind;

/// Whether a `+` before this text is the sign of a number.
fn is_sign_of(text: &[u8]) -> bool
    ensures { result ≡ is_sign_of text.now }
{
    match text {
        [first, ..] => is_digit(*first) || *first == b'.',
        [] => false,
    }
}

/// Takes a `+` that joins the next piece to the one before, and the blanks around it.
pub fn take_plus(text: &mut Cursor<'_>) -> bool
    ensures takes { (result, text.new) ≡ joined text.old }
    ensures within { length text.new ≤ length text.old }
{
    let mut next = Cursor::new(text.rest());
    next.skip_blank();
    if let [b'+', rest @ ..] = next.rest() {
        if !is_sign_of(rest) {
            *text = Cursor::new(rest);
            text.skip_blank();
            return true;
        }
    }
    false
}

/// Takes the width indicator right after a string, if there is one. Without one the width is
/// unstated. For `_` alone the result is `None`.
pub fn width_after(text: &mut Cursor<'_>) -> Result<Option<IntegerWidth>, Stop>
    ensures gives { Gives (λ x. (x, text.new)) result (width_after text.old) }
    ensures within { length text.new ≤ length text.old }
{
    let [b'_', ..] = text.rest() else {
        return Ok(Some(IntegerWidth::Unknown));
    };
    match stated_by(text.word()) {
        Some(width) => {
            text.skip_word();
            Ok(width)
        }
        None => Err(Stop::At(Expected::Indicator)),
    }
}

/// Whether bytes are UTF-8.
#[tactic(auto, using(crate::proofs::Dates::utf8_tests))]
fn is_utf8(bytes: &[u8]) -> bool
    ensures { result ≡ is_utf8 bytes.now }
{
    str::from_utf8(bytes).is_ok()
}

/// Whether a string of this kind may have these bytes.
fn may_hold(kind: StringKind, bytes: &[u8]) -> bool
    ensures { result ≡ may_hold kind bytes.now }
{
    match kind {
        StringKind::Bytes => true,
        StringKind::Text => is_utf8(bytes),
    }
}

/// Returns an error if no definite-length string has these bytes and this width.
fn check_chunk(kind: StringKind, bytes: &[u8], width: IntegerWidth) -> Result<(), Stop>
    ensures gives { Gives (λ _. record { bytes = bytes.now; width = width }) result
        (chunk_of kind bytes.now width) }
    ensures fits { IfOk result (λ _. FitsWidth width (length bytes.now)) }
{
    if !width.fits(bytes.len() as u64) {
        return Err(Stop::At(Expected::FittingWidth));
    }
    if !may_hold(kind, bytes) {
        return Err(Stop::At(Expected::Utf8));
    }
    Ok(())
}

/// Appends the definite-length string with these bytes.
pub(crate) fn push_chunk(
    out: &mut Vec<u8>,
    kind: StringKind,
    bytes: &[u8],
    width: IntegerWidth,
) -> Result<(), Stop>
    ensures { AddsChunk result out.old.items out.new.items kind (chunk_of kind bytes.now width) }
{
    check_chunk(kind, bytes, width)?;
    push_head(out, kind.major(), bytes.len() as u64, width)?;
    out.extend_from_slice(bytes)?;
    Ok(())
}

/// Makes a definite-length string of the bytes after `place`, where a byte was left for its head.
fn end_chunk(
    out: &mut Vec<u8>,
    place: usize,
    kind: StringKind,
    width: IntegerWidth,
) -> Result<(), Stop>
    requires { place < length out.old.items }
    ensures { AddsChunk result (take place out.old.items) out.new.items kind
        (chunk_of kind (drop (place + 1) out.old.items) width) }
{
    let bytes = &out[place + 1..];
    check_chunk(kind, bytes, width)?;
    let count = (bytes.len(), Some(width));
    put_open(out, place, kind.major(), count)?;
    Ok(())
}

/// Makes a chunk of the bytes after `place`, where a byte was left for its head. It is an error if
/// the chunk that was found is of another kind or has no width.
pub(crate) fn end_chunk_of(
    out: &mut Vec<u8>,
    place: usize,
    kind: StringKind,
    found: (StringKind, Option<IntegerWidth>),
) -> Result<(), Stop>
    requires { place < length out.old.items }
    ensures { AddsChunk result (take place out.old.items) out.new.items kind
        (chunk_from kind found.0 (drop (place + 1) out.old.items) found.1) }
{
    let Some(width) = found.1 else {
        return Err(Stop::At(Expected::Chunk));
    };
    match (kind, found.0) {
        (StringKind::Bytes, StringKind::Bytes) | (StringKind::Text, StringKind::Text) => {
            end_chunk(out, place, kind, width)
        }
        _ => Err(Stop::At(Expected::Chunk)),
    }
}

/// Makes an indefinite-length string without chunks of the byte at `place`. It is an error if more
/// bytes come after that.
#[tactic(auto, using(crate::proofs::NoChunks::some_content))]
fn end_empty(out: &mut Vec<u8>, place: usize, kind: StringKind) -> Result<bool, Stop>
    requires { place < length out.old.items }
    ensures { AddsItem result (take place out.old.items) out.new.items
        (no_chunks kind (drop (place + 1) out.old.items)) }
{
    if out.len() > place + 1 {
        return Err(Stop::At(Expected::NoContent));
    }
    put_open(out, place, kind.major(), (0, None))?;
    out.push(0xff)?;
    Ok(false)
}

/// Makes a string of the bytes after `place`, where a byte was left for its head: of definite
/// length, or, if it has no width, of indefinite length without chunks. Returns whether it is of
/// definite length.
pub(crate) fn end_string(
    out: &mut Vec<u8>,
    place: usize,
    kind: StringKind,
    width: Option<IntegerWidth>,
) -> Result<bool, Stop>
    requires { place < length out.old.items }
    ensures { AddsItem result (take place out.old.items) out.new.items
        (string_item kind (drop (place + 1) out.old.items) width) }
{
    match width {
        Some(width) => {
            end_chunk(out, place, kind, width)?;
            Ok(true)
        }
        None => end_empty(out, place, kind),
    }
}
