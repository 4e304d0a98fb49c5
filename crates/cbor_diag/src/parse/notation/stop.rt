//! After an error in notation, moves the cursor to the place of the error: before the first byte
//! with which the text cannot go on, or at the end if the text is only truncated. `diag_fault`
//! returns this place. Tests check the place; it is not proved. After a failed allocation the
//! cursor may be anywhere.
ghost use Rattle.std.specs.Prelude.{◌≡◌, ◌≢◌, ◌<◌, ◌⊎◌, false, length, Err, IfOk};
ghost use Rattle.cbor_grammar.specs.Head.{FitsWidth};
ghost use Rattle.cbor_grammar.specs.Reading.{Gives};
ghost use Rattle.cbor_tokens.specs.TokenReading.{unquoted};
ghost use Rattle.cbor_notation.specs.mirror.Cursor.{TakesComma};
ghost use Rattle.cbor_notation.specs.mirror.NotationReading.{after_byte, b_notation, h_notation};
ghost use Rattle.cbor_notation.specs.mirror.NotationReading.{or_refused, read_negative_number};
ghost use Rattle.cbor_notation.specs.mirror.NotationReading.{read_unsigned_number};

use cbor_grammar::{Error, IntegerWidth, Result};
use cbor_notation::content::{b_notation, h_notation, read_quoted};
use cbor_notation::cursor::Cursor;
use cbor_notation::number::{read_negative_number, read_number, read_unsigned_number};
use cbor_notation::scan::{after_word, whitespace_len};
use memchr::memchr;
use std::alloc::Global;

/// Stops behind the blank that is next, or at the end of the text if a comment in it does not end.
#[cold]
pub(super) fn stop_after_blank(text: &mut Cursor<'_>) {
    text.skip_blank();
    if let [b'/', ..] = text.rest() {
        *text = Cursor::new(&[]);
    }
}

/// The text after a byte that a number may go on with, as in `1_0` and `0x1`, or all of the text.
fn after_letter(text: &[u8]) -> &[u8] {
    match text {
        [b'_' | b'b' | b'o' | b'x', rest @ ..] => rest,
        _ => text,
    }
}

/// Stops behind an item and the blank after it, or one byte later.
#[cold]
pub(super) fn stop_after_item(text: &mut Cursor<'_>) {
    stop_after_blank(text);
    *text = Cursor::new(after_letter(text.rest()));
}

/// Stops behind the comma with which a list begins, and the whitespace after it: the list may end
/// there.
#[cold]
pub(super) fn stop_in_list<'a>(first: &'a [u8], text: &mut Cursor<'a>) {
    if let [b',', rest @ ..] = first {
        let spaces = whitespace_len(rest).unwrap_or(rest.len());
        *text = Cursor::new(rest.get(spaces..).unwrap_or(&[]));
    }
}

/// Stops before the last byte that was read of `front`.
#[cold]
pub(super) fn stop_before_last<'a>(front: &'a [u8], text: &mut Cursor<'a>) {
    let read = front.len().saturating_sub(text.rest().len());
    let last = read.saturating_sub(1);
    *text = Cursor::new(front.get(last..).unwrap_or(&[]));
}

/// Stops at a refused number. If more digits would make it valid, as for `-0` and `300_0`, stops
/// behind it, otherwise before its last byte.
#[cold]
fn stop_at_number<'a>(front: &'a [u8], text: &mut Cursor<'a>) {
    *text = Cursor::new(front);
    match read_number(text) {
        Ok((0, None)) => *text = Cursor::new(after_letter(text.rest())),
        Ok((value, Some(0))) if value < 1 << 64 => {}
        Ok(_) => stop_before_last(front, text),
        Err(_) => {}
    }
}

/// The text after the longest prefix that one of these words shares with it.
fn after_front<'a>(text: &'a [u8], words: &[&[u8]]) -> &'a [u8] {
    let mut rest = text;
    'words: for word in words {
        'fronts: for end in 0..word.len() {
            match after_word(text, &word[..end + 1]) {
                Some(after) if after.len() < rest.len() => rest = after,
                _ => {}
            }
        }
    }
    rest
}

/// Stops where the text differs from each of these words.
#[cold]
pub(super) fn stop_in_word(text: &mut Cursor<'_>, words: &[&[u8]]) {
    *text = Cursor::new(after_front(text.rest(), words));
}

/// Stops before the quote that closes digits, which follow one of these words.
#[cold]
fn stop_in_digits<'a>(front: &'a [u8], words: [&[u8]; 2], text: &mut Cursor<'a>) {
    let digits = after_word(front, words[0]).or(after_word(front, words[1]));
    let rest = match digits {
        Some(digits) => match memchr(b'\'', digits) {
            Some(end) => &digits[end..],
            None => &[],
        },
        None => after_front(front, &words),
    };
    *text = Cursor::new(rest);
}

/// Stops behind a `\` that escapes nothing, or at the end of the text.
#[cold]
fn stop_in_quotes<'a>(front: &'a [u8], quote: u8, text: &mut Cursor<'a>) {
    let mut rest: &[u8] = &[];
    let mut escaped = false;
    'content: for at in 0..front.len() {
        let byte = front[at];
        if escaped && byte != quote && byte != b'\\' {
            rest = &front[at..];
            break;
        }
        escaped = !escaped && byte == b'\\';
    }
    *text = Cursor::new(rest);
}

/// Takes this byte after an item.
#[inline(always)]
pub(super) fn expect_after_item(text: &mut Cursor<'_>, byte: u8) -> Result<()>
    ensures gives { Gives (λ _. text.new) result (or_refused (after_byte byte text.old)) }
    ensures shorter { IfOk result (λ _. length text.new < length text.old) }
{
    match text.expect_byte(byte) {
        Ok(()) => Ok(()),
        Err(error) => {
            stop_after_item(text);
            Err(error)
        }
    }
}

/// Takes the comma before a further member of a list, or the end of the list, as
/// `Cursor::take_comma` does.
#[inline(always)]
pub(super) fn take_comma(text: &mut Cursor<'_>, close: u8) -> Result<bool>
    ensures takes { TakesComma result close text.old text.new }
    ensures shorter { IfOk result (λ _. length text.new < length text.old) }
{
    match text.take_comma(close) {
        Ok(more) => Ok(more),
        Err(error) => {
            stop_after_item(text);
            Err(error)
        }
    }
}

/// The number of an unsigned integer or a tag at the front, with its width.
#[inline(always)]
pub(super) fn unsigned_number(text: &mut Cursor<'_>) -> Result<(u64, IntegerWidth)>
    ensures gives { Gives (λ x. ((x.0, x.1), text.new)) result (read_unsigned_number text.old) }
    ensures memory { result ≢ Err Error.Memory }
    ensures fits { IfOk result (λ x. FitsWidth x.1 x.0) }
    ensures shorter { IfOk result (λ _. length text.new < length text.old) }
{
    let front = text.rest();
    match read_unsigned_number(text) {
        Ok(number) => Ok(number),
        Err(error) => {
            stop_at_number(front, text);
            Err(error)
        }
    }
}

/// The encoded number of a negative integer, after its `-`.
#[inline(always)]
pub(super) fn negative_number(text: &mut Cursor<'_>) -> Result<(u64, IntegerWidth)>
    ensures gives { Gives (λ x. ((x.0, x.1), text.new)) result (read_negative_number text.old) }
    ensures memory { result ≢ Err Error.Memory }
    ensures fits { IfOk result (λ x. FitsWidth x.1 x.0) }
    ensures shorter { IfOk result (λ _. length text.new < length text.old) }
{
    let front = text.rest();
    match read_negative_number(text) {
        Ok(number) => Ok(number),
        Err(error) => {
            stop_at_number(front, text);
            Err(error)
        }
    }
}

/// The content up to the closing quote, without its escapes.
#[inline(always)]
pub(super) fn quoted(alloc: Global, text: &mut Cursor<'_>, quote: u8) -> Result<Vec<u8>>
    requires { (quote ≡ 34) ⊎ (quote ≡ 39) }
    ensures gives { Gives (λ x. (x.items, text.new)) result
        (or_refused (unquoted quote false text.old)) }
    ensures shorter { IfOk result (λ _. length text.new < length text.old) }
{
    let front = text.rest();
    match read_quoted(alloc, text, quote) {
        Ok(content) => Ok(content),
        Err(error) => {
            stop_in_quotes(front, quote, text);
            Err(error)
        }
    }
}

/// The bytes of `b32'..'` or `b64'..'` after the `b`.
#[inline(always)]
pub(super) fn letter_b(alloc: Global, text: &mut Cursor<'_>) -> Result<Vec<u8>>
    ensures gives { Gives (λ x. (x.items, text.new)) result (b_notation text.old) }
    ensures shorter { IfOk result (λ _. length text.new < length text.old) }
{
    let front = text.rest();
    match b_notation(alloc, text) {
        Ok(bytes) => Ok(bytes),
        Err(error) => {
            stop_in_digits(front, [b"32'", b"64'"], text);
            Err(error)
        }
    }
}

/// The bytes of `h'..'` or `h32'..'` after the `h`.
#[inline(always)]
pub(super) fn letter_h(alloc: Global, text: &mut Cursor<'_>) -> Result<Vec<u8>>
    ensures gives { Gives (λ x. (x.items, text.new)) result (h_notation text.old) }
    ensures shorter { IfOk result (λ _. length text.new < length text.old) }
{
    let front = text.rest();
    match h_notation(alloc, text) {
        Ok(bytes) => Ok(bytes),
        Err(error) => {
            stop_in_digits(front, [b"'", b"32'"], text);
            Err(error)
        }
    }
}
