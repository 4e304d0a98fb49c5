//! Tells texts from bytes: a text is UTF-8 without control characters, except tabs and line ends.
//! `text_fault` finds the first byte that no text has. Also skips a byte order mark.
ghost use Rattle.std.specs.Prelude.{◌≡◌, ◌↔◌, ◌+◌, ◌<◌, ◌≤◌, ℕ, IsTrue, IfSome, length};
ghost use Rattle.std.specs.Prelude.{slice_index};
ghost use Rattle.cbor_inputs.specs.Texts.{Controls, IsPlainAt, IsText, mark_len, unmarked};

use cbor_bytes::utf8_fault;

/// The byte at a place, or 0 past the end.
pub(crate) fn byte_at(text: &[u8], at: usize) -> u8
    ensures { result ≡ slice_index text.now at }
{
    match text.get(at) {
        Some(byte) => *byte,
        None => 0,
    }
}

/// How many bytes a byte order mark takes at the front of a text, if there is one.
pub(crate) fn mark_len(text: &[u8]) -> usize
    ensures mark { result ≡ mark_len text.now }
    ensures within { result ≤ length text.now }
{
    if byte_at(text, 0) == 0xef && byte_at(text, 1) == 0xbb && byte_at(text, 2) == 0xbf {
        3
    } else {
        0
    }
}

/// A text without the byte order mark before it, if there is one.
pub(crate) fn unmarked(text: &[u8]) -> &[u8]
    ensures { result.now ≡ unmarked text.now }
{
    &text[mark_len(text)..]
}

/// Whether two bytes begin with a control character that is no tab and ends no line.
fn controls(a: u8, b: u8) -> bool
    ensures { IsTrue result ↔ Controls a b }
{
    if a < 32 {
        return !(a == b'\t' || a == b'\n' || a == b'\r');
    }
    a == 127 || (a == 0xc2 && b < 0xa0)
}

/// The place of the first control character that is no tab and ends no line, or the length.
fn first_control(text: &[u8]) -> usize
    ensures within { result ≤ length text.now }
    ensures before { (k : ℕ) → k < result → IsPlainAt text.now k }
    ensures at { result < length text.now → ¬ (IsPlainAt text.now result) }
{
    let mut at = 0;
    'text: while at < text.len() {
        if controls(text[at], byte_at(text, at + 1)) {
            return at;
        }
        at += 1;
    }
    at
}

/// Whether bytes are all text: UTF-8 without control characters, but for tabs and line ends.
///
/// ```rust
/// use cbor_inputs::is_text;
///
/// assert!(rt; is_text(b"two\nlines"));
/// assert!(rt; !is_text(b"a\x1b"));
/// ```
pub fn is_text(bytes: &[u8]) -> bool
    ensures { IsTrue result ↔ IsText bytes.now }
{
    match str::from_utf8(bytes) {
        Ok(_) => first_control(bytes) == bytes.len(),
        Err(_) => false,
    }
}

/// The place of a byte that no text has, where bytes are not the beginning of a text: they may end
/// within a character.
pub fn text_fault(bytes: &[u8]) -> Option<usize> {
    let control = first_control(bytes);
    let utf8 = utf8_fault(bytes).unwrap_or(bytes.len());
    let at = control.min(utf8);
    let cut = control.saturating_add(1) == bytes.len() && bytes.last() == Some(&0xc2);
    if at >= bytes.len() || cut {
        None
    } else {
        Some(at)
    }
}
