//! Steps over bytes from one head to the next, and finds the wrong byte in malformed bytes
//! (`place_of_fault`). It does not check that the bytes are an item; `extent` does.
ghost use Rattle.std.specs.Prelude.{◌≡◌, ◌≢◌, ◌-◌, ◌<◌, ◌≤◌};

use cbor_bytes::utf8_fault;
use cbor_grammar::Error;

/// The distance from the head at this place to the next one. The content of a string is skipped.
pub fn step(bytes: &[u8], at: usize) -> usize
    ensures { 1 ≤ result }
{
    let byte = byte_at(bytes, at);
    let head = 1 + argument_len(byte);
    match byte {
        0x40..=0x5b | 0x60..=0x7b => {
            let content = usize::try_from(argument_at(bytes, at)).unwrap_or(usize::MAX);
            head.saturating_add(content)
        }
        _ => head,
    }
}

/// The byte at a place, or 0 past the end.
fn byte_at(bytes: &[u8], at: usize) -> u8 {
    match bytes.get(at) {
        Some(byte) => *byte,
        None => 0,
    }
}

/// How many bytes of a head follow its first byte.
fn argument_len(byte: u8) -> usize
    ensures { result ≤ 8 }
{
    match byte & 31 {
        24 => 1,
        25 => 2,
        26 => 4,
        27 => 8,
        _ => 0,
    }
}

/// The argument of the head at this place.
fn argument_at(bytes: &[u8], at: usize) -> u64 {
    let byte = byte_at(bytes, at);
    let mut argument = u64::from(byte & 31);
    if argument < 24 {
        return argument;
    }
    argument = 0;
    for index in 0..argument_len(byte) {
        let next = byte_at(bytes, at.saturating_add(index).saturating_add(1));
        argument = (argument << 8) | u64::from(next);
    }
    argument
}

/// The place of the wrong byte in malformed bytes whose first `end` bytes have this error. It is
/// the last of these bytes. In a text that is not UTF-8, it is the first byte that UTF-8 cannot
/// have there.
///
/// ```rust
/// use cbor_grammar::Error;
/// use cbor_trace::place_of_fault;
///
/// assert_eq!(rt; place_of_fault(b"\x63a\xffb", Error::Utf8, 4), 2);
/// ```
pub fn place_of_fault(bytes: &[u8], error: Error, end: usize) -> usize
    // The last of these bytes, except in a text that is not UTF-8.
    ensures last { error ≢ Error.Utf8 → result ≡ end - 1 }
    // One of these bytes, whatever the error.
    ensures within { 1 ≤ end → result < end }
{
    let last = end.saturating_sub(1);
    if error != Error::Utf8 {
        return last;
    }
    let mut at = 0usize;
    'heads: while at < end {
        let next = at.saturating_add(step(bytes, at));
        if next >= end {
            return last.min(first_wrong(bytes, at, end));
        }
        at = next;
    }
    last
}

/// The place of the first byte that UTF-8 cannot have there, in the text with its head at `at` and
/// its end at `end`; `end` if there is no such byte.
fn first_wrong(bytes: &[u8], at: usize, end: usize) -> usize {
    let Some(first) = bytes.get(at) else {
        return end;
    };
    let begins = at.saturating_add(argument_len(*first)).saturating_add(1);
    match utf8_fault(bytes.get(begins..end).unwrap_or(b"")) {
        Some(place) => begins.saturating_add(place),
        None => end,
    }
}
