//! Finds the first part of a `.regexp` pattern that XSD allows, but the library for regular
//! expressions does not support: a class minus another one, as in `[a-z-[aeiou]]`, or `\i`, `\I`,
//! `\c`, `\C`.

/// A class of characters of XSD with this letter.
fn class_of(letter: u8) -> Option<&'static str> {
    match letter {
        b'i' => Some("\\i"),
        b'I' => Some("\\I"),
        b'c' => Some("\\c"),
        b'C' => Some("\\C"),
        _ => None,
    }
}

/// The first part of a pattern that is not supported: a class without another one, as in
/// `[a-z-[aeiou]]`, or a class of the characters of names, as `\i`.
pub(crate) fn unsupported_part(pattern: &[u8]) -> Option<&'static str> {
    let mut in_class = false;
    let mut before = 0u8;
    let mut escaped = false;
    for byte in pattern {
        if escaped {
            if let Some(class) = class_of(*byte) {
                return Some(class);
            }
            escaped = false;
            before = 0;
            continue;
        }
        match *byte {
            b'\\' => escaped = true,
            b'[' if in_class && before == b'-' => return Some("-["),
            b'[' => in_class = true,
            b']' => in_class = false,
            _ => {}
        }
        before = *byte;
    }
    None
}
