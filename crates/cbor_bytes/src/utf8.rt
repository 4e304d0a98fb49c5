//! Finds where bytes stop being UTF-8 (RFC 3629), and how many of the first bytes form complete
//! characters.
ghost use Rattle.std.specs.Prelude.{◌≡◌, ◌↔◌, ◌+◌, ◌<◌, ◌≤◌, length, take, None, IfSome, IsTrue};
ghost use Rattle.std.specs.Prelude.{IsUtf8};
ghost use Rattle.cbor_bytes.specs.Utf8.{BeginsText, IsUtf8Fault};
ghost use Rattle.cbor_bytes.specs.mirror.Characters.{MayFollow, NoCharFirst};
ghost use Rattle.cbor_bytes.specs.mirror.Scanning.{WholeChars};

/// How many of the first bytes form complete characters.
pub(crate) fn whole_chars(bytes: &[u8]) -> usize
    ensures { WholeChars bytes.now result }
{
    match simdutf8::compat::from_utf8(bytes) {
        Ok(_) => bytes.len(),
        Err(error) => error.valid_up_to(),
    }
}

/// Whether `second` may come after `first` in a character of several bytes.
fn may_follow(first: u8, second: u8) -> bool
    ensures { IsTrue result ↔ MayFollow first second }
{
    let (least, greatest) = match first {
        0xe0 => (0xa0, 0xbf),
        0xed => (0x80, 0x9f),
        0xf0 => (0x90, 0xbf),
        0xf4 => (0x80, 0x8f),
        _ => (0x80, 0xbf),
    };
    least <= second && second <= greatest
}

/// How many of the first bytes begin a character, if they do not begin with a complete one.
fn begun_len(bytes: &[u8]) -> usize
    requires { NoCharFirst bytes.now }
    ensures within { result ≤ length bytes.now }
    ensures begins { BeginsText (take result bytes.now) }
    ensures stops { result < length bytes.now → ¬ (BeginsText (take (result + 1) bytes.now)) }
{
    let [first, ..] = bytes else {
        return 0;
    };
    if *first < 0xc2 || *first > 0xf4 {
        return 0;
    }
    let [_, second, ..] = bytes else {
        return 1;
    };
    if !may_follow(*first, *second) {
        return 1;
    }
    let [_, _, third, ..] = bytes else {
        return 2;
    };
    if *third < 0x80 || *third > 0xbf {
        return 2;
    }
    3
}

/// Finds where bytes stop being UTF-8: the number of bytes before the first byte that UTF-8 cannot
/// have there. It allocates nothing.
///
/// Returns `None` if the bytes are UTF-8. If they end within a character, and are UTF-8 up to it,
/// the place is their end. In a character of several bytes, the place may be after its first byte.
///
/// ```rust
/// use cbor_diag::utf8_fault;
///
/// assert_eq!(rt; utf8_fault(b"a\xffb"), Some(1));
/// assert_eq!(rt; utf8_fault(b"a\xe2\x82b"), Some(3));
/// assert_eq!(rt; utf8_fault(b"a\xe2\x82"), Some(3));
/// assert_eq!(rt; utf8_fault(b"a\xe2\x82\xac"), None);
/// ```
pub fn utf8_fault(bytes: &[u8]) -> Option<usize>
    // The place, or none if and only if the bytes are UTF-8.
    ensures fault { IfSome result (λ place. IsUtf8Fault bytes.now place) }
    ensures none { (result ≡ None) ↔ IsUtf8 bytes.now }
{
    let whole = whole_chars(bytes);
    if whole == bytes.len() {
        return None;
    }
    Some(whole + begun_len(&bytes[whole..]))
}
