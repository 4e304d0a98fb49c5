//! Returns the name of a tag for comments, such as `uri` for tag 32.

ghost use Rattle.std.specs.Prelude.{◌≡◌, Some, None, MatchOption};
ghost use Rattle.cbor_notes.specs.TagNames as spec;

/// Returns the name of a tag, or `None` if it has none here. The tags of RFC 7049 section 2.4 and
/// of RFC 8742, 8746, 8943 and 9164 have names, and so do some of the IANA registry of CBOR tags.
/// docs/NOTES.md has the table. It takes no memory.
///
/// ```rust
/// use cbor_notes::tag_name;
///
/// assert_eq!(rt; tag_name(32), Some("uri"));
/// ```
pub fn tag_name(number: u64) -> Option<&'static str>
    ensures { MatchOption result (spec.tag_name number ≡ None)
        (λ name. spec.tag_name number ≡ Some name.now) }
{
    match number {
        0 => Some("standard datetime string"),
        1 => Some("epoch datetime value"),
        2 => Some("positive bignum"),
        3 => Some("negative bignum"),
        4 => Some("decimal fraction"),
        5 => Some("bigfloat"),
        21 => Some("suggested base64url encoding"),
        22 => Some("suggested base64 encoding"),
        23 => Some("suggested base16 encoding"),
        24 => Some("encoded cbor data item"),
        28 => Some("shareable value"),
        29 => Some("reference to shared value"),
        32 => Some("uri"),
        33 => Some("base64url encoded text"),
        34 => Some("base64 encoded text"),
        35 => Some("regex"),
        36 => Some("mime message"),
        37 => Some("uuid"),
        52 => Some("ipv4 address and/or prefix"),
        54 => Some("ipv6 address and/or prefix"),
        63 => Some("encoded cbor sequence"),
        100 => Some("epoch date value"),
        260 => Some("network address"),
        1004 => Some("standard date string"),
        55799 => Some("self describe cbor"),
        _ => array_name(number),
    }
}

/// The name of the tag of a typed array (RFC 8746 section 2.1).
fn array_name(number: u64) -> Option<&'static str>
    ensures { MatchOption result (spec.array_name number ≡ None)
        (λ name. spec.array_name number ≡ Some name.now) }
{
    match number {
        64 => Some("typed array of u8"),
        65 => Some("typed array of u16, big endian"),
        66 => Some("typed array of u32, big endian"),
        67 => Some("typed array of u64, big endian"),
        68 => Some("typed array of u8, clamped"),
        69 => Some("typed array of u16, little endian"),
        70 => Some("typed array of u32, little endian"),
        71 => Some("typed array of u64, little endian"),
        72 => Some("typed array of i8"),
        73 => Some("typed array of i16, big endian, twos-complement"),
        74 => Some("typed array of i32, big endian, twos-complement"),
        75 => Some("typed array of i64, big endian, twos-complement"),
        77 => Some("typed array of i16, little endian, twos-complement"),
        78 => Some("typed array of i32, little endian, twos-complement"),
        79 => Some("typed array of i64, little endian, twos-complement"),
        80 => Some("typed array of f16, big endian"),
        81 => Some("typed array of f32, big endian"),
        82 => Some("typed array of f64, big endian"),
        83 => Some("typed array of f128, big endian"),
        84 => Some("typed array of f16, little endian"),
        85 => Some("typed array of f32, little endian"),
        86 => Some("typed array of f64, little endian"),
        87 => Some("typed array of f128, little endian"),
        _ => None,
    }
}
