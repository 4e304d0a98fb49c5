//! Checks the definitions in `specs/` on a few inputs: texts of comments, dates, addresses, URLs,
//! names of tags, and lines of dumps. The checker computes each example. No code calls these
//! functions.
ghost use Rattle.std.specs.Prelude.{◌≡◌, [], ◌∷◌, ◌++◌, map, replicate, codes, true, false, Some};
ghost use Rattle.std.specs.Prelude.{None, pos, negsuc, neg_ℤ};
ghost use Rattle.cbor_notes.specs.Address.{ipv4_text, ipv6_text, mac_text};
ghost use Rattle.cbor_notes.specs.Base58.{base58_of};
ghost use Rattle.cbor_notes.specs.Columns.{digits_of};
ghost use Rattle.cbor_tokens.specs.Uncommented.{uncommented};
ghost use Rattle.cbor_notes.specs.DecodedLines.{base64_lines, decoded_lines};
ghost use Rattle.cbor_notes.specs.Identifier.{fields_line, base16_line, base64_line, uuid_lines};
ghost use Rattle.cbor_notes.specs.Layout.{layout, line_text, reach, width_of};
ghost use Rattle.cbor_notes.specs.LayoutExamples.{bare, deep, head, number};
ghost use Rattle.cbor_notes.specs.TagNames.{tag_name};
ghost use Rattle.cbor_notes.specs.Text.{escaped_text, grouped, quoted_bytes};
ghost use Rattle.jiff.specs.Types.{Date};
ghost use Rattle.jiff.specs.Words.{IsYmd, epoch_day};
ghost use Rattle.cbor_notes.specs.Date.{civil_seconds, clock_text, date_text, grouped_signed};
ghost use Rattle.cbor_notes.specs.DateTime.{IsZone, epoch_text, fraction_text};
ghost use Rattle.cbor_notes.specs.Element.{element_size, element_text};
ghost use Rattle.cbor_notes.specs.Url.{is_url};

/// Each leading zero byte is a `1`. The digits of the number that the bytes encode follow, without
/// leading zeros.
pub(crate) fn base58_digits()
    ensures zeros { base58_of (replicate 16 0) ≡ codes "1111111111111111" }
    ensures two_digits { base58_of (replicate 15 0 ++ 58 ∷ []) ≡ codes "11111111111111121" }
{}

/// Seventeen zero bytes are two lines. Blanks fill up the digits of the second line.
pub(crate) fn lines_of_decoded()
    ensures { decoded_lines (replicate 17 0)
        ≡ (codes "00000000000000000000000000000000 # \""
        ++ codes "\\x00\\x00\\x00\\x00\\x00\\x00\\x00\\x00"
        ++ codes "\\x00\\x00\\x00\\x00\\x00\\x00\\x00\\x00\"")
        ∷ codes "00                               # \"\\x00\"" ∷ [] }
{}

/// A text has the lines of the bytes that it encodes in one alphabet, and no lines in the other.
pub(crate) fn lines_of_texts()
    ensures standard { base64_lines false (codes "+/8=")
        ≡ Some (codes "fbff # \"\\xfb\\xff\"" ∷ []) }
    ensures url_safe { base64_lines true (codes "-_8") ≡ Some (codes "fbff # \"\\xfb\\xff\"" ∷ []) }
    ensures other { map (base64_lines true) (codes "+/8=" ∷ codes "-_8=" ∷ codes "-_9" ∷ [])
        ≡ replicate 3 None }
    ensures empty { base64_lines false [] ≡ Some [] }
{}

/// Digits are in groups of three from the right.
pub(crate) fn numbers_in_groups()
    ensures zero { grouped 0 false ≡ codes "0" }
    ensures one_group { grouped 999 false ≡ codes "999" }
    ensures two_groups { grouped 1000 true ≡ codes "-1,000" }
    ensures three_groups { grouped 1234567 true ≡ codes "-1,234,567" }
{}

/// Bytes between quotes, and escaped texts: of U+0000, U+0085, U+00E9 and U+2028, the first two are
/// control characters.
pub(crate) fn escapes()
    ensures bytes { quoted_bytes (0x00 ∷ 0x41 ∷ 0x22 ∷ 0x27 ∷ 0x5c ∷ 0x0a ∷ 0x7f ∷ [])
        ≡ codes "\"\\x00A\\\"\\'\\\\\\n\\x7f\"" }
    ensures text { escaped_text (0 ∷ 0xc2 ∷ 0x85 ∷ 0xc3 ∷ 0xa9 ∷ 0xe2 ∷ 0x80 ∷ 0xa8 ∷ [])
        ≡ codes "\\u{0}\\u{85}" ++ 0xc3 ∷ 0xa9 ∷ 0xe2 ∷ 0x80 ∷ 0xa8 ∷ [] }
{}

/// An IPv4 address of RFC 5737, a MAC address of RFC 7042, and IPv6 addresses in the form of RFC
/// 5952. The longest run of zero groups is `::`, of two equally long runs the first, and a single
/// zero group stays.
pub(crate) fn addresses()
    ensures ipv4 { ipv4_text (192 ∷ 0 ∷ 2 ∷ 1 ∷ []) ≡ codes "192.0.2.1" }
    ensures mac { mac_text (0x00 ∷ 0x00 ∷ 0x5e ∷ 0x00 ∷ 0x53 ∷ 0x01 ∷ [])
        ≡ codes "00:00:5e:00:53:01" }
    ensures longest { ipv6_text (0x20 ∷ 0x01 ∷ 0 ∷ 0 ∷ 0 ∷ 0 ∷ 0 ∷ 0x01 ∷ 0 ∷ 0 ∷ 0 ∷ 0 ∷ 0 ∷ 0 ∷ 0
        ∷ 0x01 ∷ [])
        ≡ codes "2001:0:0:1::1" }
    ensures first { ipv6_text (0x20 ∷ 0x01 ∷ 0x0d ∷ 0xb8 ∷ 0 ∷ 0 ∷ 0 ∷ 0 ∷ 0 ∷ 0x01 ∷ 0 ∷ 0 ∷ 0 ∷ 0
        ∷ 0 ∷ 0x01 ∷ [])
        ≡ codes "2001:db8::1:0:0:1" }
    ensures one_zero { ipv6_text (0x20 ∷ 0x01 ∷ 0x0d ∷ 0xb8 ∷ 0 ∷ 0 ∷ 0 ∷ 0x01 ∷ 0 ∷ 0x01 ∷ 0 ∷ 0x01
        ∷ 0 ∷ 0x01 ∷ 0
        ∷ 0x01 ∷ []) ≡ codes "2001:db8:0:1:1:1:1:1" }
    ensures zeros { ipv6_text (replicate 16 0) ≡ codes "::" }
    ensures mapped { ipv6_text (replicate 10 0 ++ 0xff ∷ 0xff ∷ 192 ∷ 0 ∷ 2 ∷ 1 ∷ [])
        ≡ codes "::ffff:192.0.2.1" }
{}

/// The UUID of sixteen zero bytes, that of sixteen bytes `ff`, and the example of RFC 4122, section
/// 3.
pub(crate) fn identifiers()
    ensures nil { uuid_lines (replicate 16 0) ≡ codes "uuid(variant(NCS), version(0, Nil))"
        ∷ codes "base16(00000000-0000-0000-0000-000000000000)"
        ∷ codes "base58(1111111111111111)" ∷ codes "base64(AAAAAAAAAAAAAAAAAAAAAA)" ∷ [] }
    ensures max { fields_line (replicate 16 0xff)
        ≡ codes "uuid(variant(Future), version(15, Max))" }
    ensures example { fields_line (0xf8 ∷ 0x1d ∷ 0x4f ∷ 0xae ∷ 0x7d ∷ 0xec ∷ 0x11 ∷ 0xd0 ∷ 0xa7
        ∷ 0x65 ∷ 0x00 ∷ 0xa0
        ∷ 0xc9 ∷ 0x1e ∷ 0x6b ∷ 0xf6 ∷ []) ≡ codes "uuid(variant(RFC4122), version(1, Mac))" }
    ensures base16 { base16_line (0xf8 ∷ 0x1d ∷ 0x4f ∷ 0xae ∷ 0x7d ∷ 0xec ∷ 0x11 ∷ 0xd0 ∷ 0xa7
        ∷ 0x65 ∷ 0x00 ∷ 0xa0
        ∷ 0xc9 ∷ 0x1e ∷ 0x6b ∷ 0xf6 ∷ []) ≡ codes "base16(f81d4fae-7dec-11d0-a765-00a0c91e6bf6)" }
    ensures base64 { base64_line (0xf8 ∷ 0x1d ∷ 0x4f ∷ 0xae ∷ 0x7d ∷ 0xec ∷ 0x11 ∷ 0xd0 ∷ 0xa7
        ∷ 0x65 ∷ 0x00 ∷ 0xa0
        ∷ 0xc9 ∷ 0x1e ∷ 0x6b ∷ 0xf6 ∷ []) ≡ codes "base64(+B1Prn3sEdCnZQCgyR5r9g)" }
{}

/// A tag with a note, the lines of an empty string, and no lines. The width is that of the farthest
/// digits, and a line without digits is as wide.
pub(crate) fn laid_out()
    ensures reach { reach number ≡ 5 }
    ensures width { width_of (head ∷ number ∷ bare ∷ []) ≡ 5 }
    ensures note { layout (head ∷ number ∷ bare ∷ [])
        ≡ codes "d8 20 # tag" ++ 10 ∷ codes "   01 #   one" ++ 10 ∷ codes "      #   note"
        ++ 10 ∷ [] }
    ensures first { line_text 9 head ≡ codes "d8 20     # tag" ++ 10 ∷ [] }
    ensures deeper { layout (deep ∷ []) ≡ codes "      ff #     break" ++ 10 ∷ [] }
    ensures bare { layout (bare ∷ []) ≡ codes " #   note" ++ 10 ∷ [] }
    ensures nothing { layout [] ≡ [] }
{}

/// A layout without its comments is the digits.
pub(crate) fn without_comments()
    ensures text { uncommented (layout (head ∷ number ∷ bare ∷ [])) ≡ codes "d82001" }
    ensures digits { digits_of (head ∷ number ∷ bare ∷ []) ≡ codes "d82001" }
{}

/// Tags at the ends of the table and beside its gaps.
pub(crate) fn tag_names()
    ensures first { tag_name 0 ≡ Some (codes "standard datetime string") }
    ensures none { tag_name 6 ≡ None }
    ensures arrays { tag_name 64 ≡ Some (codes "typed array of u8") }
    ensures signed { tag_name 72 ≡ Some (codes "typed array of i8") }
    ensures gap { tag_name 76 ≡ None }
    ensures last_array { tag_name 87 ≡ Some (codes "typed array of f128, little endian") }
    ensures after_arrays { tag_name 88 ≡ None }
    ensures last { tag_name 55799 ≡ Some (codes "self describe cbor") }
    ensures beyond { tag_name 55800 ≡ None }
{}

/// Dates as texts and as days, the first of them the example of RFC 8943, section 1.1, and a time
/// of day.
pub(crate) fn dates()
    ensures text { (date : Date) → IsYmd (pos 1940) (pos 10) (pos 9) date
        → date_text date ≡ codes "1940-10-09" }
    ensures day { (date : Date) → IsYmd (pos 1940) (pos 10) (pos 9) date
        → grouped_signed (epoch_day date) ≡ codes "-10,676" }
    ensures leap_day { (date : Date) → IsYmd (pos 2000) (pos 2) (pos 29) date
        → epoch_day date ≡ pos 11016 }
    ensures before_year_0 { (date : Date) → IsYmd (negsuc 0) (pos 12) (pos 31) date
        → date_text date ≡ codes "-0001-12-31" }
    ensures seconds { (date : Date) → IsYmd (pos 2013) (pos 3) (pos 21) date
        → civil_seconds date 20 4 0 ≡ pos 1363896240 }
    ensures clock { clock_text 20 4 0 ≡ codes "20:04:00" }
{}

/// Offsets from UTC: of clocks ahead of it, and behind it.
pub(crate) fn zones()
    ensures utc { IsZone (codes "z") (pos 0) }
    ensures ahead { IsZone (codes "+01:30") (pos 5400) }
    ensures behind { IsZone (codes "-08:00") (neg_ℤ (pos 28800)) }
    ensures past { ¬ (IsZone (codes "+0130") (pos 5400)) }
{}

/// A fraction takes three, six or nine digits. It is truncated after the ninth, and left out if it
/// is zero.
pub(crate) fn fractions()
    ensures three { epoch_text (negsuc 0) (codes "5") ≡ codes "-1.500" }
    ensures six { fraction_text (codes "0001") ≡ codes ".000100" }
    ensures nine { fraction_text (codes "1234567") ≡ codes ".123456700" }
    ensures cut { fraction_text (codes "1230000009") ≡ codes ".123" }
    ensures zero { fraction_text (codes "0000000009") ≡ [] }
    ensures without { epoch_text (pos 1363896240) [] ≡ codes "1363896240" }
{}

/// The sizes of the table in RFC 8746, section 2.1, the tag 76 that has none, and elements of both
/// orders.
pub(crate) fn elements()
    ensures unsigned_sizes { map element_size (64 ∷ 65 ∷ 66 ∷ 67 ∷ 68 ∷ 69 ∷ 70 ∷ 71 ∷ [])
        ≡ map Some (1 ∷ 2 ∷ 4 ∷ 8 ∷ 1 ∷ 2 ∷ 4 ∷ 8 ∷ []) }
    ensures signed_sizes { map element_size (72 ∷ 73 ∷ 74 ∷ 75 ∷ 77 ∷ 78 ∷ 79 ∷ [])
        ≡ map Some (1 ∷ 2 ∷ 4 ∷ 8 ∷ 2 ∷ 4 ∷ 8 ∷ []) }
    ensures float_sizes { map element_size (80 ∷ 81 ∷ 82 ∷ 83 ∷ 84 ∷ 85 ∷ 86 ∷ 87 ∷ [])
        ≡ map Some (2 ∷ 4 ∷ 8 ∷ 16 ∷ 2 ∷ 4 ∷ 8 ∷ 16 ∷ []) }
    ensures no_sizes { map element_size (63 ∷ 76 ∷ 88 ∷ []) ≡ None ∷ None ∷ None ∷ [] }
    ensures negative { element_text 72 (0xff ∷ []) ≡ Some (codes "signed(-1)") }
    ensures least { element_text 73 (0x80 ∷ 0 ∷ []) ≡ Some (codes "signed(-32,768)") }
    ensures turned { element_text 70 (0xe8 ∷ 3 ∷ 0 ∷ 0 ∷ []) ≡ Some (codes "unsigned(1,000)") }
    ensures float { element_text 84 (0 ∷ 0x3c ∷ []) ≡ Some (codes "float(3c00)") }
    ensures too_long { element_text 64 (1 ∷ 2 ∷ []) ≡ None }
{}

/// A URL needs a scheme.
pub(crate) fn urls()
    ensures absolute { is_url (codes "http://www.example.com") ≡ true }
    ensures relative { is_url (codes "www.example.com") ≡ false }
{}
