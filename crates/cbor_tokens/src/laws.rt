//! States laws of base 64: its alphabets are those of RFC 4648, and digits decode to bytes if and
//! only if they encode these bytes. No code calls these functions.
ghost use Rattle.std.specs.Prelude.{◌≡◌, ℕ, ◌++◌, Bool, true, List, Some};
ghost use Rattle.std.specs.Prelude.{codes};
ghost use Rattle.std.specs.List.{range_with_len};
ghost use Rattle.base64.specs.Engines as engines;
ghost use Rattle.base64.specs.GeneralPurpose.{encode_of};
ghost use Rattle.base64.specs.Tables.{is_alphabet};
ghost use Rattle.cbor_tokens.specs.AreBytes.{AreBytes};
ghost use Rattle.cbor_tokens.specs.Base64.{decoded, encoding, standard, standard_alphabet};
ghost use Rattle.cbor_tokens.specs.Base64.{url_safe};
ghost use Rattle.cbor_tokens.specs.Base64.{url_safe_alphabet};

/// The alphabets of base 64 are those of RFC 4648, tables 1 and 2: `A` to `Z`, `a` to `z`, `0` to
/// `9`, and two more. Each has 64 printable digits, all different, and none of them is `=`. The
/// encodings are those of the engines of the kit's `base64` that the calls decode with.
pub(crate) fn base64_alphabets()
    ensures standard { standard_alphabet ≡ range_with_len 65 26 ++ range_with_len 97 26
        ++ range_with_len 48 10 ++ codes "+/" }
    ensures url_safe { url_safe_alphabet ≡ range_with_len 65 26 ++ range_with_len 97 26
        ++ range_with_len 48 10 ++ codes "-_" }
    ensures standard_digits { is_alphabet standard_alphabet 61 ≡ true }
    ensures url_safe_digits { is_alphabet url_safe_alphabet 61 ≡ true }
    ensures standard_engine { (bytes : List ℕ) → encode_of engines.standard bytes ≡ standard bytes }
    ensures url_safe_engine { (bytes : List ℕ)
        → encode_of engines.url_safe_no_pad bytes ≡ url_safe bytes }
{}

/// Digits of base 64 decode to bytes if and only if they are the encoding of these bytes.
pub(crate) fn base64_decoded()
    ensures found { (url : Bool) (digits bytes : List ℕ) → AreBytes digits
        → decoded url digits ≡ Some bytes → digits ≡ encoding url bytes }
    ensures every { (url : Bool) (bytes : List ℕ) → AreBytes bytes
        → decoded url (encoding url bytes) ≡ Some bytes }
{}
