//! Checks the definitions of tokens, base 32 and base 64 on a few inputs. The checker computes each
//! example, so a wrong definition does not pass. No code calls these functions.
ghost use Rattle.std.specs.Prelude.{◌≡◌, [], ◌∷◌, map, codes, true, false, Some};
ghost use Rattle.std.specs.Prelude.{None, ◌+◌, ◌^◌, List, ℕ};
ghost use Rattle.cbor_tokens.specs.Base32.{base32, base32hex};
ghost use Rattle.cbor_tokens.specs.Base64.{standard, url_safe};
ghost use Rattle.cbor_tokens.specs.Token.{Blank, DigitsBetween, IsLongest, IsNumber, IsSomeNumber};
ghost use Rattle.cbor_tokens.specs.Token.{capped, in_quotes};

/// The test vectors of RFC 4648, section 10.
pub(crate) fn base32_vectors()
    ensures upper { map base32 (codes "" ∷ codes "f" ∷ codes "fo" ∷ codes "foo" ∷ codes "foob"
        ∷ codes "fooba"
        ∷ codes "foobar" ∷ []) ≡ codes "" ∷ codes "MY======" ∷ codes "MZXQ====" ∷ codes "MZXW6==="
        ∷ codes "MZXW6YQ="
        ∷ codes "MZXW6YTB" ∷ codes "MZXW6YTBOI======" ∷ [] }
    ensures hex { map base32hex (codes "" ∷ codes "f" ∷ codes "fo" ∷ codes "foo" ∷ codes "foob"
        ∷ codes "fooba"
        ∷ codes "foobar" ∷ []) ≡ codes "" ∷ codes "CO======" ∷ codes "CPNG====" ∷ codes "CPNMU==="
        ∷ codes "CPNMUOG="
        ∷ codes "CPNMUOJ1" ∷ codes "CPNMUOJ1E8======" ∷ [] }
{}

/// The test vectors of RFC 4648, section 10, and the last two digits of each alphabet.
pub(crate) fn base64_vectors()
    ensures vectors { map standard (codes "" ∷ codes "f" ∷ codes "fo" ∷ codes "foo" ∷ codes "foob"
        ∷ codes "fooba"
        ∷ codes "foobar" ∷ []) ≡ codes "" ∷ codes "Zg==" ∷ codes "Zm8=" ∷ codes "Zm9v"
        ∷ codes "Zm9vYg=="
        ∷ codes "Zm9vYmE=" ∷ codes "Zm9vYmFy" ∷ [] }
    ensures standard { standard (0xfb ∷ 0xff ∷ []) ≡ codes "+/8=" }
    ensures url_safe { url_safe (0xfb ∷ 0xff ∷ []) ≡ codes "-_8" }
{}

/// Blanks are whitespace and closed comments. Comments count only where they are allowed.
pub(crate) fn blanks()
    ensures pieces { Blank true (codes " /x 'y/\n//") }
    ensures empty { Blank false [] }
    ensures open_comment { ¬ (Blank true (codes " /x")) }
    ensures no_comments { ¬ (Blank false (codes "//")) }
{}

/// Numbers in each base, with leading zeros and with indicators. Only 0 to 3 are indicators, and
/// the longest number at the front of a text is taken.
pub(crate) fn numbers()
    ensures zeros { IsNumber (codes "007") 7 None }
    ensures hexadecimal { IsNumber (codes "0x1aF_1") 431 (Some 1) }
    ensures zeros_of_the_indicator { IsNumber (codes "0b11_002") 3 (Some 2) }
    ensures indicator_past_three { ¬ (IsSomeNumber (codes "1_4")) }
    ensures prefix_alone { ¬ (IsSomeNumber (codes "0x")) }
    ensures upper_case_prefix { ¬ (IsSomeNumber (codes "0X1")) }
    ensures digit_of_another_base { ¬ (IsSomeNumber (codes "0o8")) }
    ensures no_indicator { ¬ (IsSomeNumber (codes "1_")) }
    ensures longest { IsLongest IsSomeNumber (codes "1_0") (codes "4") }
    ensures two_to_the_64 { capped (2 ^ 64) ≡ 2 ^ 64 }
    ensures past { capped (2 ^ 64 + 2) ≡ 2 ^ 64 + 1 }
{}

/// Between quotes, only the quote and the backslash are escaped.
pub(crate) fn quoted()
    ensures single { in_quotes 39 (codes "it's \"\\") ≡ codes "it\\'s \"\\\\" }
    ensures double { in_quotes 34 (codes "it's \"\\") ≡ codes "it's \\\"\\\\" }
{}

/// Digits with blanks. A comment may contain a quote. Blanks alone are not content, and neither is
/// a `/` that opens no comment. Without comments, a `/` is a digit.
pub(crate) fn spaced()
    ensures around { DigitsBetween true (codes " 0/'/1 ") (codes "01") }
    ensures empty { DigitsBetween true [] [] }
    ensures slashes { DigitsBetween false (codes "/x/ 0") (codes "/x/0") }
    ensures blanks_alone { (digits : List ℕ) → ¬ (DigitsBetween true (codes " //") digits) }
    ensures open_comment { (digits : List ℕ) → ¬ (DigitsBetween true (codes "0/1") digits) }
    ensures quote { (digits : List ℕ) → ¬ (DigitsBetween false (codes "0'1") digits) }
{}
