//! Reads a number of diagnostic notation: its value, written in base 2, 8, 10 or 16, and its
//! encoding indicator (`_0` to `_3`), if it has one.

ghost use Rattle.std.specs.Prelude.{◌≡◌, ◌++◌, ◌<◌, ◌≤◌, List, ℕ, Option, drop, length, option_map};
ghost use Rattle.std.specs.Prelude.{slice_range, IfNone, IfSome, None, Some};
ghost use Rattle.cbor_tokens.specs.Token.{capped, prefix, radix, IsLongest, IsNumber, IsSomeNumber};
ghost use Rattle.cbor_tokens.specs.TokenReading.{base_of, digit_run, indicator_of, number_of};
ghost use Rattle.cbor_tokens.specs.TokenReading.{small_run};
ghost use Rattle.cbor_tokens.specs.Views.{base_view};

/// The value that is returned for all values past 2^64.
const CAP: u128 = (1 << 64) + 1;

/// A number below this fits in 64 bits with one more digit of any base.
const FITS_ONE_MORE: u64 = 1 << 60;

/// The bases that a number may be written in.
#[derive(Clone, Copy)]
enum Base {
    Decimal,
    /// After `0x`.
    Hexadecimal,
    /// After `0o`.
    Octal,
    /// After `0b`.
    Binary,
}

/// Returns the longest number that begins at `at`: its value, its indicator if it has one, and
/// where it ends. Returns `None` if no number begins there. `at` is at most the length of `text`.
///
/// A number is decimal digits, or `0x`, `0o` or `0b` and digits of that base; hex digits are of
/// either case. The indicator follows: `_` and decimal digits whose value is 0 to 3. Leading zeros
/// are allowed in both. A value past 2^64 is returned as 2^64 + 1, however many digits it has.
///
/// What follows the number does not matter: in `1_4` the number is `1`, and in `0x` it is `0`.
///
/// ```rust
/// use cbor_notes::number_at;
///
/// assert_eq!(rt; number_at(b"0x18_1, 25", 0), Some((24, Some(1), 6)));
/// ```
pub fn number_at(text: &[u8], at: usize) -> Option<(u128, Option<u8>, usize)>
    requires { at ≤ length text.now }
    ensures within { IfSome result (λ found. (at < found.2) × (found.2 ≤ length text.now)) }
    ensures value { IfSome result (λ found. (value : ℕ) × (found.0 ≡ capped value)
        × IsNumber (slice_range text.now at found.2) value found.1) }
    ensures longest { IfSome result (λ found.
        IsLongest IsSomeNumber (slice_range text.now at found.2) (drop found.2 text.now)) }
    ensures none { IfNone result ((front rest : List ℕ) → drop at text.now ≡ front ++ rest
        → ¬ (IsSomeNumber front)) }
    // A text is a number of one value and one indicator at most.
    ensures only { IfSome result (λ found. (value : ℕ) (indicator : Option ℕ)
        → IsNumber (slice_range text.now at found.2) value indicator
        → (found.0 ≡ capped value) × (found.1 ≡ indicator)) }
{
    let (_, rest) = text.split_at(at);
    let (value, indicator, len) = number_front(rest)?;
    Some((value, indicator, at + len))
}

/// Returns the longest number at the front, as [`number_at`] does: its value, its indicator if it
/// has one, and its length.
///
/// ```rust
/// use cbor_notes::number_front;
///
/// assert_eq!(rt; number_front(b"18_1, 25"), Some((18, Some(1), 4)));
/// ```
///
/// [`number_at`]: crate::number_at
pub fn number_front(text: &[u8]) -> Option<(u128, Option<u8>, usize)>
    ensures within { IfSome result (λ found. (0 < found.2) × (found.2 ≤ length text.now)) }
    ensures found { IfSome result (λ found. (value : ℕ) × (found.0 ≡ capped value)
        × (number_of text.now ≡ Some (value, found.1, drop found.2 text.now))) }
    ensures none { IfNone result (number_of text.now ≡ None) }
{
    let base = Base::of(text);
    let start = base.prefix_len();
    let (_, digits) = text.split_at(start);
    let (value, len) = read_digits(digits, base.radix());
    if len == 0 {
        return None;
    }
    let (_, after) = digits.split_at(len);
    match read_indicator(after) {
        Some((indicator, more)) => Some((value, Some(indicator), start + len + more)),
        None => Some((value, None, start + len)),
    }
}

impl Base {
    /// The base of a number at the front: that of its prefix if a digit of that base follows it,
    /// otherwise decimal.
    fn of(text: &[u8]) -> Base
        ensures { base_view result ≡ base_of text.now }
    {
        let [b'0', letter, digit, ..] = text else {
            return Base::Decimal;
        };
        let base = match *letter {
            b'x' => Base::Hexadecimal,
            b'o' => Base::Octal,
            b'b' => Base::Binary,
            _ => return Base::Decimal,
        };
        if char::from(*digit).is_digit(base.radix()) {
            base
        } else {
            Base::Decimal
        }
    }

    /// How many bytes come before the digits.
    fn prefix_len(self) -> usize
        ensures { result ≡ length (prefix (base_view self)) }
    {
        match self {
            Base::Decimal => 0,
            Base::Hexadecimal | Base::Octal | Base::Binary => 2,
        }
    }

    /// How many digits the base has.
    fn radix(self) -> u32
        ensures { result ≡ radix (base_view self) }
    {
        match self {
            Base::Decimal => 10,
            Base::Hexadecimal => 16,
            Base::Octal => 8,
            Base::Binary => 2,
        }
    }
}

/// The value of the digits at the front, and how many they are. A value past 2^64 is 2^64 + 1.
fn read_digits(text: &[u8], radix: u32) -> (u128, usize)
    requires { (2 ≤ radix) × (radix ≤ 16) }
    ensures run { (value : ℕ) × (result.0 ≡ capped value)
        × (digit_run radix 0 text.now ≡ (value, drop result.1 text.now)) }
    ensures within { result.1 ≤ length text.now }
{
    // Most numbers are decimal, and a loop for a radix that is known has less to do for each digit.
    if radix == 10 {
        read_digits_of(text, 10)
    } else {
        read_digits_of(text, radix)
    }
}

/// The same, inlined for one radix. It computes in 64 bits as long as a further digit is sure to
/// fit.
#[inline(always)]
fn read_digits_of(text: &[u8], radix: u32) -> (u128, usize)
    requires { (2 ≤ radix) × (radix ≤ 16) }
    ensures run { (value : ℕ) × (result.0 ≡ capped value)
        × (digit_run radix 0 text.now ≡ (value, drop result.1 text.now)) }
    ensures within { result.1 ≤ length text.now }
{
    let mut value = 0;
    let mut len = 0;
    while len < text.len() && value < FITS_ONE_MORE {
        let Some(digit) = char::from(text[len]).to_digit(radix) else {
            return (u128::from(value), len);
        };
        value = value * u64::from(radix) + u64::from(digit);
        len += 1;
    }
    read_further(text, radix, value, len)
}

/// The value of a number and how many digits it has; its first `start` digits have the value
/// `value`. A value past 2^64 is 2^64 + 1.
#[inline(never)]
fn read_further(text: &[u8], radix: u32, value: u64, start: usize) -> (u128, usize)
    requires radix { (2 ≤ radix) × (radix ≤ 16) }
    requires start { start ≤ length text.now }
    ensures run { (number : ℕ) × (result.0 ≡ capped number)
        × (digit_run radix value (drop start text.now) ≡ (number, drop result.1 text.now)) }
    ensures within { result.1 ≤ length text.now }
{
    let mut number = u128::from(value);
    let mut len = start;
    while len < text.len() {
        let Some(digit) = char::from(text[len]).to_digit(radix) else {
            break;
        };
        number = (number * u128::from(radix) + u128::from(digit)).min(CAP);
        len += 1;
    }
    (number, len)
}

/// The longest indicator at the front, and its length. An indicator begins with `_`.
fn read_indicator(text: &[u8]) -> Option<(u8, usize)>
    ensures gives { option_map (λ x. (x.0, drop x.1 text.now)) result ≡ indicator_of text.now }
    ensures within { IfSome result (λ x. x.1 ≤ length text.now) }
{
    let [b'_', digits @ ..] = text else {
        return None;
    };
    let (indicator, len) = read_small(digits);
    if len == 0 {
        None
    } else {
        Some((indicator, 1 + len))
    }
}

/// Reads decimal digits at the front as long as their value is at most 3. Returns the value, and
/// how many digits were read.
fn read_small(text: &[u8]) -> (u8, usize)
    ensures run { small_run 0 text.now ≡ (result.0, drop result.1 text.now) }
    ensures within { result.1 ≤ length text.now }
{
    let mut value = 0;
    let mut len = 0;
    while len < text.len() && text[len].is_ascii_digit() {
        let next = value * 10 + (text[len] - b'0');
        if next > 3 {
            break;
        }
        value = next;
        len += 1;
    }
    (value, len)
}
